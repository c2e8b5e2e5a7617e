//! Entries of a journal, one after another, each framed by its length, which checks itself, and its digest.

ghost use Rattle.std.specs.Prelude.{◌≡◌, ◌<◌, ◌^◌, ◌++◌, length, OnOk, IfOk, OnErr, IfErr, IfSome, MatchOption};
ghost use Rattle.simplex_codec.specs.Frames.{header, frame, HasNoFrame, IsFrameRefusal, IsOff, IsOffHeader, FramesTellApart, CutsTellApart};

use crate::parts::take_u32;
use bytes::{BufMut, BytesMut};
use sha2::{Digest, Sha256};
use std::alloc::AllocError;
use std::error::Error;
use std::fmt;

/// Why bytes do not begin with a frame.
#[derive(Clone, Copy, PartialEq, Eq, Debug)]
pub enum NoFrame {
    /// The bytes are the first of a frame: it was cut, or not written to its end.
    Cut,
    /// No frame begins like this: bytes of it were changed.
    Damaged,
}

impl fmt::Display for NoFrame {
    ghost use Rattle.std.specs.Prelude.{Some};
    ghost use Rattle.simplex_codec.specs.Texts.{no_frame_text};

    ghost output = { λ f. Some (no_frame_text f) };

    fn fmt<W: fmt::Write>(&self, f: &mut fmt::Formatter<W>) -> fmt::Result {
        match self {
            NoFrame::Cut => write!(f, "the frame is cut"),
            NoFrame::Damaged => write!(f, "the frame is damaged"),
        }
    }
}

impl Error for NoFrame {}

/// Writes the entry in a frame after the bytes of `out`. The only error is that memory ran out.
pub fn write_frame(out: &mut BytesMut, entry: &[u8]) -> Result<(), AllocError>
    requires { length entry.now < 2 ^ 32 }
    ensures { OnOk result (out.new.items ≡ out.old.items ++ frame entry.now) }
{
    put_header(out, entry.len() as u32)?;
    out.put_slice(entry)?;
    let digest = Sha256::digest(entry);
    out.put_slice(digest.as_slice())?;
    Ok(())
}

fn put_header(out: &mut BytesMut, len: u32) -> Result<(), AllocError>
    ensures { OnOk result (out.new.items ≡ out.old.items ++ header len) }
{
    out.put_u32(len)?;
    out.put_u32(u32::MAX - len)?;
    Ok(())
}

/// Returns the entry at the front and the bytes after its frame; `None` at the end of the bytes.
///
/// It is refused exactly if there are bytes and no frame is at their front: as `Cut` exactly if they end within a
/// frame. Nothing is copied.
pub fn read_frame(bytes: &[u8]) -> Result<Option<(&[u8], &[u8])>, NoFrame>
    ensures read { IfOk result
        (λ next. MatchOption next (length bytes.now ≡ 0) (λ x. bytes.now ≡ frame x.0.now ++ x.1.now)) }
    ensures fits { IfOk result (λ next. IfSome next (λ x. length x.0.now < 2 ^ 32)) }
    ensures some { OnErr result (0 < length bytes.now) }
    ensures none { OnErr result (HasNoFrame bytes.now) }
    ensures refused { IfErr result (IsFrameRefusal bytes.now) }
{
    if bytes.is_empty() {
        return Ok(None);
    }
    let (len, rest) = take_header(bytes)?;
    let Some((entry, rest)) = rest.split_at_checked(len as usize) else {
        return Err(NoFrame::Cut);
    };
    let digest = Sha256::digest(entry);
    let behind = strip_front(rest, digest.as_slice())?;
    Ok(Some((entry, behind)))
}

/// The length that a header at the front names, and the bytes after it.
fn take_header(bytes: &[u8]) -> Result<(u32, &[u8]), NoFrame>
    ensures read { IfOk result (λ x. bytes.now ≡ header x.0 ++ x.1.now) }
    ensures fits { IfOk result (λ x. x.0 < 2 ^ 32) }
    ensures refused { IfErr result (IsOffHeader bytes.now) }
{
    let Some((len, rest)) = take_u32(bytes) else {
        return Err(NoFrame::Cut);
    };
    let check = (u32::MAX - len).to_be_bytes();
    let rest = strip_front(rest, &check)?;
    Ok((len, rest))
}

/// The bytes after a front; if they don't begin with it, whether they end within it.
fn strip_front<'a>(bytes: &'a [u8], front: &[u8]) -> Result<&'a [u8], NoFrame>
    ensures read { IfOk result (λ rest. bytes.now ≡ front.now ++ rest.now) }
    ensures refused { IfErr result (IsOff bytes.now front.now) }
{
    match bytes.strip_prefix(front) {
        Some(rest) => Ok(rest),
        None if front.starts_with(bytes) => Err(NoFrame::Cut),
        None => Err(NoFrame::Damaged),
    }
}

/// Bytes that begin with a frame begin with exactly one, so what was written is what is read.
///
/// The function does nothing: its contract is the law.
pub fn frames_tell_apart()
    ensures { FramesTellApart }
{}

/// A frame that lost its end is cut, and one that was changed is not. This holds for any bytes in place of its entry
/// and digest, and in its header unless its halves still belong together.
///
/// The function does nothing: its contract is the law.
pub fn cuts_tell_apart()
    ensures { CutsTellApart }
{}
