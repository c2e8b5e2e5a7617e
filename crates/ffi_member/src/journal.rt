//! A record's entries in the bytes of a journal: frames, one after the other.

ghost use Rattle.std.specs.Prelude.{◌≡◌, ◌++◌, ◌<◌, ◌≤◌, ◌^◌, IfOk, IfErr, OnOk, MatchOption, length};
ghost use Rattle.std.specs.List.{All};
ghost use Rattle.simplex_codec.specs.Frames.{frame, HasNoFrame};
ghost use Rattle.ffi_member.specs.Journals.{BeginsWithFrame, FitsFrame, IsEnding, IsNotRead, IsNotWritten, IsScan, StandsAlone, entry_bytes, framed};
ghost use Rattle.ffi_member.specs.declared.journal.NotRead.TheVariants.{Damaged};
ghost use Rattle.ffi_member.specs.declared.journal.NotWritten.TheVariants.{TooLong};

use crate::view_types::FlatScan;
use bytes::BytesMut;
use ffi_scheme::scheme::{HostDigest, HostScheme};
use simplex_codec::artifact::{decode_artifact, encode_artifact};
use simplex_codec::error::DecodeError;
use simplex_codec::frame::{NoFrame, read_frame, write_frame};
use simplex_types::types::Artifact;
use std::alloc::{AllocError, AllocFailed, Global};

/// An entry of a record of a member of the host.
pub type HostArtifact = Artifact<HostScheme, HostDigest>;

/// Why entries are not written.
#[derive(Clone, Copy, PartialEq, Eq, Debug)]
pub enum NotWritten {
    OutOfMemory,
    /// An entry has 2^32 bytes or more, and no frame can hold it.
    TooLong,
}

impl From<AllocError> for NotWritten {
    ghost use Rattle.std.specs.Prelude.{◌≡◌};
    ghost use Rattle.ffi_member.specs.declared.journal.NotWritten.TheVariants.{OutOfMemory};

    ghost from_gives = { λ _ error. error ≡ OutOfMemory };

    fn from(_refused: AllocError) -> NotWritten {
        NotWritten::OutOfMemory
    }
}

/// Why bytes are not the entries of a record, and where: how many bytes before that place are whole entries.
#[derive(Clone, Copy, PartialEq, Eq, Debug)]
pub enum NotRead {
    OutOfMemory,
    /// No frame is there: it was cut, or bytes of it were changed.
    Damaged(usize),
    /// The frame there holds no entry.
    NoEntry(usize, DecodeError),
}

impl From<AllocError> for NotRead {
    ghost use Rattle.std.specs.Prelude.{◌≡◌};
    ghost use Rattle.ffi_member.specs.declared.journal.NotRead.TheVariants.{OutOfMemory};

    ghost from_gives = { λ _ error. error ≡ OutOfMemory };

    fn from(_refused: AllocError) -> NotRead {
        NotRead::OutOfMemory
    }
}

impl<V: Drop> From<AllocFailed<V>> for NotRead {
    ghost use Rattle.std.specs.Prelude.{◌≡◌};
    ghost use Rattle.ffi_member.specs.declared.journal.NotRead.TheVariants.{OutOfMemory};

    ghost from_gives = { λ _ error. error ≡ OutOfMemory };

    fn from(_refused: AllocFailed<V>) -> NotRead {
        NotRead::OutOfMemory
    }
}

/// Appends the entries as frames to the bytes of `out`.
pub fn write_entries(
    alloc: Global,
    out: &mut BytesMut,
    entries: &[HostArtifact],
) -> Result<(), NotWritten>
    ensures written { OnOk result (out.new.items ≡ out.old.items ++ framed entries.now) }
    ensures fits { OnOk result (All FitsFrame entries.now) }
    ensures refused { IfErr result (IsNotWritten entries.now) }
{
    for entry in entries {
        write_entry(alloc, out, entry)?;
    }
    Ok(())
}

/// Appends an entry as a frame to the bytes of `out`.
fn write_entry(alloc: Global, out: &mut BytesMut, entry: &HostArtifact) -> Result<(), NotWritten>
    ensures written { OnOk result (out.new.items ≡ out.old.items ++ frame (entry_bytes entry.now)) }
    ensures fits { OnOk result (FitsFrame entry.now) }
    ensures refused { IfErr result (λ error. error ≡ TooLong → 2 ^ 32 ≤ length (entry_bytes entry.now)) }
{
    let bytes = encode_artifact(alloc, entry)?;
    if bytes.len() > u32::MAX as usize {
        return Err(NotWritten::TooLong);
    }
    write_frame(out, bytes.as_slice())?;
    Ok(())
}

/// Returns the entries whose frames the bytes are.
pub fn read_entries(alloc: Global, journal: &[u8]) -> Result<Vec<HostArtifact>, NotRead>
    ensures read { IfOk result (λ entries. journal.now ≡ framed entries.items) }
    ensures refused { IfErr result (IsNotRead journal.now) }
{
    let mut entries = Vec::new(alloc);
    let mut left = journal;
    while !left.is_empty() {
        let at = journal.len() - left.len();
        let (entry, behind) = entry_at(left, at)?;
        match decode_artifact::<HostScheme, HostDigest>(alloc, entry) {
            Ok(artifact) => entries.push(artifact)?,
            Err(DecodeError::OutOfMemory) => return Err(NotRead::OutOfMemory),
            Err(error) => return Err(NotRead::NoEntry(at, error)),
        }
        left = behind;
    }
    Ok(entries)
}

/// Returns the entry in the frame at the front, and the bytes after it.
fn entry_at(left: &[u8], at: usize) -> Result<(&[u8], &[u8]), NotRead>
    requires { 0 < length left.now }
    ensures read { IfOk result (λ x. left.now ≡ frame x.0.now ++ x.1.now) }
    ensures refused { IfErr result (λ error. (error ≡ Damaged at) × HasNoFrame left.now) }
{
    match read_frame(left) {
        Ok(Some(next)) => Ok(next),
        Ok(None) | Err(_) => Err(NotRead::Damaged(at)),
    }
}

/// Returns how many whole frames a journal has, and how it ends.
pub fn scan(journal: &[u8]) -> FlatScan
    ensures { IsScan journal.now result }
{
    let mut entries = 0;
    let mut left = journal;
    while let Some(behind) = behind_frame(left) {
        entries += 1;
        left = behind;
    }
    FlatScan {
        entries,
        bytes: (journal.len() - left.len()) as u64,
        ending: ending_of(left),
        reserved: 0,
    }
}

/// Returns the bytes after the frame at the front, if one is there.
fn behind_frame(bytes: &[u8]) -> Option<&[u8]>
    ensures { MatchOption result (StandsAlone bytes.now) (λ rest. BeginsWithFrame bytes.now rest.now) }
{
    match read_frame(bytes) {
        Ok(Some((_, rest))) => Some(rest),
        Ok(None) | Err(_) => None,
    }
}

/// Returns how a journal ends, from the bytes after its whole frames.
fn ending_of(left: &[u8]) -> u32
    requires { StandsAlone left.now }
    ensures { IsEnding left.now result }
{
    match read_frame(left) {
        Ok(_) => 0,
        Err(NoFrame::Cut) => 1,
        Err(NoFrame::Damaged) => 2,
    }
}
