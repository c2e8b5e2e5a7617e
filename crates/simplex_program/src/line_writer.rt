//! Replies, written whole.

ghost use Rattle.std.specs.Prelude.{MatchResult};
ghost use Rattle.std.specs.Io.KnownBytes.{Appends};
ghost use Rattle.simplex_program.specs.Transcript.{AppendsFront};

use std::io;
use std::io::Write;

/// Writes all the bytes and has them flushed. An interrupted write is tried again. After an error only a prefix of the
/// bytes is written.
pub(crate) fn write_line<W: Write + Drop>(writer: &mut W, bytes: &[u8]) -> io::Result<()>
    ensures { MatchResult result
        (λ _. Appends (W.contents writer.old) (W.contents writer.new) bytes.now)
        (λ _. AppendsFront (W.contents writer.old) (W.contents writer.new) bytes.now) }
{
    let mut rest = bytes;
    for _try in 0..u64::MAX {
        if rest.is_empty() {
            writer.flush()?;
            return Ok(());
        }
        match writer.write(rest) {
            Ok(0) => return Err(io::Error::from(io::ErrorKind::WriteZero)),
            Ok(count) => rest = &rest[count..],
            Err(error) if error.kind() == io::ErrorKind::Interrupted => {}
            Err(error) => return Err(error),
        }
    }
    Err(io::Error::from(io::ErrorKind::Interrupted))
}
