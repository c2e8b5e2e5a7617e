//! Lines of bounded length.

ghost use Rattle.std.specs.Prelude.{◌≡◌, ◌≤◌, ◌++◌, IfOk, OnOk, length, take};
ghost use Rattle.std.specs.Io.Buffered.{reader_buffer, reader_remaining};
ghost use Rattle.std.specs.Io.KnownBytes.{Consumes};
ghost use Rattle.simplex_program.specs.Line.{without_feed, ReadsText, ReadsNextLine, GivesByte, FindsFeed, MovesPart};

use memchr::memchr;
use std::io::{BufRead, BufReader, Read};
use std::{io, str};

/// The most bytes of a line, without its line feed.
pub(crate) const LONGEST_LINE: usize = 200;

/// Reads the next line, with its line feed, into `line`, and replaces its contents. Of a line longer than
/// `LONGEST_LINE` it reads only the first bytes, which show that the line is too long. Returns whether there was a
/// line. The last one may have no line feed. An interrupted read is tried again.
pub(crate) fn read_line<R: Read + Drop>(
    reader: &mut BufReader<R>,
    line: &mut Vec<u8>,
) -> io::Result<bool>
    ensures { IfOk result (λ there. ReadsNextLine there (reader_remaining R.remaining reader.old) line.new.items
        (reader_remaining R.remaining reader.new)) }
{
    line.clear();
    for _part in 0..LONGEST_LINE + 1 {
        let Some(byte) = next_byte(reader)? else {
            return Ok(!line.is_empty());
        };
        line.push(byte)?;
        if byte == b'\n' {
            return Ok(true);
        }
        if take_buffered(reader, line)? {
            return Ok(true);
        }
    }
    Ok(true)
}

/// Moves the line's bytes in the buffer to a line. Returns whether the line ends there: with its line feed, or because
/// its bytes show that it is too long.
fn take_buffered<R: Read + Drop>(reader: &mut BufReader<R>, line: &mut Vec<u8>) -> io::Result<bool>
    ensures { IfOk result (λ ended.
        MovesPart ended line.old.items line.new.items (reader_remaining R.remaining reader.old)
        (reader_remaining R.remaining reader.new)) }
{
    let room = (LONGEST_LINE + 1).saturating_sub(line.len());
    let most = room.min(reader.buffer().len());
    match feed_in(&reader.buffer()[..most]) {
        Some(place) => {
            move_buffered(reader, line, place + 1)?;
            Ok(true)
        }
        None => {
            move_buffered(reader, line, most)?;
            Ok(line.len() > LONGEST_LINE)
        }
    }
}

/// Returns the place of the first line feed.
fn feed_in(bytes: &[u8]) -> Option<usize>
    ensures { FindsFeed bytes.now result }
{
    memchr(b'\n', bytes)
}

/// Moves `count` bytes of the buffer to a line.
fn move_buffered<R: Read + Drop>(
    reader: &mut BufReader<R>,
    line: &mut Vec<u8>,
    count: usize,
) -> io::Result<()>
    requires { count ≤ length (reader_buffer reader.old) }
    ensures line { OnOk result (line.new.items ≡ line.old.items ++ take count (reader_buffer reader.old)) }
    ensures reader { OnOk result
        (Consumes (reader_remaining R.remaining reader.old) (reader_remaining R.remaining reader.new)
        (take count (reader_buffer reader.old))) }
{
    line.extend_from_slice(&reader.buffer()[..count])?;
    reader.consume(count);
    Ok(())
}

/// Returns the next byte, if there is one.
fn next_byte<R: Read + Drop>(reader: &mut R) -> io::Result<Option<u8>>
    ensures { IfOk result (GivesByte (R.remaining reader.old) (R.remaining reader.new)) }
{
    let mut bytes = [0u8];
    for _try in 0..u64::MAX {
        match reader.read(&mut bytes) {
            Ok(0) => return Ok(None),
            Ok(_) => return Ok(Some(bytes[0])),
            Err(error) if error.kind() == io::ErrorKind::Interrupted => {}
            Err(error) => return Err(error),
        }
    }
    Err(io::Error::from(io::ErrorKind::Interrupted))
}

/// Returns the text of a line, unless it is too long or not UTF-8.
pub(crate) fn line_text(line: &[u8]) -> Option<&str>
    ensures { ReadsText line.now result }
{
    let bytes = without_feed(line);
    if bytes.len() > LONGEST_LINE {
        return None;
    }
    str::from_utf8(bytes).ok()
}

/// Returns the line without its line feed, if it has one.
fn without_feed(line: &[u8]) -> &[u8]
    ensures { result.now ≡ without_feed line.now }
{
    match line.split_last() {
        Some((last, bytes)) if *last == b'\n' => bytes,
        _ => line,
    }
}
