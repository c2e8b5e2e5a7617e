//! Serves lines of calls.

ghost use Rattle.std.specs.Io.Buffered.{reader_remaining};
ghost use Rattle.simplex_program.specs.Mode.{IsServed};
ghost use Rattle.simplex_program.specs.Session.{asked_of};
ghost use Rattle.simplex_program.specs.Transcript.{Transcribes, Advances};

use crate::line_reader::{LONGEST_LINE, line_text, read_line};
use crate::line_writer::write_line;
pub use crate::mode::Mode;
pub use crate::serve_error::ServeError;
use crate::session::Session;
use std::alloc::Global;
use std::io::{BufReader, Read, Write};

/// Writes a reply line for each line of the reader, before it reads the next. It asks for a mode that `Mode::read` can
/// return.
///
/// It ends at the first of these:
///
/// - the end of the reader, or 2^64 - 2 lines;
/// - a line that is no call;
/// - a read or a write that fails;
/// - out of memory.
///
/// It wrote the replies of the lines before, whole and in order. Only if a write failed, a prefix of one more reply may
/// follow.
pub fn serve<R: Read + Drop, W: Write + Drop>(
    alloc: Global,
    mode: Mode,
    reader: R,
    writer: &mut W,
) -> Result<(), ServeError>
    requires { IsServed mode }
    ensures { Transcribes mode (R.remaining reader) (W.contents writer.old) result (W.contents writer.new) }
{
    let Ok(mut reader) = BufReader::new(alloc, reader) else {
        return Err(ServeError::OutOfMemory);
    };
    let Ok(mut session) = Session::start(alloc, mode) else {
        return Err(ServeError::OutOfMemory);
    };
    let Ok(line) = Vec::with_capacity(alloc, LONGEST_LINE + 1) else {
        return Err(ServeError::OutOfMemory);
    };
    let mut room = Room {
        line,
        reply: String::new(alloc),
    };
    for number in 1..u64::MAX {
        if !answer_line(&mut session, alloc, number, &mut reader, &mut room, writer)? {
            return Ok(());
        }
    }
    Ok(())
}

/// The buffers for a line and its reply.
#[derive(Drop)]
struct Room {
    line: Vec<u8>,
    reply: String,
}

/// Replies to the next line, which has this number. Returns whether there was one.
fn answer_line<R: Read + Drop, W: Write + Drop>(
    session: &mut Session,
    alloc: Global,
    number: u64,
    reader: &mut BufReader<R>,
    room: &mut Room,
    writer: &mut W,
) -> Result<bool, ServeError>
    ensures { Advances (record {
      asked = asked_of session.old;
      left = reader_remaining R.remaining reader.old;
      held = W.contents writer.old;
    })
        number result (record {
          asked = asked_of session.new;
          left = reader_remaining R.remaining reader.new;
          held = W.contents writer.new;
        }) }
{
    let Ok(found) = read_line(reader, &mut room.line) else {
        return Err(ServeError::Read);
    };
    if !found {
        return Ok(false);
    }
    let Some(text) = line_text(&room.line) else {
        return Err(ServeError::NotACall(number));
    };
    session.reply_to(alloc, number, text, &mut room.reply)?;
    match write_line(writer, room.reply.as_bytes()) {
        Ok(()) => Ok(true),
        Err(_) => Err(ServeError::Write),
    }
}
