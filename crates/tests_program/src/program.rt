//! Scripts, texts and statuses, and readers and writers that fail.

ghost use Rattle.std.specs.Prelude.{IfOk, IfSome};
ghost use Rattle.simplex_program.specs.Mode.{IsServed};

mod builds;
mod lives;
mod misuses;
mod offers;
mod proposals;
mod refused;
mod repair;
mod resolver;
mod script;
mod settings;
mod timeouts;
mod views;

use misuses::MISUSES;
use script::{Parts, Script, are_wanted};
use simplex_program::mode::Mode;
use simplex_program::program::{ServeError, serve};
use std::alloc::{AllocError, Global};
use std::io;
use std::io::{Read, Write};
use std::test::Fail;

/// Reads one byte at a time, and fails once it has no reads left.
#[derive(Drop)]
struct FailingReader<'a> {
    bytes: &'a [u8],
    reads_left: usize,
}

impl<'a> Read for FailingReader<'a> {
    fn read(&mut self, buf: &mut [u8]) -> io::Result<usize> {
        if self.reads_left == 0 {
            return Err(io::Error::from(io::ErrorKind::Other));
        }
        self.reads_left -= 1;
        let Some((first, others)) = self.bytes.split_first() else {
            return Ok(0);
        };
        let Some(place) = buf.first_mut() else {
            return Ok(0);
        };
        *place = *first;
        self.bytes = others;
        Ok(1)
    }
}

/// Stores what it receives, and fails once it has no room left.
#[derive(Drop)]
struct FailingWriter {
    written: Vec<u8>,
    room: usize,
}

impl Write for FailingWriter {
    fn write(&mut self, buf: &[u8]) -> io::Result<usize> {
        let count = buf.len().min(self.room);
        if count == 0 {
            return Err(io::Error::from(io::ErrorKind::Other));
        }
        self.written.extend_from_slice(&buf[..count])?;
        self.room -= count;
        Ok(count)
    }

    fn flush(&mut self) -> io::Result<()> {
        Ok(())
    }
}

/// Returns the mode of a command line.
fn mode_of(alloc: Global, line: &str) -> Result<Option<Mode>, AllocError>
    ensures { IfOk result (λ mode. IfSome mode IsServed) }
{
    let mut words = Vec::new(alloc);
    for word in line.split(' ').skip(1) {
        words.push(String::from_str(alloc, word)?)?;
    }
    Ok(Mode::read(&words))
}

/// Returns what serving writes, and how it ends.
fn run(
    alloc: Global,
    mode: Mode,
    input: &str,
) -> Result<(String, Result<(), ServeError>), AllocError>
    requires { IsServed mode }
{
    let mut output = Vec::new(alloc);
    let ended = serve(alloc, mode, input.as_bytes(), &mut output);
    let text = String::from_utf8(output).map_err(|_| AllocError)?;
    Ok((text, ended))
}

/// Returns whether serving an input writes exactly this, and ends as expected.
fn is_answered(
    alloc: Global,
    mode: Mode,
    input: &str,
    wanted: &str,
    end: Result<(), ServeError>,
) -> Result<bool, AllocError>
    requires { IsServed mode }
{
    let (output, ended) = run(alloc, mode, input)?;
    Ok(output.as_str() == wanted && ended == end)
}

/// Returns whether serving an input writes nothing, since its first line is no call.
fn is_refused(alloc: Global, mode: Mode, input: &str) -> Result<bool, AllocError>
    requires { IsServed mode }
{
    is_answered(alloc, mode, input, "", Err(ServeError::NotACall(1)))
}

/// Returns the first line that is served, if one is.
fn first_served<'a>(
    alloc: Global,
    mode: Mode,
    lines: &[&'a str],
) -> Result<Option<&'a str>, AllocError>
    requires { IsServed mode }
{
    for line in lines {
        if !is_refused(alloc, mode, line)? {
            return Ok(Some(*line));
        }
    }
    Ok(None)
}

/// Returns the scripts of all tables.
fn scripts(alloc: Global) -> Result<Vec<Script>, AllocError> {
    let mut scripts = Vec::new(alloc);
    scripts.extend_from_slice(&views::VIEWS)?;
    scripts.extend_from_slice(&proposals::PROPOSALS)?;
    scripts.extend_from_slice(&builds::BUILDS)?;
    scripts.extend_from_slice(&offers::OFFERS)?;
    scripts.extend_from_slice(&timeouts::TIMEOUTS)?;
    scripts.extend_from_slice(&lives::LIVES)?;
    scripts.extend_from_slice(&settings::SETTINGS)?;
    scripts.extend_from_slice(&resolver::RESOLVER)?;
    scripts.extend_from_slice(&repair::REPAIR)?;
    scripts.extend_from_slice(&refused::REFUSED)?;
    Ok(scripts)
}

/// Returns the replies to a script's lines, if they are not what the script expects.
fn other_replies(alloc: Global, script: &Script) -> Result<Option<String>, Fail> {
    let mode = mode_of(alloc, script.command)?.ok_or(script.shows)?;
    let parts = script.parts(alloc)?;
    let (output, ended) = run(alloc, mode, parts.input.as_str())?;
    if ended == parts.ends && are_wanted(output.as_str(), parts.output.as_str()) {
        return Ok(None);
    }
    Ok(Some(output))
}

#[test]
fn each_line_has_its_reply(rt: HostRuntime) -> Result<(), Fail> {
    for script in &scripts(rt.alloc())? {
        if let Some(output) = other_replies(rt.alloc(), script)? {
            panic!(rt; "{}\n{}", script.shows, output.as_str());
        }
    }
    Ok(())
}

/// Command lines that ask for a mode, each with lines and replies that show its settings: the length of terms, and
/// whether there is a key.
static MODES: [(&str, &str, &str); 4] = [
    (
        "viewstate resolver 1",
        "replayed\nnullification 2\n",
        "-\nsettled nullification 2 2; fetch 1 2 missing_nullification\n",
    ),
    (
        "viewstate resolver 4294967295",
        "nullification 4294967296\n",
        "settled nullification 4294967296 8589934590\n",
    ),
    (
        "viewstate voter 4 - 5 18446744073709551615",
        "nullify 1\nnullification 1 5\nview\n",
        "none\nadded true\nview 6 0 0\n",
    ),
    (
        "viewstate voter 1000 999 4294967295 0",
        "nullify 1\nnullification 1 5\nview\n",
        "nullify 1 false\nadded true\nview 4294967296 0 0\n",
    ),
];

#[test]
fn modes(rt: HostRuntime) -> Result<(), Fail> {
    for (command, lines, replies) in &MODES {
        let mode = mode_of(rt.alloc(), command)?.ok_or(*command)?;
        let are_given = is_answered(rt.alloc(), mode, lines, replies, Ok(()))?;
        assert!(rt; are_given, "{command}");
    }
    Ok(())
}

#[test]
fn misused_commands(rt: HostRuntime) -> Result<(), Fail> {
    for (shows, command) in &MISUSES {
        assert!(rt; mode_of(rt.alloc(), command)?.is_none(), "{shows}");
    }
    Ok(())
}

/// Lines that are no call of a resolver.
static REFUSED_BY_A_RESOLVER: [&str; 16] = [
    "\n",
    " replayed\n",
    "replayed \n",
    "replayd\n",
    "replayed\r\n",
    "Replayed\n",
    "notarization\n",
    "notarization 01\n",
    "notarization +1\n",
    "notarization -1\n",
    "notarization 1 2\n",
    "notarization  1\n",
    "notarization\t1\n",
    "notarization 18446744073709551616\n",
    "certified 1 yes\n",
    "settled 1 finalization\n",
];

#[test]
fn refused_lines(rt: HostRuntime) -> Result<(), Fail> {
    let mode = mode_of(rt.alloc(), "viewstate resolver 1")?.ok_or("no mode")?;
    assert_eq!(rt;
        first_served(rt.alloc(), mode, &REFUSED_BY_A_RESOLVER)?,
        None
    );
    let holds = is_answered(
        rt.alloc(),
        mode,
        "outstanding\n\noutstanding\n",
        "outstanding\n",
        Err(ServeError::NotACall(2)),
    )?;
    assert!(rt; holds);
    Ok(())
}

/// The names of the reasons.
static REASONS: [&str; 10] = [
    "Retry",
    "Inactivity",
    "LeaderNullify",
    "LeaderTimeout",
    "CertificationTimeout",
    "StallTimeout",
    "MissingProposal",
    "IgnoredProposal",
    "InvalidProposal",
    "FailedCertification",
];

/// Returns whether a timeout that is triggered for a reason is reported with it.
fn is_told(alloc: Global, mode: Mode, reason: &str) -> Result<bool, Fail>
    requires { IsServed mode }
{
    let input = format!(in alloc; "trigger 1 {reason} 5\ntimeout 8\n")?;
    let wanted = format!(in alloc; "ok\ntimeout 5 {reason}\n")?;
    Ok(is_answered(alloc, mode, input.as_str(), wanted.as_str(), Ok(()))?)
}

#[test]
fn reasons_of_timeouts(rt: HostRuntime) -> Result<(), Fail> {
    let mode = mode_of(rt.alloc(), "viewstate voter 4 0 1 0")?.ok_or("no mode")?;
    for reason in &REASONS {
        assert!(rt; is_told(rt.alloc(), mode, reason)?, "{reason}");
    }
    Ok(())
}

/// Lines that are no call of a voter.
static REFUSED_BY_A_VOTER: [&str; 22] = [
    "trigger 1 Timeout 5\n",
    "trigger 1 retry 5\n",
    "trigger 1 Retry\n",
    "trigger Retry 1 5\n",
    "timeout\n",
    "timeout 1 2\n",
    "timeout 01\n",
    "proposal 1 0\n",
    "proposal 1 0 7 8\n",
    "release\n",
    "propose 1\n",
    "proposed 1 7\n",
    "proposed 1 7 5 6\n",
    "supersede\n",
    "abandon 1 2\n",
    "verify 1\n",
    "verified\n",
    "rejected 1\n",
    "candidates 1\n",
    "token 1\n",
    "notarize\n",
    "notarise 1\n",
];

#[test]
fn refused_lines_of_a_voter(rt: HostRuntime) -> Result<(), Fail> {
    let mode = mode_of(rt.alloc(), "viewstate voter 4 0 1 0")?.ok_or("no mode")?;
    assert_eq!(rt; first_served(rt.alloc(), mode, &REFUSED_BY_A_VOTER)?, None);
    Ok(())
}

/// Returns some words, and `count` times a character.
fn padded(alloc: Global, words: &str, character: char, count: usize) -> Result<String, AllocError> {
    let mut line = String::from_str(alloc, words)?;
    for _ in 0..count {
        line.push(character)?;
    }
    Ok(line)
}

/// Returns the length of the first line of sevens that is served, if one is.
fn first_length_served(alloc: Global, command: &str) -> Result<Option<usize>, Fail> {
    let mode = mode_of(alloc, command)?.ok_or("no mode")?;
    for length in [199, 200, 201, 202, 100_000] {
        if !is_refused(alloc, mode, padded(alloc, "", '7', length)?.as_str())? {
            return Ok(Some(length));
        }
    }
    Ok(None)
}

#[test]
fn long_lines(rt: HostRuntime) -> Result<(), Fail> {
    assert_eq!(rt;
        first_length_served(rt.alloc(), "viewstate resolver 1")?,
        None
    );
    assert_eq!(rt;
        first_length_served(rt.alloc(), "viewstate voter 4 0 1 0")?,
        None
    );
    Ok(())
}

/// A line of more than 200 bytes that begins with a call's word.
#[test]
fn a_long_line_of_spaces(rt: HostRuntime) -> Result<(), Fail> {
    let mode = mode_of(rt.alloc(), "viewstate voter 4 0 1 0")?.ok_or("no mode")?;
    let mut line = padded(rt.alloc(), "view", ' ', 197)?;
    line.push('\n')?;
    assert!(rt; is_refused(rt.alloc(), mode, line.as_str())?);
    Ok(())
}

/// Returns whether bytes whose line of this number is no text are replied to up to there.
fn ends_at(alloc: Global, mode: Mode, input: &[u8], line: u64, wanted: &[u8]) -> bool
    requires { IsServed mode }
{
    let mut output = Vec::new(alloc);
    let ended = serve(alloc, mode, input, &mut output);
    ended == Err(ServeError::NotACall(line)) && output.as_slice() == wanted
}

/// Bytes that are not UTF-8, first and after another line.
#[test]
fn bytes_that_are_no_text(rt: HostRuntime) -> Result<(), Fail> {
    let mode = mode_of(rt.alloc(), "viewstate voter 4 0 1 0")?.ok_or("no mode")?;
    assert!(rt; ends_at(rt.alloc(), mode, b"view\xFF\n", 1, b""));
    assert!(rt; ends_at(rt.alloc(), mode, b"view\nview\xFF\n", 2, b"view 1 0 0\n"));
    Ok(())
}

/// Returns how many lines end here.
fn feeds(bytes: &[u8]) -> usize {
    let mut count: usize = 0;
    for byte in bytes {
        if *byte == b'\n' {
            count = count.saturating_add(1);
        }
    }
    count
}

/// Returns whether, once a read has failed, each line that came whole has its reply, and the end says what failed.
fn has_replied(alloc: Global, mode: Mode, parts: &Parts, whole: &[u8], reads_left: usize) -> bool
    requires { IsServed mode }
{
    let bytes = parts.input.as_bytes();
    let reader = FailingReader { bytes, reads_left };
    let mut output = Vec::new(alloc);
    let ended = serve(alloc, mode, reader, &mut output);
    let is_whole = output.is_empty() || output.ends_with(b"\n");
    if !is_whole || !whole.starts_with(&output) {
        return false;
    }
    match (ended, bytes.get(..reads_left)) {
        (Err(ServeError::Read), Some(given)) => feeds(&output) == feeds(given),
        (ended, _) => ended.is_err() && ended == parts.ends,
    }
}

/// Returns after how many reads a failing one has a wrong result, if there is such a number.
fn first_wrong_read(alloc: Global, script: &Script) -> Result<Option<usize>, Fail> {
    let mode = mode_of(alloc, script.command)?.ok_or(script.shows)?;
    let parts = script.parts(alloc)?;
    let (whole, _) = run(alloc, mode, parts.input.as_str())?;
    for reads_left in 0..=parts.input.len() {
        if !has_replied(alloc, mode, &parts, whole.as_bytes(), reads_left) {
            return Ok(Some(reads_left));
        }
    }
    Ok(None)
}

#[test]
fn failing_reads(rt: HostRuntime) -> Result<(), Fail> {
    for script in &scripts(rt.alloc())? {
        assert_eq!(rt;
            first_wrong_read(rt.alloc(), script)?,
            None,
            "{}",
            script.shows
        );
    }
    Ok(())
}

/// Returns whether all that there is room for is written, and the end says that a write failed.
fn has_filled(alloc: Global, mode: Mode, input: &str, whole: &[u8], room: usize) -> bool
    requires { IsServed mode }
{
    let mut writer = FailingWriter {
        written: Vec::new(alloc),
        room,
    };
    let ended = serve(alloc, mode, input.as_bytes(), &mut writer);
    ended == Err(ServeError::Write)
        && writer.written.len() == room
        && whole.starts_with(&writer.written)
}

/// Returns the room after which a failing write has a wrong result, if there is such a room.
fn first_wrong_write(alloc: Global, script: &Script) -> Result<Option<usize>, Fail> {
    let mode = mode_of(alloc, script.command)?.ok_or(script.shows)?;
    let parts = script.parts(alloc)?;
    let input = parts.input.as_str();
    let (whole, _) = run(alloc, mode, input)?;
    for room in 0..whole.len() {
        if !has_filled(alloc, mode, input, whole.as_bytes(), room) {
            return Ok(Some(room));
        }
    }
    Ok(None)
}

#[test]
fn failing_writes(rt: HostRuntime) -> Result<(), Fail> {
    for script in &scripts(rt.alloc())? {
        assert_eq!(rt;
            first_wrong_write(rt.alloc(), script)?,
            None,
            "{}",
            script.shows
        );
    }
    Ok(())
}

/// The errors, each with its status and its text.
static ENDS: [(ServeError, u8, &str); 4] = [
    (ServeError::NotACall(7), 3, "line 7: not a call"),
    (ServeError::OutOfMemory, 4, "out of memory"),
    (ServeError::Read, 5, "read failed"),
    (ServeError::Write, 5, "write failed"),
];

#[test]
fn statuses_and_texts(rt: HostRuntime) -> Result<(), Fail> {
    for (error, status, text) in &ENDS {
        assert_eq!(rt; error.status(), *status);
        assert_eq!(rt; error.to_string(rt.alloc())?.as_str(), *text);
    }
    Ok(())
}
