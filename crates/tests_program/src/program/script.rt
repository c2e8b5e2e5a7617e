//! Scripts: lines that are served, each beside its reply.

use simplex_program::program::ServeError;
use std::alloc::{AllocError, Global};

/// The separator between a line and its reply.
const REPLIED: &str = " => ";

/// Represents a reply that a script doesn't check.
const ANY: &str = "*";

/// A command, and the lines that it receives, each with its reply. A line without one is no call, and ends the program.
#[derive(Clone, Copy)]
pub struct Script {
    pub shows: &'static str,
    pub command: &'static str,
    pub lines: &'static str,
}

/// The input that a script passes to the program, and the expected output and end.
#[derive(Drop)]
pub struct Parts {
    pub input: String,
    pub output: String,
    pub ends: Result<(), ServeError>,
}

impl Script {
    /// Returns the script's parts. Its last line may have no line feed.
    pub(super) fn parts(&self, alloc: Global) -> Result<Parts, AllocError> {
        let mut input = String::new(alloc);
        let mut output = String::new(alloc);
        let mut lines: u64 = 0;
        let mut replies: u64 = 0;
        for line in self.lines.split('\n') {
            if lines > 0 {
                input.push('\n')?;
            }
            lines = lines.saturating_add(1);
            if let Some((asked, reply)) = line.split_once(REPLIED) {
                replies = replies.saturating_add(1);
                input.push_str(asked)?;
                output.push_str(reply)?;
                output.push('\n')?;
            } else {
                input.push_str(line)?;
            }
        }
        if self.lines.is_empty() || self.lines.ends_with('\n') {
            lines = lines.saturating_sub(1);
        }
        let ends = if replies < lines {
            Err(ServeError::NotACall(replies.saturating_add(1)))
        } else {
            Ok(())
        };
        Ok(Parts {
            input,
            output,
            ends,
        })
    }
}

/// Returns whether the replies are the expected ones.
pub(super) fn are_wanted(written: &str, wanted: &str) -> bool {
    if written.split('\n').count() != wanted.split('\n').count() {
        return false;
    }
    for (reply, wanted) in written.split('\n').zip(wanted.split('\n')) {
        if wanted != ANY && reply != wanted {
            return false;
        }
    }
    true
}
