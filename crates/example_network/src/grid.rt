//! A picture of members against views: which finalization each member saw.

use crate::report::News;
use std::alloc::{AllocError, Global};
use std::io;

/// How many views are drawn.
const WIDTH: u64 = 100;

/// The marks of one member, one for each view from the first on.
#[derive(Drop)]
pub struct Row {
    marks: Vec<u8>,
}

impl Row {
    /// Returns an empty row.
    pub(crate) fn new(alloc: Global) -> Row {
        Row {
            marks: Vec::new(alloc),
        }
    }

    /// Marks the view that a member reports.
    pub(crate) fn note(&mut self, news: &News) -> Result<(), AllocError> {
        match news {
            News::Finalized(proposal) => self.mark(proposal.round.view.get(), b'#'),
            News::Nullified(view) => self.mark(view.get(), b'x'),
            _ => Ok(()),
        }
    }

    /// Marks a view that is drawn.
    fn mark(&mut self, view: u64, mark: u8) -> Result<(), AllocError> {
        if view == 0 || view > WIDTH {
            return Ok(());
        }
        for _ in self.marks.len()..view as usize {
            self.marks.push(b'.')?;
        }
        if let Some(old) = self.marks.get_mut(view as usize - 1) {
            *old = mark;
        }
        Ok(())
    }

    /// Prints the row of a member.
    pub(crate) fn print(&self, rt: &impl Print, member: u8) -> Result<(), io::Error> {
        match std::str::from_utf8(&self.marks) {
            Ok(marks) => println!(rt; "{member:>3} {marks}"),
            Err(_) => Ok(()),
        }
    }
}
