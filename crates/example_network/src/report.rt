//! The printed output: a line for each view, and a summary.

use crate::error::RunError;
use crate::options::Options;
use example_engine::digest::BlockDigest;
use example_engine::parts::Block;
use simplex_types::types::View;
use std::alloc::{AllocError, Global};
use std::collections::{BTreeMap, BTreeSet};
use std::io;

/// How many views below the highest are remembered, to compare the members' reports of them.
const REMEMBERED: u64 = 1000;

/// Something that has happened at a member.
#[derive(Clone, Copy)]
pub enum News {
    /// The proposal is final.
    Finalized(Block),
    /// The view is passed over.
    Nullified(View),
    /// The view's leader signed two proposals.
    ProposedTwice(View),
    /// The member's process ended, with this number of entries on its disk.
    Crashed(usize),
    /// The member's process began again, in the view.
    CameBack(View),
}

/// The events of the network so far.
#[derive(Drop)]
pub struct Report {
    options: Options,
    finalized: BTreeMap<View, BlockDigest>,
    count: u64,
    nullified: BTreeSet<View>,
    nullified_count: u64,
    deceived: BTreeSet<View>,
    /// The lines that are not printed yet.
    lines: Vec<Line>,
}

/// A member's report, and its moment.
#[derive(Clone, Copy)]
struct Line {
    now: u64,
    member: u8,
    news: News,
}

impl Report {
    /// Returns an empty report.
    pub(crate) fn new(alloc: Global, options: Options) -> Report {
        Report {
            options,
            finalized: BTreeMap::new(alloc),
            count: 0,
            nullified: BTreeSet::new(alloc),
            nullified_count: 0,
            deceived: BTreeSet::new(alloc),
            lines: Vec::new(alloc),
        }
    }

    /// Returns how many views are finalized.
    pub(crate) fn finalized(&self) -> u64 {
        self.count
    }

    /// Returns the highest finalized view; 0 if there is none.
    pub(crate) fn highest(&self) -> View {
        match self.finalized.last_key_value() {
            Some((view, _)) => *view,
            None => View::zero(),
        }
    }

    /// Stores what a member reports, if no member reported it before.
    pub(crate) fn note(&mut self, member: u8, news: News, now: u64) -> Result<(), RunError> {
        let is_new = self.note_once(&news)?;
        if is_new && !self.options.is_quiet {
            self.lines.push(Line { now, member, news })?;
        }
        Ok(())
    }

    /// Stores what a member reports. Returns whether no member reported it before.
    fn note_once(&mut self, news: &News) -> Result<bool, RunError> {
        match news {
            News::Finalized(proposal) => self.note_finalized(proposal),
            News::Nullified(view) => Ok(self.note_nullified(*view)?),
            News::ProposedTwice(view) => Ok(self.deceived.insert(*view)?),
            News::Crashed(_) | News::CameBack(_) => Ok(true),
        }
    }

    /// Stores a final proposal. If another one is final in the same view, the members disagree.
    fn note_finalized(&mut self, proposal: &Block) -> Result<bool, RunError> {
        let view = proposal.round.view;
        if let Some(payload) = self.finalized.get(&view) {
            return if *payload == proposal.payload {
                Ok(false)
            } else {
                Err(RunError::Disagreed)
            };
        }
        if view.get().saturating_add(REMEMBERED) < self.highest().get() {
            return Ok(false);
        }
        self.finalized.insert(view, proposal.payload)?;
        self.count = self.count.saturating_add(1);
        if self.finalized.len() as u64 > REMEMBERED {
            let _ = self.finalized.pop_first();
        }
        Ok(true)
    }

    fn note_nullified(&mut self, view: View) -> Result<bool, AllocError> {
        let is_new = self.nullified.insert(view)?;
        if is_new {
            self.nullified_count = self.nullified_count.saturating_add(1);
        }
        if self.nullified.len() as u64 > REMEMBERED {
            let _ = self.nullified.pop_first();
        }
        Ok(is_new)
    }

    /// Prints what is not printed yet.
    pub(crate) fn print_lines(&mut self, rt: &impl Print) -> Result<(), io::Error> {
        for line in &self.lines {
            line.print(rt, &self.options)?;
        }
        self.lines.clear();
        Ok(())
    }

    /// Prints the results of the run.
    pub(crate) fn print_summary(
        &self,
        rt: &impl Print,
        now: u64,
        counts: (u64, u64),
    ) -> Result<(), io::Error> {
        let (finalized, nullified) = (self.count, self.nullified_count);
        let deceived = self.deceived.len();
        let (sent, lost) = counts;
        println!(rt;
            "\n{finalized} views finalized and {nullified} nullified in {now} ms, {sent} messages sent and {lost} lost\n{deceived} views with two proposals of the leader"
        )
    }
}

impl Line {
    fn print(&self, rt: &impl Print, options: &Options) -> Result<(), io::Error> {
        let (now, member) = (self.now, self.member);
        match self.news {
            News::Finalized(proposal) => {
                let view = proposal.round.view;
                let (number, leader, parent) = (
                    view.get(),
                    options.leader(view),
                    proposal.parent.get(),
                );
                let block = proposal.payload;
                println!(rt;
                    "{now:>7} ms  view {number:>4}  leader {leader}  finalized  block {block} on view {parent}"
                )
            }
            News::Nullified(view) => {
                let (number, leader) = (view.get(), options.leader(view));
                println!(rt; "{now:>7} ms  view {number:>4}  leader {leader}  nullified")
            }
            News::ProposedTwice(view) => {
                let (number, leader) = (view.get(), options.leader(view));
                println!(rt;
                    "{now:>7} ms  view {number:>4}  member {member} sees that leader {leader} signed two proposals"
                )
            }
            News::Crashed(count) => println!(rt;
                "{now:>7} ms  member {member} crashes; {count} entries are on its disk"
            ),
            News::CameBack(view) => {
                let view = view.get();
                println!(rt; "{now:>7} ms  member {member} is back, in view {view}")
            }
        }
    }
}
