//! All members in one process, the links between them, and a clock that does not advance while they work.

use crate::error::RunError;
use crate::faults::sent;
use crate::grid::Row;
use crate::links::{Links, Parcel};
use crate::message::{Message, proposal_of};
use crate::node::{Letter, Node};
use crate::options::Options;
use crate::report::Report;
use simplex_types::types::Fault;
use std::alloc::Global;
use std::io;

/// The member whose process ends and begins again.
const CRASHING: u8 = 1;

/// The most events for each view that is to be finalized, and each member.
const MOST_EVENTS: u64 = 5000;

/// The members, the messages under way between them, and the moment, in milliseconds.
#[derive(Drop)]
pub struct World {
    alloc: Global,
    options: Options,
    nodes: Vec<Node>,
    rows: Vec<Row>,
    links: Links,
    now: u64,
    report: Report,
}

/// The next event.
#[derive(Clone, Copy)]
enum Event {
    Message,
    Wake(u8),
}

impl World {
    /// Starts all members at genesis.
    pub(crate) fn start(alloc: Global, options: Options) -> Result<World, RunError> {
        let mut nodes = Vec::new(alloc);
        let mut rows = Vec::new(alloc);
        for me in 0..options.members {
            nodes.push(Node::start(alloc, options, me)?)?;
            rows.push(Row::new(alloc))?;
        }
        Ok(World {
            alloc,
            options,
            nodes,
            rows,
            links: Links::new(alloc, options.loss, options.seed),
            now: 0,
            report: Report::new(alloc, options),
        })
    }

    /// Runs until enough views are finalized, and every member knows of the last of them.
    pub(crate) fn run(&mut self, rt: &impl Print) -> Result<(), RunError> {
        let members = u64::from(self.options.members);
        let most = self.options.views.saturating_mul(MOST_EVENTS * members);
        for _ in 0..most {
            self.disturb()?;
            self.report.print_lines(rt)?;
            if self.is_done() {
                return self.summarize(rt);
            }
            self.step()?;
        }
        Err(RunError::NotFinalized)
    }

    /// A member of four or more crashes once a quarter of the views is finalized, and comes back once half of them are.
    fn disturb(&mut self) -> Result<(), RunError> {
        if self.options.members < 4 {
            return Ok(());
        }
        let (done, views) = (self.report.finalized(), self.options.views);
        let Some(node) = self.nodes.get_mut(usize::from(CRASHING)) else {
            return Ok(());
        };
        if done > views / 4 && node.counts.restarts == 0 {
            node.crash()?;
        }
        if done > views / 2 {
            node.come_back(self.now)?;
        }
        self.collect(CRASHING)
    }

    /// Returns whether enough views are finalized, and every member runs and knows of the last of them.
    fn is_done(&self) -> bool {
        let highest = self.report.highest();
        self.report.finalized() >= self.options.views
            && self
                .nodes
                .iter()
                .all(|node| node.last_finalized() >= highest)
    }

    /// Executes the next event: a message arrives, or the moment of a member.
    fn step(&mut self) -> Result<(), RunError> {
        let Some((moment, event)) = self.next_event() else {
            return Err(RunError::NotFinalized);
        };
        self.now = self.now.max(moment);
        match event {
            Event::Message => self.deliver(),
            Event::Wake(me) => self.wake(me),
        }
    }

    /// Returns the next event, and its moment.
    fn next_event(&self) -> Option<(u64, Event)> {
        let mut next: Option<(u64, Event)> = match self.links.next_moment() {
            Some(moment) => Some((moment, Event::Message)),
            None => None,
        };
        for node in &self.nodes {
            if let Some(wake) = node.wake() {
                let is_sooner = match &next {
                    Some((moment, _)) => wake < *moment,
                    None => true,
                };
                if is_sooner {
                    next = Some((wake, Event::Wake(node.me())));
                }
            }
        }
        next
    }

    /// Takes the message that arrives next, if its member runs.
    fn deliver(&mut self) -> Result<(), RunError> {
        let Some(parcel) = self.links.take_next() else {
            return Ok(());
        };
        let Parcel { from, to, message } = parcel;
        if let Some(node) = self.nodes.get_mut(usize::from(to)) {
            node.receive(from, message, self.now)?;
        }
        self.collect(to)
    }

    fn wake(&mut self, me: u8) -> Result<(), RunError> {
        if let Some(node) = self.nodes.get_mut(usize::from(me)) {
            node.settle(self.now)?;
        }
        self.collect(me)
    }

    /// Sends a member's letters, and notes its news.
    fn collect(&mut self, me: u8) -> Result<(), RunError> {
        self.send_letters(me)?;
        self.note_news(me)
    }

    /// Sends a member's letters.
    fn send_letters(&mut self, me: u8) -> Result<(), Fault> {
        let Some(node) = self.nodes.get_mut(usize::from(me)) else {
            return Ok(());
        };
        for letter in &node.letters {
            send(
                self.alloc,
                &self.options,
                &mut self.links,
                node,
                me,
                letter,
                self.now,
            )?;
        }
        node.letters.clear();
        Ok(())
    }

    /// Notes a member's news.
    fn note_news(&mut self, me: u8) -> Result<(), RunError> {
        let Some(node) = self.nodes.get_mut(usize::from(me)) else {
            return Ok(());
        };
        for item in &node.news {
            self.report.note(me, *item, self.now)?;
            if let Some(row) = self.rows.get_mut(usize::from(me)) {
                row.note(item)?;
            }
        }
        node.news.clear();
        Ok(())
    }

    fn summarize(&self, rt: &impl Print) -> Result<(), RunError> {
        self.report
            .print_summary(rt, self.now, self.links.counts())?;
        for node in &self.nodes {
            print_counts(rt, node)?;
        }
        self.print_rows(rt)?;
        Ok(())
    }

    fn print_rows(&self, rt: &impl Print) -> Result<(), io::Error> {
        println!(rt;
            "\nEach member's finalized views (#), nullified ones (x), and those that it did not see (.), from view 1:"
        )?;
        for me in 0..self.options.members {
            if let Some(row) = self.rows.get(usize::from(me)) {
                row.print(rt, me)?;
            }
        }
        Ok(())
    }
}

/// Sends a letter to its receivers. A faulty leader may send something else.
fn send(
    alloc: Global,
    options: &Options,
    links: &mut Links,
    node: &Node,
    from: u8,
    letter: &Letter,
    now: u64,
) -> Result<(), Fault> {
    for to in 0..options.members {
        let is_meant = match letter.to {
            Some(only) => to == only,
            None => to != from,
        };
        if !is_meant {
            continue;
        }
        let copy = letter.message.copy(alloc)?;
        let message = if options.is_faulty(from) && from != to {
            sent(
                alloc,
                node.scheme(),
                to,
                copy,
                is_proposal(node, &letter.message),
            )?
        } else {
            Some(copy)
        };
        if let Some(message) = message {
            links.send(from, to, message, now)?;
        }
    }
    Ok(())
}

/// Returns whether the message is a proposal of its sender.
fn is_proposal(node: &Node, message: &Message) -> bool {
    match message {
        Message::Vote(vote) => match proposal_of(vote) {
            Some(proposal) => node.is_leading(proposal.round.view),
            None => false,
        },
        _ => false,
    }
}

/// Prints the results of a member.
fn print_counts(rt: &impl Print, node: &Node) -> Result<(), io::Error> {
    let (member, last, open, stored) = (
        node.me(),
        node.last_finalized().get(),
        node.open_fetches(),
        node.stored_entries(),
    );
    let (finalized, restarts) = (node.counts.finalized, node.counts.restarts);
    let (fetches, contradictions) = (node.counts.fetches, node.counts.contradictions);
    println!(rt;
        "member {member}: {finalized} finalized, the last view {last}, {restarts} restarts, {fetches} fetches asked and {open} open, {contradictions} contradictions seen, {stored} entries on its disk"
    )
}
