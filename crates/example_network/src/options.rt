//! The program's arguments.

use simplex_types::types::{TermLength, Terms, View};
use std::io;
use std::num::NonZeroU32;

/// The settings of a network, and of the faults in it.
#[derive(Clone, Copy)]
pub struct Options {
    /// How many members there are, from 1 to 40.
    pub members: u8,
    /// How many of them are faulty as leaders: fewer than a third.
    pub faulty: u8,
    /// How many views one leader leads.
    pub term: NonZeroU32,
    /// How many views ahead of the current one may be voted for in its term.
    pub optimistic: u64,
    /// How many messages of a hundred are lost.
    pub loss: u64,
    /// The seed of everything random.
    pub seed: u64,
    /// How many views are to be finalized.
    pub views: u64,
    /// Views are not printed one by one.
    pub is_quiet: bool,
}

/// The options that the arguments name.
#[derive(Clone, Copy)]
pub enum Asked {
    Help,
    Run(Options),
    Misused,
}

impl Asked {
    /// Returns what the arguments after the program's name ask for. Each option may occur more than once; the last one
    /// counts.
    pub(crate) fn read(words: &[String]) -> Asked {
        match words {
            [word] if word.as_str() == "--help" => Asked::Help,
            _ => match Options::read(words) {
                Some(options) => Asked::Run(options),
                None => Asked::Misused,
            },
        }
    }
}

impl Options {
    /// Returns the default options.
    fn usual() -> Options {
        Options {
            members: 4,
            faulty: 1,
            term: NonZeroU32::MIN,
            optimistic: 0,
            loss: 5,
            seed: 7,
            views: 100,
            is_quiet: false,
        }
    }

    /// Returns the options that the words name.
    fn read(words: &[String]) -> Option<Options> {
        let mut options = Options::usual();
        let mut name: Option<&str> = None;
        for word in words {
            let word = word.as_str();
            match name {
                Some(option) => {
                    options = options.with(option, word.parse::<u64>().ok()?)?;
                    name = None;
                }
                None if word == "--quiet" => options.is_quiet = true,
                None => name = Some(word),
            }
        }
        if name.is_some() || options.faulty > options.members.saturating_sub(1) / 3 {
            return None;
        }
        Some(options)
    }

    /// Returns these options with one option set.
    fn with(mut self, option: &str, number: u64) -> Option<Options> {
        match option {
            "--members" if 1 <= number && number <= 40 => self.members = number as u8,
            "--faulty" if number <= 13 => self.faulty = number as u8,
            "--term" if number <= 1000 => self.term = NonZeroU32::new(number as u32)?,
            "--optimistic" if number <= 1000 => self.optimistic = number,
            "--loss" if number <= 50 => self.loss = number,
            "--seed" => self.seed = number,
            "--views" if 1 <= number && number <= 1_000_000 => self.views = number,
            _ => return None,
        }
        Some(self)
    }

    /// Returns the terms of the views. A long term without progress is abandoned after some seconds.
    pub(crate) fn terms(&self) -> Terms {
        Terms {
            term_length: TermLength::new(self.term),
            optimistic_views: self.optimistic,
            stall_timeout: if self.term.get() == 1 {
                None
            } else {
                Some(3000)
            },
        }
    }

    /// Returns the leader of a view: members lead round-robin, a term each.
    pub(crate) fn leader(&self, view: View) -> u8 {
        let term = view.get().saturating_sub(1) / u64::from(self.term.get());
        (term % u64::from(self.members.max(1))) as u8
    }

    /// Returns whether the member is faulty as a leader: the last ones are.
    pub(crate) fn is_faulty(&self, member: u8) -> bool {
        self.members.saturating_sub(self.faulty) <= member
    }

    /// Prints the settings.
    pub(crate) fn print(&self, rt: &impl Print) -> Result<(), io::Error> {
        let Options {
            members,
            faulty,
            term,
            optimistic,
            loss,
            seed,
            views,
            is_quiet: _,
        } = *self;
        println!(rt;
            "{members} members, {faulty} of them faulty, terms of {term}, {optimistic} optimistic views, {loss} of 100 messages lost, seed {seed}: {views} views to finalize\n"
        )
    }
}
