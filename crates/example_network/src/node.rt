//! A member: its engine, its disk and its application. It verifies inputs and passes them to the engine, and carries
//! outputs out.

ghost use Rattle.std.specs.Prelude.{◌<◌};

mod inputs;
mod outputs;

use crate::disk::Disk;
use crate::error::RunError;
use crate::message::Message;
use crate::options::Options;
use crate::report::News;
use example_engine::digest::BlockDigest;
use example_engine::scheme::SealScheme;
use example_engine::start::start_of;
use simplex_engine::engine::{Engine, Options as EngineOptions};
use simplex_types::types::plain::PlainElector;
use simplex_types::types::{Fault, View};
use std::alloc::Global;

/// The engine of a member.
pub type Core = Engine<SealScheme, PlainElector, BlockDigest>;

/// The intervals of the engines, in milliseconds, and the length at which they prune their records.
const ENGINE: EngineOptions = EngineOptions {
    retry: 100,
    on_its_way: 30,
    long_record: 400,
};

/// A message to one member, or to all others.
#[derive(Drop)]
pub struct Letter {
    pub to: Option<u8>,
    pub message: Message,
}

/// A member that takes part.
#[derive(Drop)]
pub struct Node {
    alloc: Global,
    me: u8,
    options: Options,
    scheme: SealScheme,
    /// The engine, while the process runs; on the heap, since it is large.
    engine: Option<Box<Core>>,
    disk: Disk,
    /// The letters to send, oldest first.
    pub(crate) letters: Vec<Letter>,
    /// The news that are not read yet, oldest first.
    pub(crate) news: Vec<News>,
    pub(crate) counts: Counts,
    ghost is_member: { me < options.members },
}

/// How often each thing has happened at a member.
#[derive(Clone, Copy)]
pub struct Counts {
    pub finalized: u64,
    pub restarts: u64,
    pub fetches: u64,
    pub contradictions: u64,
}

impl Node {
    /// Returns a member whose process begins at genesis.
    pub(crate) fn start(alloc: Global, options: Options, me: u8) -> Result<Node, RunError>
        requires { me < options.members }
    {
        let start = start_of(alloc, options.members, me, options.terms(), 0)?;
        Ok(Node {
            alloc,
            me,
            options,
            scheme: SealScheme::new(alloc, options.members, me)?,
            engine: Some(Box::new(alloc, Engine::start(alloc, start, ENGINE)?)?),
            disk: Disk::new(alloc),
            letters: Vec::new(alloc),
            news: Vec::new(alloc),
            counts: Counts {
                finalized: 0,
                restarts: 0,
                fetches: 0,
                contradictions: 0,
            },
        })
    }

    /// Ends the process. The disk stays unchanged.
    pub(crate) fn crash(&mut self) -> Result<(), Fault> {
        if self.engine.is_some() {
            self.engine = None;
            self.news.push(News::Crashed(self.disk.count()))?;
        }
        Ok(())
    }

    /// Begins the process from the disk, if it has ended.
    pub(crate) fn come_back(&mut self, now: u64) -> Result<(), RunError> {
        if self.engine.is_some() {
            return Ok(());
        }
        let Some(stored) = self.disk.stored() else {
            return Ok(());
        };
        let start = start_of(
            self.alloc,
            self.options.members,
            self.me,
            self.options.terms(),
            now,
        )?;
        let engine = Engine::resume(self.alloc, start, stored, self.disk.read()?, ENGINE)?;
        self.engine = Some(Box::new(self.alloc, engine)?);
        self.counts.restarts = self.counts.restarts.saturating_add(1);
        let view = self.current_view();
        self.news.push(News::CameBack(view))?;
        self.settle(now)?;
        Ok(())
    }

    /// Returns the member's index.
    pub(crate) fn me(&self) -> u8 {
        self.me
    }

    /// Returns when to poll the member next, while it runs.
    pub(crate) fn wake(&self) -> Option<u64> {
        Some(self.engine.as_ref()?.wake())
    }

    /// Returns the view that was entered last; 0 if the process has ended.
    pub(crate) fn current_view(&self) -> View {
        match &self.engine {
            Some(engine) => match engine.state() {
                Some(state) => state.current_view(),
                None => View::zero(),
            },
            None => View::zero(),
        }
    }

    /// Returns the highest finalized view; 0 if the process has ended.
    pub(crate) fn last_finalized(&self) -> View {
        match &self.engine {
            Some(engine) => match engine.state() {
                Some(state) => state.last_finalized(),
                None => View::zero(),
            },
            None => View::zero(),
        }
    }

    /// Returns how many entries are on the disk.
    pub(crate) fn stored_entries(&self) -> usize {
        self.disk.count()
    }

    /// Returns how many fetches are open.
    pub(crate) fn open_fetches(&self) -> usize {
        match &self.engine {
            Some(engine) => engine.fetches().len(),
            None => 0,
        }
    }

    /// Returns whether the member leads the view.
    pub(crate) fn is_leading(&self, view: View) -> bool {
        self.options.leader(view) == self.me
    }

    /// Returns the member's keys.
    pub(crate) fn scheme(&self) -> &SealScheme {
        &self.scheme
    }

    fn send_to_all(&mut self, message: Message) -> Result<(), Fault> {
        self.letters.push(Letter { to: None, message })?;
        Ok(())
    }

    fn send_to(&mut self, to: u8, message: Message) -> Result<(), Fault> {
        self.letters.push(Letter {
            to: Some(to),
            message,
        })?;
        Ok(())
    }

    fn tell(&mut self, news: News) -> Result<(), Fault> {
        self.news.push(news)?;
        Ok(())
    }
}
