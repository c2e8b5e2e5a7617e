//! The data that the host can read of an engine beside its outputs.

ghost use Rattle.std.specs.Prelude.{◌≡◌};

use crate::flat::{FlatOpen, FlatStatus};
use crate::held::HeldEngine;
use crate::output::number_of_fetch;
use ffi_member::resolver_calls::serve_in;
use ffi_member::resolver_types::FlatServed;
use ffi_member::view_types::{FlatChunk, FlatFound, FlatView, FlatWithheld};
use ffi_member::views::{certificate_in, chunk_of, view_in};
use ffi_member::withheld::withheld_in;

impl HeldEngine {
    ghost use Rattle.ffi_engine.specs.EngineViews.{ShowsChunk, ShowsFound, ShowsOpenFetch, ShowsServed, ShowsStatus, ShowsView, ShowsWithheld, is_failed};

    /// Returns a part of the bytes of the last output, if `which` is 0; of the second signature of two, if it is 1; and
    /// otherwise of what was last loaded.
    pub fn chunk(&self, which: u32, from: u64) -> FlatChunk
        ensures { ShowsChunk self.now which from result }
    {
        match which {
            0 => chunk_of(self.first_bytes(), from),
            1 => chunk_of(self.second_bytes(), from),
            _ => chunk_of(self.shown.as_slice(), from),
        }
    }

    /// Returns the status of the engine.
    pub fn status(&self) -> FlatStatus
        ensures { ShowsStatus self.now result }
    {
        FlatStatus {
            status: if self.has_failed() { 2 } else { 0 },
            reserved: 0,
            wake: self.engine.wake(),
            ignored: self.engine.ignored(),
            fetches: self.engine.fetches().len() as u64,
        }
    }

    /// Returns whether it has failed: nothing more is returned.
    pub fn has_failed(&self) -> bool
        ensures { result ≡ is_failed self.now }
    {
        self.is_lost || self.engine.has_failed()
    }

    /// Returns an open fetch.
    pub fn open(&self, index: u64) -> FlatOpen
        ensures { ShowsOpenFetch self.now index result }
    {
        match self.engine.fetches().all().get(index as usize) {
            Some(fetch) => FlatOpen {
                status: 0,
                fetch: number_of_fetch(fetch.kind),
                view: fetch.view.get(),
                count: fetch.count,
                moment: fetch.moment,
            },
            None => not_open(),
        }
    }

    /// Returns what the member knows, and what it knows of a view.
    pub fn view(&self, view: u64) -> FlatView
        ensures { ShowsView self.now view result }
    {
        view_in(self.engine.state(), view)
    }

    /// Returns why the member withholds its vote of a kind on a view: 1 asks for a vote to notarize, 2 to nullify, 3 to
    /// finalize.
    pub fn withheld(&self, kind: u32, view: u64) -> FlatWithheld
        ensures { ShowsWithheld self.now kind view result }
    {
        withheld_in(self.engine.state(), kind, view)
    }

    /// Loads the bytes of a view's certificate, and returns its subject: 1 asks for a notarization, 2 for a
    /// nullification, 3 for a finalization.
    pub fn certificate(&mut self, kind: u32, view: u64) -> FlatFound
        ensures { ShowsFound self.old kind view result self.new }
    {
        certificate_in(self.engine.state(), kind, view, &mut self.shown)
    }

    /// Loads what a peer is served for a view.
    pub fn serve(&mut self, view: u64) -> FlatServed
        ensures { ShowsServed self.old view result self.new }
    {
        serve_in(self.engine.resolver(), view, &mut self.shown)
    }
}

/// Returns the result that there is no such fetch.
pub(crate) fn not_open() -> FlatOpen
    ensures { (result.status ≡ 0) × (result.fetch ≡ 0) }
{
    FlatOpen {
        status: 0,
        fetch: 0,
        view: 0,
        count: 0,
        moment: 0,
    }
}
