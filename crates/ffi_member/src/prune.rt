//! How a member's record is pruned within its lifetime.

use crate::held::Held;
use crate::view_types::FlatEntries;

impl Held {
    ghost use Rattle.ffi_member.specs.PrunedRecord.{IsPruned};

    /// Removes from the record what a restart would prune, except for views that the state still tracks, and loads all
    /// that is left as frames, to be stored in place of the journal. This works also for a member that has failed. The
    /// lifetime continues unchanged.
    ///
    /// The record is pruned also if there was no memory to load it: then `entries` loads it.
    pub fn prune_record(&mut self) -> FlatEntries
        ensures { IsPruned self.old result self.new }
    {
        self.member.prune_record();
        self.entries(0)
    }
}
