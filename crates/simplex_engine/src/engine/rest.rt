//! The rest of an engine: all that is due was done, and nothing is due until an input comes, or until its wake.
#![tactic(auto)]

ghost use Rattle.std.specs.Prelude.{◌≡◌, ◌⊎◌, ◌↔◌, OnOk, IsOk, IsTrue};

use super::Engine;
use simplex_types::types::assembly::Assembly;
use simplex_types::types::{Digest, Elector, Fault};

impl<S: Assembly<D>, L: Elector<S>, D: Digest> Engine<S, L, D> {
    ghost use Rattle.engine_outbox.specs.Continuity.{IsJournaled};
    ghost use Rattle.engine_outbox.specs.RecordReach.{IsShort};
    ghost use Rattle.simplex_engine.specs.OwnSteps.{ContinuesWithPruning};
    ghost use Rattle.simplex_engine.specs.AtRest.{HasSettled, IsSettled, RestLasts, StaysSettled};
    ghost use Rattle.simplex_engine.specs.Provenance.{IsCausedWithPruning};
    ghost use Rattle.simplex_engine.specs.ApplicationWork.{KeepsApplicationWork};

    /// Does all that is due, unless the engine stays settled from an earlier call.
    ///
    /// - `rests`: an engine that stays settled is unchanged.
    /// - `settles`, `short`: any other is settled at this moment, and its record is short.
    /// - `alone`, `due_work`, `provenance`: as of `work`.
    pub(super) fn work_unless_settled(&mut self, now: u64) -> Result<(), Fault>
        ensures alone { ContinuesWithPruning D.eq L.elect S.certificate_bytes S.IsSignature self.old self.new }
        ensures rests { StaysSettled now self.old → IsOk result × (self.new ≡ self.old) }
        ensures settles { OnOk result (StaysSettled now self.old
            ⊎ (HasSettled now self.new × IsSettled D.eq L.elect S.certificate_bytes now self.new)) }
        ensures short { (given : _) → IsJournaled S.certificate_bytes given self.old.core
            → OnOk result (StaysSettled now self.old
            ⊎ IsShort self.new.plan.options.long_record self.new.core.member.facts) }
        ensures due_work { OnOk result (KeepsApplicationWork self.old self.new) }
        ensures provenance { OnOk result
            (IsCausedWithPruning D.eq L.elect D.bytes S.certificate_bytes now self.old self.new) }
    {
        if self.stays_settled(now) {
            return Ok(());
        }
        self.work(now)?;
        self.settled_at = Some(now);
        Ok(())
    }

    /// Returns whether the engine settled, and nothing is due since: no input came, and the moment is the one at which
    /// it settled, or a later one before `wake`.
    fn stays_settled(&self, now: u64) -> bool
        ensures { IsTrue result ↔ StaysSettled now self.now }
    {
        match self.settled_at {
            Some(since) => self.rest_lasts(since, now),
            None => false,
        }
    }

    /// Returns whether a rest since one moment lasts at another.
    fn rest_lasts(&self, since: u64, now: u64) -> bool
        ensures { IsTrue result ↔ RestLasts since now self.now }
    {
        now == since || (since < now && now < self.wake())
    }
}
