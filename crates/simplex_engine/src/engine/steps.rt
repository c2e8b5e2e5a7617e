//! The steps that are due, one after the other, until the member has nothing new.
#![tactic(auto)]

ghost use Rattle.std.specs.Prelude.{◌≡◌, ℕ, [], ◌∷◌, None, Some, OnOk, IfOk, IfSome, IsOk, IsTrue, false, ◌==◌, ◌||◌, option_map};
ghost use Rattle.simplex_engine.specs.Provenance.{is_verdict};

use super::Engine;
use engine_outbox::output::Work;
use engine_planner::plan::Step;
use engine_planner::task::Task;
use simplex_types::types::assembly::Assembly;
use simplex_types::types::{Digest, Elector, Fault, View};

impl<S: Assembly<D>, L: Elector<S>, D: Digest> Engine<S, L, D> {
    ghost use Rattle.engine_outbox.specs.Continuity.{Continues, IsJournaled, IsWhole};
    ghost use Rattle.engine_outbox.specs.RecordReach.{IsShort};
    ghost use Rattle.simplex_engine.specs.OwnSteps.{ContinuesWithoutInput, ContinuesWithPruning};
    ghost use Rattle.simplex_engine.specs.NothingDue.{HasNothingNew};
    ghost use Rattle.engine_planner.specs.PlanStates.{IsIdle};
    ghost use Rattle.simplex_engine.specs.AtRest.{IsSettled};
    ghost use Rattle.simplex_engine.specs.Bounds.{HoldsFromKept};
    ghost use Rattle.simplex_engine.specs.BuildBounds.{BuildsAhead};
    ghost use Rattle.simplex_engine.specs.MissingCertificates.{FetchesItsMissing};
    ghost use Rattle.simplex_engine.specs.Provenance.{held_by, is_final, IsCausedWithoutInput, IsCausedWithPruning, IsCausedWith};
    ghost use Rattle.simplex_engine.specs.ApplicationWork.{KeepsApplicationWork, KeepsTaken};
    ghost use Rattle.simplex_engine.specs.Steps.{IsNextTaken, IsStepTaken, IsTaskTaken};
    ghost use Rattle.engine_planner.specs.FetchRequests.{KeepsFetching};
    ghost use Rattle.engine_planner.specs.declared.plan.Step.TheVariants as planned;
    ghost use Rattle.engine_planner.specs.Causes.{of_step, of_task, of_work, planned_causes};
    ghost use Rattle.engine_planner.specs.PlannedWork.{work_planned, AreAmong, KeepsPlanned};
    ghost use Rattle.simplex_voter.specs.Windows.{min_active};
    ghost use Rattle.engine_outbox.specs.declared.output.Work.TheVariants as work;

    /// Takes all steps that are due, until the member has nothing new, and queues the new entries of the record.
    ///
    /// - `settled`: all that was due at the moment is done (`IsSettled`).
    /// - `short`: a pruning would drop no more views of the record than it retains, or the record has few entries.
    /// - `provenance`: everything is caused by what was there before and by the member's replies, except that views may
    ///   be forgotten below the lowest one that the member retains then. Missing certificates are still asked for.
    pub(super) fn work(&mut self, now: u64) -> Result<(), Fault>
        ensures alone { ContinuesWithPruning D.eq L.elect S.certificate_bytes S.IsSignature self.old self.new }
        ensures settled { OnOk result (IsSettled D.eq L.elect S.certificate_bytes now self.new) }
        ensures short { (given : _) → IsJournaled S.certificate_bytes given self.old.core
            → OnOk result (IsShort self.new.plan.options.long_record self.new.core.member.facts) }
        ensures due_work { OnOk result (KeepsApplicationWork self.old self.new) }
        ensures provenance { OnOk result
            (IsCausedWithPruning D.eq L.elect D.bytes S.certificate_bytes now self.old self.new) }
    {
        self.plan.begin();
        self.finish(now)
    }

    /// Takes all steps, drops what is stored of views that are not retained, and queues the new entries of the record.
    fn finish(&mut self, now: u64) -> Result<(), Fault>
        ensures alone { ContinuesWithPruning D.eq L.elect S.certificate_bytes S.IsSignature self.old self.new }
        ensures settled { OnOk result (IsSettled D.eq L.elect S.certificate_bytes now self.new) }
        ensures short { (given : _) → IsJournaled S.certificate_bytes given self.old.core
            → OnOk result (IsShort self.new.plan.options.long_record self.new.core.member.facts) }
        ensures due_work { OnOk result (KeepsApplicationWork self.old self.new) }
        ensures provenance { OnOk result
            (IsCausedWithPruning D.eq L.elect D.bytes S.certificate_bytes now self.old self.new) }
    {
        self.run_to_short(now)?;
        self.settle()?;
        Ok(())
    }

    /// Takes all steps, and prunes the record if that drops more of its views than it retains, until neither is left to
    /// do.
    fn run_to_short(&mut self, now: u64) -> Result<(), Fault>
        ensures alone { ContinuesWithoutInput D.eq L.elect S.certificate_bytes S.IsSignature self.old self.new }
        ensures quiet { OnOk result (HasNothingNew D.eq L.elect now self.new.plan.timeout self.new.core.member.facts) }
        ensures idle { OnOk result (IsIdle now self.new.plan) }
        ensures ahead { OnOk result (BuildsAhead self.new.core self.new.plan) }
        ensures short { (given : _) → IsJournaled S.certificate_bytes given self.old.core
            → OnOk result (IsShort self.new.plan.options.long_record self.new.core.member.facts) }
        ensures due_work { OnOk result (KeepsApplicationWork self.old self.new) }
        ensures provenance { OnOk result
            (IsCausedWithoutInput D.eq L.elect D.bytes S.certificate_bytes now self.old self.new) }
    {
        for _ in 0..u64::MAX {
            self.run_all(now)?;
            if self.store_and_measure()? {
                return Ok(());
            }
            self.prune_record(now)?;
        }
        Err(Fault::Failed)
    }

    /// Queues the new entries of the record to be stored. Returns whether the record is short.
    fn store_and_measure(&mut self) -> Result<bool, Fault>
        ensures alone { ContinuesWithoutInput D.eq L.elect S.certificate_bytes S.IsSignature self.old self.new }
        ensures member { self.new.core.member ≡ self.old.core.member }
        ensures plan { self.new.plan ≡ self.old.plan }
        ensures short { (given : _) → IsJournaled S.certificate_bytes given self.old.core
            → IfOk result (λ short. IsTrue short
            → IsShort self.new.plan.options.long_record self.new.core.member.facts) }
        ensures due_work { OnOk result (KeepsApplicationWork self.old self.new) }
        ensures provenance { OnOk result
            ((now : ℕ) → IsCausedWithoutInput D.eq L.elect D.bytes S.certificate_bytes now self.old self.new) }
    {
        self.core.store()?;
        Ok(!self.core.is_record_too_long(self.plan.long_record()))
    }

    /// Drops what is stored of views that are not retained, and queues the new entries of the record.
    fn settle(&mut self) -> Result<(), Fault>
        ensures alone { ContinuesWithPruning D.eq L.elect S.certificate_bytes S.IsSignature self.old self.new }
        ensures member { self.new.core.member ≡ self.old.core.member }
        ensures idle { (now : ℕ) → IsIdle now self.old.plan → IsIdle now self.new.plan }
        ensures builds { self.new.plan.builds.buildings.items ≡ self.old.plan.builds.buildings.items }
        ensures timeout { OnOk result (self.new.plan.timeout ≡ self.old.plan.timeout) }
        ensures whole { OnOk result (IsWhole S.certificate_bytes self.new.core) }
        ensures lowest { OnOk result (HoldsFromKept self.new.core self.new.batcher) }
        ensures lacking { OnOk result (FetchesItsMissing self.new.core self.new.plan.repair) }
        ensures due_work { OnOk result (KeepsApplicationWork self.old self.new) }
        ensures provenance { OnOk result
            ((now : ℕ) → IsCausedWithPruning D.eq L.elect D.bytes S.certificate_bytes now self.old self.new) }
    {
        self.drop_unretained()?;
        self.core.store()?;
        Ok(())
    }

    /// Takes steps until none is due and the member has nothing new.
    fn run_all(&mut self, now: u64) -> Result<(), Fault>
        ensures alone { ContinuesWithoutInput D.eq L.elect S.certificate_bytes S.IsSignature self.old self.new }
        ensures quiet { OnOk result (HasNothingNew D.eq L.elect now self.new.plan.timeout self.new.core.member.facts) }
        ensures idle { OnOk result (IsIdle now self.new.plan) }
        ensures ahead { OnOk result (BuildsAhead self.new.core self.new.plan) }
        ensures due_work { OnOk result (KeepsApplicationWork self.old self.new) }
        ensures provenance { OnOk result
            (IsCausedWithoutInput D.eq L.elect D.bytes S.certificate_bytes now self.old self.new) }
    {
        for _ in 0..u64::MAX {
            if self.run_and_ask(now)? {
                return Ok(());
            }
        }
        Err(Fault::Failed)
    }

    /// Takes steps until none is due, then asks once for work, blocks, the timeout and votes. Returns whether that
    /// brought nothing new.
    fn run_and_ask(&mut self, now: u64) -> Result<bool, Fault>
        ensures alone { ContinuesWithoutInput D.eq L.elect S.certificate_bytes S.IsSignature self.old self.new }
        ensures quiet { IfOk result
            (λ settled. IsTrue settled
            → HasNothingNew D.eq L.elect now self.new.plan.timeout self.new.core.member.facts) }
        ensures idle { IfOk result (λ settled. IsTrue settled → IsIdle now self.new.plan) }
        ensures ahead { IfOk result (λ settled. IsTrue settled → BuildsAhead self.new.core self.new.plan) }
        ensures due_work { OnOk result (KeepsApplicationWork self.old self.new) }
        ensures provenance { OnOk result
            (IsCausedWithoutInput D.eq L.elect D.bytes S.certificate_bytes now self.old self.new) }
    {
        self.run(now)?;
        if !self.ask_for_work(now)? {
            return Ok(false);
        }
        if !self.plan.is_idle(now) {
            return Ok(false);
        }
        if !self.builds_ahead() {
            return Ok(false);
        }
        self.plan_due_votes()
    }

    /// Returns whether no block is to be built of a view below the current one.
    fn builds_ahead(&self) -> bool
        ensures { IsTrue result → BuildsAhead self.now.core self.now.plan }
    {
        match self.core.state() {
            Some(state) => self.plan.builds_from(state.current_view()),
            None => false,
        }
    }

    /// Takes steps until none is due. It fails after 2^64 steps.
    fn run(&mut self, now: u64) -> Result<(), Fault>
        ensures alone { ContinuesWithoutInput D.eq L.elect S.certificate_bytes S.IsSignature self.old self.new }
        ensures due_work { OnOk result (KeepsApplicationWork self.old self.new) }
        ensures provenance { OnOk result
            (IsCausedWithoutInput D.eq L.elect D.bytes S.certificate_bytes now self.old self.new) }
    {
        for _ in 0..u64::MAX {
            if !self.step(now)? {
                return Ok(());
            }
        }
        Err(Fault::Failed)
    }

    /// Takes the next step, if one is due. Returns whether one was.
    ///
    /// - `done`: the plan's next step is taken.
    fn step(&mut self, now: u64) -> Result<bool, Fault>
        ensures done { OnOk result (IsNextTaken D.eq L.elect D.bytes S.certificate_bytes now self.old self.new) }
        ensures alone { ContinuesWithoutInput D.eq L.elect S.certificate_bytes S.IsSignature self.old self.new }
        ensures due_work { OnOk result (KeepsApplicationWork self.old self.new) }
        ensures provenance { OnOk result
            (IsCausedWithoutInput D.eq L.elect D.bytes S.certificate_bytes now self.old self.new) }
    {
        match self.plan.next(now)? {
            Some(step) => self.take_step(step, now),
            None => Ok(false),
        }
    }

    /// Takes a step.
    ///
    /// - `done`: nothing of the step is dropped (`IsStepTaken`).
    fn take_step(&mut self, step: Step<S, D>, now: u64) -> Result<bool, Fault>
        ensures done { OnOk result (IsStepTaken D.eq L.elect D.bytes S.certificate_bytes now step self.old self.new) }
        ensures alone { ContinuesWithoutInput D.eq L.elect S.certificate_bytes S.IsSignature self.old self.new }
        ensures due_work { OnOk result (KeepsTaken (work_planned (step ∷ [])) self.old self.new) }
        ensures provenance { OnOk result
            (IsCausedWith D.eq L.elect D.bytes S.certificate_bytes now (of_step step) self.old self.new) }
    {
        match step {
            Step::Ask(task) => taken(self.ask_planned(task, now)),
            Step::Offer(from, proposal) => taken(self.offer(from, proposal, now)),
            Step::Resolve(kind, view, proposal) => taken(self.resolve(kind, view, proposal, now)),
            Step::Repeat(view) => self.repeat(view),
            Step::Push(work) => self.push(work),
        }
    }

    /// Makes a planned call of the member. No verdict is planned; one would be ignored, since its offer may be closed
    /// by now.
    fn ask_planned(&mut self, task: Task<D>, now: u64) -> Result<bool, Fault>
        ensures done { OnOk result
            (IsTaskTaken D.eq L.elect D.bytes S.certificate_bytes now (is_verdict task) task self.old self.new) }
        ensures continues { Continues D.eq L.elect S.certificate_bytes S.IsSignature None self.old.core self.new.core }
        ensures batcher { self.new.batcher ≡ self.old.batcher }
        ensures due_work { OnOk result (KeepsApplicationWork self.old self.new) }
        ensures provenance { OnOk result
            (IsCausedWith D.eq L.elect D.bytes S.certificate_bytes now (of_task task) self.old self.new) }
    {
        if is_verdict(&task) {
            return Ok(false);
        }
        self.ask(task, now)
    }

    /// Sends the newest vote to nullify once more, if it is one of the view.
    fn repeat(&mut self, view: View) -> Result<bool, Fault>
        ensures done { OnOk result ((now : ℕ)
            → IsStepTaken D.eq L.elect D.bytes S.certificate_bytes now (planned.Repeat view) self.old self.new) }
        ensures alone { ContinuesWithoutInput D.eq L.elect S.certificate_bytes S.IsSignature self.old self.new }
        ensures due_work { OnOk result (KeepsApplicationWork self.old self.new) }
        ensures provenance { OnOk result
            ((now : ℕ) → IsCausedWithoutInput D.eq L.elect D.bytes S.certificate_bytes now self.old self.new) }
    {
        self.core.repeat(view)?;
        Ok(true)
    }

    /// Queues work to be carried out.
    fn push(&mut self, work: Work<S, D>) -> Result<bool, Fault>
        ensures done { OnOk result ((now : ℕ)
            → IsStepTaken D.eq L.elect D.bytes S.certificate_bytes now (planned.Push work) self.old self.new) }
        ensures alone { ContinuesWithoutInput D.eq L.elect S.certificate_bytes S.IsSignature self.old self.new }
        ensures due_work { OnOk result (KeepsTaken (work ∷ []) self.old self.new) }
        ensures provenance { OnOk result
            ((now : ℕ) → IsCausedWith D.eq L.elect D.bytes S.certificate_bytes now (of_work work) self.old self.new) }
    {
        self.core.push(work)?;
        Ok(true)
    }

    /// Drops what is stored of views that are not retained: votes here and elsewhere, and fetches of certificates that
    /// are not missing.
    fn drop_unretained(&mut self) -> Result<(), Fault>
        ensures alone { ContinuesWithPruning D.eq L.elect S.certificate_bytes S.IsSignature self.old self.new }
        ensures member { self.new.core.member ≡ self.old.core.member }
        ensures idle { (now : ℕ) → IsIdle now self.old.plan → IsIdle now self.new.plan }
        ensures builds { self.new.plan.builds.buildings.items ≡ self.old.plan.builds.buildings.items }
        ensures timeout { OnOk result (self.new.plan.timeout ≡ self.old.plan.timeout) }
        ensures lowest { OnOk result (HoldsFromKept self.new.core self.new.batcher) }
        ensures lacking { OnOk result (FetchesItsMissing self.new.core self.new.plan.repair) }
        ensures due_work { OnOk result (KeepsApplicationWork self.old self.new) }
        ensures provenance { OnOk result
            ((now : ℕ) → IsCausedWithPruning D.eq L.elect D.bytes S.certificate_bytes now self.old self.new) }
    {
        let lowest = self.lowest_retained()?;
        self.report_forgotten(lowest)?;
        self.batcher.forget(lowest);
        self.drop_final_fetches()
    }

    /// Returns the lowest retained view. Returns `OutOfMemory` if the member has failed.
    fn lowest_retained(&self) -> Result<View, Fault>
        ensures lowest { IfOk result (λ lowest. IfSome self.now.core.member.facts.life (λ x. min_active x ≡ lowest)) }
        ensures alive { IfOk result (λ lowest. option_map min_active self.now.core.member.facts.life ≡ Some lowest) }
    {
        match self.core.state() {
            Some(state) => Ok(state.min_active()),
            None => Err(Fault::OutOfMemory),
        }
    }

    /// Closes the fetches of certificates that the member's state is not missing.
    fn drop_final_fetches(&mut self) -> Result<(), Fault>
        ensures core { self.new.core ≡ self.old.core }
        ensures batcher { self.new.batcher ≡ self.old.batcher }
        ensures idle { (now : ℕ) → IsIdle now self.old.plan → IsIdle now self.new.plan }
        ensures builds { self.new.plan.builds.buildings.items ≡ self.old.plan.builds.buildings.items }
        ensures timeout { OnOk result (self.new.plan.timeout ≡ self.old.plan.timeout) }
        ensures lacking { OnOk result (FetchesItsMissing self.new.core self.new.plan.repair) }
        ensures planned { KeepsPlanned self.old.plan self.new.plan }
        ensures causes { AreAmong (planned_causes self.new.plan) (planned_causes self.old.plan) }
        ensures asks { OnOk result
            (KeepsFetching [] (λ kind view. held_by self.new kind view || is_final self.new.core.member.facts view)
            [] self.old.plan self.new.plan) }
    {
        match self.core.state() {
            Some(state) => self.plan.drop_served(state),
            None => Err(Fault::OutOfMemory),
        }
    }

    /// Queues `Work::Forget` for the views below, if more may be forgotten than before.
    fn report_forgotten(&mut self, lowest: View) -> Result<(), Fault>
        ensures alone { ContinuesWithoutInput D.eq L.elect S.certificate_bytes S.IsSignature self.old self.new }
        ensures member { self.new.core.member ≡ self.old.core.member }
        ensures plan { self.new.plan ≡ self.old.plan }
        ensures due_work { OnOk result (KeepsApplicationWork self.old self.new) }
        ensures provenance { OnOk result
            ((now : ℕ) → IsCausedWith D.eq L.elect D.bytes S.certificate_bytes now (of_work (work.Forget lowest))
            self.old self.new) }
    {
        if lowest <= self.forgotten {
            return Ok(());
        }
        self.core.push(Work::Forget(lowest))?;
        self.forgotten = lowest;
        Ok(())
    }

    /// Prunes the record. The member drops the past views first: the entries of a view stay as long as it is tracked,
    /// and at the start of a lifetime all views of the record are.
    fn prune_record(&mut self, now: u64) -> Result<(), Fault>
        ensures alone { ContinuesWithoutInput D.eq L.elect S.certificate_bytes S.IsSignature self.old self.new }
        ensures due_work { OnOk result (KeepsApplicationWork self.old self.new) }
        ensures provenance { OnOk result
            (IsCausedWithoutInput D.eq L.elect D.bytes S.certificate_bytes now self.old self.new) }
    {
        self.ask(Task::Prune, now)?;
        self.core.prune_record()?;
        Ok(())
    }
}

/// Returns whether a task passes a verdict on a proposal.
fn is_verdict<D: Digest>(task: &Task<D>) -> bool
    ensures { result ≡ is_verdict task.now }
{
    matches!(task, Task::Certified(_, _))
}

/// Returns true for a step that was taken, whatever its result, unless it has failed.
fn taken<T: Drop>(answer: Result<T, Fault>) -> Result<bool, Fault>
    ensures { IsOk result → IsOk answer }
{
    match answer {
        Ok(_) => Ok(true),
        Err(fault) => Err(fault),
    }
}
