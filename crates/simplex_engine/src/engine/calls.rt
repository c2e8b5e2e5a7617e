//! Calls of the member, and what the engine plans after each reply.
#![tactic(auto)]

ghost use Rattle.std.specs.Prelude.{◌≡◌, ℕ, [], ◌∷◌, ◌++◌, None, IfOk, OnOk, IsNone, IsTrue, not};
ghost use Rattle.simplex_member.specs.Calls.{reply_facts};
ghost use Rattle.engine_planner.specs.Tasks.{call_of};
ghost use Rattle.simplex_engine.specs.NothingDue.{is_nothing};
ghost use Rattle.simplex_engine.specs.Timeouts.{is_later};
ghost use Rattle.engine_outbox.specs.Refusals.{is_lasting, says_nothing};

use super::Engine;
use engine_fetches::fetches::FetchKind;
use engine_planner::plan::Views;
use engine_planner::task::Task;
use simplex_member::member::Reply;
use simplex_types::types::assembly::Assembly;
use simplex_types::types::{CertificateScheme, Digest, Elector, Fault, Participant, View};
use simplex_voter::voter::Verify;

impl<S: Assembly<D>, L: Elector<S>, D: Digest> Engine<S, L, D> {
    ghost use Rattle.engine_outbox.specs.Continuity.{Continues};
    ghost use Rattle.simplex_engine.specs.OwnSteps.{ContinuesWithoutInput};
    ghost use Rattle.simplex_engine.specs.NothingDue.{ReturnsNothing, HasNothingDue, IsQuiet};
    ghost use Rattle.simplex_engine.specs.Timeouts.{IsTimed};
    ghost use Rattle.simplex_engine.specs.Steps.{HasSeenViews, IsFetched, IsReplyFollowed, IsTaskDone};
    ghost use Rattle.simplex_engine.specs.InputEffects.{HasDoneTask};
    ghost use Rattle.simplex_engine.specs.Provenance.{pending_causes, is_final, IsCausedWithoutInput, IsCausedWith, HasNoMissingCertificate, IsCallCaused};
    ghost use Rattle.simplex_engine.specs.ApplicationWork.{KeepsApplicationWork};
    ghost use Rattle.engine_planner.specs.FetchRequests.{received_by, never, KeepsFetching};
    ghost use Rattle.engine_planner.specs.Causes.{reply_causes, planned_causes, MissingCertificate};
    ghost use Rattle.engine_planner.specs.PlannedWork.{AreAmong, KeepsPlanned, KeepsPlannedThen, PlansAnswerThen};
    ghost use Rattle.simplex_engine.specs.MemberViews.{TracksViews};

    /// Asks the member for work for the application, then to drop the views below those that it retains, and then for
    /// its next timeout: a proposal that turns out to be invalid times its view out at once. Returns whether there is
    /// no work and the timeout lies after the moment.
    pub(super) fn ask_for_work(&mut self, now: u64) -> Result<bool, Fault>
        ensures alone { ContinuesWithoutInput D.eq L.elect S.certificate_bytes S.IsSignature self.old self.new }
        ensures quiet { IfOk result (λ quiet. IsTrue quiet
            → IsQuiet D.eq L.elect now self.new.plan.timeout self.old.core.member.facts self.new.core.member.facts) }
        ensures due_work { OnOk result (KeepsApplicationWork self.old self.new) }
        ensures provenance { OnOk result
            (IsCausedWithoutInput D.eq L.elect D.bytes S.certificate_bytes now self.old self.new) }
    {
        let mut has_none = self.ask_for(Task::TryVerify, now)?;
        has_none &= self.ask_for(Task::TryPropose, now)?;
        has_none &= self.ask_for(Task::CertifyCandidates, now)?;
        self.ask(Task::Prune, now)?;
        has_none &= self.ask_timeout(now)?;
        Ok(has_none)
    }

    /// Asks the member for its next timeout, and follows the reply. Returns whether it names none up to the moment.
    fn ask_timeout(&mut self, now: u64) -> Result<bool, Fault>
        ensures alone { ContinuesWithoutInput D.eq L.elect S.certificate_bytes S.IsSignature self.old self.new }
        ensures timed { IfOk result (λ is_later. IsTrue is_later
            → IsTimed D.eq L.elect now self.new.plan.timeout self.old.core.member.facts self.new.core.member.facts) }
        ensures due_work { OnOk result (KeepsApplicationWork self.old self.new) }
        ensures provenance { OnOk result
            (IsCausedWithoutInput D.eq L.elect D.bytes S.certificate_bytes now self.old self.new) }
    {
        let reply = self.core.call(Task::NextTimeout.call(now));
        let is_later = is_later(&reply, now);
        self.follow(Task::NextTimeout, reply, now)?;
        Ok(is_later)
    }

    /// Plans to ask for the votes and the certificates of the lowest view where one is due. Returns whether none is
    /// due.
    ///
    /// It scans the views from the last finalized one on, so it runs last, once all else is done.
    pub(super) fn plan_due_votes(&mut self) -> Result<bool, Fault>
        ensures core { self.new.core ≡ self.old.core }
        ensures batcher { self.new.batcher ≡ self.old.batcher }
        ensures nothing { IfOk result (λ nothing. IsTrue nothing
            → HasNothingDue D.eq L.elect self.new.core.member.facts × (self.new.plan ≡ self.old.plan)) }
        ensures planned { OnOk result (KeepsPlanned self.old.plan self.new.plan) }
        ensures causes { OnOk result (AreAmong (planned_causes self.new.plan) (planned_causes self.old.plan)) }
        ensures asks { OnOk result (KeepsFetching [] never [] self.old.plan self.new.plan) }
    {
        match self.first_due()? {
            Some(view) => {
                self.plan.touch(view)?;
                Ok(false)
            }
            None => Ok(true),
        }
    }

    /// Returns the lowest view, from the last finalized one on, where a vote is allowed or a certificate was not
    /// returned. Returns `OutOfMemory` if the member has failed.
    fn first_due(&self) -> Result<Option<View>, Fault>
        ensures { IfOk result (λ view. IsNone view → HasNothingDue D.eq L.elect self.now.core.member.facts) }
    {
        match self.core.state() {
            Some(state) => Ok(state.first_due(state.last_finalized())),
            None => Err(Fault::OutOfMemory),
        }
    }

    /// Asks for work, and follows the reply. Returns whether the reply has nothing new.
    fn ask_for(&mut self, task: Task<D>, now: u64) -> Result<bool, Fault>
        ensures alone { ContinuesWithoutInput D.eq L.elect S.certificate_bytes S.IsSignature self.old self.new }
        ensures nothing { IfOk result (λ nothing. IsTrue nothing
            → ReturnsNothing D.eq L.elect self.old.core.member.facts (call_of task now) self.new.core.member.facts) }
        ensures due_work { OnOk result (KeepsApplicationWork self.old self.new) }
        ensures provenance { OnOk result ((came : _) → HasNoMissingCertificate came
            → IsCallCaused now (came ++ pending_causes self.old) self.old.core.member.facts (call_of task now)
            → IsCausedWith D.eq L.elect D.bytes S.certificate_bytes now came self.old self.new) }
    {
        let reply = self.core.call(task.call(now));
        let is_nothing = is_nothing(&reply);
        self.follow(task, reply, now)?;
        Ok(is_nothing)
    }

    /// Makes a call of the member, and follows the reply. Returns false if the call was ignored.
    pub(super) fn ask(&mut self, task: Task<D>, now: u64) -> Result<bool, Fault>
        ensures continues { Continues D.eq L.elect S.certificate_bytes S.IsSignature None self.old.core self.new.core }
        ensures batcher { self.new.batcher ≡ self.old.batcher }
        ensures acted { IfOk result
            (HasDoneTask D.eq L.elect task now self.old.core.member.facts self.new.core.member.facts) }
        ensures done { OnOk result (IsTaskDone D.eq L.elect D.bytes S.certificate_bytes now task self.old self.new) }
        ensures due_work { OnOk result (KeepsApplicationWork self.old self.new) }
        ensures provenance { OnOk result ((came : _) → HasNoMissingCertificate came
            → IsCallCaused now (came ++ pending_causes self.old) self.old.core.member.facts (call_of task now)
            → IsCausedWith D.eq L.elect D.bytes S.certificate_bytes now came self.old self.new) }
    {
        let reply = self.core.call(task.call(now));
        self.follow(task, reply, now)
    }

    /// Follows the reply to a call. Returns whether the reply says that anything was done.
    fn follow(&mut self, task: Task<D>, reply: Reply<S, D>, now: u64) -> Result<bool, Fault>
        ensures core { self.new.core ≡ self.old.core }
        ensures batcher { self.new.batcher ≡ self.old.batcher }
        ensures of_use { IfOk result
            (λ is_of_use. is_of_use ≡ not (says_nothing (reply_facts S.certificate_bytes reply))) }
        ensures followed { OnOk result
            (IsReplyFollowed D.bytes S.certificate_bytes now task reply self.old.plan self.new.plan) }
        ensures planned { OnOk result
            (PlansAnswerThen task (reply_facts S.certificate_bytes reply) self.old.plan self.new.plan) }
        ensures seen { OnOk result (TracksViews self.new.core.member.facts self.new.plan) }
        ensures causes { OnOk result (AreAmong (planned_causes self.new.plan)
            (planned_causes self.old.plan ++ reply_causes now reply (call_of task now))) }
        ensures asks { OnOk result
            (KeepsFetching (reply_causes now reply (call_of task now))
            (λ kind view. is_final self.new.core.member.facts view)
            (received_by D.bytes S.certificate_bytes reply (call_of task now)) self.old.plan self.new.plan) }
    {
        let is_of_use = !says_nothing(&reply);
        self.update_views()?;
        self.plan.follow(task, reply, now)?;
        Ok(is_of_use)
    }

    /// Passes the member's current and last finalized view to the plan. Returns `OutOfMemory` if the member has failed.
    pub(super) fn update_views(&mut self) -> Result<(), Fault>
        ensures core { self.new.core ≡ self.old.core }
        ensures batcher { self.new.batcher ≡ self.old.batcher }
        ensures sees { OnOk result (HasSeenViews self.old.plan self.new.plan) }
        ensures planned { OnOk result (KeepsPlannedThen self.old.plan self.new.plan) }
        ensures seen { OnOk result (TracksViews self.new.core.member.facts self.new.plan) }
        ensures causes { OnOk result (AreAmong (planned_causes self.new.plan) (planned_causes self.old.plan)) }
        ensures asks { OnOk result
            (KeepsFetching [] (λ kind view. is_final self.new.core.member.facts view) [] self.old.plan self.new.plan) }
    {
        let Some(state) = self.core.state() else {
            return Err(Fault::OutOfMemory);
        };
        let views = Views {
            current: state.current_view(),
            last_finalized: state.last_finalized(),
        };
        self.plan.update_views(views)?;
        Ok(())
    }

    /// Plans the fetch of a missing certificate of a proposal; the proposal's leader is asked first.
    pub(super) fn resolve(
        &mut self,
        kind: FetchKind,
        view: View,
        proposal: View,
        now: u64,
    ) -> Result<(), Fault>
        ensures core { self.new.core ≡ self.old.core }
        ensures batcher { self.new.batcher ≡ self.old.batcher }
        ensures fetched { OnOk result (IsFetched now kind view self.old.plan self.new.plan) }
        ensures planned { KeepsPlanned self.old.plan self.new.plan }
        ensures causes { AreAmong (planned_causes self.new.plan)
            (planned_causes self.old.plan ++ MissingCertificate kind view ∷ []) }
        ensures asks { OnOk result
            (KeepsFetching (MissingCertificate kind view ∷ []) never [] self.old.plan self.new.plan) }
    {
        let leader = self.leader_of(proposal);
        self.plan.resolve(kind, view, leader, now)?;
        Ok(())
    }

    /// Returns the leader of the view, if it is known.
    fn leader_of(&self, view: View) -> Option<Participant> {
        match self.core.state() {
            Some(state) => state.leader_index(view),
            None => None,
        }
    }
}

/// Returns whether a reply has no work. One that names a missing certificate has some, even if that is fetched already:
/// the member names it once, and then continues with the next view.
fn is_nothing<S: CertificateScheme, D: Digest>(reply: &Reply<S, D>) -> bool
    ensures { result ≡ is_nothing (reply_facts S.certificate_bytes reply.now) }
{
    match reply {
        Reply::Work(verify) => match verify {
            Verify::Wait => true,
            Verify::Resolve { .. } | Verify::Ready(_, _) => false,
        },
        Reply::Request(request) => request.is_none(),
        Reply::Candidates(proposals, _) => proposals.is_empty(),
        _ => false,
    }
}

/// Returns whether a reply names no timeout up to a moment.
fn is_later<S: CertificateScheme, D: Digest>(reply: &Reply<S, D>, now: u64) -> bool
    ensures { result ≡ is_later now (reply_facts S.certificate_bytes reply.now) }
{
    match reply {
        Reply::Timeout(moment, _) => now < *moment,
        _ => true,
    }
}

/// Returns whether a reply says that nothing was done.
fn says_nothing<S: CertificateScheme, D: Digest>(reply: &Reply<S, D>) -> bool
    ensures { result ≡ says_nothing (reply_facts S.certificate_bytes reply.now) }
{
    match reply {
        Reply::Triggered(is_latched) => !*is_latched,
        Reply::Certified(_, notarization) => notarization.is_none(),
        Reply::Fault(fault) => is_lasting(fault),
        Reply::NotAllowed => true,
        _ => false,
    }
}

/// Returns whether a fault is not `OutOfMemory`.
pub(super) fn is_lasting(fault: &Fault) -> bool
    ensures { result ≡ is_lasting fault.now }
{
    !matches!(fault, Fault::OutOfMemory)
}
