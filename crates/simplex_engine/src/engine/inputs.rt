//! Inputs, and the call of the member for each.
#![tactic(auto)]

ghost use Rattle.std.specs.Prelude.{◌≡◌, ◌≢◌, [], ◌∷◌, None, Ok, IfOk, OnOk, IsTrue, false, ◌==◌, IsFalse};
ghost use Rattle.std.specs.List.{list_any};
ghost use Rattle.std.specs.Option.{option_map_or};
ghost use Rattle.simplex_engine.specs.InputEffects.{verification_of};
ghost use Rattle.simplex_engine.specs.Admission.{admits_proposal, is_of_epoch};
ghost use Rattle.simplex_member.specs.OutstandingWork.{is_offered};
ghost use Rattle.engine_planner.specs.declared.task.Task.TheVariants.{Certified, Proposed, SetProposal};

use super::Engine;
use super::votes::takes_votes;
use crate::input::Input;
use engine_planner::task::Task;
use simplex_types::types::assembly::Assembly;
use simplex_types::types::{
    Context, Digest, Elector, Fault, Participant, Proposal, Round, Scheme, View, Viewable,
};
use simplex_voter::voter::State;

impl<S: Assembly<D>, L: Elector<S>, D: Digest> Engine<S, L, D> {
    ghost use Rattle.engine_outbox.specs.Continuity.{Continues};
    ghost use Rattle.simplex_engine.specs.InputResults.{IsInputTaken};
    ghost use Rattle.engine_planner.specs.Blocks.{is_asked_in};
    ghost use Rattle.simplex_engine.specs.InputEffects.{HasDoneTask, IsBlockTaken};
    ghost use Rattle.simplex_engine.specs.Provenance.{IsCausedWith};
    ghost use Rattle.simplex_engine.specs.ApplicationWork.{KeepsApplicationWork};
    ghost use Rattle.simplex_engine.specs.Steps.{IsOffered};
    ghost use Rattle.engine_planner.specs.Causes.{Arrival, Message};
    ghost use Rattle.simplex_engine.specs.Admission.{is_so, ignoring, IsStoredEarly};

    /// Takes an input, while the engine has not failed, and counts it if it is ignored.
    pub(super) fn take(&mut self, input: Input<S, D>, now: u64) -> Result<bool, Fault>
        ensures { IsInputTaken D.eq L.elect D.bytes S.certificate_bytes S.IsSignature S.IsMadeOf
            S.participants now input
            self.old (ignoring self.old) self.new result }
    {
        let answer = self.take_in(input, now);
        if is_in_vain(&answer) {
            self.plan.ignore();
            return Ok(false);
        }
        answer
    }

    /// Dispatches an input by its kind.
    fn take_in(&mut self, input: Input<S, D>, now: u64) -> Result<bool, Fault>
        ensures { IsInputTaken D.eq L.elect D.bytes S.certificate_bytes S.IsSignature S.IsMadeOf
            S.participants now input
            self.old self.old self.new result }
    {
        match input {
            Input::Proposal(from, proposal) => self.offer(from, proposal, now),
            Input::Vote(vote) => self.count(vote, now),
            Input::Certificate(certificate) => self.accept(&certificate, now),
            Input::Verified(view, is_valid) => self.ask(verification(view, is_valid), now),
            Input::Built(context, payload) => self.build(&context, payload, now),
            Input::Certified(view, is_success) => self.judge(view, is_success, now),
            Input::GivenUp(view, reason) => self.ask(Task::TriggerTimeout(view, reason), now),
        }
    }

    /// Passes another member's proposal on if that member leads its view and the view takes votes. Otherwise stores it
    /// if its view comes soon. A proposal of another epoch is not stored.
    pub(super) fn offer(
        &mut self,
        from: Participant,
        proposal: Proposal<D>,
        now: u64,
    ) -> Result<bool, Fault>
        ensures continues { Continues D.eq L.elect S.certificate_bytes S.IsSignature None self.old.core self.new.core }
        ensures batcher { self.new.batcher ≡ self.old.batcher }
        ensures unadmitted { IsFalse (is_so (λ x. admits_proposal x from proposal.round) self.old.core.member.facts)
            → IfOk result (λ is_of_use.
            IsFalse is_of_use × IsStoredEarly from proposal self.old self.new) }
        ensures acted { IsTrue (is_so (λ x. admits_proposal x from proposal.round) self.old.core.member.facts)
            → IfOk result
            (HasDoneTask D.eq L.elect (SetProposal proposal.round.view proposal) now self.old.core.member.facts
            self.new.core.member.facts) }
        ensures offered { OnOk result (IsOffered D.eq L.elect D.bytes S.certificate_bytes now
            (is_so (λ x. admits_proposal x from proposal.round) self.old.core.member.facts) from proposal
            self.old self.new) }
        ensures due_work { OnOk result (KeepsApplicationWork self.old self.new) }
        ensures provenance { OnOk result
            (IsCausedWith D.eq L.elect D.bytes S.certificate_bytes now (Arrival from proposal ∷ []) self.old self.new) }
    {
        if self.admits_proposal(from, proposal.round) {
            return self.ask(Task::SetProposal(proposal.view(), proposal), now);
        }
        self.store_early(from, proposal)?;
        Ok(false)
    }

    /// Stores a proposal of this epoch whose view comes soon.
    fn store_early(&mut self, from: Participant, proposal: Proposal<D>) -> Result<(), Fault>
        ensures same { self.new ≡ record self.old { plan = record (self.old.plan) { early = self.new.plan.early } } }
        ensures kept { OnOk result (IsStoredEarly from proposal self.old self.new) }
    {
        if !self.is_of_this_epoch(proposal.round) {
            return Ok(());
        }
        self.plan.store_early(from, proposal.view(), proposal)?;
        Ok(())
    }

    /// Returns whether a proposal may be passed to the member. A proposal of this member itself never may: its key
    /// would have been used elsewhere.
    fn admits_proposal(&self, from: Participant, round: Round) -> bool
        ensures { result ≡ is_so (λ x. admits_proposal x from round) self.now.core.member.facts }
    {
        match self.core.state() {
            Some(state) => is_by_leader(state, from, round),
            None => false,
        }
    }

    /// Returns whether the round is of this epoch.
    pub(super) fn is_of_this_epoch(&self, round: Round) -> bool
        ensures { result ≡ is_so (λ x. is_of_epoch x round) self.now.core.member.facts }
    {
        match self.core.state() {
            Some(state) => state.epoch() == round.epoch,
            None => false,
        }
    }

    /// Takes the block that the application built, if the engine asked for it in exactly this context.
    fn build(
        &mut self,
        context: &Context<D, S::PublicKey>,
        payload: D,
        now: u64,
    ) -> Result<bool, Fault>
        ensures continues { Continues D.eq L.elect S.certificate_bytes S.IsSignature None self.old.core self.new.core }
        ensures batcher { self.new.batcher ≡ self.old.batcher }
        ensures acted { IfOk result
            (IsBlockTaken D.eq L.elect (list_any (is_asked_in D.eq context.now) self.old.plan.builds.buildings.items)
            context.now.round.view payload now self.old.core.member.facts self.new.core.member.facts) }
        ensures due_work { OnOk result (KeepsApplicationWork self.old self.new) }
        ensures provenance { OnOk result
            (IsCausedWith D.eq L.elect D.bytes S.certificate_bytes now
            (Message (Proposed context.now.round.view payload) ∷ [])
            self.old self.new) }
    {
        if !self.plan.is_building(context) {
            return Ok(false);
        }
        self.ask(Task::Proposed(context.round.view, payload), now)
    }

    /// Takes the application's verdict on a proposal that the member offered and that has no verdict yet. Any other
    /// verdict is ignored: the member would apply it to whatever proposal of the view is notarized, even one on a
    /// parent that is not certified.
    fn judge(&mut self, view: View, is_success: bool, now: u64) -> Result<bool, Fault>
        ensures continues { Continues D.eq L.elect S.certificate_bytes S.IsSignature None self.old.core self.new.core }
        ensures batcher { self.new.batcher ≡ self.old.batcher }
        ensures unadmitted { IsFalse (is_offered self.old.core.member.facts.outstanding_work view) → (result ≡ Ok false)
            × (self.new ≡ self.old) }
        ensures acted { IsTrue (is_offered self.old.core.member.facts.outstanding_work view) → IfOk result
            (HasDoneTask D.eq L.elect (Certified view is_success) now self.old.core.member.facts
            self.new.core.member.facts) }
        ensures due_work { OnOk result (KeepsApplicationWork self.old self.new) }
        ensures provenance { OnOk result
            (IsCausedWith D.eq L.elect D.bytes S.certificate_bytes now (Message (Certified view is_success) ∷ [])
            self.old self.new) }
    {
        if !self.core.awaits_verdict(view) {
            return Ok(false);
        }
        self.ask(Task::Certified(view, is_success), now)
    }
}

/// Returns whether a proposal of the round is by its view's leader, and not by this member itself.
fn is_by_leader<S: Scheme<D>, L: Elector<S>, D: Digest>(
    state: &State<S, L, D>,
    from: Participant,
    round: Round,
) -> bool
    ensures { result ≡ admits_proposal state.now from round }
{
    let leader = state.leader_index(round.view);
    takes_votes(state, round) && is_leader(leader, from) && !state.is_me(from)
}

/// Returns whether the member is this leader.
fn is_leader(leader: Option<Participant>, member: Participant) -> bool
    ensures { result ≡ option_map_or (λ i. i == member) leader false }
{
    match leader {
        Some(leader) => leader == member,
        None => false,
    }
}

/// Returns whether an input was ignored.
fn is_in_vain(answer: &Result<bool, Fault>) -> bool
    ensures vain { IsTrue result → answer.now ≡ Ok false }
    ensures other { IsFalse result → answer.now ≢ Ok false }
{
    matches!(answer, Ok(false))
}

/// Returns the task for the application's verification of the view's proposal.
fn verification<D: Digest>(view: View, is_valid: bool) -> Task<D>
    ensures { result ≡ verification_of is_valid view }
{
    if is_valid {
        Task::Verified(view)
    } else {
        Task::VerificationFailed(view)
    }
}
