//! Proposals of leaders, and those that this member builds: recorded, superseded or abandoned.

ghost use Rattle.std.specs.Prelude.{◌≡◌, ◌||◌, ◌≤◌, IfSome, IfOk, IfErr, OnOk, Err, None, true, ◌&&◌, not, false, if◌then◌else◌};
ghost use Rattle.simplex_types.specs.Terms.{IsVotable};
ghost use Rattle.simplex_types.specs.declared.types.fault.Fault.TheVariants.{OutOfMemory};
ghost use Rattle.std.specs.Option.{option_map_or};
ghost use Rattle.std.specs.Result.{IsOk};
ghost use Rattle.simplex_types.specs.Proposal.{same_proposal};
ghost use Rattle.simplex_round.specs.Slot.{holds_or_empty};
ghost use Rattle.simplex_round.specs.Round.{is_nullify};
ghost use Rattle.simplex_voter.specs.ProposalRequests.{proposal_of, proposed_round};

use super::conditions::names_too_large;
use super::state::State;
use simplex_types::reasons::HandoffAbandonedReason;
use simplex_types::types::{CertificateScheme, Context, Digest, Elector, Fault, Proposal, View};

impl<S: CertificateScheme, L: Elector<S>, D: Digest> State<S, L, D> {
    ghost use Rattle.simplex_voter.specs.Setup.{HasSameSetup};
    ghost use Rattle.simplex_voter.specs.Rounds.{largest_tracked};
    ghost use Rattle.simplex_voter.specs.Facts.{round_of, with_round, round_at};
    ghost use Rattle.simplex_voter.specs.Refusals.{HasFailed, proposal_refusal, plain_refusal, is_started};
    ghost use Rattle.simplex_voter.specs.Verification.{takes_proposal, set_proposal_answer, after_set_proposal, with_proposal};
    ghost use Rattle.simplex_voter.specs.ProposalRequests.{context_stands, proposed_answer, after_proposed, supersede_answer, after_supersede, abandonment_answer};

    /// Returns whether a proposal of the view is accepted: a floor was set, and it is of this epoch and of this view,
    /// which is retained.
    pub fn takes_proposal(&self, view: View, proposal: &Proposal<D>) -> bool
        ensures { result ≡ takes_proposal self.now view proposal.now }
    {
        self.takes_round(&proposal.round) && proposal.round.view == view
    }

    /// Accepts a proposal of the view's leader. The next view takes the leader of this one in its window; at a term's
    /// start, after a vote here, this member leads it if it is elected early. Returns whether the proposal is to be
    /// verified: it is the first of its view, and nullify was not decided there. One that differs from the first is not
    /// stored, and the view counts as equivocated; after a decision to nullify nothing is stored.
    ///
    /// It must be of this epoch and of this view, which must be retained. Returns `ViewTooLarge` if its view or its
    /// parent's is above 2^63 - 1.
    pub fn set_proposal(&mut self, view: View, proposal: &Proposal<D>) -> Result<bool, Fault>
        requires { (self.old.failed || takes_proposal self.old view proposal.now) ≡ true }
        ensures refused { IfSome (proposal_refusal self.old proposal.now)
            (λ fault. (result ≡ Err fault) × (self.new ≡ self.old)) }
        ensures answer { IfOk result (λ answer. answer ≡ set_proposal_answer self.old view) }
        ensures after { OnOk result (self.new ≡ after_set_proposal D.eq L.elect self.old view proposal.now) }
        ensures out_of_memory { proposal_refusal self.old proposal.now ≡ None
            → IfErr result (λ fault. (fault ≡ OutOfMemory) × HasFailed self.old self.new) }
    {
        if self.is_failed() {
            return Err(Fault::Failed);
        }
        if names_too_large(proposal) {
            return Err(Fault::ViewTooLarge);
        }
        match self.accept_proposal(view, proposal) {
            Ok(first) => Ok(first),
            Err(fault) => {
                self.fail();
                Err(fault)
            }
        }
    }

    fn accept_proposal(&mut self, view: View, proposal: &Proposal<D>) -> Result<bool, Fault>
        requires { IsVotable view }
        ensures answer { IfOk result (λ answer. answer ≡ set_proposal_answer self.old view) }
        ensures accepted { OnOk result (self.new ≡ after_set_proposal D.eq L.elect self.old view proposal.now) }
        ensures refused { IfErr result (λ fault. fault ≡ OutOfMemory) }
        ensures setup { HasSameSetup self.old self.new }
    {
        self.prepare_optimistic_successor(view)?;
        self.take_proposal(view, proposal)
    }

    /// Gives the round of a view a proposal, and returns whether the proposal is to be verified.
    fn take_proposal(&mut self, view: View, proposal: &Proposal<D>) -> Result<bool, Fault>
        requires { view ≤ largest_tracked }
        ensures answer { IfOk result (λ answer. answer ≡ set_proposal_answer self.old view) }
        ensures taken { OnOk result
            (self.new ≡ with_round self.old view (with_proposal D.eq (round_of self.old view) proposal.now)) }
        ensures refused { IfErr result (λ fault. fault ≡ OutOfMemory) }
        ensures setup { HasSameSetup self.old self.new }
    {
        self.rounds.take_proposal(view, proposal)
    }

    /// Records the proposal that was built for a context, at a moment in milliseconds, as this member's own and
    /// verified, bound to its parent's payload. Returns whether it did. It does not if the captured parent may no
    /// longer be built on, the view isn't tracked, nullify was decided there, or another proposal is held. The moment
    /// is recorded always.
    ///
    /// The state must have a floor.
    #[tactic(auto, unfolding(crate::specs::ProposalRequests::proposed_answer))]
    pub fn proposed(
        &mut self,
        context: &Context<D, S::PublicKey>,
        payload: D,
        now: u64,
    ) -> Result<bool, Fault>
        requires { (self.old.failed || is_started self.old) ≡ true }
        ensures refused { IfSome (plain_refusal self.old) (λ fault. (result ≡ Err fault) × (self.new ≡ self.old)) }
        ensures answer { IfOk result
            (λ recorded. recorded ≡ proposed_answer D.eq L.elect self.old context.now payload) }
        ensures after { OnOk result (self.new ≡ after_proposed D.eq L.elect self.old context.now payload now) }
        ensures taken { plain_refusal self.old ≡ None → IsOk result }
    {
        if self.is_failed() {
            return Err(Fault::Failed);
        }
        // what is known of the parent may have changed while the block was built
        let stands = self.context_stands(context);
        self.note_moment(now);
        if !stands {
            return Ok(false);
        }
        Ok(self.record_proposed(context, payload, now))
    }

    /// Records what was built in a tracked view, unless nullify was decided or another proposal is held. It is bound to
    /// its parent's payload, as a replay binds it, so that a certificate of another payload invalidates it.
    fn record_proposed(&mut self, context: &Context<D, S::PublicKey>, payload: D, now: u64) -> bool
        ensures recorded { result ≡ option_map_or
            (λ r. not (is_nullify r.decision)
            && holds_or_empty (same_proposal D.eq) r.slot (proposal_of context.now payload))
            (round_at self.old context.now.round.view) false }
        ensures after { self.new ≡ (if result
            then with_round self.old context.now.round.view
            (proposed_round D.eq (round_of self.old context.now.round.view) context.now payload now)
            else self.old) }
    {
        self.rounds.record_proposed(context, payload, now)
    }

    /// Returns whether the parent that a context captured may still be built on.
    fn context_stands(&self, context: &Context<D, S::PublicKey>) -> bool
        ensures { result ≡ context_stands D.eq L.elect self.now context.now }
    {
        self.captured_parent_valid(context.round.view, context.parent.0, context.parent.1)
    }

    /// Returns whether another parent can be built on and the captured one no longer. If so, clears the request to
    /// build, so that it can be made again.
    ///
    /// The state must have a floor.
    pub fn supersede_proposal_request(
        &mut self,
        context: &Context<D, S::PublicKey>,
    ) -> Result<bool, Fault>
        requires { (self.old.failed || is_started self.old) ≡ true }
        ensures refused { IfSome (plain_refusal self.old) (λ fault. (result ≡ Err fault) × (self.new ≡ self.old)) }
        ensures answer { IfOk result (λ superseded. superseded ≡ supersede_answer D.eq L.elect self.old context.now) }
        ensures after { OnOk result (self.new ≡ after_supersede D.eq L.elect self.old context.now) }
        ensures taken { plain_refusal self.old ≡ None → IsOk result }
    {
        if self.is_failed() {
            return Err(Fault::Failed);
        }
        if !self.is_superseded(context) {
            return Ok(false);
        }
        self.release(context.round.view);
        Ok(true)
    }

    /// Returns whether another parent can be built on and the captured one no longer. Without another parent the
    /// request stays: nothing could be asked for in its place.
    fn is_superseded(&self, context: &Context<D, S::PublicKey>) -> bool
        ensures { result ≡ supersede_answer D.eq L.elect self.now context.now }
    {
        self.find_parent(context.round.view).is_some() && !self.context_stands(context)
    }

    /// Returns why a handoff that is being built must be abandoned. `None` if it may continue: its parent is certified
    /// with the captured payload, or this member has not voted to nullify the current view and the captured parent may
    /// still be built on.
    ///
    /// The state must have a floor.
    pub fn pending_handoff_abandonment(
        &self,
        context: &Context<D, S::PublicKey>,
    ) -> Result<Option<HandoffAbandonedReason>, Fault>
        requires { (self.now.failed || is_started self.now) ≡ true }
        ensures refused { IfSome (plain_refusal self.now) (λ fault. result ≡ Err fault) }
        ensures answer { IfOk result (λ reason. reason ≡ abandonment_answer D.eq L.elect self.now context.now) }
        ensures taken { plain_refusal self.now ≡ None → IsOk result }
    {
        if self.is_failed() {
            return Err(Fault::Failed);
        }
        // with a certified parent this is an ordinary request
        if self.parent_certified(context.parent) {
            return Ok(None);
        }
        // an application that builds one block at a time would continue with this one, while verdicts are needed to
        // leave the nullified view
        if self.voted_nullify(self.current) {
            return Ok(Some(HandoffAbandonedReason::ParentNullify));
        }
        if self.context_stands(context) {
            return Ok(None);
        }
        Ok(Some(HandoffAbandonedReason::AncestryInvalidated))
    }
}
