//! The calls on proposals of this member's own, each as a method.

ghost use Rattle.std.specs.Prelude.{◌≡◌, IfOk, IfErr};
ghost use Rattle.simplex_member.specs.Calls.{TryPropose, Proposed, SupersedeProposalRequest, PendingHandoffAbandonment, ReleaseProposalRequest, Requested, Answered, Abandoned, Released};
ghost use Rattle.simplex_member.specs.MemberFacts.{IsCall};
ghost use Rattle.simplex_member.specs.MethodContracts.{result_facts, UnchangedButLifetime, IsAnswered};

use crate::member::life::Member;
use crate::member::refusal::Refusal;
use simplex_types::reasons::HandoffAbandonedReason;
use simplex_types::types::{Digest, Elector, Fault, Scheme, View};
use simplex_voter::voter::ProposalRequest;

impl<S: Scheme<D>, L: Elector<S>, D: Digest> Member<S, L, D> {
    /// Returns what this member must build next, if anything. A request is open in its view until `proposed`, a true
    /// `supersede_proposal_request`, `release_proposal_request`, or another request there.
    ///
    /// Returns `OutOfMemory` with nothing changed: the member makes room for the request before it asks the state.
    #[tactic(auto, unfolding(crate::specs::MemberFacts::IsCall))]
    pub fn try_propose(&mut self) -> Result<Option<ProposalRequest<D, S::PublicKey>>, Refusal>
        ensures made { IsCall D.eq L.elect self.old.facts TryPropose
            (result_facts (λ request. Requested request) result) self.new.facts }
        ensures answered { IfOk result
            (λ request. IsAnswered D.eq L.elect self.old.facts TryPropose (Requested request) self.new.facts) }
        ensures kept { IfErr result (λ refusal. UnchangedButLifetime self.old.facts refusal self.new.facts) }
        ensures votes { self.new.votes ≡ self.old.votes }
    {
        if self.failed {
            return Err(Refusal::Fault(Fault::Failed));
        }
        self.outstanding_work.make_room()?;
        let request = self.state.try_propose()?;
        self.outstanding_work.open_request(&request);
        Ok(request)
    }

    /// Passes the payload that was built on request in a view, at a moment in milliseconds. It is recorded as this
    /// member's proposal, verified, unless the captured parent may no longer be built on, the view isn't tracked,
    /// nullify was decided there, or another proposal is held. Returns whether it is recorded. The request is closed
    /// either way.
    ///
    /// Returns `NotAllowed` if no request is open in the view.
    #[tactic(auto, unfolding(crate::specs::MemberFacts::IsCall))]
    pub fn proposed(&mut self, view: View, payload: D, now: u64) -> Result<bool, Refusal>
        ensures made { IsCall D.eq L.elect self.old.facts (Proposed view payload now)
            (result_facts (λ is_held. Answered is_held) result) self.new.facts }
        ensures answered { IfOk result
            (λ is_held. IsAnswered D.eq L.elect self.old.facts (Proposed view payload now) (Answered is_held)
            self.new.facts) }
        ensures kept { IfErr result (λ refusal. UnchangedButLifetime self.old.facts refusal self.new.facts) }
        ensures votes { self.new.votes ≡ self.old.votes }
    {
        if self.failed {
            return Err(Refusal::Fault(Fault::Failed));
        }
        let Some(context) = self.outstanding_work.context(view) else {
            return Err(Refusal::NotAllowed);
        };
        let is_held = self.state.proposed(context, payload, now)?;
        self.outstanding_work.close_context(view);
        Ok(is_held)
    }

    /// Returns whether another parent can be built on and the captured one no longer. If so, closes the request in the
    /// view, so that it can be made again.
    ///
    /// Returns `NotAllowed` if no request is open in the view.
    #[tactic(auto, unfolding(crate::specs::MemberFacts::IsCall))]
    pub fn supersede_proposal_request(&mut self, view: View) -> Result<bool, Refusal>
        ensures made { IsCall D.eq L.elect self.old.facts (SupersedeProposalRequest view)
            (result_facts (λ is_superseded. Answered is_superseded) result) self.new.facts }
        ensures answered { IfOk result (λ is_superseded. IsAnswered D.eq L.elect self.old.facts
            (SupersedeProposalRequest view) (Answered is_superseded) self.new.facts) }
        ensures kept { IfErr result (λ refusal. UnchangedButLifetime self.old.facts refusal self.new.facts) }
        ensures votes { self.new.votes ≡ self.old.votes }
    {
        if self.failed {
            return Err(Refusal::Fault(Fault::Failed));
        }
        let Some(context) = self.outstanding_work.context(view) else {
            return Err(Refusal::NotAllowed);
        };
        let is_superseded = self.state.supersede_proposal_request(context)?;
        if is_superseded {
            self.outstanding_work.close_context(view);
        }
        Ok(is_superseded)
    }

    /// Returns why a handoff that is being built in a view must be abandoned, or `None` if it may continue.
    ///
    /// Returns `NotAllowed` if no request is open in the view.
    #[tactic(auto, unfolding(crate::specs::MemberFacts::IsCall))]
    pub fn pending_handoff_abandonment(
        &mut self,
        view: View,
    ) -> Result<Option<HandoffAbandonedReason>, Refusal>
        ensures made { IsCall D.eq L.elect self.old.facts (PendingHandoffAbandonment view)
            (result_facts (λ reason. Abandoned reason) result) self.new.facts }
        ensures answered { IfOk result
            (λ reason. IsAnswered D.eq L.elect self.old.facts (PendingHandoffAbandonment view) (Abandoned reason)
            self.new.facts) }
        ensures kept { IfErr result (λ refusal. UnchangedButLifetime self.old.facts refusal self.new.facts) }
        ensures votes { self.new.votes ≡ self.old.votes }
    {
        if self.failed {
            return Err(Refusal::Fault(Fault::Failed));
        }
        let Some(context) = self.outstanding_work.context(view) else {
            return Err(Refusal::NotAllowed);
        };
        Ok(self.state.pending_handoff_abandonment(context)?)
    }

    /// Closes the request to build in a view, so that it can be made again while no proposal is held there. Returns
    /// whether one was open.
    #[tactic(auto, unfolding(crate::specs::MemberFacts::IsCall))]
    pub fn release_proposal_request(&mut self, view: View) -> Result<bool, Refusal>
        ensures made { IsCall D.eq L.elect self.old.facts (ReleaseProposalRequest view)
            (result_facts (λ was_open. Released was_open) result) self.new.facts }
        ensures answered { IfOk result
            (λ was_open. IsAnswered D.eq L.elect self.old.facts (ReleaseProposalRequest view) (Released was_open)
            self.new.facts) }
        ensures kept { IfErr result (λ refusal. UnchangedButLifetime self.old.facts refusal self.new.facts) }
        ensures votes { self.new.votes ≡ self.old.votes }
    {
        if self.failed {
            return Err(Refusal::Fault(Fault::Failed));
        }
        self.state.release_proposal_request(view)?;
        let was_open = self.outstanding_work.has_context(view);
        self.outstanding_work.close_context(view);
        Ok(was_open)
    }
}
