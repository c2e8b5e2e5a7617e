//! The calls on proposals of other leaders, each as a method.

ghost use Rattle.std.specs.Prelude.{◌≡◌, IfOk, IfErr};
ghost use Rattle.simplex_member.specs.Calls.{SetProposal, TryVerify, Verified, VerificationFailed, Standing, Answered, Done};
ghost use Rattle.simplex_member.specs.MemberFacts.{IsCall};
ghost use Rattle.simplex_member.specs.MethodContracts.{result_facts, UnchangedButLifetime, IsAnswered};

use crate::member::life::Member;
use crate::member::refusal::{Refusal, is_lost};
use simplex_types::reasons::TimeoutReason;
use simplex_types::types::{Digest, Elector, Fault, Proposal, Scheme, View};
use simplex_voter::voter::Verify;

impl<S: Scheme<D>, L: Elector<S>, D: Digest> Member<S, L, D> {
    /// Accepts a proposal of the view's leader. Returns whether it is to be verified: it is the first of its view, and
    /// nullify was not decided there. One that differs from the first is not stored, and the view counts as
    /// equivocated.
    ///
    /// Returns `NotAllowed` if it is of another epoch or view, or of a view that is not retained, `ViewTooLarge` if its
    /// view or its parent's is above 2^63 - 1; `OutOfMemory`.
    #[tactic(auto, unfolding(crate::specs::MemberFacts::IsCall))]
    pub fn set_proposal(&mut self, view: View, proposal: Proposal<D>) -> Result<bool, Refusal>
        ensures made { IsCall D.eq L.elect self.old.facts (SetProposal view proposal)
            (result_facts (λ is_new. Answered is_new) result) self.new.facts }
        ensures answered { IfOk result
            (λ is_new. IsAnswered D.eq L.elect self.old.facts (SetProposal view proposal) (Answered is_new)
            self.new.facts) }
        ensures kept { IfErr result (λ refusal. UnchangedButLifetime self.old.facts refusal self.new.facts) }
        ensures votes { self.new.votes ≡ self.old.votes }
    {
        if self.failed {
            return Err(Refusal::Fault(Fault::Failed));
        }
        if !self.state.takes_proposal(view, &proposal) {
            return Err(Refusal::NotAllowed);
        }
        let made = self.state.set_proposal(view, &proposal);
        self.failed = is_lost(&made);
        made.map_err(Refusal::Fault)
    }

    /// Returns the next step in verifying the proposals of other leaders: a proposal, a certificate that is missing, or
    /// nothing. A proposal is open until `verified` or `verification_failed`.
    ///
    /// Returns `OutOfMemory` with nothing changed: the member makes room for the verification before it asks the state.
    #[tactic(auto, unfolding(crate::specs::MemberFacts::IsCall))]
    pub fn try_verify(&mut self) -> Result<Verify<D, S::PublicKey>, Refusal>
        ensures made { IsCall D.eq L.elect self.old.facts TryVerify
            (result_facts (λ verify. Standing verify) result) self.new.facts }
        ensures answered { IfOk result
            (λ verify. IsAnswered D.eq L.elect self.old.facts TryVerify (Standing verify) self.new.facts) }
        ensures kept { IfErr result (λ refusal. UnchangedButLifetime self.old.facts refusal self.new.facts) }
        ensures votes { self.new.votes ≡ self.old.votes }
    {
        if self.failed {
            return Err(Refusal::Fault(Fault::Failed));
        }
        self.outstanding_work.make_room()?;
        let verify = self.state.try_verify()?;
        self.outstanding_work.open_verification(&verify);
        Ok(verify)
    }

    /// Reports that the application found the view's proposal valid. Returns whether it is now marked valid: not if
    /// nullify was decided, another proposal was seen, or its binding no longer holds.
    ///
    /// Returns `NotAllowed` if no proposal of the view is being verified.
    #[tactic(auto, unfolding(crate::specs::MemberFacts::IsCall))]
    pub fn verified(&mut self, view: View) -> Result<bool, Refusal>
        ensures made { IsCall D.eq L.elect self.old.facts (Verified view)
            (result_facts (λ is_marked. Answered is_marked) result) self.new.facts }
        ensures answered { IfOk result
            (λ is_marked. IsAnswered D.eq L.elect self.old.facts (Verified view) (Answered is_marked) self.new.facts) }
        ensures kept { IfErr result (λ refusal. UnchangedButLifetime self.old.facts refusal self.new.facts) }
        ensures votes { self.new.votes ≡ self.old.votes }
    {
        if self.failed {
            return Err(Refusal::Fault(Fault::Failed));
        }
        if !self.outstanding_work.is_verifying(view) {
            return Err(Refusal::NotAllowed);
        }
        let is_marked = self.state.verified(view)?;
        self.outstanding_work.close_verification(view);
        Ok(is_marked)
    }

    /// Reports that the application refused the view's proposal, or could not verify it. The view times out at its next
    /// poll, for this reason and at this moment in milliseconds, unless the proposal's binding no longer holds.
    ///
    /// Returns `NotAllowed` if no proposal of the view is being verified.
    #[tactic(auto, unfolding(crate::specs::MemberFacts::IsCall))]
    pub fn verification_failed(
        &mut self,
        view: View,
        reason: TimeoutReason,
        now: u64,
    ) -> Result<(), Refusal>
        ensures made { IsCall D.eq L.elect self.old.facts (VerificationFailed view reason now)
            (result_facts (λ _. Done) result) self.new.facts }
        ensures answered { IfOk result
            (λ _. IsAnswered D.eq L.elect self.old.facts (VerificationFailed view reason now) Done self.new.facts) }
        ensures kept { IfErr result (λ refusal. UnchangedButLifetime self.old.facts refusal self.new.facts) }
        ensures votes { self.new.votes ≡ self.old.votes }
    {
        if self.failed {
            return Err(Refusal::Fault(Fault::Failed));
        }
        if !self.outstanding_work.is_verifying(view) {
            return Err(Refusal::NotAllowed);
        }
        self.state.verification_failed(view, reason, now)?;
        self.outstanding_work.close_verification(view);
        Ok(())
    }
}
