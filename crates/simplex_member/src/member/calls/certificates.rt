//! The calls that pass certificates in, each as a method.

ghost use Rattle.std.specs.Prelude.{◌++◌, ◌≡◌, IfOk, IfErr};
ghost use Rattle.simplex_types.specs.Certificates.{notarization_facts, nullification_facts, finalization_facts, Accepted, Notarized, Nullified, Finalized};
ghost use Rattle.simplex_member.specs.Calls.{AddNotarization, AddNullification, AddFinalization, Added, AddedNullification};
ghost use Rattle.simplex_member.specs.MemberFacts.{IsCall};
ghost use Rattle.simplex_member.specs.CallSemantics.{if_new};
ghost use Rattle.simplex_member.specs.MethodContracts.{result_facts, UnchangedButLifetime, IsAnswered};

use crate::member::life::Member;
use crate::member::recorded_calls::{is_added, is_nullification_added, store_new, with_room};
use crate::member::refusal::{Refusal, is_lost};
use simplex_types::types::{
    Artifact, Digest, Elector, Fault, Finalization, Notarization, Nullification, Scheme,
};

impl<S: Scheme<D>, L: Elector<S>, D: Digest> Member<S, L, D> {
    /// Accepts a notarization: the next view is led by the elector's choice after it, the first of its view is
    /// recorded, and its view waits for certification. Returns whether it is the first of its view, and the key of a
    /// leader found to equivocate.
    ///
    /// Returns `NotAllowed` if it is of another epoch or of a view that is not retained, `ViewTooLarge` if its view or
    /// its parent's is above 2^63 - 1; `OutOfMemory`.
    #[tactic(auto, unfolding(crate::specs::MemberFacts::IsCall))]
    pub fn add_notarization(
        &mut self,
        notarization: Notarization<S, D>,
    ) -> Result<(bool, Option<S::PublicKey>), Refusal>
        ensures made { IsCall D.eq L.elect self.old.facts
            (AddNotarization (notarization_facts S.certificate_bytes notarization))
            (result_facts (λ added. Added added.0 added.1) result) self.new.facts }
        ensures answered { IfOk result (λ added. IsAnswered D.eq L.elect self.old.facts
            (AddNotarization (notarization_facts S.certificate_bytes notarization)) (Added added.0 added.1)
            self.new.facts) }
        ensures kept { IfErr result (λ refusal. UnchangedButLifetime self.old.facts refusal self.new.facts) }
        ensures votes { self.new.votes ≡ self.old.votes }
        ensures recorded { IfOk result (λ added. self.new.facts.entries
            ≡ self.old.facts.entries
            ++ if_new added.0 (Accepted (Notarized (notarization_facts S.certificate_bytes notarization)))) }
    {
        if self.failed {
            return Err(Refusal::Fault(Fault::Failed));
        }
        if !self.state.takes_round(&notarization.proposal.round) {
            return Err(Refusal::NotAllowed);
        }
        let copy = with_room(&mut self.artifacts, notarization.clone(self.alloc))?;
        let made = self.state.add_notarization(notarization);
        store_new(
            &mut self.artifacts,
            is_added(&made),
            Artifact::Notarization(copy),
        );
        self.failed = is_lost(&made);
        made.map_err(Refusal::Fault)
    }

    /// Accepts a nullification: the rest of its term is skipped, the next term's start is entered at this moment, in
    /// milliseconds, if it is ahead, and the first of its view is recorded. Returns whether it is the first of its
    /// view.
    ///
    /// Returns `NotAllowed` if it is of another epoch or of a view that is not retained, `ViewTooLarge` if its view is
    /// above 2^63 - 1, `TimeOverflow` if a deadline of the view to be entered passes 2^64 - 1 milliseconds;
    /// `OutOfMemory`.
    #[tactic(auto, unfolding(crate::specs::MemberFacts::IsCall))]
    pub fn add_nullification(
        &mut self,
        nullification: Nullification<S>,
        now: u64,
    ) -> Result<bool, Refusal>
        ensures made { IsCall D.eq L.elect self.old.facts
            (AddNullification (nullification_facts S.certificate_bytes nullification) now)
            (result_facts (λ is_new. AddedNullification is_new) result) self.new.facts }
        ensures answered { IfOk result (λ is_new. IsAnswered D.eq L.elect self.old.facts
            (AddNullification (nullification_facts S.certificate_bytes nullification) now) (AddedNullification is_new)
            self.new.facts) }
        ensures kept { IfErr result (λ refusal. UnchangedButLifetime self.old.facts refusal self.new.facts) }
        ensures votes { self.new.votes ≡ self.old.votes }
        ensures recorded { IfOk result (λ is_new. self.new.facts.entries
            ≡ self.old.facts.entries
            ++ if_new is_new (Accepted (Nullified (nullification_facts S.certificate_bytes nullification)))) }
    {
        if self.failed {
            return Err(Refusal::Fault(Fault::Failed));
        }
        if !self.state.takes_round(&nullification.round) {
            return Err(Refusal::NotAllowed);
        }
        let copy = with_room(&mut self.artifacts, nullification.clone(self.alloc))?;
        let made = self.state.add_nullification(nullification, now);
        store_new(
            &mut self.artifacts,
            is_nullification_added(&made),
            Artifact::Nullification(copy),
        );
        self.failed = is_lost(&made);
        made.map_err(Refusal::Fault)
    }

    /// Accepts a finalization: its view becomes the last finalized one if it is above the one before, the next view is
    /// entered at this moment, in milliseconds, if it is ahead, and the first of its view is recorded. Returns whether
    /// it is the first of its view, and the key of a leader found to equivocate.
    ///
    /// Returns `NotAllowed` if it is of another epoch or of a view that is not retained, `ViewTooLarge` if its view or
    /// its parent's is above 2^63 - 1, `TimeOverflow` if a deadline of the view to be entered passes 2^64 - 1
    /// milliseconds; `OutOfMemory`.
    #[tactic(auto, unfolding(crate::specs::MemberFacts::IsCall))]
    pub fn add_finalization(
        &mut self,
        finalization: Finalization<S, D>,
        now: u64,
    ) -> Result<(bool, Option<S::PublicKey>), Refusal>
        ensures made { IsCall D.eq L.elect self.old.facts
            (AddFinalization (finalization_facts S.certificate_bytes finalization) now)
            (result_facts (λ added. Added added.0 added.1) result) self.new.facts }
        ensures answered { IfOk result (λ added. IsAnswered D.eq L.elect self.old.facts
            (AddFinalization (finalization_facts S.certificate_bytes finalization) now) (Added added.0 added.1)
            self.new.facts) }
        ensures kept { IfErr result (λ refusal. UnchangedButLifetime self.old.facts refusal self.new.facts) }
        ensures votes { self.new.votes ≡ self.old.votes }
        ensures recorded { IfOk result (λ added. self.new.facts.entries
            ≡ self.old.facts.entries
            ++ if_new added.0 (Accepted (Finalized (finalization_facts S.certificate_bytes finalization)))) }
    {
        if self.failed {
            return Err(Refusal::Fault(Fault::Failed));
        }
        if !self.state.takes_round(&finalization.proposal.round) {
            return Err(Refusal::NotAllowed);
        }
        let copy = with_room(&mut self.artifacts, finalization.clone(self.alloc))?;
        let made = self.state.add_finalization(finalization, now);
        store_new(
            &mut self.artifacts,
            is_added(&made),
            Artifact::Finalization(copy),
        );
        self.failed = is_lost(&made);
        made.map_err(Refusal::Fault)
    }
}
