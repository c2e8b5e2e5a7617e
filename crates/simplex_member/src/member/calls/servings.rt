//! The calls that return certificates or drop views, each as a method.

ghost use Rattle.std.specs.Prelude.{◌≡◌, option_map, OnOk, IsNone, IfOk, IfErr};
ghost use Rattle.simplex_types.specs.Certificates.{certificate_facts};
ghost use Rattle.simplex_member.specs.Calls.{BroadcastNotarization, BroadcastNullification, BroadcastFinalization, GetBestCertificate, Prune, Returned, Dropped};
ghost use Rattle.simplex_voter.specs.StateAnswers.{broadcast_notarization_answer, broadcast_nullification_answer, broadcast_finalization_answer};
ghost use Rattle.simplex_member.specs.MemberFacts.{IsCall};
ghost use Rattle.simplex_member.specs.MethodContracts.{result_facts, UnchangedButLifetime, IsAnswered, HasNoneLeft};

use crate::member::broadcasts::{
    broadcast_finalization, broadcast_notarization, broadcast_nullification,
};
use crate::member::life::Member;
use crate::member::refusal::{Refusal, is_lost};
use simplex_types::types::{Certificate, Digest, Elector, Fault, Scheme, View};

impl<S: Scheme<D>, L: Elector<S>, D: Digest> Member<S, L, D> {
    /// Returns the notarization of a view for broadcast, unless it is missing or was returned or replayed before.
    ///
    /// Returns `OutOfMemory`, but never if there is none to return.
    #[tactic(auto, unfolding(crate::specs::MemberFacts::IsCall))]
    pub fn broadcast_notarization(
        &mut self,
        view: View,
    ) -> Result<Option<Certificate<S, D>>, Refusal>
        ensures made { IsCall D.eq L.elect self.old.facts (BroadcastNotarization view)
            (result_facts (λ certificate. Returned
            (option_map (certificate_facts S.certificate_bytes) certificate)) result)
            self.new.facts }
        ensures answered { IfOk result
            (λ certificate. IsAnswered D.eq L.elect self.old.facts (BroadcastNotarization view)
            (Returned (option_map (certificate_facts S.certificate_bytes) certificate)) self.new.facts) }
        ensures kept { IfErr result (λ refusal. UnchangedButLifetime self.old.facts refusal self.new.facts) }
        ensures votes { self.new.votes ≡ self.old.votes }
        ensures once { OnOk result (HasNoneLeft broadcast_notarization_answer self.new.facts view) }
        ensures none_left { HasNoneLeft broadcast_notarization_answer self.old.facts view
            → IfOk result (λ certificate. IsNone certificate) }
    {
        if self.failed {
            return Err(Refusal::Fault(Fault::Failed));
        }
        let made = broadcast_notarization(&mut self.state, view);
        self.failed = is_lost(&made);
        made.map_err(Refusal::Fault)
    }

    /// Returns the nullification of a view for broadcast, unless it is missing or was returned or replayed before.
    ///
    /// Returns `OutOfMemory`, but never if there is none to return.
    #[tactic(auto, unfolding(crate::specs::MemberFacts::IsCall))]
    pub fn broadcast_nullification(
        &mut self,
        view: View,
    ) -> Result<Option<Certificate<S, D>>, Refusal>
        ensures made { IsCall D.eq L.elect self.old.facts (BroadcastNullification view)
            (result_facts (λ certificate. Returned
            (option_map (certificate_facts S.certificate_bytes) certificate)) result)
            self.new.facts }
        ensures answered { IfOk result
            (λ certificate. IsAnswered D.eq L.elect self.old.facts (BroadcastNullification view)
            (Returned (option_map (certificate_facts S.certificate_bytes) certificate)) self.new.facts) }
        ensures kept { IfErr result (λ refusal. UnchangedButLifetime self.old.facts refusal self.new.facts) }
        ensures votes { self.new.votes ≡ self.old.votes }
        ensures once { OnOk result (HasNoneLeft broadcast_nullification_answer self.new.facts view) }
        ensures none_left { HasNoneLeft broadcast_nullification_answer self.old.facts view
            → IfOk result (λ certificate. IsNone certificate) }
    {
        if self.failed {
            return Err(Refusal::Fault(Fault::Failed));
        }
        let made = broadcast_nullification(&mut self.state, view);
        self.failed = is_lost(&made);
        made.map_err(Refusal::Fault)
    }

    /// Returns the finalization of a view for broadcast, unless it is missing or was returned or replayed before.
    ///
    /// Returns `OutOfMemory`, but never if there is none to return.
    #[tactic(auto, unfolding(crate::specs::MemberFacts::IsCall))]
    pub fn broadcast_finalization(
        &mut self,
        view: View,
    ) -> Result<Option<Certificate<S, D>>, Refusal>
        ensures made { IsCall D.eq L.elect self.old.facts (BroadcastFinalization view)
            (result_facts (λ certificate. Returned
            (option_map (certificate_facts S.certificate_bytes) certificate)) result)
            self.new.facts }
        ensures answered { IfOk result
            (λ certificate. IsAnswered D.eq L.elect self.old.facts (BroadcastFinalization view)
            (Returned (option_map (certificate_facts S.certificate_bytes) certificate)) self.new.facts) }
        ensures kept { IfErr result (λ refusal. UnchangedButLifetime self.old.facts refusal self.new.facts) }
        ensures votes { self.new.votes ≡ self.old.votes }
        ensures once { OnOk result (HasNoneLeft broadcast_finalization_answer self.new.facts view) }
        ensures none_left { HasNoneLeft broadcast_finalization_answer self.old.facts view
            → IfOk result (λ certificate. IsNone certificate) }
    {
        if self.failed {
            return Err(Refusal::Fault(Fault::Failed));
        }
        let made = broadcast_finalization(&mut self.state, view);
        self.failed = is_lost(&made);
        made.map_err(Refusal::Fault)
    }

    /// Returns a copy of the certificate that helps others into the current view; `None` in view 1.
    ///
    /// Returns `OutOfMemory` with nothing changed, and never if there is none to return.
    #[tactic(auto, unfolding(crate::specs::MemberFacts::IsCall))]
    pub fn get_best_certificate(&mut self) -> Result<Option<Certificate<S, D>>, Refusal>
        ensures made { IsCall D.eq L.elect self.old.facts GetBestCertificate
            (result_facts (λ certificate. Returned
            (option_map (certificate_facts S.certificate_bytes) certificate)) result)
            self.new.facts }
        ensures answered { IfOk result (λ certificate. IsAnswered D.eq L.elect self.old.facts GetBestCertificate
            (Returned (option_map (certificate_facts S.certificate_bytes) certificate)) self.new.facts) }
        ensures kept { IfErr result (λ refusal. UnchangedButLifetime self.old.facts refusal self.new.facts) }
        ensures votes { self.new.votes ≡ self.old.votes }
    {
        if self.failed {
            return Err(Refusal::Fault(Fault::Failed));
        }
        Ok(self.state.get_best_certificate()?)
    }

    /// Drops the rounds below the lowest retained view, and returns their views, rising. The record stays.
    ///
    /// Returns `OutOfMemory`.
    #[tactic(auto, unfolding(crate::specs::MemberFacts::IsCall))]
    pub fn prune(&mut self) -> Result<Vec<View>, Refusal>
        ensures made { IsCall D.eq L.elect self.old.facts Prune
            (result_facts (λ views. Dropped views.items) result) self.new.facts }
        ensures answered { IfOk result
            (λ views. IsAnswered D.eq L.elect self.old.facts Prune (Dropped views.items) self.new.facts) }
        ensures kept { IfErr result (λ refusal. UnchangedButLifetime self.old.facts refusal self.new.facts) }
        ensures votes { self.new.votes ≡ self.old.votes }
    {
        if self.failed {
            return Err(Refusal::Fault(Fault::Failed));
        }
        let made = self.state.prune();
        self.failed = is_lost(&made);
        made.map_err(Refusal::Fault)
    }
}
