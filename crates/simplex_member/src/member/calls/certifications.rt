//! The calls on certifications, each as a method.

ghost use Rattle.std.specs.Prelude.{◌≡◌, option_map, IfOk, IfErr};
ghost use Rattle.simplex_types.specs.Certificates.{notarization_facts};
ghost use Rattle.simplex_member.specs.Calls.{CertifyCandidates, SetCertifyHandle, Certified, Judged, Candidates, Done};
ghost use Rattle.simplex_member.specs.MemberFacts.{IsCall};
ghost use Rattle.simplex_member.specs.MethodContracts.{result_facts, UnchangedButLifetime, IsAnswered};

use crate::member::life::Member;
use crate::member::recorded_calls;
use crate::member::refusal::{Refusal, is_lost};
use simplex_types::types::{Digest, Elector, Fault, Notarization, Proposal, Scheme, View};
use simplex_voter::voter::CertificateFetch;

impl<S: Scheme<D>, L: Elector<S>, D: Digest> Member<S, L, D> {
    /// Returns the proposals to certify next, and the notarizations that other waiting proposals need, each by rising
    /// view. A proposal is open until the verdict of its view.
    ///
    /// Returns `OutOfMemory`.
    #[tactic(auto, unfolding(crate::specs::MemberFacts::IsCall))]
    pub fn certify_candidates(
        &mut self,
    ) -> Result<(Vec<Proposal<D>>, Vec<CertificateFetch>), Refusal>
        ensures made { IsCall D.eq L.elect self.old.facts CertifyCandidates
            (result_facts (λ candidates. Candidates candidates.0.items candidates.1.items) result) self.new.facts }
        ensures answered { IfOk result (λ candidates. IsAnswered D.eq L.elect self.old.facts CertifyCandidates
            (Candidates candidates.0.items candidates.1.items) self.new.facts) }
        ensures kept { IfErr result (λ refusal. UnchangedButLifetime self.old.facts refusal self.new.facts) }
        ensures votes { self.new.votes ≡ self.old.votes }
    {
        if self.failed {
            return Err(Refusal::Fault(Fault::Failed));
        }
        let made = recorded_calls::certify_candidates(&mut self.state, &mut self.outstanding_work);
        self.failed = is_lost(&made);
        made.map_err(Refusal::Fault)
    }

    /// Marks the certification of a view's proposal as under way under a token, in place of an earlier one.
    ///
    /// Returns `NotAllowed` if the view's proposal wasn't offered, or has its verdict.
    #[tactic(auto, unfolding(crate::specs::MemberFacts::IsCall))]
    pub fn set_certify_handle(&mut self, view: View, token: u64) -> Result<(), Refusal>
        ensures made { IsCall D.eq L.elect self.old.facts (SetCertifyHandle view token)
            (result_facts (λ _. Done) result) self.new.facts }
        ensures answered { IfOk result
            (λ _. IsAnswered D.eq L.elect self.old.facts (SetCertifyHandle view token) Done self.new.facts) }
        ensures kept { IfErr result (λ refusal. UnchangedButLifetime self.old.facts refusal self.new.facts) }
        ensures votes { self.new.votes ≡ self.old.votes }
    {
        if self.failed {
            return Err(Refusal::Fault(Fault::Failed));
        }
        if !self.outstanding_work.is_offered(view) {
            return Err(Refusal::NotAllowed);
        }
        if !self.state.takes_certify_handle(view) {
            return Err(Refusal::NotAllowed);
        }
        Ok(self.state.set_certify_handle(view, token)?)
    }

    /// Records the verdict of a view's certification, at a moment in milliseconds. A true verdict enters the next view
    /// if that is ahead; a false one times the view out; the first verdict of a tracked view is recorded. Returns the
    /// view's notarization, or `None` if the view isn't tracked.
    ///
    /// Returns `NotAllowed` if a tracked view has no notarization or the other verdict, `TimeOverflow` if a deadline of
    /// the view to be entered passes 2^64 - 1 milliseconds; `OutOfMemory`.
    #[tactic(auto, unfolding(crate::specs::MemberFacts::IsCall))]
    pub fn certified(
        &mut self,
        view: View,
        success: bool,
        now: u64,
    ) -> Result<Option<Notarization<S, D>>, Refusal>
        ensures made { IsCall D.eq L.elect self.old.facts (Certified view success now)
            (result_facts (λ notarization. Judged success
            (option_map (notarization_facts S.certificate_bytes) notarization))
            result) self.new.facts }
        ensures answered { IfOk result
            (λ notarization. IsAnswered D.eq L.elect self.old.facts (Certified view success now)
            (Judged success (option_map (notarization_facts S.certificate_bytes) notarization)) self.new.facts) }
        ensures kept { IfErr result (λ refusal. UnchangedButLifetime self.old.facts refusal self.new.facts) }
        ensures votes { self.new.votes ≡ self.old.votes }
    {
        if self.failed {
            return Err(Refusal::Fault(Fault::Failed));
        }
        if !self.state.takes_verdict(view, success) {
            return Err(Refusal::NotAllowed);
        }
        self.artifacts.reserve(1)?;
        let made = recorded_calls::certified(
            &mut self.state,
            &mut self.outstanding_work,
            &mut self.artifacts,
            view,
            success,
            now,
        );
        self.failed = is_lost(&made);
        made.map_err(Refusal::Fault)
    }
}
