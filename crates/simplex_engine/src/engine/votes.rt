//! Votes and certificates that are passed in.
#![tactic(auto, using(engine_outbox::proofs::Continuity::stays, engine_outbox::proofs::Continuity::goes_further, crate::proofs::CertificateVotes::takes_nothing, crate::proofs::CertificateVotes::takes_no_more, crate::proofs::CertificateVotes::takes_anyway))]

ghost use Rattle.std.specs.Prelude.{◌≡◌, [], ◌∷◌, ◌++◌, None, Some, IfOk, OnOk, IsTrue, not, false, ◌==◌, Ok, IsFalse};
ghost use Rattle.simplex_types.specs.Certificates.{certificate_facts};
ghost use Rattle.simplex_types.specs.Encoding.{certificate_subject};
ghost use Rattle.simplex_member.specs.Calls.{reply_facts};
ghost use Rattle.engine_outbox.specs.Refusals.{is_refused};
ghost use Rattle.simplex_engine.specs.Admission.{admits, admits_votes};

use super::Engine;
use super::calls::is_lasting;
use engine_outbox::output::Work;
use engine_votes::batcher::Counted;
use engine_votes::votes::{Vote, round_of};
use simplex_member::member::Reply;
use simplex_types::types::assembly::Assembly;
use simplex_types::types::{Certificate, CertificateScheme, Digest, Elector, Fault, Round, Scheme};
use simplex_voter::voter::State;

impl<S: Assembly<D>, L: Elector<S>, D: Digest> Engine<S, L, D> {
    ghost use Rattle.engine_outbox.specs.Continuity.{Continues};
    ghost use Rattle.simplex_engine.specs.CertificateVotes.{TakesNone};
    ghost use Rattle.simplex_engine.specs.Inputs.{subject_made};
    ghost use Rattle.engine_votes.specs.Subjects.{subject_round};
    ghost use Rattle.simplex_engine.specs.InputEffects.{IsSubmitted, IsCountFollowed};
    ghost use Rattle.simplex_engine.specs.InputResults.{IsInputTaken};
    ghost use Rattle.simplex_engine.specs.Provenance.{is_final, of_counted, work_by_reply, IsCausedWith};
    ghost use Rattle.simplex_engine.specs.ApplicationWork.{work_ahead, KeepsApplicationWork};
    ghost use Rattle.engine_outbox.specs.CertificateCalls.{certificate_call};
    ghost use Rattle.engine_planner.specs.FetchRequests.{received_by, is_plain, KeepsFetching};
    ghost use Rattle.engine_planner.specs.Causes.{reply_causes, planned_causes, Quorum};
    ghost use Rattle.engine_planner.specs.PlannedWork.{AreAmong, KeepsPlannedThen};
    ghost use Rattle.simplex_engine.specs.MemberViews.{TracksViews};
    ghost use Rattle.simplex_engine.specs.declared.input.Input.TheVariants as input;
    ghost use Rattle.simplex_engine.specs.Admission.{is_so};

    /// Returns whether votes of the round are taken. A vote of another epoch is not: an old vote, sent again, would
    /// take the place of this epoch's, and show a contradiction that its signer never signed.
    fn admits_votes(&self, round: Round) -> bool
        ensures { result ≡ is_so (λ x. admits_votes x round) self.now.core.member.facts }
    {
        match self.core.state() {
            Some(state) => takes_votes(state, round),
            None => false,
        }
    }

    /// Counts a vote if its round takes votes.
    pub(super) fn count(&mut self, vote: Vote<D, S::Signature>, now: u64) -> Result<bool, Fault>
        ensures { IsInputTaken D.eq L.elect D.bytes S.certificate_bytes S.IsSignature S.IsMadeOf S.participants now
            (input.Vote vote)
            self.old self.old self.new result }
    {
        if !self.admits_votes(round_of(&vote.subject)) {
            return Ok(false);
        }
        self.count_admitted(vote, now)
    }

    /// Counts a vote whose round takes votes, and passes the certificate that it completes to the member.
    fn count_admitted(&mut self, vote: Vote<D, S::Signature>, now: u64) -> Result<bool, Fault>
        requires { IsTrue (is_so (λ x. admits_votes x (subject_round vote.subject)) self.old.core.member.facts) }
        ensures { IsInputTaken D.eq L.elect D.bytes S.certificate_bytes S.IsSignature S.IsMadeOf S.participants now
            (input.Vote vote)
            self.old self.old self.new result }
    {
        match self.batcher.count(vote, true) {
            Ok(counted) => self.follow_counted(counted, now),
            Err(refused) => Err(Fault::from(refused)),
        }
    }

    /// Follows the result of counting a vote. Returns false if the vote was ignored.
    fn follow_counted(&mut self, counted: Counted<S, D>, now: u64) -> Result<bool, Fault>
        ensures continues { Continues D.eq L.elect S.certificate_bytes S.IsSignature
            (subject_made S.certificate_bytes counted) self.old.core self.new.core }
        ensures batcher { self.new.batcher ≡ self.old.batcher }
        ensures followed { IfOk result
            (IsCountFollowed D.eq L.elect S.certificate_bytes now counted self.old.plan.steps.items
            self.old.core.member.facts self.new.plan.steps.items self.new.core.member.facts) }
        ensures due_work { OnOk result (KeepsApplicationWork self.old self.new) }
        ensures provenance { OnOk result
            (IsCausedWith D.eq L.elect D.bytes S.certificate_bytes now (of_counted S.certificate_bytes counted)
            self.old self.new) }
    {
        match counted {
            Counted::Certified(certificate) => match self.accept(&certificate, now) {
                Ok(_) => Ok(true),
                Err(fault) => Err(fault),
            },
            Counted::Equivocated(first, second) => {
                self.plan.push(Work::Equivocated(first, second))?;
                Ok(true)
            }
            Counted::Taken => Ok(true),
            Counted::Known | Counted::Refused => Ok(false),
        }
    }

    /// Passes a certificate to the member if it is admitted.
    pub(super) fn accept(
        &mut self,
        certificate: &Certificate<S, D>,
        now: u64,
    ) -> Result<bool, Fault>
        ensures continues { Continues D.eq L.elect S.certificate_bytes S.IsSignature
            (Some (certificate_subject (certificate_facts S.certificate_bytes certificate.now)))
            self.old.core self.new.core }
        ensures votes { TakesNone self.old.batcher self.new.batcher }
        ensures batcher { self.new.batcher ≡ self.old.batcher }
        ensures dropped { IfOk result
            (λ is_of_use. IsFalse is_of_use → self.new.core.member.facts ≡ self.old.core.member.facts) }
        ensures unadmitted { IsFalse
            (is_so (λ x. admits x (certificate_facts S.certificate_bytes certificate.now)) self.old.core.member.facts)
            → (result ≡ Ok false) × (self.new ≡ self.old) }
        ensures acted { IsTrue (is_so (λ x. admits x (certificate_facts S.certificate_bytes certificate.now))
            self.old.core.member.facts) → IfOk result
            (IsSubmitted D.eq L.elect S.certificate_bytes now certificate.now self.old.core.member.facts
            self.new.core.member.facts) }
        ensures due_work { OnOk result (KeepsApplicationWork self.old self.new) }
        ensures provenance { OnOk result
            (IsCausedWith D.eq L.elect D.bytes S.certificate_bytes now (Quorum (certificate_subject
            (certificate_facts S.certificate_bytes certificate.now)) ∷ []) self.old self.new) }
    {
        if !self.admits(certificate) {
            return Ok(false);
        }
        let copy = certificate.clone(self.alloc)?;
        let reply = self.core.submit(copy, now)?;
        self.follow_certificate(certificate, &reply, now)
    }

    /// Returns whether the certificate is admitted. A second certificate of a kind and view is not: it would change
    /// nothing.
    fn admits(&self, certificate: &Certificate<S, D>) -> bool
        ensures { result ≡ is_so (λ x. admits x (certificate_facts S.certificate_bytes certificate.now))
            self.now.core.member.facts }
    {
        match self.core.state() {
            Some(state) => takes(state, certificate),
            None => false,
        }
    }

    /// Follows the reply to a certificate. Returns whether the certificate was not refused.
    fn follow_certificate(
        &mut self,
        certificate: &Certificate<S, D>,
        reply: &Reply<S, D>,
        now: u64,
    ) -> Result<bool, Fault>
        ensures core { self.new.core ≡ self.old.core }
        ensures votes { TakesNone self.old.batcher self.new.batcher }
        ensures batcher { self.new.batcher ≡ self.old.batcher }
        ensures of_use { IfOk result
            (λ is_of_use. is_of_use ≡ not (is_refused (reply_facts S.certificate_bytes reply.now))) }
        ensures planned { OnOk result (KeepsPlannedThen self.old.plan self.new.plan) }
        ensures seen { OnOk result (TracksViews self.new.core.member.facts self.new.plan) }
        ensures causes { OnOk result (AreAmong (planned_causes self.new.plan)
            (planned_causes self.old.plan
            ++ reply_causes now reply.now
            (certificate_call (certificate_facts S.certificate_bytes certificate.now) now))) }
        ensures works { IsTrue (is_plain reply.now) → OnOk result (AreAmong (work_by_reply reply.now
            (certificate_call (certificate_facts S.certificate_bytes certificate.now) now)) (work_ahead self.new)) }
        ensures asks { IsTrue (is_plain reply.now) → OnOk result (KeepsFetching (reply_causes now reply.now
            (certificate_call (certificate_facts S.certificate_bytes certificate.now) now))
            (λ kind view. is_final self.new.core.member.facts view)
            (received_by D.bytes S.certificate_bytes reply.now
            (certificate_call (certificate_facts S.certificate_bytes certificate.now) now))
            self.old.plan self.new.plan) }
    {
        let is_of_use = !is_refused(reply);
        self.update_views()?;
        self.plan.follow_certificate(certificate, reply, now)?;
        Ok(is_of_use)
    }
}

/// Returns whether votes of the round are taken.
pub(super) fn takes_votes<S: Scheme<D>, L: Elector<S>, D: Digest>(
    state: &State<S, L, D>,
    round: Round,
) -> bool
    ensures { result ≡ admits_votes state.now round }
{
    state.epoch() == round.epoch && state.admits_vote(round.view)
}

/// Returns whether a call is refused, and not because of memory.
fn is_refused<S: CertificateScheme, D: Digest>(reply: &Reply<S, D>) -> bool
    ensures { result ≡ is_refused (reply_facts S.certificate_bytes reply.now) }
{
    match reply {
        Reply::Fault(fault) => is_lasting(fault),
        Reply::NotAllowed => true,
        _ => false,
    }
}

/// Returns whether the certificate is taken, and would be the first of its kind and view.
fn takes<S: Scheme<D>, L: Elector<S>, D: Digest>(
    state: &State<S, L, D>,
    certificate: &Certificate<S, D>,
) -> bool
    ensures { result ≡ admits state.now (certificate_facts S.certificate_bytes certificate.now) }
{
    match certificate {
        Certificate::Notarization(notarization) => {
            let round = notarization.proposal.round;
            state.takes_round(&round) && state.notarization(round.view).is_none()
        }
        Certificate::Nullification(nullification) => {
            let round = nullification.round;
            state.takes_round(&round) && state.nullification(round.view).is_none()
        }
        Certificate::Finalization(finalization) => {
            let round = finalization.proposal.round;
            state.takes_round(&round) && state.finalization(round.view).is_none()
        }
    }
}
