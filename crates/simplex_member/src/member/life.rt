//! A member: its state, and the record from which the state can be rebuilt.

ghost use Rattle.std.specs.Prelude.{◌≡◌, ◌++◌, [], None, IfOk, IfErr, IfSome, OnOk, length};
ghost use Rattle.std.specs.Option.{option_copied};

use super::calls::{Call, Reply};
use super::outstanding_work::OutstandingWork;
use super::restart::store_finalization;
use simplex_record::record::{RecoverError, Start, begin, retention_of};
use simplex_types::types::{Artifact, CertificateScheme, Digest, Elector, Scheme, View, ViewDelta};
use simplex_voter::voter::State;
use std::alloc::Global;
use std::marker::Model;

/// The reply to a call, from the result of its method.
macro_rules! replied {
    ($result:expr, $answer:pat => $reply:expr) => {
        match $result {
            Ok($answer) => $reply,
            Err(refusal) => Reply::refused(refusal),
        }
    };
}

/// A voter's state with its record, which holds each vote before it is returned. A lifetime of a member lasts from its
/// start, a restart or a resume to the next one.
///
/// A member tests what a call requires of the host, and returns `NotAllowed` if that does not hold. It fails if a call
/// left its state without memory, or if a vote that was cast could not be recorded; then only its record remains.
#[derive(Drop)]
pub struct Member<S: CertificateScheme, L: Elector<S>, D> {
    pub(super) alloc: Global,
    pub(super) state: Box<State<S, L, D>>,
    /// Requests of the state that are still unanswered.
    pub(super) outstanding_work: OutstandingWork<D, S::PublicKey>,
    pub(super) artifacts: Vec<Artifact<S, D>>,
    /// A drop never removes one of the first `closed` artifacts.
    pub(super) closed: usize,
    pub(super) is_pruned: bool,
    /// The retention of the last lifetime: a failed state no longer has it.
    pub(super) retention: ViewDelta,
    /// The smallest retention of all lifetimes.
    pub(super) least_retention: ViewDelta,
    pub(super) failed: bool,
}

impl<S: CertificateScheme, L: Elector<S>, D> Model for Member<S, L, D> {
    ghost use Rattle.std.specs.Prelude.{◌≡◌, true, false};
    ghost use Rattle.simplex_voter.specs.Refusals.{is_started};
    ghost use Rattle.simplex_record.specs.Entries.{entries_of};
    ghost use Rattle.simplex_record.specs.Votes.{votes_of};
    ghost use Rattle.simplex_member.specs.MemberFacts.{SignedMember, living, open_while};

    ghost Value = { SignedMember S.PublicKey L D S.Signature };

    ghost view = { λ m. record {
      facts = record {
        life = living m.failed m.state.value;
        outstanding_work = open_while m.failed m.outstanding_work.open_now;
        entries = entries_of S.certificate_bytes m.artifacts.items;
        closed = m.closed;
        is_pruned = m.is_pruned;
        retention = m.retention;
        least_retention = m.least_retention;
      };
      votes = votes_of m.artifacts.items;
    } };

    ghost invariant = { λ m. m.failed ≡ false → (m.state.value.failed ≡ false) × (is_started m.state.value ≡ true) };
}

impl<S: CertificateScheme, L: Elector<S>, D: Digest> Member<S, L, D> {
    ghost use Rattle.std.specs.Prelude.{true, false};
    ghost use Rattle.simplex_voter.specs.Refusals.{is_started};
    ghost use Rattle.simplex_record.specs.Entries.{entries_of};
    ghost use Rattle.simplex_record.specs.Votes.{votes_of};
    ghost use Rattle.simplex_member.specs.Calls.{reply_facts, asked};
    ghost use Rattle.simplex_member.specs.MemberFacts.{IsCall, HasGrown};
    ghost use Rattle.simplex_member.specs.OutstandingWork.{is_offered};
    ghost use Rattle.simplex_member.specs.ReplySignatures.{IsSignedReply, signed_reply};
    ghost use Rattle.simplex_member.specs.MethodContracts.{is_reply_to, IfAnswered, IfRefused, IsAnswered, UnchangedButLifetime};
    ghost use Rattle.simplex_record.specs.Recovery.{recover_error};
    ghost use Rattle.simplex_record.specs.Start.{set_up, IsErrorDue};
    ghost use Rattle.simplex_member.specs.Start.{started_member};
    ghost use Rattle.simplex_types.specs.Config.{floor_facts};

    /// Starts a member that never voted: its state starts at a floor, and its record holds only the floor's
    /// finalization. A member that did vote must continue from its journal by `Member::resume`, or it could vote twice
    /// in a view.
    ///
    /// The elector's members must be the scheme's participants. Returns `OtherEpoch`, `ZeroView` or `ViewTooLarge` if
    /// the floor's finalization is of another epoch or of view 0, or names a view above 2^63 - 1; `TimeOverflow` if a
    /// deadline passes 2^64 - 1 milliseconds.
    pub fn start(alloc: Global, start: Start<S, L, D>) -> Result<Member<S, L, D>, RecoverError>
        requires { L.members start.settings.elector ≡ length (S.participants start.settings.scheme) }
        ensures started { IfOk result (λ member. member.facts ≡ started_member D.eq L.elect
            (set_up S.me S.participants L.terms L.elects_early start.settings)
            (floor_facts S.certificate_bytes start.floor) start.now) }
        ensures votes { IfOk result (λ member. member.votes ≡ []) }
        ensures accepted { OnOk result
            (recover_error D.eq (set_up S.me S.participants L.terms L.elects_early start.settings)
            (floor_facts S.certificate_bytes start.floor) start.now [] ≡ None) }
        ensures refused { IfErr result (IsErrorDue (recover_error D.eq
            (set_up S.me S.participants L.terms L.elects_early start.settings)
            (floor_facts S.certificate_bytes start.floor) start.now [])) }
    {
        let retention = retention_of(&start.settings);
        let (state, finalization) = begin(alloc, start.settings, start.floor, start.now)?;
        let mut artifacts = Vec::new(alloc);
        store_finalization(&mut artifacts, finalization)?;
        Ok(Member {
            alloc,
            state,
            outstanding_work: OutstandingWork::new(alloc),
            artifacts,
            closed: 0,
            is_pruned: false,
            retention,
            least_retention: retention,
            failed: false,
        })
    }

    /// Returns the state while the member has not failed: it has a floor, and has not failed either.
    pub fn state(&self) -> Option<&State<S, L, D>>
        ensures life { option_copied result ≡ self.now.facts.life }
        ensures started { IfSome result (λ state. (state.now.failed ≡ false) × (is_started state.now ≡ true)) }
    {
        if self.failed {
            return None;
        }
        Some(&self.state)
    }

    /// Returns whether the member offered the view's proposal for certification and has received no verdict on it;
    /// false once it has failed.
    pub fn awaits_verdict(&self, view: View) -> bool
        ensures { result ≡ is_offered self.now.facts.outstanding_work view }
    {
        !self.failed && self.outstanding_work.is_offered(view)
    }

    /// Returns the record, oldest entry first; also of a member that has failed.
    pub fn record(&self) -> &[Artifact<S, D>]
        ensures entries { entries_of S.certificate_bytes result.now ≡ self.now.facts.entries }
        ensures votes { votes_of result.now ≡ self.now.votes }
    {
        &self.artifacts
    }

    /// Makes a call of the state and records its effect: a certificate that was newly added, a view's first verdict,
    /// and a vote with its signature, unless it is a repeat, before it is returned. Each call is also a method, with a
    /// result of its own type.
    ///
    /// Each request of the state to build, verify or certify is open until it is answered:
    /// - a request to build until its payload, a true reply that it must be replaced, or its release,
    /// - a verification until its answer,
    /// - an offer until its verdict.
    ///
    /// Returns `NotAllowed`, with nothing changed, if
    /// - a certificate is of another epoch or of a view that is not retained,
    /// - a verdict is of a tracked view that has no notarization or another verdict,
    /// - a proposal is of another epoch or view or of a view that is not retained,
    /// - no request, verification or offer is open in the view,
    /// - the current view has no timeout.
    ///
    /// The faults `ViewTooLarge` and `TimeOverflow` change nothing. After `OutOfMemory` nothing has changed, or the
    /// member has failed, and returns `Failed` from then on.
    pub fn call(&mut self, call: Call<S, D>) -> Reply<S, D>
    where
        S: Scheme<D>,
        ensures made { IsCall D.eq L.elect self.old.facts (asked S.certificate_bytes call)
            (reply_facts S.certificate_bytes result) self.new.facts }
        ensures of_its_kind { is_reply_to (reply_facts S.certificate_bytes result)
            (asked S.certificate_bytes call) ≡ true }
        ensures answered { IfAnswered (reply_facts S.certificate_bytes result)
            (IsAnswered D.eq L.elect self.old.facts (asked S.certificate_bytes call)
            (reply_facts S.certificate_bytes result)
            self.new.facts) }
        ensures kept { IfRefused (reply_facts S.certificate_bytes result)
            (λ refusal. UnchangedButLifetime self.old.facts refusal self.new.facts) }
        ensures grown { HasGrown self.old.facts self.new.facts }
        ensures signed { IfSome self.old.facts.life (IsSignedReply S.IsSignature result) }
        ensures votes { self.new.votes ≡ self.old.votes ++ signed_reply result }
    {
        self.make(call)
    }

    /// Makes a call by its method.
    fn make(&mut self, call: Call<S, D>) -> Reply<S, D>
    where
        S: Scheme<D>,
        ensures made { IsCall D.eq L.elect self.old.facts (asked S.certificate_bytes call)
            (reply_facts S.certificate_bytes result) self.new.facts }
        ensures signed { IfSome self.old.facts.life (IsSignedReply S.IsSignature result) }
        ensures votes { self.new.votes ≡ self.old.votes ++ signed_reply result }
    {
        match call {
            Call::AddNotarization(notarization) =>
                replied!(self.add_notarization(notarization), added => Reply::Added(added.0, added.1)),
            Call::AddNullification(nullification, now) =>
                replied!(self.add_nullification(nullification, now), is_new => Reply::AddedNullification(is_new)),
            Call::AddFinalization(finalization, now) =>
                replied!(self.add_finalization(finalization, now), added => Reply::Added(added.0, added.1)),
            Call::SetProposal(view, proposal) =>
                replied!(self.set_proposal(view, proposal), is_new => Reply::Flag(is_new)),
            Call::TryPropose => replied!(self.try_propose(), request => Reply::Request(request)),
            Call::Proposed(view, payload, now) =>
                replied!(self.proposed(view, payload, now), is_held => Reply::Flag(is_held)),
            Call::SupersedeProposalRequest(view) =>
                replied!(self.supersede_proposal_request(view), is_superseded => Reply::Flag(is_superseded)),
            Call::PendingHandoffAbandonment(view) =>
                replied!(self.pending_handoff_abandonment(view), reason => Reply::Abandoned(reason)),
            Call::ReleaseProposalRequest(view) =>
                replied!(self.release_proposal_request(view), was_open => Reply::Released(was_open)),
            Call::TryVerify => replied!(self.try_verify(), verify => Reply::Work(verify)),
            Call::Verified(view) =>
                replied!(self.verified(view), is_marked => Reply::Flag(is_marked)),
            Call::VerificationFailed(view, reason, now) =>
                replied!(self.verification_failed(view, reason, now), () => Reply::Unit),
            Call::ConstructNotarize(view) =>
                replied!(self.construct_notarize(view), vote => Reply::Notarize(vote)),
            Call::CertifyCandidates =>
                replied!(self.certify_candidates(), candidates => Reply::Candidates(candidates.0, candidates.1)),
            Call::SetCertifyHandle(view, token) =>
                replied!(self.set_certify_handle(view, token), () => Reply::Unit),
            Call::Certified(view, success, now) =>
                replied!(self.certified(view, success, now), notarization => Reply::Certified(success, notarization)),
            Call::ConstructNullify(view, reason) =>
                replied!(self.construct_nullify(view, reason), vote => Reply::Nullify(vote)),
            Call::ConstructFinalize(view) =>
                replied!(self.construct_finalize(view), vote => Reply::Finalize(vote)),
            Call::BroadcastNotarization(view) =>
                replied!(self.broadcast_notarization(view), certificate => Reply::Certificate(certificate)),
            Call::BroadcastNullification(view) =>
                replied!(self.broadcast_nullification(view), certificate => Reply::Certificate(certificate)),
            Call::BroadcastFinalization(view) =>
                replied!(self.broadcast_finalization(view), certificate => Reply::Certificate(certificate)),
            Call::GetBestCertificate =>
                replied!(self.get_best_certificate(), certificate => Reply::Certificate(certificate)),
            Call::TriggerTimeout(view, reason, now) =>
                replied!(self.trigger_timeout(view, reason, now), latched => Reply::Triggered(latched)),
            Call::NextTimeout(now) =>
                replied!(self.next_timeout(now), timeout => Reply::Timeout(timeout.0, timeout.1)),
            Call::Prune => replied!(self.prune(), views => Reply::Views(views)),
        }
    }
}
