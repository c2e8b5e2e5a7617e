//! Rows of the round.

mod rows;

use self::rows::ROWS;
use super::{first_round, proposal, proposal_of};
use simplex_round::round::{Certification, Decision, Round};
use simplex_types::reasons::TimeoutReason;
use simplex_types::types::plain::{
    PlainCertificate, PlainDigest, PlainKey, PlainScheme, PlainSignature,
};
use simplex_types::types::{
    Artifact, Fault, Finalization, Finalize, Notarization, Notarize, Nullification, Nullify,
    Participant, Subject, View,
};
use std::alloc::Global;
use std::test::Fail;

type PlainRound = Round<PlainScheme, PlainDigest>;

/// A call with the expected answer. Proposals are named by their payloads, members by their indices, and moments are in
/// milliseconds.
pub enum Step {
    ShouldPropose(bool),
    TryPropose(Option<u32>),
    ClearProposalRequest,
    Proposed(u64, u64, bool),
    SetProposal(u64, bool),
    PendingVerification(Option<u64>),
    RequestVerify(bool),
    Verified(bool),
    Request(u64, bool),
    Bind(u64, u64),
    Unbind,
    IsBound(Option<(u64, u64)>),
    Holds(Option<u64>),
    IsVerified(bool),
    IsUnequivocated(bool),
    AddNotarization(u64, bool, Option<u32>),
    AddNullification(bool),
    AddFinalization(u64, bool, Option<u32>),
    BroadcastNotarization(Option<u64>),
    BroadcastNullification(bool),
    BroadcastFinalization(Option<u64>),
    IsNotarized(bool),
    Ancestry(Option<u64>),
    Forwardable(Option<u64>),
    PendingCertification(Option<u64>),
    SetToken(u64),
    Token(Option<u64>),
    Abort,
    IsAborted(bool),
    Certify(bool),
    IsCertified(bool),
    CertifiedProposal(Option<u64>),
    DecidedNotarize(bool),
    Notarize(Option<u64>),
    Nullify(Option<bool>),
    Finalize(Option<u64>),
    ReplayNotarize(u64),
    ReplayNullify,
    ReplayFinalize(u64),
    ReplayNotarization(u64),
    ReplayNullification,
    ReplayFinalization(u64),
    ReplayVerdict(bool),
    Enter(u64),
    SinceStart(u64, Option<u64>),
    SinceEntry(u64, Option<u64>),
    Arm(u64, u64, Option<u64>),
    Stall(Option<u64>),
    Latch(u64, TimeoutReason),
    Timeout(u64, bool, Option<(u64, TimeoutReason)>),
    Overflows(u64),
}

/// Member `me` at view 1 of four members, led by `leader`.
pub struct Row {
    pub name: &'static str,
    pub me: u32,
    pub leader: Option<u32>,
    pub steps: &'static [Step],
}

const RETRY: u64 = 500;

fn start(alloc: Global, me: u32, leader: Option<u32>) -> Result<PlainRound, Fail> {
    let scheme = PlainScheme::new(alloc, 4, Some(Participant::new(me % 4)))?;
    let mut round = Round::new(scheme, first_round());
    if let Some(leader) = leader {
        round.set_leader(Participant::new(leader % 4));
    }
    Ok(round)
}

fn key_of(member: Option<u32>) -> Option<PlainKey> {
    match member {
        Some(index) => Some(PlainKey(index)),
        None => None,
    }
}

fn payload_of(payload: Option<u64>) -> Option<PlainDigest> {
    match payload {
        Some(number) => Some(PlainDigest::new(number)),
        None => None,
    }
}

fn notarization(payload: u64) -> Notarization<PlainScheme, PlainDigest> {
    Notarization {
        proposal: proposal(payload),
        certificate: PlainCertificate { good: true },
    }
}

fn nullification() -> Nullification<PlainScheme> {
    Nullification {
        round: first_round(),
        certificate: PlainCertificate { good: true },
    }
}

fn finalization(payload: u64) -> Finalization<PlainScheme, PlainDigest> {
    Finalization {
        proposal: proposal(payload),
        certificate: PlainCertificate { good: true },
    }
}

/// Returns whether the round answers a step about its proposal as expected.
fn meets_proposal(round: &mut PlainRound, step: &Step) -> bool {
    match *step {
        Step::ShouldPropose(wanted) => round.should_propose() == wanted,
        Step::TryPropose(leader) => match round.try_propose() {
            Some(found) => Some(found.key) == key_of(leader),
            None => leader.is_none(),
        },
        Step::ClearProposalRequest => {
            round.clear_proposal_request();
            true
        }
        Step::Proposed(now, payload, taken) => round.proposed(now, proposal(payload)) == taken,
        Step::SetProposal(payload, first) => round.set_proposal(&proposal(payload)) == first,
        Step::PendingVerification(payload) => match round.pending_verification() {
            Some((_leader, held)) => Some(held) == proposal_of(payload),
            None => payload.is_none(),
        },
        Step::RequestVerify(first) => round.request_verify() == first,
        Step::Verified(marked) => round.verified() == marked,
        Step::Request(view, first) => round.request(View::new(view)) == first,
        Step::Holds(payload) => round.proposal().copied() == proposal_of(payload),
        Step::IsVerified(wanted) => round.is_verified() == wanted,
        Step::IsUnequivocated(wanted) => round.has_unequivocated_proposal() == wanted,
        _ => meets_binding(round, step),
    }
}

fn meets_binding(round: &mut PlainRound, step: &Step) -> bool {
    match *step {
        Step::Bind(payload, parent) => {
            round.set_verifying(proposal(payload), PlainDigest::new(parent));
            true
        }
        Step::Unbind => {
            round.clear_verifying();
            true
        }
        Step::IsBound(wanted) => match (round.verifying(), wanted) {
            (Some((held, parent)), Some((payload, parent_payload))) => {
                *held == proposal(payload) && *parent == PlainDigest::new(parent_payload)
            }
            (Some(_), None) | (None, Some(_)) => false,
            (None, None) => true,
        },
        _ => meets_moments(round, step),
    }
}

/// Returns whether the round answers a step about its moments as expected.
fn meets_moments(round: &mut PlainRound, step: &Step) -> bool {
    match *step {
        Step::Enter(now) => {
            round.mark_entered(now);
            true
        }
        Step::SinceStart(now, wanted) => round.elapsed_since_start(now) == wanted,
        Step::SinceEntry(now, wanted) => round.elapsed_since_entry(now) == wanted,
        Step::Arm(leader, certification, stall) => {
            round.set_deadlines(leader, certification, stall);
            true
        }
        Step::Stall(wanted) => round.stall_deadline() == wanted,
        Step::Latch(now, reason) => {
            round.latch_timeout(now, reason);
            true
        }
        Step::Timeout(now, allow, wanted) => match round.next_timeout(now, RETRY, allow) {
            Ok(timeout) => timeout == wanted,
            Err(_fault) => false,
        },
        Step::Overflows(now) => {
            matches!(
                round.next_timeout(now, RETRY, true),
                Err(Fault::TimeOverflow)
            )
        }
        _ => meets_certification(round, step),
    }
}

/// Returns whether the round answers a step about its certification as expected.
fn meets_certification(round: &mut PlainRound, step: &Step) -> bool {
    match *step {
        Step::PendingCertification(payload) => {
            round.pending_certification() == proposal_of(payload)
        }
        Step::SetToken(token) => {
            round.set_certify_handle(token);
            true
        }
        Step::Token(wanted) => round.certify_token() == wanted,
        Step::Abort => {
            round.abort_certify();
            true
        }
        Step::IsAborted(wanted) => round.is_certify_aborted() == wanted,
        Step::Certify(success) => certify(round, success),
        Step::IsCertified(wanted) => round.is_certified() == wanted,
        Step::CertifiedProposal(payload) => {
            round.certified_proposal().copied() == proposal_of(payload)
        }
        _ => meets_votes(round, step),
    }
}

/// Records a verdict that no other contradicts.
fn certify(round: &mut PlainRound, success: bool) -> bool {
    match round.certification() {
        Certification::Judged(verdict) => {
            if verdict != success {
                return false;
            }
        }
        Certification::Ready | Certification::Outstanding(_) | Certification::Aborted => {}
    }
    round.certified(success);
    true
}

/// Returns whether the round answers a step about this member's votes as expected.
fn meets_votes(round: &mut PlainRound, step: &Step) -> bool {
    match *step {
        Step::DecidedNotarize(wanted) => round.broadcast_notarize() == wanted,
        Step::Notarize(payload) => {
            let ready = round.can_construct_notarize();
            round.construct_notarize() == proposal_of(payload) && ready == payload.is_some()
        }
        Step::Nullify(retry) => round.construct_nullify() == retry,
        Step::Finalize(payload) => round.construct_finalize() == proposal_of(payload),
        _ => meets_replay(round, step),
    }
}

/// Returns whether the round takes a replayed artifact that is no vote.
fn meets_replay(round: &mut PlainRound, step: &Step) -> bool {
    match *step {
        Step::ReplayVerdict(success) => match round.certification() {
            Certification::Ready => {
                round.replay(&Artifact::Certification(first_round(), success));
                true
            }
            Certification::Outstanding(_) | Certification::Judged(_) | Certification::Aborted =>
                false,
        },
        Step::ReplayNotarization(payload) => {
            round.replay(&Artifact::Notarization(notarization(payload)));
            true
        }
        Step::ReplayNullification => {
            round.replay(&Artifact::Nullification(nullification()));
            true
        }
        Step::ReplayFinalization(payload) => {
            round.replay(&Artifact::Finalization(finalization(payload)));
            true
        }
        _ => false,
    }
}

/// Returns member 0's signature on a subject.
fn signature(subject: Subject<PlainDigest>) -> PlainSignature {
    PlainSignature {
        key: PlainKey(0),
        subject,
    }
}

/// Returns whether the round takes a replayed vote, which is of member 0.
fn replay_vote(round: &mut PlainRound, step: &Step) -> bool {
    let signer = Participant::new(0);
    if !round.is_signer(signer) {
        return false;
    }
    match (step, round.decision()) {
        (Step::ReplayNotarize(payload), _) => {
            round.replay(&Artifact::Notarize(Notarize {
                proposal: proposal(*payload),
                signer,
                signature: signature(Subject::Notarize(proposal(*payload))),
            }));
            true
        }
        (Step::ReplayNullify, Decision::Pending { .. } | Decision::Nullify { .. }) => {
            round.replay(&Artifact::Nullify(Nullify {
                round: first_round(),
                signer,
                signature: signature(Subject::Nullify(first_round())),
            }));
            true
        }
        (Step::ReplayFinalize(payload), Decision::Pending { .. } | Decision::Finalize) => {
            round.replay(&Artifact::Finalize(Finalize {
                proposal: proposal(*payload),
                signer,
                signature: signature(Subject::Finalize(proposal(*payload))),
            }));
            true
        }
        _ => false,
    }
}

/// Returns whether the round does and answers what the step expects.
fn meets(alloc: Global, round: &mut PlainRound, step: &Step) -> Result<bool, Fault> {
    let met = match *step {
        Step::ReplayNotarize(_) | Step::ReplayNullify | Step::ReplayFinalize(_) => {
            replay_vote(round, step)
        }
        Step::AddNotarization(payload, added, equivocator) => {
            round.add_notarization(notarization(payload)) == (added, key_of(equivocator))
        }
        Step::AddNullification(added) => round.add_nullification(nullification()) == added,
        Step::AddFinalization(payload, added, equivocator) => {
            round.add_finalization(finalization(payload)) == (added, key_of(equivocator))
        }
        Step::BroadcastNotarization(payload) => match round.broadcast_notarization(alloc)? {
            Some(sent) => Some(sent.proposal) == proposal_of(payload),
            None => payload.is_none(),
        },
        Step::BroadcastNullification(once) => {
            round.broadcast_nullification(alloc)?.is_some() == once
        }
        Step::BroadcastFinalization(payload) => match round.broadcast_finalization(alloc)? {
            Some(sent) => Some(sent.proposal) == proposal_of(payload),
            None => payload.is_none(),
        },
        Step::IsNotarized(wanted) => round.is_directly_notarized() == wanted,
        Step::Ancestry(payload) => {
            round.certificate_ancestry_payload().copied() == payload_of(payload)
        }
        Step::Forwardable(payload) => {
            round.forwardable_proposal().copied() == proposal_of(payload)
        }
        _ => meets_proposal(round, step),
    };
    Ok(met)
}

/// Returns the place of the first step that the round does not meet.
fn first_unmet(
    alloc: Global,
    round: &mut PlainRound,
    steps: &[Step],
) -> Result<Option<usize>, Fault> {
    for (place, step) in steps.iter().enumerate() {
        if !meets(alloc, round, step)? {
            return Ok(Some(place));
        }
    }
    Ok(None)
}

/// Returns the place of the first step that a round of the row does not meet.
fn first_unmet_of(alloc: Global, row: &Row) -> Result<Option<usize>, Fail> {
    let mut round = start(alloc, row.me, row.leader)?;
    Ok(first_unmet(alloc, &mut round, row.steps)?)
}

#[test]
fn rows_hold(rt: HostRuntime) -> Result<(), Fail> {
    for row in &ROWS {
        assert_eq!(rt; first_unmet_of(rt.alloc(), row)?, None, "{}", row.name);
    }
    Ok(())
}
