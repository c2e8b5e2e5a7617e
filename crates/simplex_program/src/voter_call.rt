//! The member's calls that lines name. Their certificates and proposals are of one epoch, and the certificates are
//! valid.

ghost use Rattle.std.specs.Prelude.{◌≡◌, MatchOption, true, false};
ghost use Rattle.simplex_types.specs.Plain.{digest_bytes};
ghost use Rattle.simplex_member.specs.Calls.{asked};
ghost use Rattle.simplex_program.specs.declared.voter_line.VoterLine.TheVariants.{Broadcast};
ghost use Rattle.simplex_program.specs.Plain.{plain_bytes};
ghost use Rattle.simplex_program.specs.Voter.{DenotesCall, IsProposal, is_no_call, brings, builds_proposals, is_about_proposals, asks};

use crate::rounds::{nullification_of, round_of};
use crate::voter_line::{CertificateKind, VoterLine};
use simplex_member::member::Call;
use simplex_types::reasons::TimeoutReason;
use simplex_types::types::plain::{PlainCertificate, PlainDigest, PlainScheme};
use simplex_types::types::{Finalization, Notarization, Proposal, View};

/// Returns the call that a line names, if it names one.
pub(crate) fn call_of(line: &VoterLine) -> Option<Call<PlainScheme, PlainDigest>>
    ensures { MatchOption result (is_no_call line.now ≡ true) (λ call. DenotesCall line.now (asked plain_bytes call)) }
{
    if let Some(call) = certificate_call(line) {
        return Some(call);
    }
    if let Some(call) = building_call(line) {
        return Some(call);
    }
    if let Some(call) = judging_call(line) {
        return Some(call);
    }
    asking_call(line)
}

/// Returns the call of a line that passes a certificate or a verdict.
fn certificate_call(line: &VoterLine) -> Option<Call<PlainScheme, PlainDigest>>
    ensures { MatchOption result (brings line.now ≡ false) (λ call. DenotesCall line.now (asked plain_bytes call)) }
{
    match *line {
        VoterLine::Notarization {
            view,
            parent,
            payload,
        } => Some(Call::AddNotarization(notarization_of(view, parent, payload))),
        VoterLine::Nullification { view, now } => {
            Some(Call::AddNullification(nullification_of(view), now))
        }
        VoterLine::Finalization {
            view,
            parent,
            payload,
            now,
        } => {
            let finalization = finalization_of(view, parent, payload);
            Some(Call::AddFinalization(finalization, now))
        }
        VoterLine::Verdict { view, success, now } => Some(Call::Certified(view, success, now)),
        _ => None,
    }
}

/// Returns the call of a line about building a proposal.
fn building_call(line: &VoterLine) -> Option<Call<PlainScheme, PlainDigest>>
    ensures { MatchOption result (builds_proposals line.now ≡ false)
        (λ call. DenotesCall line.now (asked plain_bytes call)) }
{
    match *line {
        VoterLine::Propose => Some(Call::TryPropose),
        VoterLine::Proposed { view, payload, now } => {
            Some(Call::Proposed(view, PlainDigest::new(payload), now))
        }
        VoterLine::Supersede(view) => Some(Call::SupersedeProposalRequest(view)),
        VoterLine::Abandon(view) => Some(Call::PendingHandoffAbandonment(view)),
        VoterLine::Release(view) => Some(Call::ReleaseProposalRequest(view)),
        _ => None,
    }
}

/// Returns the call of a line about the proposals of leaders, and about their verification and certification.
fn judging_call(line: &VoterLine) -> Option<Call<PlainScheme, PlainDigest>>
    ensures { MatchOption result (is_about_proposals line.now ≡ false)
        (λ call. DenotesCall line.now (asked plain_bytes call)) }
{
    match *line {
        VoterLine::Proposal {
            view,
            parent,
            payload,
        } => Some(Call::SetProposal(view, proposal_of(view, parent, payload))),
        VoterLine::Verify => Some(Call::TryVerify),
        VoterLine::Verified(view) => Some(Call::Verified(view)),
        VoterLine::Rejected { view, now } => {
            let reason = TimeoutReason::InvalidProposal;
            Some(Call::VerificationFailed(view, reason, now))
        }
        VoterLine::Candidates => Some(Call::CertifyCandidates),
        VoterLine::Token { view, token } => Some(Call::SetCertifyHandle(view, token)),
        _ => None,
    }
}

/// Returns the call of a line that asks for a vote, a certificate, the next timeout or a pruning, or passes a timeout.
fn asking_call(line: &VoterLine) -> Option<Call<PlainScheme, PlainDigest>>
    ensures { MatchOption result (asks line.now ≡ false) (λ call. DenotesCall line.now (asked plain_bytes call)) }
{
    match *line {
        VoterLine::Notarize(view) => Some(Call::ConstructNotarize(view)),
        VoterLine::Nullify(view) => Some(Call::ConstructNullify(view, TimeoutReason::Retry)),
        VoterLine::Finalize(view) => Some(Call::ConstructFinalize(view)),
        VoterLine::Broadcast { kind, view } => Some(broadcast_of(kind, view)),
        VoterLine::Best => Some(Call::GetBestCertificate),
        VoterLine::Trigger { view, reason, now } => Some(Call::TriggerTimeout(view, reason, now)),
        VoterLine::Timeout { now } => Some(Call::NextTimeout(now)),
        VoterLine::Prune => Some(Call::Prune),
        _ => None,
    }
}

fn broadcast_of(kind: CertificateKind, view: View) -> Call<PlainScheme, PlainDigest>
    ensures { DenotesCall (Broadcast kind view) (asked plain_bytes result) }
{
    match kind {
        CertificateKind::Notarization => Call::BroadcastNotarization(view),
        CertificateKind::Nullification => Call::BroadcastNullification(view),
        CertificateKind::Finalization => Call::BroadcastFinalization(view),
    }
}

fn proposal_of(view: View, parent: View, payload: u64) -> Proposal<PlainDigest>
    ensures { IsProposal view parent payload result }
{
    Proposal {
        round: round_of(view),
        parent,
        payload: PlainDigest::new(payload),
    }
}

fn notarization_of(view: View, parent: View, payload: u64) -> Notarization<PlainScheme, PlainDigest>
    ensures proposal { IsProposal view parent payload result.proposal }
    ensures good { result.certificate.good ≡ true }
{
    Notarization {
        proposal: proposal_of(view, parent, payload),
        certificate: PlainCertificate { good: true },
    }
}

fn finalization_of(view: View, parent: View, payload: u64) -> Finalization<PlainScheme, PlainDigest>
    ensures proposal { IsProposal view parent payload result.proposal }
    ensures good { result.certificate.good ≡ true }
{
    Finalization {
        proposal: proposal_of(view, parent, payload),
        certificate: PlainCertificate { good: true },
    }
}
