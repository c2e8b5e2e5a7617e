//! The calls that flat calls represent.

ghost use Rattle.std.specs.Prelude.{◌≡◌, ◌<◌, IfOk, OnErr, MatchOption};
ghost use Rattle.ffi_scheme.specs.Host.{certificate_bytes};
ghost use Rattle.simplex_member.specs.Calls.{asked};
ghost use Rattle.ffi_member.specs.Calls.{PassesCertificate, HasNumbers, IsAskedBy, IsNoFlatCall, DenotesFlatCall, IsFlatProposal, flat_round};
ghost use Rattle.ffi_member.specs.Numbers.{kind_number, reason_number, flag_number};

use crate::call_kind::{CallKind, kind_of};
use crate::flat::{FlatCall, FlatProposal, FlatRound};
use crate::numbers::{flag_of, reason_of};
use bytes::Bytes;
use ffi_scheme::scheme::{HostCertificate, HostDigest, HostScheme};
use simplex_member::member::Call;
use simplex_types::reasons::TimeoutReason;
use simplex_types::types::{
    Epoch, Finalization, Notarization, Nullification, Proposal, Round, View,
};
use std::alloc::{AllocError, Global};

/// A call of a member of the host.
pub type HostCall = Call<HostScheme, HostDigest>;

/// Returns the call that a flat call represents, with the bytes of the certificate that it passes; `None` if one of its
/// numbers is not valid for a kind, reason or verdict.
pub fn call_of(
    alloc: Global,
    flat: &FlatCall,
    certificate: &[u8],
) -> Result<Option<HostCall>, AllocError>
    ensures wanting { OnErr result (PassesCertificate flat.now) }
    ensures made { IfOk result (λ made. MatchOption made (IsNoFlatCall flat.now)
        (λ call. HasNumbers flat.now × IsAskedBy flat.now certificate.now (asked certificate_bytes call))) }
{
    let Some(kind) = kind_of(flat.kind) else {
        return Ok(None);
    };
    let Some(reason) = reason_of(flat.reason) else {
        return Ok(None);
    };
    let Some(success) = flag_of(flat.success) else {
        return Ok(None);
    };
    Ok(Some(call_of_kind(alloc, kind, reason, success, flat, certificate)?))
}

fn call_of_kind(
    alloc: Global,
    kind: CallKind,
    reason: TimeoutReason,
    success: bool,
    flat: &FlatCall,
    certificate: &[u8],
) -> Result<HostCall, AllocError>
    requires reason { reason_number reason ≡ flat.now.reason }
    requires success { flag_number success ≡ flat.now.success }
    ensures wanting { OnErr result (kind_number kind < 3) }
    ensures call { IfOk result (λ call. DenotesFlatCall kind flat.now certificate.now (asked certificate_bytes call)) }
{
    let view = View::new(flat.view);
    let now = flat.moment;
    Ok(match kind {
        CallKind::AddNotarization => {
            Call::AddNotarization(notarization_of(alloc, &flat.proposal, certificate)?)
        }
        CallKind::AddNullification => {
            Call::AddNullification(nullification_of(alloc, flat.round, certificate)?, now)
        }
        CallKind::AddFinalization => {
            Call::AddFinalization(finalization_of(alloc, &flat.proposal, certificate)?, now)
        }
        CallKind::SetProposal => Call::SetProposal(view, proposal_of(&flat.proposal)),
        CallKind::TryPropose => Call::TryPropose,
        CallKind::Proposed => Call::Proposed(view, HostDigest::from(flat.proposal.payload), now),
        CallKind::SupersedeProposalRequest => Call::SupersedeProposalRequest(view),
        CallKind::PendingHandoffAbandonment => Call::PendingHandoffAbandonment(view),
        CallKind::ReleaseProposalRequest => Call::ReleaseProposalRequest(view),
        CallKind::TryVerify => Call::TryVerify,
        CallKind::Verified => Call::Verified(view),
        CallKind::VerificationFailed => Call::VerificationFailed(view, reason, now),
        CallKind::CertifyCandidates => Call::CertifyCandidates,
        CallKind::SetCertifyHandle => Call::SetCertifyHandle(view, flat.token),
        CallKind::Certified => Call::Certified(view, success, now),
        CallKind::ConstructNotarize => Call::ConstructNotarize(view),
        CallKind::ConstructNullify => Call::ConstructNullify(view, reason),
        CallKind::ConstructFinalize => Call::ConstructFinalize(view),
        CallKind::BroadcastNotarization => Call::BroadcastNotarization(view),
        CallKind::BroadcastNullification => Call::BroadcastNullification(view),
        CallKind::BroadcastFinalization => Call::BroadcastFinalization(view),
        CallKind::GetBestCertificate => Call::GetBestCertificate,
        CallKind::TriggerTimeout => Call::TriggerTimeout(view, reason, now),
        CallKind::NextTimeout => Call::NextTimeout(now),
        CallKind::Prune => Call::Prune,
    })
}

/// Returns a round.
pub fn round_in(round: FlatRound) -> Round
    ensures { result ≡ flat_round round }
{
    Round {
        epoch: Epoch::new(round.epoch),
        view: View::new(round.view),
    }
}

/// Returns a proposal.
pub fn proposal_of(proposal: &FlatProposal) -> Proposal<HostDigest>
    ensures { IsFlatProposal proposal.now result }
{
    Proposal {
        round: round_in(proposal.round),
        parent: View::new(proposal.parent),
        payload: HostDigest::from(proposal.payload),
    }
}

fn certificate_of(alloc: Global, bytes: &[u8]) -> Result<HostCertificate, AllocError>
    ensures { IfOk result (λ certificate. certificate_bytes certificate ≡ bytes.now) }
{
    Ok(HostCertificate {
        bytes: Bytes::copy_from_slice(alloc, bytes)?,
    })
}

/// Returns a notarization of these bytes.
pub fn notarization_of(
    alloc: Global,
    proposal: &FlatProposal,
    bytes: &[u8],
) -> Result<Notarization<HostScheme, HostDigest>, AllocError>
    ensures proposal { IfOk result (λ it. IsFlatProposal proposal.now it.proposal) }
    ensures bytes { IfOk result (λ it. certificate_bytes it.certificate ≡ bytes.now) }
{
    Ok(Notarization {
        proposal: proposal_of(proposal),
        certificate: certificate_of(alloc, bytes)?,
    })
}

/// Returns a nullification of these bytes.
pub fn nullification_of(
    alloc: Global,
    round: FlatRound,
    bytes: &[u8],
) -> Result<Nullification<HostScheme>, AllocError>
    ensures round { IfOk result (λ it. it.round ≡ flat_round round) }
    ensures bytes { IfOk result (λ it. certificate_bytes it.certificate ≡ bytes.now) }
{
    Ok(Nullification {
        round: round_in(round),
        certificate: certificate_of(alloc, bytes)?,
    })
}

/// Returns a finalization of these bytes.
pub fn finalization_of(
    alloc: Global,
    proposal: &FlatProposal,
    bytes: &[u8],
) -> Result<Finalization<HostScheme, HostDigest>, AllocError>
    ensures proposal { IfOk result (λ it. IsFlatProposal proposal.now it.proposal) }
    ensures bytes { IfOk result (λ it. certificate_bytes it.certificate ≡ bytes.now) }
{
    Ok(Finalization {
        proposal: proposal_of(proposal),
        certificate: certificate_of(alloc, bytes)?,
    })
}
