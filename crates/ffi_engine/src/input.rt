//! The inputs that flat inputs represent.

ghost use Rattle.std.specs.Prelude.{◌≡◌, ◌≤◌, ◌<◌, IfOk, OnErr, MatchOption};
ghost use Rattle.ffi_member.specs.Numbers.{flag_number, reason_number};
ghost use Rattle.ffi_member.specs.Replies.{IsContext};
ghost use Rattle.ffi_scheme.specs.Host.{host_key_in};
ghost use Rattle.ffi_engine.specs.Inputs.{PassesBytes, HasKind, HasInputNumbers, IsCertificate, IsNoInput, IsNoKind, IsOn, IsPassedAs, IsVote};

use crate::flat::{FlatInput, FlatSubject};
use crate::input_kind::{InputKind, input_kind_of};
use bytes::Bytes;
use engine_votes::votes::Vote;
use ffi_member::flat::FlatContext;
use ffi_member::flat_calls::{
    finalization_of, notarization_of, nullification_of, proposal_of, round_in,
};
use ffi_member::kinds::{CertificateKind, VoteKind, certificate_kind_of, vote_kind_of};
use ffi_member::numbers::{flag_of, reason_of};
use ffi_scheme::scheme::{HostDigest, HostKey, HostScheme, Namespace, Order};
use simplex_engine::input::Input;
use simplex_types::reasons::TimeoutReason;
use simplex_types::types::{Certificate, Context, Participant, Subject, View};
use std::alloc::{AllocError, Global};

/// An input of an engine of the host.
pub type HostInput = Input<HostScheme, HostDigest>;

/// Returns the input of an engine in a network that a flat input represents, with the bytes of the signature or the
/// certificate that it passes; `None` if one of its numbers is not valid.
pub fn input_of(
    alloc: Global,
    namespace: &Namespace,
    flat: &FlatInput,
    bytes: &[u8],
) -> Result<Option<HostInput>, AllocError>
    ensures wanting { OnErr result (PassesBytes flat.now) }
    ensures made { IfOk result (λ made. MatchOption made (IsNoInput flat.now)
        (λ input. HasInputNumbers flat.now × IsPassedAs namespace.now flat.now bytes.now input)) }
{
    let Some(reason) = reason_of(flat.reason) else {
        return Ok(None);
    };
    let Some(success) = flag_of(flat.success) else {
        return Ok(None);
    };
    input_of_kind(alloc, namespace, flat, reason, success, bytes)
}

fn input_of_kind(
    alloc: Global,
    namespace: &Namespace,
    flat: &FlatInput,
    reason: TimeoutReason,
    success: bool,
    bytes: &[u8],
) -> Result<Option<HostInput>, AllocError>
    requires reason { (reason_number reason ≡ flat.now.reason) × (flat.now.reason < 10) }
    requires success { (flag_number success ≡ flat.now.success) × (flat.now.success < 2) }
    ensures wanting { OnErr result (PassesBytes flat.now) }
    ensures made { IfOk result (λ made. MatchOption made (IsNoInput flat.now)
        (λ input. HasInputNumbers flat.now × IsPassedAs namespace.now flat.now bytes.now input)) }
{
    let Some(kind) = input_kind_of(flat.kind) else {
        return Ok(None);
    };
    let view = View::new(flat.view);
    Ok(match kind {
        InputKind::Proposal => Some(Input::Proposal(
            Participant::new(flat.subject.member),
            proposal_of(&flat.subject.proposal),
        )),
        InputKind::Vote => match vote_of(alloc, &flat.subject, bytes)? {
            Some(vote) => Some(Input::Vote(vote)),
            None => None,
        },
        InputKind::Certificate => match certificate_of(alloc, &flat.subject, bytes)? {
            Some(certificate) => Some(Input::Certificate(certificate)),
            None => None,
        },
        InputKind::Verified => Some(Input::Verified(view, success)),
        InputKind::Built => Some(Input::Built(
            context_of(namespace, &flat.context, flat.subject.member),
            HostDigest::from(flat.subject.proposal.payload),
        )),
        InputKind::Certified => Some(Input::Certified(view, success)),
        InputKind::GivenUp => Some(Input::GivenUp(view, reason)),
    })
}

/// Returns a vote under a signature of these bytes; `None` if no vote has its kind.
fn vote_of(
    alloc: Global,
    flat: &FlatSubject,
    bytes: &[u8],
) -> Result<Option<Vote<HostDigest, Order>>, AllocError>
    ensures wanting { OnErr result (HasKind flat.now) }
    ensures made { IfOk result
        (λ made. MatchOption made (IsNoKind flat.now) (λ vote. HasKind flat.now × IsVote flat.now bytes.now vote)) }
{
    let Some(subject) = subject_of(flat) else {
        return Ok(None);
    };
    Ok(Some(Vote {
        subject,
        signer: Participant::new(flat.member),
        signature: Order {
            index: flat.member,
            text: Bytes::copy_from_slice(alloc, bytes)?,
        },
    }))
}

/// Returns a certificate of these bytes; `None` if no certificate has its kind.
fn certificate_of(
    alloc: Global,
    flat: &FlatSubject,
    bytes: &[u8],
) -> Result<Option<Certificate<HostScheme, HostDigest>>, AllocError>
    ensures wanting { OnErr result (HasKind flat.now) }
    ensures made { IfOk result
        (λ made. MatchOption made (IsNoKind flat.now) (λ it. HasKind flat.now × IsCertificate flat.now bytes.now it)) }
{
    let Some(kind) = certificate_kind_of(flat.kind) else {
        return Ok(None);
    };
    Ok(Some(match kind {
        CertificateKind::Notarization => {
            Certificate::Notarization(notarization_of(alloc, &flat.proposal, bytes)?)
        }
        CertificateKind::Nullification => {
            Certificate::Nullification(nullification_of(alloc, flat.proposal.round, bytes)?)
        }
        CertificateKind::Finalization => {
            Certificate::Finalization(finalization_of(alloc, &flat.proposal, bytes)?)
        }
    }))
}

/// Returns a context in a network, with its leader.
fn context_of(namespace: &Namespace, flat: &FlatContext, index: u32) -> Context<HostDigest, HostKey>
    ensures context { IsContext flat.now result }
    ensures leader { result.leader ≡ host_key_in namespace.now index }
{
    Context {
        round: round_in(flat.round),
        leader: HostKey {
            namespace: *namespace,
            index,
        },
        parent: (View::new(flat.parent), HostDigest::from(flat.payload)),
    }
}

/// Returns the subject of a vote of a kind; `None` if no vote has the kind.
fn subject_of(flat: &FlatSubject) -> Option<Subject<HostDigest>>
    ensures { MatchOption result (IsNoKind flat.now) (λ subject. HasKind flat.now × IsOn flat.now subject) }
{
    Some(match vote_kind_of(flat.kind)? {
        VoteKind::Notarize => Subject::Notarize(proposal_of(&flat.proposal)),
        VoteKind::Nullify => Subject::Nullify(round_in(flat.proposal.round)),
        VoteKind::Finalize => Subject::Finalize(proposal_of(&flat.proposal)),
    })
}
