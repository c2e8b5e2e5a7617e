//! The flat form of a member's replies. None of it takes memory: a certificate, a text to sign and lists stay in the
//! reply, and are read from it.

ghost use Rattle.std.specs.Prelude.{◌≡◌, option_map};
ghost use Rattle.simplex_types.specs.Certificates.{certificate_facts};
ghost use Rattle.ffi_scheme.specs.Host.{certificate_bytes};
ghost use Rattle.simplex_member.specs.Calls.{reply_facts, reply_notarize, reply_nullify, reply_finalize};
ghost use Rattle.ffi_member.specs.Numbers.{abandoned_number, fault_status, flag_number, member_number, reason_number};
ghost use Rattle.ffi_member.specs.Calls.{IsFlatProposal, flat_round};
ghost use Rattle.ffi_member.specs.declared.reply_kind.ReplyKind.TheVariants as reply_kind;
ghost use Rattle.ffi_member.specs.Replies.{HasAnswer, HasCertificate, HasFinalize, HasNotarize, HasNullify, HasRequest, HasWork, IsContext, RepresentsReply};

use crate::flat::{FlatContext, FlatProposal, FlatReply, FlatRound};
use crate::kinds::{CertificateKind, number_of_certificate, number_of_missing};
use crate::numbers::{
    number_of_abandoned, number_of_fault, number_of_flag, number_of_member, number_of_reason,
};
use crate::reply_kind::{ReplyKind, number_of_reply};
use ffi_scheme::scheme::{HostDigest, HostKey, HostScheme};
use simplex_member::member::Reply;
use simplex_types::types::{Certificate, Context, Finalize, Notarize, Nullify, Proposal, Round};
use simplex_voter::voter::{ProposalRequest, Verify};

/// The status of a call that is not allowed.
pub(crate) const STATUS_NOT_ALLOWED: u32 = 5;

/// A reply of a member of the host.
pub type HostReply = Reply<HostScheme, HostDigest>;

/// Returns the flat form of a reply, without the parts that have no fixed size.
pub fn flat_reply(reply: &HostReply) -> FlatReply
    ensures { RepresentsReply result (reply_facts certificate_bytes reply.now) }
{
    match reply {
        Reply::Unit => answered(ReplyKind::Unit),
        Reply::Flag(flag) => flagged(ReplyKind::Flag, *flag),
        Reply::Added(is_new, leader) => FlatReply {
            member: number_of_member(leader),
            ..flagged(ReplyKind::Added, *is_new)
        },
        Reply::AddedNullification(is_new) => flagged(ReplyKind::AddedNullification, *is_new),
        Reply::Request(request) => flat_request(request),
        Reply::Work(work) => flat_work(work),
        Reply::Candidates(proposals, fetches) => FlatReply {
            count: proposals.len() as u64,
            fetches: fetches.len() as u64,
            ..answered(ReplyKind::Candidates)
        },
        Reply::Certified(success, Some(notarization)) => FlatReply {
            has: 1,
            proposal: flat_proposal(&notarization.proposal),
            ..flagged(ReplyKind::Certified, *success)
        },
        Reply::Certified(success, None) => flagged(ReplyKind::Certified, *success),
        Reply::Notarize(vote) => flat_notarize(vote),
        Reply::Nullify(vote) => flat_nullify(vote),
        Reply::Finalize(vote) => flat_finalize(vote),
        Reply::Certificate(certificate) => flat_certificate(certificate),
        Reply::Timeout(moment, reason) => FlatReply {
            moment: *moment,
            reason: number_of_reason(*reason),
            ..answered(ReplyKind::Timeout)
        },
        Reply::Views(views) => FlatReply {
            count: views.len() as u64,
            ..answered(ReplyKind::Views)
        },
        Reply::Released(was_open) => flagged(ReplyKind::Released, *was_open),
        Reply::Triggered(is_latched) => flagged(ReplyKind::Triggered, *is_latched),
        Reply::Abandoned(Some(reason)) => FlatReply {
            has: 1,
            reason: number_of_abandoned(*reason),
            ..answered(ReplyKind::Abandoned)
        },
        Reply::Abandoned(None) => answered(ReplyKind::Abandoned),
        Reply::Restarted => answered(ReplyKind::Restarted),
        Reply::Fault(fault) => unanswered(number_of_fault(*fault)),
        Reply::NotAllowed => unanswered(5),
    }
}

/// Returns an empty reply of a kind.
fn answered(kind: ReplyKind) -> FlatReply
    ensures answered { HasAnswer kind result }
    ensures nothing { result.has ≡ 0 }
{
    FlatReply {
        kind: number_of_reply(kind),
        ..unanswered(0)
    }
}

/// Returns an empty reply of a status.
pub(crate) fn unanswered(status: u32) -> FlatReply
    ensures status { result.status ≡ status }
    ensures nothing { result.has ≡ 0 }
{
    let round = FlatRound { epoch: 0, view: 0 };
    FlatReply {
        status,
        kind: 0,
        has: 0,
        flag: 0,
        member: u32::MAX,
        reason: 0,
        moment: 0,
        waiting: 0,
        lacking: 0,
        count: 0,
        fetches: 0,
        proposal: FlatProposal {
            round,
            parent: 0,
            payload: [0; 32],
        },
        context: FlatContext {
            round,
            parent: 0,
            payload: [0; 32],
        },
    }
}

fn flagged(kind: ReplyKind, flag: bool) -> FlatReply
    ensures answered { HasAnswer kind result }
    ensures flag { result.flag ≡ flag_number flag }
    ensures nothing { result.has ≡ 0 }
{
    FlatReply {
        flag: number_of_flag(flag),
        ..answered(kind)
    }
}

/// Returns the numbers of a round.
pub fn flat_round(round: Round) -> FlatRound
    ensures { round ≡ flat_round result }
{
    FlatRound {
        epoch: round.epoch.get(),
        view: round.view.get(),
    }
}

/// Returns the numbers and bytes of a proposal.
pub fn flat_proposal(proposal: &Proposal<HostDigest>) -> FlatProposal
    ensures { IsFlatProposal result proposal.now }
{
    FlatProposal {
        round: flat_round(proposal.round),
        parent: proposal.parent.get(),
        payload: <[u8; 32]>::from(proposal.payload),
    }
}

/// Returns the numbers and bytes of a context.
pub fn flat_context(context: &Context<HostDigest, HostKey>) -> FlatContext
    ensures { IsContext result context.now }
{
    let (parent, payload) = context.parent;
    FlatContext {
        round: flat_round(context.round),
        parent: parent.get(),
        payload: <[u8; 32]>::from(payload),
    }
}

fn flat_request(request: &Option<ProposalRequest<HostDigest, HostKey>>) -> FlatReply
    ensures answered { HasAnswer reply_kind.Request result }
    ensures request { HasRequest request.now result }
{
    match request {
        Some(ProposalRequest::Propose(context)) => FlatReply {
            has: 1,
            member: context.leader.index,
            context: flat_context(context),
            ..answered(ReplyKind::Request)
        },
        Some(ProposalRequest::Prepare(context)) => FlatReply {
            has: 2,
            member: context.leader.index,
            context: flat_context(context),
            ..answered(ReplyKind::Request)
        },
        None => answered(ReplyKind::Request),
    }
}

fn flat_work(work: &Verify<HostDigest, HostKey>) -> FlatReply
    ensures answered { HasAnswer reply_kind.Work result }
    ensures work { HasWork work.now result }
{
    match work {
        Verify::Wait => answered(ReplyKind::Work),
        Verify::Ready(context, proposal) => FlatReply {
            has: 1,
            member: context.leader.index,
            context: flat_context(context),
            proposal: flat_proposal(proposal),
            ..answered(ReplyKind::Work)
        },
        Verify::Resolve {
            proposal,
            view,
            kind,
            target,
        } => FlatReply {
            has: 2,
            reason: number_of_missing(*kind),
            member: target.index,
            waiting: proposal.get(),
            lacking: view.get(),
            ..answered(ReplyKind::Work)
        },
    }
}

fn flat_notarize(vote: &Option<Notarize<HostScheme, HostDigest>>) -> FlatReply
    ensures answered { HasAnswer reply_kind.Notarize result }
    ensures vote { HasNotarize (reply_notarize vote.now) result }
{
    match vote {
        Some(vote) => FlatReply {
            has: 1,
            member: vote.signer.get(),
            proposal: flat_proposal(&vote.proposal),
            ..answered(ReplyKind::Notarize)
        },
        None => answered(ReplyKind::Notarize),
    }
}

fn flat_nullify(vote: &Option<(bool, Nullify<HostScheme>)>) -> FlatReply
    ensures answered { HasAnswer reply_kind.Nullify result }
    ensures vote { HasNullify (reply_nullify vote.now) result }
{
    match vote {
        Some((is_retry, vote)) => FlatReply {
            has: 1,
            member: vote.signer.get(),
            proposal: FlatProposal {
                round: flat_round(vote.round),
                parent: 0,
                payload: [0; 32],
            },
            ..flagged(ReplyKind::Nullify, *is_retry)
        },
        None => answered(ReplyKind::Nullify),
    }
}

fn flat_finalize(vote: &Option<Finalize<HostScheme, HostDigest>>) -> FlatReply
    ensures answered { HasAnswer reply_kind.Finalize result }
    ensures vote { HasFinalize (reply_finalize vote.now) result }
{
    match vote {
        Some(vote) => FlatReply {
            has: 1,
            member: vote.signer.get(),
            proposal: flat_proposal(&vote.proposal),
            ..answered(ReplyKind::Finalize)
        },
        None => answered(ReplyKind::Finalize),
    }
}

fn flat_certificate(certificate: &Option<Certificate<HostScheme, HostDigest>>) -> FlatReply
    ensures answered { HasAnswer reply_kind.Certificate result }
    ensures certificate { HasCertificate (option_map (certificate_facts certificate_bytes) certificate.now) result }
{
    match certificate {
        Some(Certificate::Notarization(it)) => FlatReply {
            has: number_of_certificate(CertificateKind::Notarization),
            proposal: flat_proposal(&it.proposal),
            ..answered(ReplyKind::Certificate)
        },
        Some(Certificate::Nullification(it)) => FlatReply {
            has: number_of_certificate(CertificateKind::Nullification),
            proposal: FlatProposal {
                round: flat_round(it.round),
                parent: 0,
                payload: [0; 32],
            },
            ..answered(ReplyKind::Certificate)
        },
        Some(Certificate::Finalization(it)) => FlatReply {
            has: number_of_certificate(CertificateKind::Finalization),
            proposal: flat_proposal(&it.proposal),
            ..answered(ReplyKind::Certificate)
        },
        None => answered(ReplyKind::Certificate),
    }
}
