//! The flat form of an engine's outputs.

ghost use Rattle.std.specs.Prelude.{◌≡◌};
ghost use Rattle.engine_outbox.specs.declared.output.Work.TheVariants.{Fetch};
ghost use Rattle.ffi_member.specs.Calls.{IsFlatProposal};
ghost use Rattle.ffi_member.specs.Numbers.{certificate_number, index_number};
ghost use Rattle.ffi_member.specs.Replies.{IsContext};
ghost use Rattle.ffi_engine.specs.Inputs.{IsOn};
ghost use Rattle.ffi_engine.specs.Outputs.{HasOutputOf, IsOf, IsWork, certified_bytes, fetch_number, other_signature, output_number, first_bytes_in};

use crate::flat::{FlatOutput, FlatSubject};
use crate::output_kind::{OutputKind, number_of_output};
use engine_fetches::fetches::{Ask, FetchKind};
use engine_outbox::output::{Output, Work};
use engine_votes::votes::Vote;
use ffi_member::flat::{FlatContext, FlatProposal, FlatRound};
use ffi_member::flat_replies::{flat_context, flat_proposal, flat_round};
use ffi_member::kinds::{CertificateKind, number_of_certificate};
use ffi_member::view_types::FlatStored;
use ffi_scheme::elector::HostElector;
use ffi_scheme::scheme::{HostDigest, HostKey, HostScheme, Order};
use simplex_engine::engine::Engine;
use simplex_member::member::Stored;
use simplex_types::types::{Certificate, Context, Participant, Proposal, Subject};

/// An engine of the host.
pub type HostEngine = Engine<HostScheme, HostElector, HostDigest>;

/// An output of an engine of the host.
pub type HostOutput = Output<HostScheme, HostDigest, Stored>;

/// A vote of a member of the host.
pub type HostVote = Vote<HostDigest, Order>;

/// An output of the host that is neither stored, nor a vote, nor final.
pub type HostWork = Work<HostScheme, HostDigest>;

/// The number of a fetch of any certificate that decides a view: no certificate kind has it.
const FETCH_DECISION: u32 = 4;

/// An empty proposal.
const NO_PROPOSAL: FlatProposal = FlatProposal {
    round: FlatRound { epoch: 0, view: 0 },
    parent: 0,
    payload: [0; 32],
};

/// An empty subject.
const NO_SUBJECT: FlatSubject = FlatSubject {
    kind: 0,
    member: u32::MAX,
    proposal: NO_PROPOSAL,
};

/// Returns the flat form of an output, without its bytes and without what is stored beside a journal.
pub(crate) fn flat_output(output: &HostOutput) -> FlatOutput
    ensures output { HasOutputOf output.now result }
    ensures status { result.status ≡ 0 }
{
    match output {
        Output::Store(_) => output_of(OutputKind::Store),
        Output::Replace(_, _) => output_of(OutputKind::Replace),
        Output::Vote(vote) => FlatOutput {
            subject: flat_vote(vote),
            ..output_of(OutputKind::Vote)
        },
        Output::Finalized(proposal) => of_proposal(OutputKind::Finalized, proposal),
        Output::Work(work) => flat_work(work),
    }
}

/// Returns the flat form of work.
fn flat_work(work: &HostWork) -> FlatOutput
    ensures work { IsWork work.now result }
    ensures status { result.status ≡ 0 }
{
    match work {
        Work::Broadcast(certificate) => FlatOutput {
            subject: flat_certificate(certificate),
            ..output_of(OutputKind::Broadcast)
        },
        Work::Verify(context, proposal) => in_context(
            OutputKind::Verify,
            context,
            proposal_subject(proposal),
        ),
        Work::Build(context) => in_context(OutputKind::Build, context, NO_SUBJECT),
        Work::StopBuilding(view) => of_view(OutputKind::StopBuilding, view.get()),
        Work::Certify(proposal) => of_proposal(OutputKind::Certify, proposal),
        Work::Fetch(ask) => flat_fetch(*ask),
        Work::Equivocated(first, second) => FlatOutput {
            subject: flat_vote(first),
            other: flat_vote(second),
            ..output_of(OutputKind::Equivocated)
        },
        Work::ProposedTwice(view, leader) => FlatOutput {
            member: leader.index,
            ..of_view(OutputKind::ProposedTwice, view.get())
        },
        Work::Forget(view) => of_view(OutputKind::Forget, view.get()),
    }
}

/// Returns an empty output of a kind.
pub(crate) fn output_of(kind: OutputKind) -> FlatOutput
    ensures kind { result.kind ≡ output_number kind }
    ensures status { result.status ≡ 0 }
    ensures bytes { (result.bytes ≡ 0) × (result.other_bytes ≡ 0) }
{
    FlatOutput {
        status: 0,
        kind: number_of_output(kind),
        fetch: 0,
        member: u32::MAX,
        view: 0,
        bytes: 0,
        other_bytes: 0,
        stored: NOTHING_STORED,
        subject: NO_SUBJECT,
        other: NO_SUBJECT,
        context: FlatContext {
            round: NO_PROPOSAL.round,
            parent: 0,
            payload: [0; 32],
        },
    }
}

/// The data stored beside a journal before anything was stored.
pub(crate) const NOTHING_STORED: FlatStored = FlatStored {
    entries: 0,
    closed: 0,
    retention: 0,
    least_retention: 0,
    is_pruned: 0,
    reserved: 0,
};

fn of_view(kind: OutputKind, view: u64) -> FlatOutput
    ensures kind { result.kind ≡ output_number kind }
    ensures status { result.status ≡ 0 }
    ensures view { result.view ≡ view }
{
    FlatOutput {
        view,
        ..output_of(kind)
    }
}

fn of_proposal(kind: OutputKind, proposal: &Proposal<HostDigest>) -> FlatOutput
    ensures kind { result.kind ≡ output_number kind }
    ensures status { result.status ≡ 0 }
    ensures proposal { IsFlatProposal result.subject.proposal proposal.now }
{
    FlatOutput {
        subject: proposal_subject(proposal),
        ..output_of(kind)
    }
}

fn in_context(
    kind: OutputKind,
    context: &Context<HostDigest, HostKey>,
    subject: FlatSubject,
) -> FlatOutput
    ensures kind { result.kind ≡ output_number kind }
    ensures status { result.status ≡ 0 }
    ensures context { IsContext result.context context.now }
    ensures leader { result.subject.member ≡ context.now.leader.index }
    ensures proposal { result.subject.proposal ≡ subject.proposal }
{
    FlatOutput {
        subject: FlatSubject {
            member: context.leader.index,
            ..subject
        },
        context: flat_context(context),
        ..output_of(kind)
    }
}

fn flat_fetch(ask: Ask) -> FlatOutput
    ensures work { IsWork (Fetch ask) result }
    ensures status { result.status ≡ 0 }
{
    FlatOutput {
        fetch: number_of_fetch(ask.kind),
        member: number_of_peer(ask.of),
        ..of_view(OutputKind::Fetch, ask.view.get())
    }
}

fn proposal_subject(proposal: &Proposal<HostDigest>) -> FlatSubject
    ensures { IsFlatProposal result.proposal proposal.now }
{
    FlatSubject {
        proposal: flat_proposal(proposal),
        ..NO_SUBJECT
    }
}

/// Returns the subject of a vote, and its signer.
fn flat_vote(vote: &HostVote) -> FlatSubject
    ensures on { IsOn result vote.now.subject }
    ensures signer { result.member ≡ vote.now.signer }
{
    let member = vote.signer.get();
    match &vote.subject {
        Subject::Notarize(proposal) => {
            subject_on(
                CertificateKind::Notarization,
                member,
                flat_proposal(proposal),
            )
        }
        Subject::Nullify(round) => {
            subject_on(
                CertificateKind::Nullification,
                member,
                of_round(flat_round(*round)),
            )
        }
        Subject::Finalize(proposal) => {
            subject_on(
                CertificateKind::Finalization,
                member,
                flat_proposal(proposal),
            )
        }
    }
}

/// Returns the subject of a certificate.
fn flat_certificate(certificate: &Certificate<HostScheme, HostDigest>) -> FlatSubject
    ensures { IsOf result certificate.now }
{
    match certificate {
        Certificate::Notarization(it) => {
            subject_on(
                CertificateKind::Notarization,
                u32::MAX,
                flat_proposal(&it.proposal),
            )
        }
        Certificate::Nullification(it) => {
            subject_on(
                CertificateKind::Nullification,
                u32::MAX,
                of_round(flat_round(it.round)),
            )
        }
        Certificate::Finalization(it) => {
            subject_on(
                CertificateKind::Finalization,
                u32::MAX,
                flat_proposal(&it.proposal),
            )
        }
    }
}

fn subject_on(kind: CertificateKind, member: u32, proposal: FlatProposal) -> FlatSubject
    ensures { (result.kind ≡ certificate_number kind) × (result.member ≡ member) × (result.proposal ≡ proposal) }
{
    FlatSubject {
        kind: number_of_certificate(kind),
        member,
        proposal,
    }
}

/// Returns the subject of a nullification.
fn of_round(round: FlatRound) -> FlatProposal
    ensures { result.round ≡ round }
{
    FlatProposal {
        round,
        ..NO_PROPOSAL
    }
}

/// Returns the number of a kind of fetch.
pub(crate) fn number_of_fetch(kind: FetchKind) -> u32
    ensures { result ≡ fetch_number kind }
{
    match kind {
        FetchKind::Notarization => number_of_certificate(CertificateKind::Notarization),
        FetchKind::Nullification => number_of_certificate(CertificateKind::Nullification),
        FetchKind::Decision => FETCH_DECISION,
    }
}

/// Returns the index of a member, or the greatest number if there is none.
fn number_of_peer(of: Option<Participant>) -> u32
    ensures { result ≡ index_number of }
{
    match of {
        Some(of) => of.get(),
        None => u32::MAX,
    }
}

/// Returns the text to sign, a certificate, or the first signature of two: the bytes of an output that stores nothing.
pub(crate) fn signature_in(output: &HostOutput) -> &[u8]
    ensures { result.now ≡ first_bytes_in output.now }
{
    match output {
        Output::Vote(vote) => vote.signature.text.as_slice(),
        Output::Work(Work::Broadcast(certificate)) => bytes_of(certificate),
        Output::Work(Work::Equivocated(first, _)) => first.signature.text.as_slice(),
        _ => &[],
    }
}

/// Returns the second signature of two.
pub(crate) fn other_signature(output: &HostOutput) -> &[u8]
    ensures { result.now ≡ other_signature output.now }
{
    match output {
        Output::Work(Work::Equivocated(_, second)) => second.signature.text.as_slice(),
        _ => &[],
    }
}

/// Returns the bytes of a certificate.
fn bytes_of(certificate: &Certificate<HostScheme, HostDigest>) -> &[u8]
    ensures { result.now ≡ certified_bytes certificate.now }
{
    match certificate {
        Certificate::Notarization(it) => it.certificate.bytes.as_slice(),
        Certificate::Nullification(it) => it.certificate.bytes.as_slice(),
        Certificate::Finalization(it) => it.certificate.bytes.as_slice(),
    }
}
