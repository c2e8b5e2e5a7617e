//! The reply lines of a voter.

ghost use Rattle.std.specs.Prelude.{◌≡◌, ◌++◌, ◌∷◌, [], map, codes, decimal, Some};
ghost use Rattle.std.specs.List.{flat_map};
ghost use Rattle.std.specs.Fmt.{WritesOnOk};
ghost use Rattle.simplex_types.specs.MessageViews.{certificate_view};
ghost use Rattle.simplex_program.specs.Texts.{text_of};
ghost use Rattle.simplex_program.specs.VoterText.{voter_reply_words, reply_words, equivocator_word, request_words, context_words, verify_words, certificate_word, proposal_words, offer_word, fetch_word};
ghost use Rattle.simplex_program.specs.Words.{flag_word};

use crate::texts::{write_fault, write_list, write_refusal};
use crate::voter::VoterAnswer;
use simplex_member::member::Reply;
use simplex_types::types::plain::{PlainDigest, PlainKey, PlainScheme};
use simplex_types::types::{Certificate, Context, Fault, Proposal, Viewable};
use simplex_voter::voter::{CertificateFetch, ProposalRequest, Verify};
use std::fmt;
use std::fmt::{Display, Formatter};

impl Display for VoterAnswer {
    ghost output = { λ answer. Some (text_of (voter_reply_words answer)) };

    fn fmt<W: fmt::Write>(&self, f: &mut Formatter<W>) -> fmt::Result {
        match self {
            VoterAnswer::Reply(reply) => write_reply(f, reply),
            VoterAnswer::Restarted(Ok(())) => f.write_str("ok"),
            VoterAnswer::Restarted(Err(error)) => write_refusal(f, *error),
            VoterAnswer::Entries(count) => write!(f, "record {count}"),
            VoterAnswer::Views {
                current,
                finalized,
                min_active,
            } => write!(
                f,
                "view {} {} {}",
                current.get(),
                finalized.get(),
                min_active.get()
            ),
            VoterAnswer::Failed => write_fault(f, Fault::Failed),
        }
    }
}

fn write_reply<W: fmt::Write>(
    f: &mut Formatter<W>,
    reply: &Reply<PlainScheme, PlainDigest>,
) -> fmt::Result
    ensures { WritesOnOk W.write_str_gives f.old result (text_of (reply_words reply.now)) f.new }
{
    match reply {
        Reply::Unit | Reply::Released(_) | Reply::Triggered(_) | Reply::Restarted => {
            f.write_str("ok")
        }
        Reply::Flag(taken) => write!(f, "{taken}"),
        Reply::Added(added, equivocator) => write_added(f, *added, *equivocator),
        Reply::AddedNullification(added) => write!(f, "added {added}"),
        Reply::Request(Some(request)) => write_request(f, request),
        Reply::Work(verify) => write_work(f, verify),
        Reply::Candidates(proposals, fetches) => {
            write_candidates(f, proposals.as_slice(), fetches.as_slice())
        }
        Reply::Certified(_, Some(notarization)) => {
            write!(f, "certified {}", notarization.view().get())
        }
        Reply::Notarize(Some(vote)) => write_proposal(f, "notarize", &vote.proposal),
        Reply::Nullify(Some((is_retry, vote))) => {
            write!(f, "nullify {} {is_retry}", vote.view().get())
        }
        Reply::Finalize(Some(vote)) => write_proposal(f, "finalize", &vote.proposal),
        Reply::Certificate(Some(certificate)) => write_certificate(f, certificate),
        Reply::Timeout(moment, reason) => write!(f, "timeout {moment} {}", reason.as_str()),
        Reply::Views(views) => write_list(f, "pruned", views.as_slice()),
        Reply::Abandoned(Some(reason)) => f.write_str(reason.as_str()),
        Reply::Fault(fault) => write_fault(f, *fault),
        Reply::NotAllowed => f.write_str("not-allowed"),
        Reply::Request(None)
        | Reply::Certified(_, None)
        | Reply::Notarize(None)
        | Reply::Nullify(None)
        | Reply::Finalize(None)
        | Reply::Certificate(None)
        | Reply::Abandoned(None) => f.write_str("none"),
    }
}

fn write_added<W: fmt::Write>(
    f: &mut Formatter<W>,
    added: bool,
    equivocator: Option<PlainKey>,
) -> fmt::Result
    ensures { WritesOnOk W.write_str_gives f.old result (text_of (codes "added" ∷ flag_word added ∷ equivocator_word equivocator ∷ [])) f.new }
{
    match equivocator {
        Some(PlainKey(index)) => write!(f, "added {added} {index}"),
        None => write!(f, "added {added} -"),
    }
}

fn write_request<W: fmt::Write>(
    f: &mut Formatter<W>,
    request: &ProposalRequest<PlainDigest, PlainKey>,
) -> fmt::Result
    ensures { WritesOnOk W.write_str_gives f.old result (text_of (request_words request.now)) f.new }
{
    match request {
        ProposalRequest::Prepare(context) => write_context(f, "prepare", context),
        ProposalRequest::Propose(context) => write_context(f, "propose", context),
    }
}

/// Writes a word, a view, its leader, and the view and the payload of the parent to build on.
fn write_context<W: fmt::Write>(
    f: &mut Formatter<W>,
    first: &str,
    context: &Context<PlainDigest, PlainKey>,
) -> fmt::Result
    ensures { WritesOnOk W.write_str_gives f.old result (text_of (context_words first.now context.now [])) f.new }
{
    let (parent, payload) = context.parent;
    let PlainKey(leader) = context.leader;
    write!(
        f,
        "{first} {} {leader} {} {}",
        context.round.view.get(),
        parent.get(),
        payload.number()
    )
}

fn write_work<W: fmt::Write>(
    f: &mut Formatter<W>,
    verify: &Verify<PlainDigest, PlainKey>,
) -> fmt::Result
    ensures { WritesOnOk W.write_str_gives f.old result (text_of (verify_words verify.now)) f.new }
{
    match verify {
        Verify::Ready(context, proposal) => {
            write_context(f, "ready", context)?;
            write!(f, " {}", proposal.payload.number())
        }
        Verify::Resolve {
            proposal,
            view,
            kind,
            target: PlainKey(leader),
        } => write!(
            f,
            "resolve {} {} {} {leader}",
            proposal.get(),
            view.get(),
            kind.as_str()
        ),
        Verify::Wait => f.write_str("wait"),
    }
}

/// Writes the offered views, and for other views those whose notarization is to be fetched.
fn write_candidates<W: fmt::Write>(
    f: &mut Formatter<W>,
    proposals: &[Proposal<PlainDigest>],
    fetches: &[CertificateFetch],
) -> fmt::Result
    ensures { WritesOnOk W.write_str_gives f.old result
        (text_of (codes "candidates" ∷ (map offer_word proposals.now ++ codes "fetch" ∷ map fetch_word fetches.now))) f.new }
{
    f.write_str("candidates")?;
    write_offers(f, proposals)?;
    f.write_str(" fetch")?;
    write_fetches(f, fetches)
}

/// Writes each view after a space.
fn write_offers<W: fmt::Write>(
    f: &mut Formatter<W>,
    proposals: &[Proposal<PlainDigest>],
) -> fmt::Result
    ensures { WritesOnOk W.write_str_gives f.old result (flat_map (λ p. 32 ∷ offer_word p) proposals.now) f.new }
{
    for proposal in proposals {
        write!(f, " {}", proposal.round.view.get())?;
    }
    Ok(())
}

/// Writes each pair of views after a space.
fn write_fetches<W: fmt::Write>(f: &mut Formatter<W>, fetches: &[CertificateFetch]) -> fmt::Result
    ensures { WritesOnOk W.write_str_gives f.old result (flat_map (λ fetch. 32 ∷ fetch_word fetch) fetches.now) f.new }
{
    for fetch in fetches {
        write!(f, " {}:{}", fetch.proposal.get(), fetch.view.get())?;
    }
    Ok(())
}

fn write_certificate<W: fmt::Write>(
    f: &mut Formatter<W>,
    certificate: &Certificate<PlainScheme, PlainDigest>,
) -> fmt::Result
    ensures { WritesOnOk W.write_str_gives f.old result
        (text_of (certificate_word certificate.now ∷ decimal (certificate_view certificate.now) ∷ [])) f.new }
{
    write!(
        f,
        "{} {}",
        certificate_kind(certificate),
        certificate.view().get()
    )
}

/// Returns the word for a certificate's kind.
fn certificate_kind(certificate: &Certificate<PlainScheme, PlainDigest>) -> &'static str
    ensures { result.now ≡ certificate_word certificate.now }
{
    match certificate {
        Certificate::Notarization(_) => "notarization",
        Certificate::Nullification(_) => "nullification",
        Certificate::Finalization(_) => "finalization",
    }
}

fn write_proposal<W: fmt::Write>(
    f: &mut Formatter<W>,
    vote: &str,
    proposal: &Proposal<PlainDigest>,
) -> fmt::Result
    ensures { WritesOnOk W.write_str_gives f.old result (text_of (proposal_words vote.now proposal.now)) f.new }
{
    write!(
        f,
        "{vote} {} {} {}",
        proposal.round.view.get(),
        proposal.parent.get(),
        proposal.payload.number()
    )
}
