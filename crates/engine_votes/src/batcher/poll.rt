//! The votes of one kind and view: at most one a member.

ghost use Rattle.std.specs.Prelude.{◌≡◌, ◌≢◌, ◌≤◌, ◌<◌, ◌^◌, ℕ, length, IfOk, OnOk, OnErr, MatchOption, Some, None, vec_len};
ghost use Rattle.std.specs.Option.{option_copied};
ghost use Rattle.engine_votes.specs.Polls.{ballot_of, is_on, signature_on, signatures_on, signed_by, HoldsTheSame};
ghost use Rattle.simplex_types.specs.Quorums.{quorum_of};
ghost use Rattle.engine_votes.specs.VoteCounts.{certificate_of, is_pair, IsCountedIn, IsMarked, ShowsBoth};

use super::Counted;
use crate::votes::{Vote, is_same_subject};
use simplex_types::types::assembly::{Assembly, quorum};
use simplex_types::types::{
    Certificate, CertificateScheme, Digest, Finalization, Notarization, Nullification, Participant,
    Subject,
};
use std::alloc::{AllocError, Global};

/// The subject that a member voted for, and its signature, of type `G`.
#[derive(Drop)]
pub struct Ballot<D, G> {
    pub subject: Subject<D>,
    pub signature: G,
    /// A vote of the member that contradicts this one was returned with it.
    pub is_contradicted: bool,
}

/// Makes room for the member's vote.
fn make_room<D: Copy, G: Drop>(
    slots: &mut Vec<Option<Ballot<D, G>>>,
    member: usize,
) -> Result<(), AllocError>
    requires { member < 2 ^ 32 }
    ensures room { OnOk result (member < vec_len slots.new) }
    ensures same { HoldsTheSame slots.old.items slots.new.items }
{
    while slots.len() <= member {
        slots.push(None)?;
    }
    Ok(())
}

/// Returns the stored vote of the member.
fn find<D, G>(slots: &[Option<Ballot<D, G>>], member: usize) -> Option<&Ballot<D, G>>
    ensures { option_copied result ≡ ballot_of slots.now member }
{
    match slots.get(member) {
        Some(slot) => slot.as_ref(),
        None => None,
    }
}

/// Returns whether the member's vote is stored and is on the subject.
fn is_on<D: Digest, G>(slots: &[Option<Ballot<D, G>>], member: usize, subject: &Subject<D>) -> bool
    ensures { result ≡ is_on D.eq subject.now (ballot_of slots.now member) }
{
    match find(slots, member) {
        Some(ballot) => is_same_subject(&ballot.subject, subject),
        None => false,
    }
}

/// Returns how many of the first members, up to this number, voted for the subject.
fn count_on<D: Digest, G>(
    slots: &[Option<Ballot<D, G>>],
    members: u32,
    subject: &Subject<D>,
) -> usize
    ensures { result ≡ length (signatures_on D.eq subject.now members slots.now) }
{
    let mut count = 0;
    for member in 0..members {
        if is_on(slots, member as usize, subject) {
            count += 1;
        }
    }
    count
}

/// Returns the member's signature, if its vote is stored and is on the subject.
fn signature_on<S: CertificateScheme, D: Digest>(
    alloc: Global,
    slots: &[Option<Ballot<D, S::Signature>>],
    member: u32,
    subject: &Subject<D>,
) -> Result<Option<S::Signature>, AllocError>
    ensures { IfOk result (λ signature. signed_by member signature
        ≡ signature_on D.eq subject.now member (ballot_of slots.now member)) }
{
    match find(slots, member as usize) {
        Some(ballot) => copy_on::<S, D>(alloc, ballot, subject),
        None => Ok(None),
    }
}

/// Returns the signature of a vote, if that is on the subject.
fn copy_on<S: CertificateScheme, D: Digest>(
    alloc: Global,
    ballot: &Ballot<D, S::Signature>,
    subject: &Subject<D>,
) -> Result<Option<S::Signature>, AllocError>
    ensures { (member : ℕ) → IfOk result (λ signature. signed_by member signature
        ≡ signature_on D.eq subject.now member (Some ballot.now)) }
{
    if is_same_subject(&ballot.subject, subject) {
        Ok(Some(S::copy_signature(alloc, &ballot.signature)?))
    } else {
        Ok(None)
    }
}

/// Returns the signatures on the subject of the first members, up to this number, by rising member.
fn collect_on<S: CertificateScheme, D: Digest>(
    alloc: Global,
    slots: &[Option<Ballot<D, S::Signature>>],
    members: u32,
    subject: &Subject<D>,
) -> Result<Vec<(Participant, S::Signature)>, AllocError>
    ensures { IfOk result (λ signatures. signatures.items ≡ signatures_on D.eq subject.now members slots.now) }
{
    let mut signatures = Vec::new(alloc);
    for member in 0..members {
        if let Some(signature) = signature_on::<S, D>(alloc, slots, member, subject)? {
            signatures.push((Participant::new(member), signature))?;
        }
    }
    Ok(signatures)
}

/// Returns the certificate of the votes for the subject, if they are exactly a quorum.
pub(super) fn certificate_on<S: Assembly<D>, D: Digest>(
    alloc: Global,
    scheme: &S,
    members: u32,
    slots: &[Option<Ballot<D, S::Signature>>],
    subject: &Subject<D>,
) -> Result<Option<S::Certificate>, AllocError>
    requires { length (S.participants scheme.now) ≡ members }
    ensures { let signatures = signatures_on D.eq subject.now members slots.now in
        IfOk result (λ certificate. MatchOption certificate
        (length signatures ≢ quorum_of members)
        (λ c. (length signatures ≡ quorum_of members) × S.IsMadeOf scheme.now subject.now signatures c)) }
{
    if count_on(slots, members, subject) != quorum(members as usize) {
        return Ok(None);
    }
    let signatures = collect_on::<S, D>(alloc, slots, members, subject)?;
    Ok(Some(scheme.assemble(alloc, subject, signatures.as_slice())?))
}

/// Returns the certificate of the subject's kind, on the subject.
fn wrap<S: CertificateScheme, D: Digest>(
    subject: Subject<D>,
    certificate: S::Certificate,
) -> Certificate<S, D>
    ensures { result ≡ certificate_of subject certificate }
{
    match subject {
        Subject::Notarize(proposal) => Certificate::Notarization(Notarization {
            proposal,
            certificate,
        }),
        Subject::Nullify(round) => Certificate::Nullification(Nullification { round, certificate }),
        Subject::Finalize(proposal) => Certificate::Finalization(Finalization {
            proposal,
            certificate,
        }),
    }
}

/// Counts a further vote of a member, whose first one is the ballot. One pair is evidence enough: a member that signs
/// ever more votes, or whose two votes are sent again and again, would otherwise fill a log.
fn count_again<S: CertificateScheme, D: Digest>(
    alloc: Global,
    ballot: &Ballot<D, S::Signature>,
    vote: Vote<D, S::Signature>,
) -> Result<Counted<S, D>, AllocError>
    ensures { IfOk result (ShowsBoth ballot.now vote) }
{
    if ballot.is_contradicted || is_same_subject(&ballot.subject, &vote.subject) {
        return Ok(Counted::Known);
    }
    let first = Vote {
        subject: ballot.subject,
        signer: vote.signer,
        signature: S::copy_signature(alloc, &ballot.signature)?,
    };
    Ok(Counted::Equivocated(first, vote))
}

/// Takes a member's first vote. Without memory for its certificate it is not taken.
fn take<S: Assembly<D>, D: Digest>(
    alloc: Global,
    scheme: &S,
    members: u32,
    slots: &mut Vec<Option<Ballot<D, S::Signature>>>,
    vote: Vote<D, S::Signature>,
) -> Result<Counted<S, D>, AllocError>
    requires members { length (S.participants scheme.now) ≡ members }
    requires room { vote.signer < vec_len slots.old }
    requires first { ballot_of slots.old.items vote.signer ≡ None }
    ensures counted { IfOk result
        (IsCountedIn D.eq (S.IsMadeOf scheme.now) members slots.old.items vote slots.new.items) }
    ensures kept { OnErr result (HoldsTheSame slots.old.items slots.new.items) }
{
    let member = vote.signer.get() as usize;
    let subject = vote.subject;
    slots[member] = Some(Ballot {
        subject,
        signature: vote.signature,
        is_contradicted: false,
    });
    match certificate_on(alloc, scheme, members, slots, &subject) {
        Ok(None) => Ok(Counted::Taken),
        Ok(Some(certificate)) => Ok(Counted::Certified(wrap(subject, certificate))),
        Err(refused) => {
            slots[member] = None;
            Err(refused)
        }
    }
}

/// Returns whether the result is two votes that contradict each other.
fn is_pair<S: CertificateScheme, D: Digest>(counted: &Counted<S, D>) -> bool
    ensures { result ≡ is_pair counted.now }
{
    matches!(counted, Counted::Equivocated(_, _))
}

/// Notes that a vote which contradicts the member's was returned.
fn mark_contradicted<D: Copy, G: Drop>(slots: &mut Vec<Option<Ballot<D, G>>>, member: usize)
    ensures { IsMarked slots.old.items member slots.new.items }
{
    if let Some(slot) = slots.get_mut(member) {
        if let Some(ballot) = slot {
            ballot.is_contradicted = true;
        }
    }
}

/// Counts a member's vote.
pub(super) fn count<S: Assembly<D>, D: Digest>(
    alloc: Global,
    scheme: &S,
    members: u32,
    slots: &mut Vec<Option<Ballot<D, S::Signature>>>,
    vote: Vote<D, S::Signature>,
) -> Result<Counted<S, D>, AllocError>
    requires { length (S.participants scheme.now) ≡ members }
    ensures counted { IfOk result
        (IsCountedIn D.eq (S.IsMadeOf scheme.now) members slots.old.items vote slots.new.items) }
    ensures kept { OnErr result (HoldsTheSame slots.old.items slots.new.items) }
{
    let member = vote.signer.get() as usize;
    make_room(slots, member)?;
    let Some(ballot) = find(slots, member) else {
        return take(alloc, scheme, members, slots, vote);
    };
    let counted = count_again(alloc, ballot, vote)?;
    if is_pair(&counted) {
        mark_contradicted(slots, member);
    }
    Ok(counted)
}
