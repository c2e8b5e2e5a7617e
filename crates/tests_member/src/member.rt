//! Members of plain parts: one that resumes from its journal, one that begins at a floor, and their timeouts.

mod floors;
mod records;
mod retentions;
mod runs;
mod sample;
mod timeouts;

ghost use Rattle.std.specs.Prelude.{◌≡◌, IfOk, length};
ghost use Rattle.simplex_types.specs.Plain.{members_of, keys_of};

use simplex_member::member::{Member, RecoverError, Refusal, Restart, ResumeError, Start, Stored};
use simplex_types::config::Floor;
use simplex_types::reasons::TimeoutReason;
use simplex_types::types::plain::{PlainCertificate, PlainDigest, PlainElector, PlainScheme};
use simplex_types::types::{
    Artifact, Epoch, Fault, Notarization, Participant, Proposal, Round, TermLength, Terms, View,
    ViewDelta,
};
use simplex_voter::voter::Config;
use std::alloc::{AllocError, Global};
use std::num::NonZeroU32;
use std::test::Fail;

type PlainMember = Member<PlainScheme, PlainElector, PlainDigest>;

type PlainArtifact = Artifact<PlainScheme, PlainDigest>;

/// Terms of one view.
fn terms_of_one() -> Terms {
    Terms {
        term_length: TermLength::new(NonZeroU32::MIN),
        optimistic_views: 0,
        stall_timeout: None,
    }
}

/// Returns how member 0 of four starts at genesis, in terms of one view, with this number of retained views.
fn start(
    alloc: Global,
    retention: u64,
) -> Result<Start<PlainScheme, PlainElector, PlainDigest>, AllocError>
    ensures { IfOk result (λ start. members_of start.settings.elector ≡ length (keys_of start.settings.scheme)) }
{
    start_in(alloc, retention, terms_of_one())
}

/// Returns how member 0 of four starts at genesis, in these terms, with this number of retained views.
fn start_in(
    alloc: Global,
    retention: u64,
    terms: Terms,
) -> Result<Start<PlainScheme, PlainElector, PlainDigest>, AllocError>
    ensures { IfOk result (λ start. members_of start.settings.elector ≡ length (keys_of start.settings.scheme)) }
{
    let settings = Config {
        scheme: PlainScheme::new(alloc, 4, Some(Participant::new(0)))?,
        elector: PlainElector::new(4, terms),
        epoch: Epoch::new(1),
        view_retention: ViewDelta::new(retention),
        leader_timeout: 1000,
        certification_timeout: 2000,
        timeout_retry: 500,
        skip_budget: 4,
    };
    Ok(Start {
        settings,
        floor: Floor::Genesis(PlainDigest::new(0)),
        now: 0,
    })
}

fn round(view: u64) -> Round {
    Round {
        epoch: Epoch::new(1),
        view: View::new(view),
    }
}

fn proposal(view: u64, parent: u64, payload: u64) -> Proposal<PlainDigest> {
    Proposal {
        round: round(view),
        parent: View::new(parent),
        payload: PlainDigest::new(payload),
    }
}

fn notarization(view: u64, parent: u64, payload: u64) -> Notarization<PlainScheme, PlainDigest> {
    Notarization {
        proposal: proposal(view, parent, payload),
        certificate: PlainCertificate { good: true },
    }
}

fn first_notarization() -> Notarization<PlainScheme, PlainDigest> {
    notarization(1, 0, 7)
}

fn finalizes_first(member: &mut PlainMember) -> bool {
    matches!(member.construct_finalize(View::new(1)), Ok(Some(_)))
}

fn nullifies_first(member: &mut PlainMember) -> bool {
    let answer = member.construct_nullify(View::new(1), TimeoutReason::LeaderTimeout);
    matches!(answer, Ok(Some(_)))
}

/// Returns a member that starts, on the heap.
fn started(
    alloc: Global,
    start: Start<PlainScheme, PlainElector, PlainDigest>,
) -> Result<Box<PlainMember>, Fail>
    requires { members_of start.settings.elector ≡ length (keys_of start.settings.scheme) }
{
    Ok(Box::new(alloc, Member::start(alloc, start)?)?)
}

/// Returns a member that resumes from its journal, on the heap.
fn resumed(
    alloc: Global,
    stored: Stored,
    entries: Vec<PlainArtifact>,
) -> Result<Box<PlainMember>, Fail> {
    match Member::resume(alloc, start(alloc, 10)?, stored, entries) {
        Ok(member) => Ok(Box::new(alloc, member)?),
        Err(_) => Err(Fail::from("refused")),
    }
}

/// Passes a notarization of view 1, and certifies it.
fn certify_first(member: &mut PlainMember, now: u64) -> Result<(), Refusal> {
    member.add_notarization(first_notarization())?;
    member.certified(View::new(1), true, now)?;
    Ok(())
}

/// Returns a member that may vote to finalize view 1.
fn certified(alloc: Global) -> Result<Box<PlainMember>, Fail> {
    let mut member = started(alloc, start(alloc, 10)?)?;
    certify_first(&mut member, 10)?;
    Ok(member)
}

/// Returns what a journal reads back of a member.
fn read_back(alloc: Global, member: &PlainMember) -> Result<(Stored, Vec<PlainArtifact>), Fault> {
    let mut entries = Vec::new(alloc);
    for artifact in member.record_since(0) {
        entries.push(artifact.clone(alloc)?)?;
    }
    Ok((member.stored(), entries))
}

/// Returns a member that voted to finalize view 1 and was pruned, as a journal reads it back.
fn pruned(alloc: Global) -> Result<(Stored, Vec<PlainArtifact>), Fail> {
    let mut member = certified(alloc)?;
    finalizes_first(&mut member);
    member.restart(Restart {
        drop: 0,
        prune: true,
        start: start(alloc, 10)?,
    })?;
    Ok(read_back(alloc, &member)?)
}

/// Returns why a member does not resume from a journal, with the entries.
fn refused(
    alloc: Global,
    retention: u64,
    stored: Stored,
    entries: Vec<PlainArtifact>,
) -> Result<(ResumeError, Vec<PlainArtifact>), Fail> {
    match Member::resume(alloc, start(alloc, retention)?, stored, entries).err() {
        None => Err(Fail::from("resumed")),
        Some(refusal) => Ok((refusal.error, refusal.entries)),
    }
}

/// Returns whether a member resumes from a journal, with as many retained views as before.
fn continues(alloc: Global, stored: Stored, entries: Vec<PlainArtifact>) -> Result<bool, Fail> {
    let refusal = Member::resume(alloc, start(alloc, 10)?, stored, entries).err();
    Ok(refusal.is_none())
}

/// Returns another member, which resumes from what a journal reads back of one.
fn resumed_from(alloc: Global, member: &PlainMember) -> Result<Box<PlainMember>, Fail> {
    let (stored, entries) = read_back(alloc, member)?;
    resumed(alloc, stored, entries)
}

/// Returns whether a member with three entries and these stored numbers no longer votes for view 1.
fn is_done_with_first(member: &mut PlainMember, stored: Stored) -> bool {
    !finalizes_first(member)
        && !nullifies_first(member)
        && member.record_since(2).len() == 1
        && member.record_since(3).is_empty()
        && member.stored() == stored
}

#[test]
fn a_member_that_resumes_does_not_vote_again(rt: HostRuntime) -> Result<(), Fail> {
    let mut member = certified(rt.alloc())?;
    assert!(rt; finalizes_first(&mut member) && member.record_since(0).len() == 3);
    let mut resumed = resumed_from(rt.alloc(), &member)?;
    assert!(rt; is_done_with_first(&mut resumed, member.stored()));
    Ok(())
}

#[test]
fn a_member_that_did_not_vote_votes_after_it_resumed(rt: HostRuntime) -> Result<(), Fail> {
    let mut member = certified(rt.alloc())?;
    member = resumed_from(rt.alloc(), &member)?;
    assert!(rt; finalizes_first(&mut member) && member.record_since(2).len() == 1);
    Ok(())
}

#[test]
fn a_shorter_record_is_refused(rt: HostRuntime) -> Result<(), Fail> {
    let (stored, mut entries) = pruned(rt.alloc())?;
    entries.truncate(2);
    let (error, entries) = refused(rt.alloc(), 10, stored, entries)?;
    assert!(rt; stored.closed == 3 && error == ResumeError::EntriesLost && entries.len() == 2);
    Ok(())
}

#[test]
fn a_larger_retention_is_refused(rt: HostRuntime) -> Result<(), Fail> {
    let (stored, entries) = pruned(rt.alloc())?;
    let (error, entries) = refused(rt.alloc(), 11, stored, entries)?;
    assert!(rt; error == ResumeError::Recover(RecoverError::RetentionGrown));
    assert!(rt; continues(rt.alloc(), stored, entries)?);
    Ok(())
}
