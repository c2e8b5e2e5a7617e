//! The README's sample: a vote is stored before it is sent.

use super::{PlainArtifact, PlainMember, first_notarization, start, started};
use simplex_member::member::Refusal;
use simplex_types::types::plain::{PlainDigest, PlainScheme};
use simplex_types::types::{Finalize, Notarization, View};
use std::alloc::Global;
use std::test::Fail;

type PlainNotarization = Notarization<PlainScheme, PlainDigest>;

type PlainFinalize = Finalize<PlainScheme, PlainDigest>;

/// Returns the vote to finalize a view, once it is stored: a valid notarization of the view came, and the application
/// found its block valid.
fn finalize(
    alloc: Global,
    member: &mut PlainMember,
    journal: &mut Vec<PlainArtifact>,
    view: View,
    notarization: PlainNotarization,
    now: u64,
) -> Result<Option<PlainFinalize>, Refusal> {
    member.add_notarization(notarization)?;
    member.certified(view, true, now)?;
    let vote = member.construct_finalize(view)?;
    for artifact in member.record_since(journal.len()) {
        journal.push(artifact.clone(alloc)?)?;
    }
    Ok(vote)
}

/// Returns whether there is a vote to finalize view 1, and how many artifacts are stored then.
fn finalize_first(
    alloc: Global,
    member: &mut PlainMember,
    journal: &mut Vec<PlainArtifact>,
    now: u64,
) -> Result<(bool, usize), Refusal> {
    match finalize(
        alloc,
        member,
        journal,
        View::new(1),
        first_notarization(),
        now,
    ) {
        Ok(vote) => Ok((vote.is_some(), journal.len())),
        Err(refusal) => Err(refusal),
    }
}

#[test]
fn a_vote_is_stored_before_it_is_sent(rt: HostRuntime) -> Result<(), Fail> {
    let alloc = rt.alloc();
    let mut member = started(alloc, start(alloc, 10)?)?;
    let mut journal = Vec::new(alloc);
    let first = finalize_first(alloc, &mut member, &mut journal, 10)?;
    let again = finalize_first(alloc, &mut member, &mut journal, 20)?;
    assert!(rt; first == (true, 3) && again == (false, 3));
    Ok(())
}
