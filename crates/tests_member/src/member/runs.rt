//! A whole run of a member of plain parts, with a restart in it.

use super::{first_notarization, start};
use simplex_member::member::{Call, Reply, Restart, Step, run};
use simplex_types::reasons::TimeoutReason;
use simplex_types::types::View;
use simplex_types::types::plain::{PlainDigest, PlainScheme};
use std::test::Fail;

/// Returns the text for a reply of the run.
fn reply_text(reply: &Reply<PlainScheme, PlainDigest>) -> &'static str {
    match reply {
        Reply::Nullify(Some((false, _))) => "a vote to nullify",
        Reply::Nullify(Some((true, _))) => "the vote to nullify again",
        Reply::Added(true, None) => "newly added",
        Reply::Certified(true, Some(_)) => "certified",
        Reply::Nullify(None) | Reply::Finalize(None) => "no vote",
        Reply::Restarted => "restarted",
        _ => "another reply",
    }
}

/// Returns the text of the first reply that is not the expected one.
fn first_other(
    replies: &[Reply<PlainScheme, PlainDigest>],
    wanted: &[&str],
) -> Option<&'static str> {
    for (reply, text) in replies.iter().zip(wanted) {
        if reply_text(reply) != *text {
            return Some(reply_text(reply));
        }
    }
    None
}

#[test]
fn a_member_that_voted_to_nullify_a_view_never_votes_to_finalize_it(
    rt: HostRuntime,
) -> Result<(), Fail> {
    let alloc = rt.alloc();
    let restart = Restart {
        drop: 0,
        prune: false,
        start: start(alloc, 10)?,
    };
    let steps = vec![in alloc;
        Step::Call(Call::ConstructNullify(View::new(1), TimeoutReason::LeaderTimeout)),
        Step::Call(Call::ConstructNullify(View::new(1), TimeoutReason::LeaderTimeout)),
        Step::Call(Call::AddNotarization(first_notarization())),
        Step::Call(Call::Certified(View::new(1), true, 10)),
        Step::Call(Call::ConstructFinalize(View::new(1))),
        Step::Restart(restart),
        Step::Call(Call::ConstructFinalize(View::new(1))),
        Step::Call(Call::ConstructNullify(View::new(1), TimeoutReason::Retry)),
    ]?;
    let replies = run(alloc, start(alloc, 10)?, steps)?;
    let wanted = [
        "a vote to nullify",
        "the vote to nullify again",
        "newly added",
        "certified",
        "no vote",
        "restarted",
        "no vote",
        "no vote",
    ];
    assert_eq!(rt; replies.len(), wanted.len());
    assert_eq!(rt; first_other(&replies, &wanted), None);
    Ok(())
}
