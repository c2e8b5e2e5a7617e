//! Retentions that shrink and grow over the lifetimes of a member of plain parts.

use super::{PlainMember, notarization, proposal, start, started};
use simplex_member::member::{RecoverError, Restart};
use simplex_types::types::plain::PlainCertificate;
use simplex_types::types::{Finalization, View};
use std::alloc::Global;
use std::test::Fail;

/// A lifetime that is asked for: whether the record is pruned first, and how many views are retained; whether it
/// begins, and the record's entries and the lowest retained view then.
type Life = (bool, u64, Result<(), RecoverError>, usize, u64);

/// Lifetimes of a member that retains ten views, and accepted a finalization of view 20 and notarizations of views 4
/// and 12. A pruning removes what is below the views that the lifetime before retained, whatever the next one retains.
/// Once a record is pruned, no more may be retained than in any lifetime before.
static LIVES: [&[Life]; 7] = [
    &[(true, 5, Ok(()), 2, 15), (true, 5, Ok(()), 1, 15)],
    &[(false, 5, Ok(()), 3, 15), (true, 5, Ok(()), 1, 15)],
    &[(true, 20, Err(RecoverError::RetentionGrown), 3, 10)],
    &[
        (true, 11, Err(RecoverError::RetentionGrown), 3, 10),
        (true, 10, Ok(()), 2, 10),
        (false, 11, Err(RecoverError::RetentionGrown), 2, 10),
        (false, 5, Ok(()), 2, 15),
        (false, 10, Err(RecoverError::RetentionGrown), 2, 15),
        (true, 5, Ok(()), 1, 15),
    ],
    &[
        (false, 20, Ok(()), 3, 0),
        (true, 20, Err(RecoverError::RetentionGrown), 3, 0),
    ],
    &[(false, 5, Ok(()), 3, 15), (false, 10, Ok(()), 3, 10)],
    &[(true, 0, Ok(()), 2, 20), (true, 0, Ok(()), 1, 20)],
];

/// Begins another lifetime that retains this number of views.
fn restart(
    alloc: Global,
    member: &mut PlainMember,
    prune: bool,
    retention: u64,
) -> Result<Result<(), RecoverError>, Fail> {
    Ok(member.restart(Restart {
        drop: 0,
        prune,
        start: start(alloc, retention)?,
    }))
}

/// Returns a member that retains ten views, and accepted a finalization of view 20 and notarizations of views 4 and 12.
fn finalized_at_20(alloc: Global) -> Result<Box<PlainMember>, Fail> {
    let mut member = started(alloc, start(alloc, 10)?)?;
    member.add_notarization(notarization(4, 3, 7))?;
    let finalization = Finalization {
        proposal: proposal(20, 19, 7),
        certificate: PlainCertificate { good: true },
    };
    member.add_finalization(finalization, 5)?;
    member.add_notarization(notarization(12, 11, 7))?;
    Ok(member)
}

/// Returns whether the member has this number of entries, and retains the views from one on.
fn keeps(member: &PlainMember, entries: usize, lowest: u64) -> bool {
    let Some(state) = member.state() else {
        return false;
    };
    member.record().len() == entries && state.min_active() == View::new(lowest)
}

/// Returns how many of the lifetimes came as expected, up to the first that did not.
fn lives_as_expected(
    alloc: Global,
    member: &mut PlainMember,
    lives: &[Life],
) -> Result<usize, Fail> {
    let mut count: usize = 0;
    for (prune, retention, wanted, entries, lowest) in lives {
        let begins = restart(alloc, member, *prune, *retention)?;
        if begins != *wanted || !keeps(member, *entries, *lowest) {
            break;
        }
        count = count.saturating_add(1);
    }
    Ok(count)
}

#[test]
fn a_record_is_pruned_by_the_last_lifetime_and_a_retention_grows_only_before(
    rt: HostRuntime,
) -> Result<(), Fail> {
    for lives in &LIVES {
        let mut member = finalized_at_20(rt.alloc())?;
        assert_eq!(rt;
            lives_as_expected(rt.alloc(), &mut member, lives)?,
            lives.len()
        );
    }
    Ok(())
}

/// Returns whether a pruning drops exactly these views.
fn drops(member: &mut PlainMember, wanted: &[View]) -> bool {
    match member.prune() {
        Ok(views) => views.as_slice() == wanted,
        Err(_) => false,
    }
}

/// Returns whether the member's state has the notarization of view 12.
fn has_notarization(member: &PlainMember) -> bool {
    match member.state() {
        Some(state) => state.notarization(View::new(12)).is_some(),
        None => false,
    }
}

#[test]
fn a_shrunk_retention_leaves_the_state_as_the_last_lifetime_kept_it(
    rt: HostRuntime,
) -> Result<(), Fail> {
    let mut member = finalized_at_20(rt.alloc())?;
    assert_eq!(rt; restart(rt.alloc(), &mut member, true, 5)?, Ok(()));
    assert!(rt;
        has_notarization(&member)
            && drops(&mut member, &[View::new(1), View::new(12), View::new(13)])
            && !has_notarization(&member)
    );
    Ok(())
}
