//! Timeouts of members of plain parts: skip budgets, stalls, and a moment past 64 bits.

ghost use Rattle.std.specs.Prelude.{◌≡◌, IfOk, length};
ghost use Rattle.simplex_types.specs.Plain.{members_of, keys_of};

use super::{PlainMember, notarization, proposal, start, start_in, started};
use Event::{Certified, Finalized, GivenUp, Nullified, Proposed};
use simplex_member::member::{Member, RecoverError, Refusal, Start};
use simplex_types::reasons::TimeoutReason;
use simplex_types::types::plain::{PlainCertificate, PlainDigest, PlainElector, PlainScheme};
use simplex_types::types::{Fault, Finalization, Nullification, TermLength, Terms, View};
use simplex_voter::voter::State;
use std::alloc::{AllocError, Global};
use std::num::NonZeroU32;
use std::test::Fail;

type PlainStart = Start<PlainScheme, PlainElector, PlainDigest>;

/// An input of a member: a view, on the view before if it has a parent, and a moment in milliseconds.
#[derive(Clone, Copy)]
enum Event {
    /// The leader's proposal arrives.
    Proposed(u64),
    /// The view is notarized, and certified at the moment.
    Certified(u64, u64),
    /// The view is finalized.
    Finalized(u64, u64),
    /// The view is nullified.
    Nullified(u64, u64),
    /// Its leader abandons the view.
    GivenUp(u64, u64),
}

/// A poll at a moment, and the timeout that it returns, if it returns one.
type Poll = (u64, Option<(u64, TimeoutReason)>);

/// Returns the view before.
fn below(view: u64) -> u64 {
    view.saturating_sub(1)
}

/// Passes an input to a member.
fn submit(member: &mut PlainMember, event: Event) -> Result<(), Refusal> {
    match event {
        Event::Proposed(view) => {
            member.set_proposal(View::new(view), proposal(view, below(view), 7))?;
        }
        Event::Certified(view, now) => {
            member.add_notarization(notarization(view, below(view), 7))?;
            member.certified(View::new(view), true, now)?;
        }
        Event::Finalized(view, now) => {
            let finalization = Finalization {
                proposal: proposal(view, below(view), 7),
                certificate: PlainCertificate { good: true },
            };
            member.add_finalization(finalization, now)?;
        }
        Event::Nullified(view, now) => {
            let nullification = Nullification {
                round: super::round(view),
                certificate: PlainCertificate { good: true },
            };
            member.add_nullification(nullification, now)?;
        }
        Event::GivenUp(view, now) => {
            member.trigger_timeout(View::new(view), TimeoutReason::LeaderNullify, now)?;
        }
    }
    Ok(())
}

/// Returns the next timeout with its reason, if there is one, after all of these inputs.
fn timeout_behind(
    member: &mut PlainMember,
    events: &[Event],
    now: u64,
) -> Result<Option<(u64, TimeoutReason)>, Refusal> {
    for event in events {
        submit(member, *event)?;
    }
    Ok(member.next_timeout(now).ok())
}

/// Returns terms of one view or of five, which stall after this number of milliseconds or never.
fn terms(are_of_five: bool, stall_timeout: Option<u64>) -> Terms {
    let term_length = if are_of_five {
        NonZeroU32::MIN.saturating_add(4)
    } else {
        NonZeroU32::MIN
    };
    Terms {
        term_length: TermLength::new(term_length),
        optimistic_views: 0,
        stall_timeout,
    }
}

/// Skip budgets, whether terms have five views, the inputs, and a poll after them. A view that was abandoned times out
/// at once only if the budget is above the number of terms since the last finalized view's next one.
static BUDGETS: [(u64, bool, &[Event], Poll); 11] = [
    (
        0,
        false,
        &[Proposed(1), GivenUp(1, 5)],
        (5, Some((2000, TimeoutReason::CertificationTimeout))),
    ),
    (
        0,
        false,
        &[GivenUp(1, 5)],
        (5, Some((1000, TimeoutReason::LeaderTimeout))),
    ),
    (
        1,
        false,
        &[Proposed(1), GivenUp(1, 5)],
        (5, Some((5, TimeoutReason::LeaderNullify))),
    ),
    (
        3,
        false,
        &[Nullified(3, 10), GivenUp(4, 20)],
        (30, Some((1010, TimeoutReason::LeaderTimeout))),
    ),
    (
        4,
        false,
        &[Nullified(3, 10), GivenUp(4, 20)],
        (30, Some((20, TimeoutReason::LeaderNullify))),
    ),
    (
        1,
        false,
        &[Finalized(3, 10), GivenUp(4, 20)],
        (30, Some((20, TimeoutReason::LeaderNullify))),
    ),
    (
        1,
        true,
        &[Nullified(1, 10), GivenUp(6, 20)],
        (30, Some((1010, TimeoutReason::LeaderTimeout))),
    ),
    (
        2,
        true,
        &[Nullified(1, 10), GivenUp(6, 20)],
        (30, Some((20, TimeoutReason::LeaderNullify))),
    ),
    (
        1,
        true,
        &[Certified(1, 10), GivenUp(2, 20)],
        (30, Some((20, TimeoutReason::LeaderNullify))),
    ),
    (
        2,
        true,
        &[Finalized(4, 5), Nullified(6, 10), GivenUp(11, 20)],
        (30, Some((1010, TimeoutReason::LeaderTimeout))),
    ),
    (
        3,
        true,
        &[Finalized(4, 5), Nullified(6, 10), GivenUp(11, 20)],
        (30, Some((20, TimeoutReason::LeaderNullify))),
    ),
];

/// Returns how a member with a skip budget starts.
fn with_budget(alloc: Global, budget: u64, are_of_five: bool) -> Result<PlainStart, AllocError>
    ensures { IfOk result (λ start. members_of start.settings.elector ≡ length (keys_of start.settings.scheme)) }
{
    let mut begun = start_in(alloc, 10, terms(are_of_five, None))?;
    begun.settings.skip_budget = budget;
    Ok(begun)
}

#[test]
fn an_abandoned_view_is_skipped_within_the_budget(rt: HostRuntime) -> Result<(), Fail> {
    for (budget, are_of_five, events, (now, wanted)) in &BUDGETS {
        let start = with_budget(rt.alloc(), *budget, *are_of_five)?;
        let mut member = started(rt.alloc(), start)?;
        assert_eq!(rt; timeout_behind(&mut member, events, *now)?, *wanted);
    }
    Ok(())
}

/// Stall timeouts in terms of five views, the inputs, and a poll after them. What stalls is the first view entered
/// above the last finalized one, however many of its term are certified.
static STALLS: [(Option<u64>, &[Event], Poll); 11] = [
    (None, &[], (10, Some((9000, TimeoutReason::LeaderTimeout)))),
    (
        Some(5000),
        &[],
        (10, Some((5000, TimeoutReason::StallTimeout))),
    ),
    (
        Some(5000),
        &[Certified(1, 100)],
        (100, Some((5000, TimeoutReason::StallTimeout))),
    ),
    (
        Some(5000),
        &[Certified(1, 100)],
        (5001, Some((5000, TimeoutReason::StallTimeout))),
    ),
    (
        Some(5000),
        &[Certified(1, 100), Finalized(1, 100)],
        (100, Some((5100, TimeoutReason::StallTimeout))),
    ),
    (
        Some(5000),
        &[Certified(1, 100), Finalized(1, 100)],
        (9100, Some((9100, TimeoutReason::LeaderTimeout))),
    ),
    (
        Some(5000),
        &[Certified(1, 100), Certified(2, 200), Finalized(1, 300)],
        (300, Some((5100, TimeoutReason::StallTimeout))),
    ),
    (
        Some(5000),
        &[Certified(1, 100), Certified(2, 200), Finalized(2, 300)],
        (300, Some((5200, TimeoutReason::StallTimeout))),
    ),
    (
        Some(5000),
        &[Nullified(3, 70)],
        (70, Some((5070, TimeoutReason::StallTimeout))),
    ),
    (
        Some(5000),
        &[Certified(1, 100), GivenUp(2, 150)],
        (150, Some((150, TimeoutReason::LeaderNullify))),
    ),
    (
        Some(1),
        &[Certified(1, 100)],
        (100, Some((1, TimeoutReason::StallTimeout))),
    ),
];

/// Returns how a member starts that may stall, with longer timeouts of a view.
fn with_stall(alloc: Global, stall_timeout: Option<u64>) -> Result<PlainStart, AllocError>
    ensures { IfOk result (λ start. members_of start.settings.elector ≡ length (keys_of start.settings.scheme)) }
{
    let mut begun = start_in(alloc, 10, terms(true, stall_timeout))?;
    begun.settings.leader_timeout = 9000;
    begun.settings.certification_timeout = 10000;
    Ok(begun)
}

#[test]
fn the_first_view_that_is_not_finalized_stalls(rt: HostRuntime) -> Result<(), Fail> {
    for (stall_timeout, events, (now, wanted)) in &STALLS {
        let mut member = started(rt.alloc(), with_stall(rt.alloc(), *stall_timeout)?)?;
        assert_eq!(rt; timeout_behind(&mut member, events, *now)?, *wanted);
    }
    Ok(())
}

#[test]
fn a_start_whose_deadline_passes_64_bits_is_refused(rt: HostRuntime) -> Result<(), Fail> {
    let alloc = rt.alloc();
    let mut begun = start(alloc, 10)?;
    begun.now = u64::MAX;
    assert_eq!(rt;
        Member::start(alloc, begun).err(),
        Some(RecoverError::TimeOverflow)
    );
    Ok(())
}

#[test]
fn a_genesis_whose_deadline_passes_64_bits_is_refused(rt: HostRuntime) -> Result<(), Fail> {
    let alloc = rt.alloc();
    let mut begun = start(alloc, 10)?;
    begun.settings.leader_timeout = 1;
    let mut state = State::new(alloc, begun.settings);
    let answer = state.set_genesis(PlainDigest::new(0), u64::MAX);
    assert!(rt; answer == Err(Fault::TimeOverflow) && state.current_view().is_zero());
    Ok(())
}
