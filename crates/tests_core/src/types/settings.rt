//! A member's settings, each rule by name.

use super::{PlainFinalization, finalization};
use simplex_types::config::{Config, ConfigError, Floor, ForwardPolicy, SkipBudget, SkipPolicy};
use simplex_types::types::plain::{PlainDigest, PlainScheme};
use simplex_types::types::{Epoch, View, ViewDelta};
use std::alloc::Global;
use std::num::NonZeroU64;
use std::test::Fail;

#[test]
fn budgets_are_resolved_by_the_participants(rt: HostRuntime) -> Result<(), Fail> {
    let nine = NonZeroU64::new(9).ok_or("zero")?;
    assert_eq!(rt; SkipBudget::default().resolve(4), 4);
    assert_eq!(rt; SkipBudget::Participants.resolve(7), 7);
    assert_eq!(rt; SkipBudget::Fixed(nine).resolve(4), 9);
    assert!(rt; !ForwardPolicy::Disabled.is_enabled());
    assert!(rt; ForwardPolicy::SilentLeader.is_enabled());
    Ok(())
}

/// The timeouts of a leader, a certification and a retry in milliseconds, the retained views, and the timeout after
/// which a silent leader is skipped.
struct Settings(u64, u64, u64, u64, Option<u64>);

static GOOD: Settings = Settings(1000, 2000, 500, 10, None);

fn verdict(
    alloc: Global,
    members: u32,
    settings: &Settings,
    floor: Floor<PlainScheme, PlainDigest>,
) -> Result<Result<(), ConfigError>, Fail> {
    let config = Config {
        scheme: PlainScheme::new(alloc, members, None)?,
        epoch: Epoch::new(1),
        floor,
        leader_timeout: settings.0,
        certification_timeout: settings.1,
        timeout_retry: settings.2,
        view_retention: ViewDelta::new(settings.3),
        skip: match settings.4 {
            None => SkipPolicy::Disabled,
            Some(timeout) => SkipPolicy::Enabled {
                timeout,
                budget: SkipBudget::Participants,
            },
        },
        forward: ForwardPolicy::SilentVoters,
    };
    Ok(config.assert())
}

fn genesis() -> Floor<PlainScheme, PlainDigest> {
    Floor::Genesis(PlainDigest::new(0))
}

/// Numbers of members and settings, each with the first rule that they break.
static RULES: [(u32, Settings, Result<(), ConfigError>); 9] = [
    (4, Settings(1000, 2000, 500, 10, None), Ok(())),
    (
        0,
        Settings(1000, 2000, 500, 10, None),
        Err(ConfigError::NoParticipants),
    ),
    (
        4,
        Settings(0, 0, 500, 10, None),
        Err(ConfigError::LeaderTimeoutZero),
    ),
    (
        4,
        Settings(1000, 1000, 500, 10, None),
        Err(ConfigError::CertificationNotAboveLeader),
    ),
    (
        4,
        Settings(1000, 2000, 500, 10, Some(2000)),
        Err(ConfigError::SkipNotAboveCertification),
    ),
    (
        4,
        Settings(1000, 2000, 3000, 10, Some(3000)),
        Err(ConfigError::SkipNotAboveRetry),
    ),
    (
        4,
        Settings(1000, 2000, 0, 10, None),
        Err(ConfigError::RetryZero),
    ),
    (
        4,
        Settings(1000, 2000, 0, 0, None),
        Err(ConfigError::RetryZero),
    ),
    (
        4,
        Settings(1000, 2000, 500, 0, None),
        Err(ConfigError::RetentionZero),
    ),
];

#[test]
fn the_first_broken_rule_is_reported(rt: HostRuntime) -> Result<(), Fail> {
    for (members, settings, expected) in &RULES {
        let found = verdict(rt.alloc(), *members, settings, genesis())?;
        assert_eq!(rt; found, *expected);
    }
    Ok(())
}

/// Returns whether a copy of a finalized floor has its view, and is judged as expected.
fn is_judged(
    alloc: Global,
    finalization: PlainFinalization,
    expected: Result<(), ConfigError>,
) -> Result<bool, Fail> {
    let floor = Floor::Finalized(finalization);
    let copy = floor.clone(alloc)?;
    Ok(copy.view() == floor.view() && verdict(alloc, 4, &GOOD, copy)? == expected)
}

/// Epochs and views of finalizations, and whether their certificates are valid, each with the rule that it breaks.
static FLOORS: [(u64, u64, bool, Result<(), ConfigError>); 4] = [
    (2, 0, true, Err(ConfigError::FloorEpoch)),
    (1, 0, true, Err(ConfigError::FloorAtGenesis)),
    (1, 20, false, Err(ConfigError::FloorUnverified)),
    (1, 20, true, Ok(())),
];

#[test]
fn a_floor_is_of_its_epoch_above_genesis_and_good(rt: HostRuntime) -> Result<(), Fail> {
    for (epoch, view, good, expected) in &FLOORS {
        let floor = finalization(*epoch, *view, *good);
        assert!(rt; is_judged(rt.alloc(), floor, *expected)?, "{expected:?}");
    }
    assert_eq!(rt; genesis().clone(rt.alloc())?.view(), View::zero());
    Ok(())
}
