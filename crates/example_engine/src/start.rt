//! The settings of a member.

ghost use Rattle.std.specs.Prelude.{◌≡◌, ◌<◌, IfOk, length};
ghost use Rattle.simplex_types.specs.Plain.{members_of};
ghost use Rattle.example_engine.specs.Seals.{seal_keys};

use crate::digest::BlockDigest;
use crate::scheme::SealScheme;
use simplex_member::member::Start;
use simplex_types::config::Floor;
use simplex_types::types::plain::PlainElector;
use simplex_types::types::{Epoch, Terms, ViewDelta};
use simplex_voter::voter::Config;
use std::alloc::{AllocError, Global};

/// How a member starts.
pub type CoreStart = Start<SealScheme, PlainElector, BlockDigest>;

/// The epoch of every message.
pub const EPOCH: u64 = 1;

/// How many views below the last finalized one are retained.
const RETENTION: u64 = 10;

/// From the entry of a view until it times out without a proposal, in milliseconds.
const LEADER_TIMEOUT: u64 = 200;

/// From the entry of a view until it times out without its certification, in milliseconds.
const CERTIFICATION_TIMEOUT: u64 = 400;

/// From a vote to nullify until it is repeated, in milliseconds.
const TIMEOUT_RETRY: u64 = 300;

/// Returns how a member starts at genesis.
pub fn start_of(
    alloc: Global,
    members: u8,
    me: u8,
    terms: Terms,
    now: u64,
) -> Result<CoreStart, AllocError>
    requires { me < members }
    ensures { IfOk result (λ start. members_of start.settings.elector ≡ length (seal_keys start.settings.scheme)) }
{
    let settings = Config {
        scheme: SealScheme::new(alloc, members, me)?,
        elector: PlainElector::new(u32::from(members), terms),
        epoch: Epoch::new(EPOCH),
        view_retention: ViewDelta::new(RETENTION),
        leader_timeout: LEADER_TIMEOUT,
        certification_timeout: CERTIFICATION_TIMEOUT,
        timeout_retry: TIMEOUT_RETRY,
        skip_budget: u64::from(members),
    };
    Ok(Start {
        settings,
        floor: Floor::Genesis(BlockDigest::genesis()),
        now,
    })
}
