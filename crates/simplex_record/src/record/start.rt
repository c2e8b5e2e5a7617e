//! The start of a member.

ghost use Rattle.std.specs.Prelude.{◌≡◌, [], Some, None, IfOk, IfErr, OnOk, length, option_map};
ghost use Rattle.simplex_types.specs.Certificates.{finalization_facts};
ghost use Rattle.simplex_types.specs.Config.{floor_facts};
ghost use Rattle.simplex_voter.specs.Acceptance.{floor_answer, after_set_floor};
ghost use Rattle.simplex_record.specs.Recovery.{recover_error};
ghost use Rattle.simplex_record.specs.Start.{set_up, IsErrorDue, error_of};

use super::check::check_floor;
use super::error::RecoverError;
use simplex_types::config::Floor;
use simplex_types::types::{CertificateScheme, Digest, Elector, Fault, Finalization, ViewDelta};
use simplex_voter::voter::{Config, State};
use std::alloc::Global;

/// The start of a member: its settings, its floor, and the moment, in milliseconds.
///
/// A record doesn't show how long its terms were, nor whose it is before there is a vote in it. So the host must ensure
/// that a later lifetime, after a restart or a resume, has terms as long as those before it, and the key of the same
/// member or none: the laws of votes require it.
#[derive(Drop)]
pub struct Start<S: CertificateScheme, L: Elector<S>, D> {
    /// The elector's members are the scheme's participants.
    pub settings: Config<S, L>,
    pub floor: Floor<S, D>,
    pub now: u64,
}

/// How many views below the last finalized one are retained.
pub fn retention_of<S: CertificateScheme, L: Elector<S>>(settings: &Config<S, L>) -> ViewDelta
    ensures { result ≡ settings.now.view_retention }
{
    settings.view_retention
}

/// Returns a new state at a floor, on the heap since it is large, with the floor's finalization.
///
/// The elector's members must be the scheme's participants. Returns `OtherEpoch`, `ZeroView` or `ViewTooLarge` if the
/// floor's finalization is of another epoch or of view 0, or names a view above 2^63 - 1; `TimeOverflow` if a deadline
/// passes 2^64 - 1 milliseconds. Returns `OutOfMemory` only if none of these applies.
pub fn begin<S: CertificateScheme, L: Elector<S>, D: Digest>(
    alloc: Global,
    settings: Config<S, L>,
    floor: Floor<S, D>,
    now: u64,
) -> Result<(Box<State<S, L, D>>, Option<Finalization<S, D>>), RecoverError>
    requires { L.members settings.elector ≡ length (S.participants settings.scheme) }
    ensures begun { IfOk result (λ begun. begun.0.value
        ≡ after_set_floor D.eq L.elect (set_up S.me S.participants L.terms L.elects_early settings)
        (floor_facts S.certificate_bytes floor) now) }
    ensures floor { IfOk result
        (λ begun. option_map (finalization_facts S.certificate_bytes) begun.1 ≡ floor_answer
        (floor_facts S.certificate_bytes floor)) }
    ensures accepted { OnOk result (recover_error D.eq (set_up S.me S.participants L.terms L.elects_early settings)
        (floor_facts S.certificate_bytes floor) now [] ≡ None) }
    ensures refused { IfErr result (IsErrorDue (recover_error D.eq
        (set_up S.me S.participants L.terms L.elects_early settings) (floor_facts S.certificate_bytes floor) now [])) }
{
    check_floor(settings.epoch, &floor)?;
    let mut state = State::new(alloc, settings);
    match state.set_floor(floor, now) {
        Ok(finalization) => Ok((Box::new(alloc, state)?, finalization)),
        Err(fault) => Err(error_of(fault)),
    }
}

/// Why a state whose floor is good could not start.
fn error_of(fault: Fault) -> RecoverError
    ensures { result ≡ error_of fault }
{
    match fault {
        Fault::TimeOverflow => RecoverError::TimeOverflow,
        Fault::OutOfMemory | Fault::Failed | Fault::ViewTooLarge => RecoverError::OutOfMemory,
    }
}
