//! Why a call of a member is refused.

ghost use Rattle.std.specs.Prelude.{◌≡◌};
ghost use Rattle.simplex_member.specs.PartialFailures.{is_lost};

use simplex_types::types::Fault;
use std::alloc::{AllocError, AllocFailed};
use std::error::Error;
use std::fmt;

/// Why a call is refused. Except when out of memory, nothing has changed.
#[derive(Clone, Copy, PartialEq, Eq, Debug)]
pub enum Refusal {
    /// A fault of the state: after `OutOfMemory` the member has failed, or nothing has changed.
    Fault(Fault),
    /// The host must not make this call now.
    NotAllowed,
}

impl fmt::Display for Refusal {
    ghost use Rattle.std.specs.Prelude.{Some};
    ghost use Rattle.simplex_member.specs.Errors.{refusal_name};

    ghost output = { λ refusal. Some (refusal_name refusal) };

    fn fmt<W: fmt::Write>(&self, f: &mut fmt::Formatter<W>) -> fmt::Result {
        match self {
            Refusal::Fault(fault) => write!(f, "{fault}"),
            Refusal::NotAllowed => write!(f, "NotAllowed"),
        }
    }
}

impl Error for Refusal {}

impl From<Fault> for Refusal {
    ghost use Rattle.std.specs.Prelude.{◌≡◌};
    ghost use Rattle.simplex_member.specs.declared.member.refusal.Refusal.TheVariants as refusal;

    ghost from_gives = { λ fault result. result ≡ refusal.Fault fault };

    fn from(fault: Fault) -> Refusal {
        Refusal::Fault(fault)
    }
}

impl From<AllocError> for Refusal {
    ghost use Rattle.std.specs.Prelude.{◌≡◌};
    ghost use Rattle.simplex_types.specs.declared.types.fault.Fault.TheVariants.{OutOfMemory};
    ghost use Rattle.simplex_member.specs.declared.member.refusal.Refusal.TheVariants as refusal;

    ghost from_gives = { λ _ result. result ≡ refusal.Fault OutOfMemory };

    fn from(_refused: AllocError) -> Refusal {
        Refusal::Fault(Fault::OutOfMemory)
    }
}

impl<V: Drop> From<AllocFailed<V>> for Refusal {
    ghost use Rattle.std.specs.Prelude.{◌≡◌};
    ghost use Rattle.simplex_types.specs.declared.types.fault.Fault.TheVariants.{OutOfMemory};
    ghost use Rattle.simplex_member.specs.declared.member.refusal.Refusal.TheVariants as refusal;

    ghost from_gives = { λ _ result. result ≡ refusal.Fault OutOfMemory };

    fn from(_refused: AllocFailed<V>) -> Refusal {
        Refusal::Fault(Fault::OutOfMemory)
    }
}

/// Returns whether the state is lost: it ran out of memory in the middle of a call.
pub(super) fn is_lost<T>(made: &Result<T, Fault>) -> bool
    ensures { result ≡ is_lost made.now }
{
    matches!(made, Err(Fault::OutOfMemory))
}
