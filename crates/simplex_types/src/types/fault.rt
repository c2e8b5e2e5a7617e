//! Why a call is refused.

use std::alloc::AllocError;
use std::error::Error;
use std::fmt;

/// Why a call was refused, by rising number from 1.
///
/// After `ViewTooLarge` and `TimeOverflow` nothing has changed. After `OutOfMemory` a state that was to be changed has
/// failed, unless its call says otherwise, and returns `Failed` from then on.
#[derive(Clone, Copy, PartialEq, Eq, Debug)]
pub enum Fault {
    /// An allocation failed: out of memory.
    OutOfMemory,
    /// The state or the member has failed before.
    Failed,
    /// A view or a parent that was passed in is above 2^63 - 1.
    ViewTooLarge,
    /// A deadline or a retry moment passes 2^64 - 1 milliseconds.
    TimeOverflow,
}

impl Fault {
    ghost use Rattle.std.specs.Prelude.{◌≡◌};
    ghost use Rattle.simplex_types.specs.Fault.{fault_name};

    fn name(&self) -> &'static str
        ensures { result.now ≡ fault_name self.now }
    {
        match self {
            Fault::OutOfMemory => "OutOfMemory",
            Fault::Failed => "Failed",
            Fault::ViewTooLarge => "ViewTooLarge",
            Fault::TimeOverflow => "TimeOverflow",
        }
    }
}

impl fmt::Display for Fault {
    ghost use Rattle.std.specs.Prelude.{Some};
    ghost use Rattle.simplex_types.specs.Fault.{fault_name};

    ghost output = { λ fault. Some (fault_name fault) };

    fn fmt<W: fmt::Write>(&self, f: &mut fmt::Formatter<W>) -> fmt::Result {
        f.write_str(self.name())
    }
}

impl Error for Fault {}

impl From<AllocError> for Fault {
    ghost use Rattle.std.specs.Prelude.{◌≡◌};
    ghost use Rattle.simplex_types.specs.declared.types.fault.Fault.TheVariants.{OutOfMemory};

    ghost from_gives = { λ _ fault. fault ≡ OutOfMemory };

    fn from(_refused: AllocError) -> Fault {
        Fault::OutOfMemory
    }
}

/// There was no memory for the value, which is returned.
#[derive(Debug, Drop)]
pub struct AllocFailed<V> {
    pub value: V,
}

impl<V> fmt::Display for AllocFailed<V> {
    ghost use Rattle.std.specs.Prelude.{Some};
    ghost use Rattle.simplex_types.specs.Fault.{fault_name};
    ghost use Rattle.simplex_types.specs.declared.types.fault.Fault.TheVariants.{OutOfMemory};

    ghost output = { λ _. Some (fault_name OutOfMemory) };

    fn fmt<W: fmt::Write>(&self, f: &mut fmt::Formatter<W>) -> fmt::Result {
        write!(f, "OutOfMemory")
    }
}

impl<V: fmt::Debug + Drop> Error for AllocFailed<V> {}

impl<V: Drop> From<AllocFailed<V>> for Fault {
    ghost use Rattle.std.specs.Prelude.{◌≡◌};
    ghost use Rattle.simplex_types.specs.declared.types.fault.Fault.TheVariants.{OutOfMemory};

    ghost from_gives = { λ _ fault. fault ≡ OutOfMemory };

    fn from(_refused: AllocFailed<V>) -> Fault {
        Fault::OutOfMemory
    }
}

impl<V: Drop> From<std::alloc::AllocFailed<V>> for Fault {
    ghost use Rattle.std.specs.Prelude.{◌≡◌};
    ghost use Rattle.simplex_types.specs.declared.types.fault.Fault.TheVariants.{OutOfMemory};

    ghost from_gives = { λ _ fault. fault ≡ OutOfMemory };

    fn from(_refused: std::alloc::AllocFailed<V>) -> Fault {
        Fault::OutOfMemory
    }
}
