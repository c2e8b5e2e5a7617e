//! Why a record is not replayed.

use std::error::Error;
use std::fmt;

/// Why no resolver is started from a record, by rising number from 1.
#[derive(Clone, Copy, PartialEq, Eq, Debug)]
pub enum ReplayError {
    /// A certificate is of view 0, which is genesis.
    ZeroView,
    /// A certificate's view or its parent is above 2^63 - 1.
    ViewTooLarge,
    /// A verdict has no notarization of its view before it.
    VerdictWithoutNotarization,
    /// An allocation failed: out of memory.
    OutOfMemory,
}

impl fmt::Display for ReplayError {
    ghost use Rattle.std.specs.Prelude.{Some};
    ghost use Rattle.simplex_resolver.specs.ReplayErrors.{replay_error_name};

    ghost output = { λ error. Some (replay_error_name error) };

    fn fmt<W: fmt::Write>(&self, f: &mut fmt::Formatter<W>) -> fmt::Result {
        match self {
            ReplayError::ZeroView => write!(f, "ZeroView"),
            ReplayError::ViewTooLarge => write!(f, "ViewTooLarge"),
            ReplayError::VerdictWithoutNotarization => write!(f, "VerdictWithoutNotarization"),
            ReplayError::OutOfMemory => write!(f, "OutOfMemory"),
        }
    }
}

impl Error for ReplayError {}
