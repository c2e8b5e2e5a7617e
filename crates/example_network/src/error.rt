//! Why a run ends early.

use simplex_engine::engine::StartError;
use simplex_types::types::Fault;
use std::alloc::AllocError;
use std::{fmt, io};

/// Why a run of the network ends before its views are finalized.
#[derive(Clone, Copy)]
pub enum RunError {
    OutOfMemory,
    /// An engine has failed.
    Failed(Fault),
    /// An engine did not start, or not resume from its disk.
    NotStarted(StartError),
    /// The output could not be written.
    NotPrinted,
    /// The views were not finalized in time.
    NotFinalized,
    /// Two proposals are final in one view.
    Disagreed,
}

impl fmt::Display for RunError {
    fn fmt<W: fmt::Write>(&self, f: &mut fmt::Formatter<W>) -> fmt::Result {
        match self {
            RunError::OutOfMemory => f.write_str("out of memory"),
            RunError::Failed(fault) => write!(f, "an engine has failed: {fault}"),
            RunError::NotStarted(error) => write!(f, "an engine did not start: {error}"),
            RunError::NotPrinted => f.write_str("what is printed could not be written"),
            RunError::NotFinalized => f.write_str("the views were not finalized in time"),
            RunError::Disagreed => f.write_str("two proposals are final in one view"),
        }
    }
}

impl From<Fault> for RunError {
    fn from(fault: Fault) -> RunError {
        match fault {
            Fault::OutOfMemory => RunError::OutOfMemory,
            fault => RunError::Failed(fault),
        }
    }
}

impl From<AllocError> for RunError {
    fn from(_refused: AllocError) -> RunError {
        RunError::OutOfMemory
    }
}

impl<V: Drop> From<std::alloc::AllocFailed<V>> for RunError {
    fn from(_refused: std::alloc::AllocFailed<V>) -> RunError {
        RunError::OutOfMemory
    }
}

impl From<StartError> for RunError {
    fn from(error: StartError) -> RunError {
        RunError::NotStarted(error)
    }
}

impl From<io::Error> for RunError {
    fn from(_error: io::Error) -> RunError {
        RunError::NotPrinted
    }
}
