//! The ways in which serving ends before the end of the input.

ghost use Rattle.std.specs.Prelude.{◌≡◌};

use thiserror::Error;

/// Why serving ended before the end of the input.
#[derive(Debug, Drop, PartialEq, Eq, Error)]
pub enum ServeError {
    #[error("line {0}: not a call")]
    NotACall(u64),
    #[error("out of memory")]
    OutOfMemory,
    #[error("read failed")]
    Read,
    #[error("write failed")]
    Write,
}

impl ServeError {
    ghost use Rattle.simplex_program.specs.Status.{exit_status};

    /// Returns the program's exit status: 3 for a line that is no call, 4 for out of memory, 5 if reading or writing
    /// failed.
    pub fn status(&self) -> u8
        ensures { result ≡ exit_status self.now }
    {
        match self {
            ServeError::NotACall(_) => 3,
            ServeError::OutOfMemory => 4,
            ServeError::Read | ServeError::Write => 5,
        }
    }
}
