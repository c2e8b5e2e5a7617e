//! Why a record or a restart is refused.

ghost use Rattle.std.specs.Prelude.{◌≡◌, if◌then◌else◌, Ok, Err};
ghost use Rattle.simplex_record.specs.Errors.{recover_error_name};

use std::alloc::{AllocError, AllocFailed};
use std::error::Error;
use std::fmt;

/// Why no state is made from a record, by rising number from 1, in the order of the tests.
#[derive(Clone, Copy, PartialEq, Eq, Debug)]
pub enum RecoverError {
    /// An entry's view is below that of the entry before it.
    OutOfOrder,
    /// The floor or an entry is of another epoch.
    OtherEpoch,
    /// The floor's finalization or an entry is of view 0, which is genesis.
    ZeroView,
    /// A view or a parent is above 2^63 - 1.
    ViewTooLarge,
    /// A vote is not of the member that the scheme signs for.
    ForeignSigner,
    /// A vote to notarize or to finalize names a parent that is not below its view.
    ParentNotBelow,
    /// A verdict has no notarization of its view before it.
    VerdictWithoutNotarization,
    /// A verdict of a view contradicts one before it.
    ContradictingVerdicts,
    /// A view was voted both to nullify and to finalize.
    NullifyBesideFinalize,
    /// Two votes of one kind in a view are for two proposals.
    ContradictingVotes,
    /// A vote to finalize has no true verdict of its view before it.
    FinalizeWithoutVerdict,
    /// A deadline passes 2^64 - 1 milliseconds.
    TimeOverflow,
    /// An allocation failed: out of memory.
    OutOfMemory,
    /// The record is pruned, and more views are to be retained than in an earlier lifetime.
    RetentionGrown,
}

impl RecoverError {
    fn name(self) -> &'static str
        ensures { result.now ≡ recover_error_name self }
    {
        match self {
            RecoverError::OutOfOrder => "OutOfOrder",
            RecoverError::OtherEpoch => "OtherEpoch",
            RecoverError::ZeroView => "ZeroView",
            RecoverError::ViewTooLarge => "ViewTooLarge",
            RecoverError::ForeignSigner => "ForeignSigner",
            RecoverError::ParentNotBelow => "ParentNotBelow",
            RecoverError::VerdictWithoutNotarization => "VerdictWithoutNotarization",
            RecoverError::ContradictingVerdicts => "ContradictingVerdicts",
            RecoverError::NullifyBesideFinalize => "NullifyBesideFinalize",
            RecoverError::ContradictingVotes => "ContradictingVotes",
            RecoverError::FinalizeWithoutVerdict => "FinalizeWithoutVerdict",
            RecoverError::TimeOverflow => "TimeOverflow",
            RecoverError::OutOfMemory => "OutOfMemory",
            RecoverError::RetentionGrown => "RetentionGrown",
        }
    }
}

impl fmt::Display for RecoverError {
    ghost use Rattle.std.specs.Prelude.{Some};
    ghost use Rattle.simplex_record.specs.Errors.{recover_error_name};

    ghost output = { λ error. Some (recover_error_name error) };

    fn fmt<W: fmt::Write>(&self, f: &mut fmt::Formatter<W>) -> fmt::Result {
        f.write_str(self.name())
    }
}

impl Error for RecoverError {}

impl<V: Drop> From<AllocFailed<V>> for RecoverError {
    ghost use Rattle.std.specs.Prelude.{◌≡◌};
    ghost use Rattle.simplex_record.specs.declared.record.error.RecoverError.TheVariants.{OutOfMemory};

    ghost from_gives = { λ _ error. error ≡ OutOfMemory };

    fn from(_refused: AllocFailed<V>) -> RecoverError {
        RecoverError::OutOfMemory
    }
}

impl From<AllocError> for RecoverError {
    ghost use Rattle.std.specs.Prelude.{◌≡◌};
    ghost use Rattle.simplex_record.specs.declared.record.error.RecoverError.TheVariants.{OutOfMemory};

    ghost from_gives = { λ _ error. error ≡ OutOfMemory };

    fn from(_refused: AllocError) -> RecoverError {
        RecoverError::OutOfMemory
    }
}

/// Returns the error if its rule is broken.
pub(super) fn refuse_if(is_broken: bool, error: RecoverError) -> Result<(), RecoverError>
    ensures { result ≡ (if is_broken then Err error else Ok tt) }
{
    if is_broken {
        return Err(error);
    }
    Ok(())
}
