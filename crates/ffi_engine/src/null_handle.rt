//! The results for an engine's handle that is null.

ghost use Rattle.std.specs.Prelude.{◌≡◌};

use crate::flat::{FlatOpen, FlatOutput, FlatStatus, FlatTaken};
use crate::held::{no_output, untaken};
use crate::views::not_open;
use ffi_member::null_handle::STATUS_NO_HANDLE;

/// Returns the result of an input.
pub fn taken() -> FlatTaken
    ensures { result.status ≡ 15 }
{
    untaken(STATUS_NO_HANDLE)
}

/// Returns an output.
pub fn output() -> FlatOutput
    ensures { result.status ≡ 15 }
{
    no_output(STATUS_NO_HANDLE)
}

/// Returns what a getter of an engine's status returns for a null handle: that status, and zeros.
pub fn engine_status() -> FlatStatus
    ensures { result.status ≡ 15 }
{
    FlatStatus {
        status: STATUS_NO_HANDLE,
        reserved: 0,
        wake: 0,
        ignored: 0,
        fetches: 0,
    }
}

/// Returns what a getter of an open fetch returns for a null handle: that status, and no fetch.
pub fn open() -> FlatOpen
    ensures { result.status ≡ 15 }
{
    FlatOpen {
        status: STATUS_NO_HANDLE,
        ..not_open()
    }
}
