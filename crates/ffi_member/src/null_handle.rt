//! The results for a handle that is null.

ghost use Rattle.std.specs.Prelude.{◌≡◌};

use crate::flat::FlatReply;
use crate::flat_replies::unanswered;
use crate::resolver_calls::{no_effect, no_effects, unserved};
use crate::resolver_types::{FlatEffect, FlatEffects, FlatOutstanding, FlatServed, FlatSettled};
use crate::view_types::{
    CHUNK, FlatChunk, FlatEntries, FlatFound, FlatItem, FlatStored, FlatView, FlatWithheld,
};
use crate::views::{no_item, no_view, unfound};
use crate::withheld::no_reason;

/// The status for a null handle: nothing was done.
pub const STATUS_NO_HANDLE: u32 = 15;

/// Returns the status for a null handle.
pub fn status() -> u32
    ensures { result ≡ 15 }
{
    STATUS_NO_HANDLE
}

/// Returns the reply to a call.
pub fn reply() -> FlatReply
    ensures { result.status ≡ 15 }
{
    unanswered(STATUS_NO_HANDLE)
}

/// Returns a part of bytes.
pub fn chunk() -> FlatChunk
    ensures { result.status ≡ 15 }
{
    FlatChunk {
        status: STATUS_NO_HANDLE,
        reserved: 0,
        count: 0,
        bytes: [0; CHUNK],
    }
}

/// Returns an item of a reply's lists.
pub fn item() -> FlatItem
    ensures { result.status ≡ 15 }
{
    FlatItem {
        status: STATUS_NO_HANDLE,
        ..no_item()
    }
}

/// Returns a certificate.
pub fn found() -> FlatFound
    ensures { result.status ≡ 15 }
{
    unfound(STATUS_NO_HANDLE)
}

/// Returns the entries of a record.
pub fn entries() -> FlatEntries
    ensures { result.status ≡ 15 }
{
    FlatEntries {
        status: STATUS_NO_HANDLE,
        reserved: 0,
        bytes: 0,
        stored: FlatStored {
            entries: 0,
            closed: 0,
            retention: 0,
            least_retention: 0,
            is_pruned: 0,
            reserved: 0,
        },
    }
}

/// Returns what a member knows.
pub fn view() -> FlatView
    ensures { result.status ≡ 15 }
{
    FlatView {
        status: STATUS_NO_HANDLE,
        ..no_view()
    }
}

/// Returns why a vote is withheld.
pub fn withheld() -> FlatWithheld
    ensures { result.status ≡ 15 }
{
    no_reason(STATUS_NO_HANDLE)
}

/// Returns the effects of a resolver's input.
pub fn effects() -> FlatEffects
    ensures { result.status ≡ 15 }
{
    no_effects(STATUS_NO_HANDLE)
}

/// Returns an effect.
pub fn effect() -> FlatEffect
    ensures { result.status ≡ 15 }
{
    FlatEffect {
        status: STATUS_NO_HANDLE,
        ..no_effect()
    }
}

/// Returns what a resolver knows of a view.
pub fn settled() -> FlatSettled
    ensures { result.status ≡ 15 }
{
    FlatSettled {
        status: STATUS_NO_HANDLE,
        is_failed: 0,
        is_open: 0,
        nullification: 0,
        notarization: 0,
        uncertifiable: 0,
        fetches: 0,
    }
}

/// Returns what a peer is served.
pub fn served() -> FlatServed
    ensures { result.status ≡ 15 }
{
    unserved(0, STATUS_NO_HANDLE)
}

/// Returns the open fetches.
pub fn outstanding() -> FlatOutstanding
    ensures { result.status ≡ 15 }
{
    FlatOutstanding {
        status: STATUS_NO_HANDLE,
        reserved: 0,
        count: 0,
        bytes: 0,
    }
}
