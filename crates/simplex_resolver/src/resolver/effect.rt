//! The effects of the resolver's calls on the open fetches.

use simplex_types::reasons::{FetchReason, Kind};
use simplex_types::types::View;

/// One step for the host's set of open fetches. A call returns its steps in the order in which they apply.
#[derive(Clone, Copy, PartialEq, Eq, Debug)]
pub enum Effect {
    /// Open a fetch at `view`. Any nullification that covers it will do.
    Fetch {
        view: View,
        /// The view of the certificate or verdict that called for the fetch.
        cause: View,
        reason: FetchReason,
    },
    /// No certificate of `kind` is needed any more from `start` to `end`, both included.
    Settled {
        kind: Kind,
        start: View,
        end: View,
    },
    /// This view is finalized: close every fetch up to it, of either kind.
    Finalized(View),
    /// The floor is now at this view: close every fetch up to it.
    Raised(View),
}
