//! A member is never stuck in a view.

ghost use Rattle.laws_safety.specs.LifetimeLaws.{OfEachState};
ghost use Rattle.laws_safety.specs.Progress.{CanBeLeft};

use simplex_types::types::{Digest, Elector, Scheme};

/// From each state that a run leads to while its member has not failed, whatever the calls, restarts and records, the
/// current view can be left. The function does nothing: its contract is the law.
///
/// - `can_be_left`: a nullification of the current view, a finalization of it, and, if it is notarized and no false
///   verdict was given, a true verdict, may each be passed in: the call is allowed, it returns no fault, and the
///   current view after it lies above. This holds while the current view lies below 2^63 and the deadlines fit in 64
///   bits. For members to send the votes for one of these see `current_views_time_out`: the view has a timeout.
pub fn views_are_left<S: Scheme<D>, L: Elector<S>, D: Digest>()
    ensures can_be_left { OfEachState S.PublicKey D.eq L.elect (CanBeLeft D.eq L.elect) }
{}
