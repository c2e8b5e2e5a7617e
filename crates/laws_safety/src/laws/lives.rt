//! The order that a member keeps in each lifetime, from a start or a restart to the next restart.

ghost use Rattle.laws_safety.specs.LifetimeLaws.{OfEachLifetime, OfEachStretch, StretchesAreLifetimes, WhileAlive, NeverFalls};
ghost use Rattle.laws_safety.specs.LifetimeLaws.{OfEachState, CurrentTimesOut, OfEachRun, PollsAreAnswered};
ghost use Rattle.laws_safety.specs.LifetimeLaws.{ConflictsStay, DroppedForGood, ReturnedOnce, ReturnedAsRequested};

use simplex_types::types::{Digest, Elector, Scheme};

/// The order that the calls of a lifetime keep, for any member. The function does nothing: its contract is the law.
///
/// - `never_falls`: neither the current view nor the last finalized one falls. A member that has failed stays failed.
pub fn lifetimes_keep_order<S: Scheme<D>, L: Elector<S>, D: Digest>()
    ensures never_falls { OfEachLifetime S.PublicKey D.eq L.elect
        (λ m calls replies end. WhileAlive NeverFalls m.life end.life) }
{}

/// The lifetimes of a run, from a start on and with any number of restarts. The function does nothing: its contract is
/// the law.
///
/// - `stretches`: calls of a run with no restart among them lie within one lifetime, of a member that the run leads to;
///   so `lifetimes_keep_order` and each law below hold for them.
/// - `conflicts_stay`: once proposals of a view contradict one another, that stays known until a call reports that the
///   view was dropped, and then the view lies below what is retained.
/// - `handed_once`: of one kind and one view at most one call returns a certificate to broadcast.
/// - `dropped_for_good`: a view that was dropped isn't tracked again in that lifetime.
/// - `handed_as_asked`: a certificate that is returned for broadcast is of the kind and the view that the call named.
pub fn runs_keep_order<S: Scheme<D>, L: Elector<S>, D: Digest>()
    ensures stretches { StretchesAreLifetimes S.PublicKey D.eq L.elect }
    ensures conflicts_stay { OfEachStretch S.PublicKey D.eq L.elect
        (λ m calls replies end. WhileAlive (ConflictsStay replies) m.life end.life) }
    ensures handed_once { OfEachStretch S.PublicKey D.eq L.elect (λ m calls replies end. ReturnedOnce calls replies) }
    ensures dropped_for_good { OfEachStretch S.PublicKey D.eq L.elect
        (λ m calls replies end. WhileAlive (DroppedForGood replies) m.life end.life) }
    ensures handed_as_asked { OfEachStretch S.PublicKey D.eq L.elect
        (λ m calls replies end. ReturnedAsRequested calls replies) }
{}

/// The law of each state that a run leads to while its member has not failed, whatever the calls, restarts and records.
/// The function does nothing: its contract is the law.
///
/// - `times_out`: the current view lies above the last finalized one, and has a timeout. So `NextTimeout` is allowed.
/// - `polls`: each `NextTimeout` of a run returns a moment to wait for and its reason. It is refused only if the member
///   has failed, or if its next retry passes the numbers of 64 bits.
pub fn current_views_time_out<S: Scheme<D>, L: Elector<S>, D: Digest>()
    ensures times_out { OfEachState S.PublicKey D.eq L.elect CurrentTimesOut }
    ensures polls { OfEachRun S.PublicKey D.eq L.elect PollsAreAnswered }
{}
