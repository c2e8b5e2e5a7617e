//! The laws of a member's own record, and what a restart may refuse of it.

ghost use Rattle.laws_safety.specs.RecordRefusals.{HighViewsAreVotedFor, OfEachEnd, ParentsAreAccepted, RecordIsTaken, RestartIsExcused, RunsAreExcused, VerdictsFollowNotarizations};
ghost use Rattle.laws_safety.specs.RecordsOnce.{HoldsEachEntryOnce};

use simplex_types::types::{Digest, Elector, Scheme};

/// A member's own record is refused only for what comes from outside, `IsFromOutside`. The function does nothing: its
/// contract is the law.
///
/// A run is a start, and calls and restarts in any order, as for `votes_are_lawful`. For any next restart, with any
/// drop, any prune and any start:
/// - `record`: if what remains of the record, by view, is refused, the broken rule is on the epoch, the signer, a view
///   that is genesis or too large, or a parent that is not below; or else a deadline passes 64 bits. A member's record
///   never breaks the rules on the order of views, on verdicts, or on votes beside one another, whatever is cut off it.
/// - `parent`: it is refused for a parent only if the member accepted a notarization whose proposal names no earlier
///   view as its parent, and voted to finalize it. No backed notarization does so (`parent_before` of `agreement`).
/// - `high`: if the run's start was accepted, it is refused for a view that is too large only if the next floor names
///   one, or the member voted in one itself: to nullify it, or to notarize what it built there. So no certificate of
///   its record, no verdict and no vote to finalize is refused for that, nor any vote for what others proposed.
/// - `notarized`: before each verdict of the record, in its own order, there is a notarization of the view; so a
///   resolver that is started from the record as it is has the notarization of each verdict.
/// - `restart`: a restart is refused only for that, for more views to be retained of a pruned record, or when out of
///   memory.
/// - `run`: the same holds for a run, at its start or at one of its restarts.
pub fn own_record_is_taken<S: Scheme<D>, L: Elector<S>, D: Digest>()
    ensures record { OfEachEnd S.PublicKey D.eq L.elect (RecordIsTaken S.PublicKey D.eq L.elect) }
    ensures parent { ParentsAreAccepted S.PublicKey D.eq L.elect }
    ensures high { HighViewsAreVotedFor S.PublicKey D.eq L.elect }
    ensures notarized { OfEachEnd S.PublicKey D.eq L.elect VerdictsFollowNotarizations }
    ensures restart { OfEachEnd S.PublicKey D.eq L.elect (RestartIsExcused S.PublicKey D.eq L.elect) }
    ensures run { RunsAreExcused S.PublicKey D.eq L.elect }
{}

/// A member's own record holds each entry once: no two votes to notarize, to nullify or to finalize, no two verdicts,
/// and no two certificates of a kind are of one view. The function does nothing: its contract is the law.
///
/// So it has at most seven entries of a view, whatever calls, restarts and prunings there were. A run is as in
/// `own_record_is_taken`.
pub fn own_record_holds_each_entry_once<S: Scheme<D>, L: Elector<S>, D: Digest>()
    ensures { OfEachEnd S.PublicKey D.eq L.elect HoldsEachEntryOnce }
{}
