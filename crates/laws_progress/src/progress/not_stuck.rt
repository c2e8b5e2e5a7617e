//! No network is stuck.

ghost use Rattle.laws_progress.specs.NotStuck.{NetworksMeet, NoNetworkIsStuck};

use simplex_types::types::{Digest, Elector, Scheme};

/// Does nothing: its contract is the law. From each network, whatever its members did, the honest ones can finalize a
/// new view.
///
/// The premises, besides those of `agreement` with at most f faulty members (`MayContinue`):
///
/// - its honest members live, sign as themselves, and share the epoch and the elector;
/// - if the application of one found a view valid, that of no other has found it invalid;
/// - the start that is to be finalized begins a term, lies above each one's current view, is known to none of them, and
///   an honest member is elected for it.
///
/// There is no premise on what they or the faulty ones did before: calls, restarts, records that were dropped or
/// pruned.
///
/// - `meet`: the honest members can come to one view below the start, on one parent, by certificates that honest ones
///   accepted before and a verdict that one received before.
/// - `continues`: they can finalize the start by what they do alone, with whatever payload its leader builds.
pub fn no_network_is_stuck<S: Scheme<D>, L: Elector<S>, D: Digest>()
    ensures meet { NetworksMeet S.PublicKey D.eq L.elect }
    ensures continues { NoNetworkIsStuck S.PublicKey D.eq L.elect }
{}
