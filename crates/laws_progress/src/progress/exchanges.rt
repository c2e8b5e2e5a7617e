//! How many exchanges of messages a finalization takes.

ghost use Rattle.laws_progress.specs.MessageExchanges.{IsFinalizedInTurn, IsFinalizedSoon};

use simplex_types::types::{Digest, Elector, Scheme};

/// Does nothing: its contract is the law. It says how many exchanges of messages the honest members of a network take
/// to finalize a start.
///
/// - `soon`: from each network that `no_network_is_stuck` is about, one for each term from that of the highest honest
///   member to the start's, and four.
/// - `in_turn`: with leaders round-robin, if some terms are skipped and the honest members know none of the starts of
///   the f + 1 terms after these, one of these is finalized within f + 5, and one for each term that is skipped. Here f
///   is how many of the members may be faulty.
///
/// In one exchange each item that an honest member receives was accepted, passed in or built by an honest one before,
/// or is made of votes that honest ones had signed before (`IsExchange`). The law does not claim that messages arrive.
pub fn starts_are_finalized_soon<S: Scheme<D>, L: Elector<S>, D: Digest>()
    ensures soon { IsFinalizedSoon S.PublicKey D.eq L.elect }
    ensures in_turn { IsFinalizedInTurn S.PublicKey D.eq L.elect }
{}
