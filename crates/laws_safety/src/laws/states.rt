//! The laws of each state from its floor on: one that is recovered from any record, and one that is used without a
//! member.

ghost use Rattle.laws_safety.specs.StateLaws.{RecoveredStatesTimeOut, UsedStatesTimeOut, NullifyVotesAreDecided, NullifiesAboveGenesis};

use simplex_types::types::{Digest, Elector, Scheme};

/// The timeouts of each state from its floor on, of a member or not. The function does nothing: its contract is the
/// law.
///
/// - `recovered`: in each state that is recovered from a floor and a record that breaks no rule, the current view lies
///   above the last finalized one, and has a timeout.
/// - `used`: the same holds in a state that is used by itself, whatever its calls are, unless a true verdict or a vote
///   to finalize was replayed at the current view: such a view may have no timeout until the state leaves it.
pub fn states_time_out<S: Scheme<D>, L: Elector<S>, D: Digest>()
    ensures recovered { RecoveredStatesTimeOut S.PublicKey D.eq L.elect }
    ensures used { UsedStatesTimeOut S.PublicKey D.eq L.elect }
{}

/// The votes to nullify and the nullifications of a state from its floor on, after any calls that it allows. The
/// function does nothing: its contract is the law.
///
/// - `decided`: `voted_nullify` returns true exactly if this member has a key and its vote to nullify is decided at the
///   view, which is then tracked.
/// - `above`: genesis is never nullified, so no view is covered from there; and a nullified view above it doesn't cover
///   it.
pub fn nullify_votes_are_decided<S: Scheme<D>, L: Elector<S>, D: Digest>()
    ensures decided { NullifyVotesAreDecided S.PublicKey D.eq L.elect }
    ensures above { NullifiesAboveGenesis S.PublicKey D.eq L.elect }
{}
