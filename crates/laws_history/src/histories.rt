//! The law of histories. It does nothing: its contract is the law.

ghost use Rattle.laws_history.specs.Histories.{NothingSaid, EventsDetermineStates, CallsDetermineStates, RecoveriesDetermineStates, RestartsDetermineStates, RunsDetermineStates};

use simplex_types::types::{Digest, Elector, Scheme};

/// Does nothing: its contract is the law. The knowledge of a state is a function of the events of its lifetime,
/// `DeterminesState`.
///
/// - `begun`: a new state has no event.
/// - `kept`: each event that its state allows preserves this, with the event as the last of the history.
/// - `called`: so does each call of a member that returns; a refused call is no event.
/// - `recovered`: a state that is made from a floor and a record knows what their events say.
/// - `restarted`: so does the state that a restart makes, from an order by view of what is left of the record.
/// - `ran`: and so, whatever the calls and restarts of a run, does the state at its end. Its history uses what the
///   member itself has open at each call, and at each restart what is left of its own record.
pub fn histories_are_shown<S: Scheme<D>, L: Elector<S>, D: Digest>()
    ensures begun { NothingSaid S.PublicKey D.eq L.elect }
    ensures kept { EventsDetermineStates S.PublicKey D.eq L.elect }
    ensures called { CallsDetermineStates S.PublicKey D.eq L.elect }
    ensures recovered { RecoveriesDetermineStates S.PublicKey D.eq L.elect }
    ensures restarted { RestartsDetermineStates S.PublicKey D.eq L.elect }
    ensures ran { RunsDetermineStates S.PublicKey D.eq L.elect }
{}
