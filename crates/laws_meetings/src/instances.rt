//! Rounds that are possible: a host by itself polls its engine until that returns nothing, and two hosts pass a vote to
//! theirs.

ghost use Rattle.std.specs.Prelude.{IfOk, IsTrue};
ghost use Rattle.simplex_engine.specs.Inputs.{returned_outputs};
ghost use Rattle.laws_hosts.specs.EngineCalls.{Polled};
ghost use Rattle.laws_meetings.specs.RoundInstances.{IsPolledOnce, IsPolledToEnd, IsSettledAfter, MakesLoneRound, MakesRoundOfTwo};

use laws_rounds::calls::{deliver, poll};
use simplex_engine::engine::Engine;
use simplex_engine::input::Input;
use simplex_types::types::assembly::Assembly;
use simplex_types::types::{Digest, Elector, Fault};

/// Returns whether the engine returned nothing at this moment. Drops what it returned.
fn is_done<S: Assembly<D>, L: Elector<S>, D: Digest>(
    engine: &mut Engine<S, L, D>,
    now: u64,
) -> Result<bool, Fault>
    ensures { IfOk result (λ is_done. IsPolledOnce D.eq L.elect S.certificate_bytes S.IsSignature S.participants
        is_done engine.old engine.new) }
{
    match poll(engine, now) {
        Ok(Some(_)) => Ok(false),
        Ok(None) => Ok(true),
        Err(fault) => Err(fault),
    }
}

/// Polls an engine at most `limit` times at one moment, and returns whether a poll returned nothing.
fn poll_until_none<S: Assembly<D>, L: Elector<S>, D: Digest>(
    engine: &mut Engine<S, L, D>,
    now: u64,
    limit: u64,
) -> Result<bool, Fault>
    ensures { IfOk result (λ is_at_rest. IsTrue is_at_rest → IsPolledToEnd D.eq L.elect S.certificate_bytes
        S.IsSignature S.participants engine.old engine.new) }
{
    for _turn in 0..limit {
        if is_done(engine, now)? {
            return Ok(true);
        }
    }
    Ok(false)
}

/// Polls an engine that was begun, at most `limit` times at one moment, and returns whether a poll returned nothing.
///
/// Then a lone host that carries out all that was returned has made a round (`IsRound`). Nothing was sent before it.
///
/// # Errors
///
/// Those of `Engine::poll`.
pub fn poll_alone<S: Assembly<D>, L: Elector<S>, D: Digest>(
    engine: &mut Engine<S, L, D>,
    now: u64,
    limit: u64,
) -> Result<bool, Fault>
    ensures { IfOk result (λ is_at_rest. IsTrue is_at_rest → MakesLoneRound D.eq L.elect S.certificate_bytes
        S.IsSignature S.participants S.me L.terms engine.old engine.new) }
{
    poll_until_none(engine, now, limit)
}

/// Passes an input to an engine and polls it, at most `limit` times, at one moment. Returns whether a poll returned
/// nothing.
fn settle<S: Assembly<D>, L: Elector<S>, D: Digest>(
    engine: &mut Engine<S, L, D>,
    input: Input<S, D>,
    now: u64,
    limit: u64,
) -> Result<bool, Fault>
    ensures { IfOk result (λ is_at_rest. IsTrue is_at_rest → IsSettledAfter D.eq L.elect S.certificate_bytes
        S.IsSignature S.participants input engine.old engine.new) }
{
    match deliver(engine, input, now) {
        Ok(_) => poll_until_none(engine, now, limit),
        Err(fault) => Err(fault),
    }
}

/// Passes an input to each of two engines and polls both, each at most `limit` times, at one moment. Returns whether a
/// poll of each returned nothing.
///
/// Then two hosts that carry out all that was returned have made a round (`IsRound`). Both inputs are a vote that the
/// first host had carried out, and it had sent nothing else (`MakesRoundOfTwo`).
///
/// # Errors
///
/// Those of `Engine::handle` and `Engine::poll`.
pub fn deliver_to_two<S: Assembly<D>, L: Elector<S>, D: Digest>(
    first: &mut Engine<S, L, D>,
    second: &mut Engine<S, L, D>,
    to_first: Input<S, D>,
    to_second: Input<S, D>,
    now: u64,
    limit: u64,
) -> Result<bool, Fault>
    ensures { IfOk result (λ are_at_rest. IsTrue are_at_rest → MakesRoundOfTwo D.eq L.elect S.certificate_bytes
        S.IsSignature S.participants S.me L.terms to_first to_second first.old second.old first.new second.new) }
{
    if settle(first, to_first, now, limit)? {
        settle(second, to_second, now, limit)
    } else {
        Ok(false)
    }
}
