//! The calls by which a host delivers to an engine: what a round says of them is what the engine's contract promises.

ghost use Rattle.std.specs.Prelude.{Bool, IfOk};
ghost use Rattle.simplex_engine.specs.Inputs.{returned_outputs};
ghost use Rattle.laws_hosts.specs.EngineCalls.{Handled, Polled};
ghost use Rattle.laws_rounds.specs.Deliveries.{IsLifetimeCall, IsAnswered};

use engine_outbox::output::Output;
use simplex_engine::engine::Engine;
use simplex_engine::input::Input;
use simplex_member::member::Stored;
use simplex_types::types::assembly::Assembly;
use simplex_types::types::{Digest, Elector, Fault};

/// Passes an input at a moment in milliseconds, by `Engine::handle`, and returns its result. The contract of
/// `Engine::handle` says when that is true; the clauses here do not.
///
/// - `answered`: the member takes or declines a certificate that the engine admits.
///
/// # Errors
///
/// Those of `Engine::handle`.
pub fn deliver<S: Assembly<D>, L: Elector<S>, D: Digest>(
    engine: &mut Engine<S, L, D>,
    input: Input<S, D>,
    now: u64,
) -> Result<bool, Fault>
    ensures call { IsLifetimeCall D.eq L.elect S.certificate_bytes S.IsSignature S.participants (Handled input)
        engine.old engine.new }
    ensures answered { IfOk result (λ is_of_use. (is_taken : Bool)
        × IsAnswered D.eq L.elect S.certificate_bytes S.IsSignature S.participants is_taken input
        engine.old engine.new) }
{
    engine.handle(input, now)
}

/// Returns the next output at a moment in milliseconds, by `Engine::poll`.
///
/// # Errors
///
/// Those of `Engine::poll`.
pub fn poll<S: Assembly<D>, L: Elector<S>, D: Digest>(
    engine: &mut Engine<S, L, D>,
    now: u64,
) -> Result<Option<Output<S, D, Stored>>, Fault>
    ensures { IsLifetimeCall D.eq L.elect S.certificate_bytes S.IsSignature S.participants
        (Polled (returned_outputs result)) engine.old engine.new }
{
    engine.poll(now)
}
