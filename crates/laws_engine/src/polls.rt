//! A poll of an engine: what `polls_end` says of polls is what `Engine::poll` promises.

ghost use Rattle.std.specs.Prelude.{IfOk};
ghost use Rattle.laws_engine.specs.Polls.{IsPoll};

use engine_outbox::output::Output;
use simplex_engine::engine::Engine;
use simplex_member::member::Stored;
use simplex_types::types::assembly::Assembly;
use simplex_types::types::{Digest, Elector, Fault};

/// Returns the next output at a moment in milliseconds, by `Engine::poll`.
///
/// # Errors
///
/// Those of `Engine::poll`.
pub fn poll<S: Assembly<D>, L: Elector<S>, D: Digest>(
    engine: &mut Engine<S, L, D>,
    now: u64,
) -> Result<Option<Output<S, D, Stored>>, Fault>
    ensures { IfOk result (λ out. IsPoll now out engine.old engine.new) }
{
    engine.poll(now)
}
