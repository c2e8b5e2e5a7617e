//! How a host begins an engine, delivers to it and polls it: what the laws require of a process is what the engine's
//! contract promises.

ghost use Rattle.std.specs.Prelude.{◌≡◌, ℕ, [], IfOk, IfSome, length};
ghost use Rattle.simplex_types.specs.Config.{floor_facts, Genesis};
ghost use Rattle.simplex_engine.specs.Inputs.{returned_outputs};
ghost use Rattle.laws_hosts.specs.EngineCalls.{Handled, Polled};
ghost use Rattle.laws_meetings.specs.EngineRuns.{HasBegun, IsWorkingCall};
ghost use Rattle.laws_meetings.specs.Meetings.{IsFresh};

use engine_outbox::output::Output;
use simplex_engine::engine::{Engine, Options, StartError};
use simplex_engine::input::Input;
use simplex_member::member::{Start, Stored};
use simplex_types::types::assembly::Assembly;
use simplex_types::types::{Digest, Elector, Fault};
use std::alloc::Global;

/// Begins an engine, by `Engine::start`.
///
/// - `begun`: nothing was returned, and the engine looks for what is due at the first poll.
/// - `fresh`: at genesis the member is at view 1, and has no certificate and no verdict.
///
/// # Errors
///
/// Those of `Engine::start`.
pub fn begin<S: Assembly<D>, L: Elector<S>, D: Digest>(
    alloc: Global,
    start: Start<S, L, D>,
    options: Options,
) -> Result<Engine<S, L, D>, StartError>
    requires { L.members start.settings.elector ≡ length (S.participants start.settings.scheme) }
    ensures begun { IfOk result (HasBegun S.certificate_bytes) }
    ensures fresh { (payload : _) → floor_facts S.certificate_bytes start.floor ≡ Genesis payload
        → IfOk result (λ engine. IfSome engine.core.member.facts.life IsFresh) }
{
    Engine::start(alloc, start, options)
}

/// Passes an input at a moment in milliseconds, by `Engine::handle`.
///
/// # Errors
///
/// Those of `Engine::handle`.
pub fn deliver<S: Assembly<D>, L: Elector<S>, D: Digest>(
    engine: &mut Engine<S, L, D>,
    input: Input<S, D>,
    now: u64,
) -> Result<bool, Fault>
    ensures { IsWorkingCall D.eq L.elect D.bytes S.certificate_bytes S.IsSignature S.participants (Handled input)
        engine.old engine.new }
{
    engine.handle(input, now)
}

/// Returns the next output at a moment in milliseconds, by `Engine::poll`.
///
/// # Errors
///
/// Those of `Engine::poll`.
pub fn poll<S: Assembly<D>, L: Elector<S>, D: Digest>(
    engine: &mut Engine<S, L, D>,
    now: u64,
) -> Result<Option<Output<S, D, Stored>>, Fault>
    ensures { IsWorkingCall D.eq L.elect D.bytes S.certificate_bytes S.IsSignature S.participants
        (Polled (returned_outputs result)) engine.old engine.new }
{
    engine.poll(now)
}
