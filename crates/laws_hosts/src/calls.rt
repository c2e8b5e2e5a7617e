//! The calls of a host, each made of an engine: what `hosts_agree` says of calls is what the engine's contract
//! promises.

ghost use Rattle.std.specs.Prelude.{◌≡◌, length, IfOk, Some};
ghost use Rattle.engine_outbox.specs.Journals.{empty_journal};
ghost use Rattle.simplex_engine.specs.Inputs.{returned_outputs};
ghost use Rattle.laws_hosts.specs.EngineCalls.{Handled, Polled, IsEngineCall};
ghost use Rattle.laws_hosts.specs.Processes.{EngineBegins};

use engine_outbox::output::Output;
use simplex_engine::engine::{Engine, Options, StartError};
use simplex_engine::input::Input;
use simplex_member::member::{Start, Stored};
use simplex_types::types::assembly::Assembly;
use simplex_types::types::{Artifact, Digest, Elector, Fault};
use std::alloc::Global;

/// Begins an engine from an empty journal, by `Engine::start`.
///
/// The elector's members are the scheme's participants.
///
/// # Errors
///
/// Those of `Engine::start`.
pub fn start_engine<S: Assembly<D>, L: Elector<S>, D: Digest>(
    alloc: Global,
    start: Start<S, L, D>,
    options: Options,
) -> Result<Engine<S, L, D>, StartError>
    requires { L.members start.settings.elector ≡ length (S.participants start.settings.scheme) }
    ensures { IfOk result (EngineBegins D.eq L.elect S.certificate_bytes S.participants S.me L.terms
        empty_journal start) }
{
    Engine::start(alloc, start, options)
}

/// Begins an engine from a journal that holds these entries and `stored`, by `Engine::resume`.
///
/// The elector's members are the scheme's participants.
///
/// # Errors
///
/// Those of `Engine::resume`.
pub fn resume_engine<S: Assembly<D>, L: Elector<S>, D: Digest>(
    alloc: Global,
    start: Start<S, L, D>,
    stored: Stored,
    entries: Vec<Artifact<S, D>>,
    options: Options,
) -> Result<Engine<S, L, D>, StartError>
    requires { L.members start.settings.elector ≡ length (S.participants start.settings.scheme) }
    ensures { IfOk result (EngineBegins D.eq L.elect S.certificate_bytes S.participants S.me L.terms
        (record { entries = entries.items; beside = Some stored }) start) }
{
    Engine::resume(alloc, start, stored, entries, options)
}

/// Passes an input at a moment in milliseconds, by `Engine::handle`.
///
/// # Errors
///
/// Those of `Engine::handle`.
pub fn handle<S: Assembly<D>, L: Elector<S>, D: Digest>(
    engine: &mut Engine<S, L, D>,
    input: Input<S, D>,
    now: u64,
) -> Result<bool, Fault>
    ensures { IsEngineCall D.eq L.elect S.certificate_bytes S.IsSignature S.participants (Handled input)
        engine.old engine.new }
{
    engine.handle(input, now)
}

/// Returns the next output at a moment in milliseconds, by `Engine::poll`.
///
/// # Errors
///
/// Those of `Engine::poll`.
pub fn poll<S: Assembly<D>, L: Elector<S>, D: Digest>(
    engine: &mut Engine<S, L, D>,
    now: u64,
) -> Result<Option<Output<S, D, Stored>>, Fault>
    ensures { IsEngineCall D.eq L.elect S.certificate_bytes S.IsSignature S.participants
        (Polled (returned_outputs result)) engine.old engine.new }
{
    engine.poll(now)
}
