//! A host that keeps the premises of `finals_reach_genesis`.

ghost use Rattle.std.specs.Prelude.{◌≡◌, [], None, false, length, IfOk};
ghost use Rattle.simplex_types.specs.Config.{floor_facts};
ghost use Rattle.simplex_record.specs.Recovery.{recover_error};
ghost use Rattle.simplex_record.specs.Start.{set_up};
ghost use Rattle.laws_finals.specs.LoneStarts.{KeepsPremises};

use simplex_engine::engine::{Engine, Options, StartError};
use simplex_member::member::Start;
use simplex_types::types::assembly::Assembly;
use simplex_types::types::{Digest, Elector};
use std::alloc::Global;

/// Starts the engine of a lone member, by an elector that does not elect early and a start that is not refused: its
/// host keeps the premises of `finals_reach_genesis`. `start_alone` of `laws_hosts` says that the host is a network.
///
/// # Errors
///
/// Those of `Engine::start`.
pub fn start_alone<S: Assembly<D>, L: Elector<S>, D: Digest>(
    alloc: Global,
    start: Start<S, L, D>,
    options: Options,
) -> Result<Engine<S, L, D>, StartError>
    requires members { L.members start.settings.elector ≡ length (S.participants start.settings.scheme) }
    requires late { L.elects_early start.settings.elector ≡ false }
    requires accepted { recover_error D.eq (set_up S.me S.participants L.terms L.elects_early start.settings)
        (floor_facts S.certificate_bytes start.floor) start.now [] ≡ None }
    ensures { IfOk result (KeepsPremises D.eq L.elect S.certificate_bytes S.participants S.me L.terms L.elects_early
        start) }
{
    Engine::start(alloc, start, options)
}
