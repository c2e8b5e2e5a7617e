//! A host that keeps the premises of `hosts_agree`.

ghost use Rattle.std.specs.Prelude.{◌≡◌, [], length, IfOk};
ghost use Rattle.laws_safety.specs.ObservedTraces.{floor_in};
ghost use Rattle.laws_hosts.specs.HostInstances.{IsLoneNetwork};

use crate::calls::start_engine;
use simplex_engine::engine::{Engine, Options, StartError};
use simplex_member::member::Start;
use simplex_types::types::assembly::Assembly;
use simplex_types::types::{Digest, Elector};
use std::alloc::Global;

/// Starts the engine of a lone member at genesis: its host is a network in which the premises of `hosts_agree` hold.
///
/// # Errors
///
/// Those of `Engine::start`.
pub fn start_alone<S: Assembly<D>, L: Elector<S>, D: Digest>(
    alloc: Global,
    start: Start<S, L, D>,
    options: Options,
) -> Result<Engine<S, L, D>, StartError>
    requires members { L.members start.settings.elector ≡ length (S.participants start.settings.scheme) }
    requires lone { length (S.participants start.settings.scheme) ≡ 1 }
    requires genesis { floor_in start.floor ≡ [] }
    ensures { IfOk result (IsLoneNetwork D.eq L.elect S.certificate_bytes S.IsSignature S.participants S.me
        L.terms start) }
{
    start_engine(alloc, start, options)
}
