//! The steps of hosts. A function does nothing: its contract is the law.

ghost use Rattle.laws_host_steps.specs.HostSteps.{BegunHostsAreNetworks, StepsKeepNetworks};

use simplex_types::types::{Digest, Elector, Scheme};

/// Hosts that take these steps keep the premises of `hosts_agree`. So a host keeps them by what it does next, whatever
/// it did before.
///
/// In a step one honest host does one of these:
///
/// - It makes a call of the engine of its last process (`MakesCall`), after which the engine has not failed. It passes
///   a vote of a member whose host is honest only if that host carried that vote out, and a certificate only if n - f
///   hosts are faulty or carried out their vote on its subject.
/// - It carries out more of the outputs that the engine has returned, in order, or a part of the next `Store`
///   (`CarriesOut`).
/// - It stops and begins another process (`BeginsProcess`): by `Engine::resume` from the journal that its outputs have
///   written so far, or by `Engine::start` if nothing was written.
///
/// So a host may stop between a `Store` and its `Vote`, or amid a `Store`; it may resume from a shortened record; and
/// it may pass both proposals of a leader that equivocates.
///
/// - `begun`: hosts of which each honest one has begun one process, and few are faulty, are a network.
/// - `steps`: a network is one again after any number of steps.
pub fn host_steps_keep_networks<S: Scheme<D>, L: Elector<S>, D: Digest>()
    ensures begun { BegunHostsAreNetworks D.eq L.elect S.certificate_bytes S.IsSignature S.participants S.me L.terms }
    ensures steps { StepsKeepNetworks D.eq L.elect S.certificate_bytes S.IsSignature S.participants S.me L.terms }
{}
