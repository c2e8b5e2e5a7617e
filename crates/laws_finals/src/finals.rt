//! Laws of the proposals that the hosts of a network have reported as final. A function does nothing: its contract is
//! the law.
//!
//! The networks are those of `hosts_agree` of `laws_hosts`. A proposal is *reported* if an honest host carried out
//! `Output::Finalized` of it. It is *notarized* if n - f hosts are faulty or carried out their vote for it.

ghost use Rattle.laws_hosts.specs.HostNetworks.{OfEachHostNetwork};
ghost use Rattle.laws_finals.specs.HostMembers.{HaveMembers};
ghost use Rattle.laws_finals.specs.HostChains.{FinalsAreNotarized, FinalsInsideTermsHaveParents, LifetimesReachGenesis, MembersReachGenesis};

use simplex_types::types::{Digest, Elector, Scheme};

/// Each network of hosts has members (`AreMembers`): the member of an honest host has an execution over all processes
/// of the host. It signed each vote that the host carried out, and accepted only certificates that may exist.
pub fn hosts_have_members<S: Scheme<D>, L: Elector<S>, D: Digest>()
    ensures { OfEachHostNetwork D.eq L.elect S.certificate_bytes S.IsSignature S.participants S.me L.terms
        (λ term_length. HaveMembers D.eq L.elect term_length) }
{}

/// Each reported proposal is notarized, and so is its parent, unless the proposal starts a term.
///
/// - `finals`: each reported proposal is notarized.
/// - `parents`: if a reported proposal does not start a term, a proposal of the view that it names as its parent is
///   notarized, unless that view is genesis. If it starts a term, `finals_reach_genesis` says the same with more
///   premises.
pub fn finals_are_notarized<S: Scheme<D>, L: Elector<S>, D: Digest>()
    ensures finals { OfEachHostNetwork D.eq L.elect S.certificate_bytes S.IsSignature S.participants S.me L.terms
        (λ term_length. FinalsAreNotarized) }
    ensures parents { OfEachHostNetwork D.eq L.elect S.certificate_bytes S.IsSignature S.participants S.me L.terms
        (λ term_length hosts. FinalsInsideTermsHaveParents hosts term_length) }
{}

/// A chain of notarized proposals leads from each reported proposal to genesis. Each proposal names the view of the
/// next one as its parent. The chain holds each reported proposal that is no higher.
///
/// - `lifetimes`: the law for hosts that stop within lifetimes (`HostsStopWithinLifetimes`). Each process of such a
///   host begins with the member that `Engine::start` or `Engine::resume` makes. The member makes steps, and receives a
///   verdict only on its offers. When the host stops, the journal holds the record of the member after some of these
///   steps. By then the member had signed each vote that the host carried out, and each certificate that it had
///   accepted may exist.
/// - `members`: the law for any members of the hosts, as `hosts_have_members` says. Each lifetime of a member is set up
///   as one of its host's processes starts (`LifetimesAreProcesses`). Either no honest host votes ahead within a term,
///   or each honest member receives verdicts only on its offers (`HostParentsAreAwaited`).
///
/// Both have the premise `HostHandoffsAreWitnessed`. Either no honest host has an elector that elects early, or all
/// processes of all honest hosts have one elector and one epoch, and each quorum has two honest hosts, one of which is
/// not the leader.
///
/// The engine's contract gives nearly all of `HostsStopWithinLifetimes`. After a stop the journal holds the record of a
/// member that had signed these votes (`MayStopAfter`), and each call makes steps that pass verdicts only on offers
/// (`provenance`, `engines_run_on_offers`). The contract does not say that these steps lead to that member.
pub fn finals_reach_genesis<S: Scheme<D>, L: Elector<S>, D: Digest>()
    ensures lifetimes { OfEachHostNetwork D.eq L.elect S.certificate_bytes S.IsSignature S.participants S.me L.terms
        (λ term_length. LifetimesReachGenesis D.eq L.elect S.certificate_bytes S.participants S.me L.terms
        L.elects_early) }
    ensures members { OfEachHostNetwork D.eq L.elect S.certificate_bytes S.IsSignature S.participants S.me L.terms
        (MembersReachGenesis D.eq L.elect S.certificate_bytes S.participants S.me L.terms L.elects_early) }
{}
