//! Agreement of the hosts of a network, and the votes of each. A function does nothing: its contract is the law.

ghost use Rattle.laws_hosts.specs.HostNetworks.{OfEachHostNetwork};
ghost use Rattle.laws_hosts.specs.HostAgreement.{OneFinalOfEachView, FinalsUncovered, ChainsHoldFinals};
ghost use Rattle.laws_hosts.specs.HostVotes.{EachHostKeepsRules};

use laws_safety::laws::agreement;
use simplex_types::types::{Digest, Elector, Scheme};

/// Agreement of hosts that run engines, over all their processes: for every list of inputs, polls, stops and restarts.
///
/// A network of n hosts, at most f = (n - 1) / 3 of them faulty, or else fewer than n - 2f. A faulty host may send
/// anything. Each honest host runs processes, one after another (`IsHonestHost`):
///
/// - A process runs one engine. It begins by `Engine::start` if nothing was stored, and by `Engine::resume` from the
///   journal otherwise. The outputs that the host carried out before, in all its processes, have written the journal.
/// - The host makes any calls of `Engine::handle` and `Engine::poll`: these are followed up to the first call after
///   which the engine has failed, without that call.
/// - It carries outputs out in order. It may stop after any of them, or within a `Store`.
/// - It passes a vote of a member whose host is honest only if that host carried out `Output::Vote` with that member's
///   vote on this subject.
/// - It passes a certificate, or begins at a floor, only if n - f hosts are faulty or carried out their vote on its
///   subject.
///
/// Each host has the terms' length and the number of members of the network, and signs as its own member or not at all.
///
/// The claims are of all proposals that honest hosts carried out as `Output::Finalized`:
///
/// - `one_final`: those of one view are one proposal.
/// - `finals_uncovered`: no nullification covers the view of such a proposal. One exists only if n - f hosts are faulty
///   or carried out their vote for it.
/// - `chains_hold`: a chain of notarized proposals, each naming the next one's view as its parent, that holds one above
///   the view of such a proposal and one at or below it holds that proposal. A proposal is notarized if n - f hosts are
///   faulty or carried out their vote.
pub fn hosts_agree<S: Scheme<D>, L: Elector<S>, D: Digest>()
    ensures one_final { OfEachHostNetwork D.eq L.elect S.certificate_bytes S.IsSignature S.participants S.me L.terms
        (λ term_length. OneFinalOfEachView) }
    ensures finals_uncovered { OfEachHostNetwork D.eq L.elect S.certificate_bytes S.IsSignature S.participants S.me
        L.terms (λ term_length hosts. FinalsUncovered hosts term_length) }
    ensures chains_hold { OfEachHostNetwork D.eq L.elect S.certificate_bytes S.IsSignature S.participants S.me L.terms
        (λ term_length. ChainsHoldFinals) }
{
    agreement::<S, L, D>();
}

/// The votes that one host has carried out, over all its processes, keep the voting rules (`IsLawful`), whatever it
/// passed to its engines and whatever the other hosts did.
///
/// The host runs processes as `hosts_agree` says. So it never carries out votes to notarize two proposals of one view,
/// votes to finalize two, or votes to nullify and to finalize one view.
pub fn hosts_keep_voting_rules<S: Scheme<D>, L: Elector<S>, D: Digest>()
    ensures { EachHostKeepsRules D.eq L.elect S.certificate_bytes S.IsSignature S.participants S.me L.terms }
{}
