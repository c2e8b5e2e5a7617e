//! The laws of parents and chains. No function here does anything: each contract is a law.

ghost use Rattle.laws_chains.specs.Parents.{FewFaultyLeaveTwo, FinalizedHaveParents, NotarizedStartsHaveParents, HandoffsAreWitnessed};
ghost use Rattle.laws_chains.specs.ViewsAhead.{KeepsPremises, AheadReachesGenesis};
ghost use Rattle.laws_chains.specs.Chains.{CertifiedReachGenesis, FinalizedReachGenesis, VerdictsAreOnOffers};
ghost use Rattle.laws_chains.specs.Offers.{OffersAreAwaited};
ghost use Rattle.laws_chains.specs.OtherParents.{verified_apart, ParentIsTwelve, VerifiedOnEleven};
ghost use Rattle.laws_chains.specs.EarlyLeaders.{both_lead_early, HasNoParent};
ghost use Rattle.laws_chains.specs.UnofferedVerdicts.{unoffered, NoFirstNotarized, ReachesNoGenesis};
ghost use Rattle.laws_safety.specs.AheadNetwork.{three};
ghost use Rattle.laws_safety.specs.Replicas.{Backed, IsNetworkOf, OfEachNetwork};
ghost use Rattle.laws_safety.specs.ScenarioSteps.{in_turn, two};
ghost use Rattle.simplex_types.specs.declared.types.messages.Subject.TheVariants.{Finalize};
ghost use Rattle.std.specs.Prelude.{nat_eq};

use simplex_types::types::{Digest, Elector, Scheme};

/// The parent of each finalized proposal exists: a proposal of the view that it names is finalized, or is notarized and
/// certified by an honest member.
///
/// The premises are those of `agreement`. A proposal that starts a term needs one more, `HandoffsAreWitnessed`, because
/// the leader of that term may propose before its parent is certified. Either no honest member elects early, or all
/// lifetimes of all honest members have one elector and one epoch, and each quorum has two honest members, one of which
/// is not that leader.
///
/// Floors need no premise: a member accepts the finalization of its floor, so `agreement`'s premises already back it.
///
/// - `finalized`: the law for each finalized proposal whose parent is not genesis.
/// - `notarized`: the same for each notarized proposal that starts a term.
/// - `two`: each quorum has two honest members where at most f of two or more members are faulty.
pub fn finalized_parents_are_certified<S: Scheme<D>, L: Elector<S>, D: Digest>()
    ensures finalized { OfEachNetwork S.PublicKey D.eq L.elect FinalizedHaveParents }
    ensures notarized { OfEachNetwork S.PublicKey D.eq L.elect NotarizedStartsHaveParents }
    ensures two { FewFaultyLeaveTwo S.PublicKey L D }
{}

/// A chain of notarized proposals leads from each finalized proposal to genesis. Each proposal names the view of the
/// next one as its parent. The chain holds each finalized proposal that is no higher.
///
/// The premises are those of `agreement`, `HandoffsAreWitnessed` and `ParentsAreAwaited`. The last one asks that no
/// honest member votes ahead within a term, or that each honest member receives the verdict that a proposal is good
/// only after it offered that proposal in a reply to `CertifyCandidates`. A member takes a verdict on any notarized
/// view, but offers a proposal only once its parent is certified.
///
/// - `finalized`: the law for each finalized proposal.
/// - `certified`: the same for each notarized proposal that an honest member certified.
pub fn finalized_chains_reach_genesis<S: Scheme<D>, L: Elector<S>, D: Digest>()
    ensures finalized { OfEachNetwork S.PublicKey D.eq L.elect (λ term_length. FinalizedReachGenesis) }
    ensures certified { OfEachNetwork S.PublicKey D.eq L.elect (λ term_length. CertifiedReachGenesis) }
{}

/// A network keeps `VerdictsAreOnOffers`, and so `ParentsAreAwaited`, if each honest member receives a verdict only on
/// a view whose proposal it offered and that has no verdict.
///
/// - Each such member runs by `RunsOnOffers`: whenever it receives a verdict, the offer of the view is open
///   (`Member::awaits_verdict`).
/// - It also takes the premises of `agreement`: they imply that the offered and the judged proposal of a view are one.
pub fn verdicts_on_offers_await_parents<S: Scheme<D>, L: Elector<S>, D: Digest>()
    ensures { OfEachNetwork S.PublicKey D.eq L.elect (λ term_length. OffersAreAwaited D.eq L.elect) }
{}

/// The premises of `finalized_chains_reach_genesis` are true of the network of `views_ahead_are_agreed_on`, in which a
/// leader proposes early and a member starts at a finalized floor. The chain of its finalized proposal reaches genesis.
pub fn views_ahead_reach_genesis()
    ensures premises { KeepsPremises }
    ensures genesis { AheadReachesGenesis }
{}

/// A network that keeps all premises of `finalized_chains_reach_genesis` but `ParentsAreAwaited`, and for which the law
/// fails.
///
/// It has four members and terms of three views. The faulty leader proposes another proposal of view 1 to each member.
/// Views 2 and 3 are notarized on these, and each member receives the verdict that view 2 is good, which it never
/// offered.
///
/// - `network`, `witnessed`: it keeps the premises of `agreement`, and `HandoffsAreWitnessed`.
/// - `finalizes`: view 3 is finalized.
/// - `none`: no proposal of view 1 is notarized.
/// - `no_chain`: so no chain leads from view 3 to genesis.
pub fn chains_need_offers()
    ensures network { IsNetworkOf nat_eq in_turn 3 unoffered }
    ensures witnessed { HandoffsAreWitnessed unoffered }
    ensures finalizes { Backed unoffered (Finalize three) }
    ensures none { NoFirstNotarized }
    ensures no_chain { ReachesNoGenesis }
{}

/// A network that keeps all premises of `finalized_chains_reach_genesis` but `HandoffsAreWitnessed`, and for which the
/// law fails.
///
/// It has four members, terms of two views, and different electors. Each of two members leads view 3 early by its own
/// elector, and builds the same proposal there, each on the proposal of view 2 that it alone voted for. Then it
/// restarts with another elector.
///
/// - `network`, `offers`: it keeps the premises of `agreement`, and verdicts are given on what was offered.
/// - `finalizes`: view 3 is finalized.
/// - `no_parent`: no proposal of view 2, its parent, is notarized or finalized.
pub fn parents_need_one_elector()
    ensures network { IsNetworkOf nat_eq in_turn 2 both_lead_early }
    ensures offers { VerdictsAreOnOffers both_lead_early }
    ensures finalizes { Backed both_lead_early (Finalize three) }
    ensures no_parent { HasNoParent }
{}

/// A member may finalize a proposal that it verified on another payload than its parent's.
///
/// The network has four members and terms of three views. Its faulty leader proposes twice in view 1. A member votes
/// for view 2 ahead, on the payload that it voted for in view 1. Then the other proposal of view 1 is certified, and
/// the member votes to finalize view 2 all the same.
///
/// - `network`: it keeps the premises of `agreement`.
/// - `finalizes`: view 2 is finalized.
/// - `parent`: the notarized proposal of its parent's view has payload 12.
/// - `verified`: a member that voted to notarize and to finalize view 2 was asked to verify it on payload 11, and on no
///   other.
pub fn votes_may_be_on_another_parent()
    ensures network { IsNetworkOf nat_eq in_turn 3 verified_apart }
    ensures finalizes { Backed verified_apart (Finalize two) }
    ensures parent { ParentIsTwelve }
    ensures verified { VerifiedOnEleven }
{}
