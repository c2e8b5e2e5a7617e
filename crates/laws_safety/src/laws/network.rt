//! Agreement of a network of members, and the laws of each member's votes over all its lifetimes.

ghost use Rattle.laws_safety.specs.Agreement.{OneProposal, FinalizedUncovered, ParentBefore, ParentNotBelow, FinalizedNotarized, ChainHoldsFinalized};
ghost use Rattle.laws_safety.specs.ExactVotes.{SignsExactly};
ghost use Rattle.laws_safety.specs.Lawful.{IsLawful};
ghost use Rattle.laws_safety.specs.LifetimeLaws.{OfEachState, NotarizesGapless};
ghost use Rattle.laws_safety.specs.Replicas.{OfEachNetwork};
ghost use Rattle.laws_safety.specs.Executions.{OfEachMember, RunsAreLawful, trace_of};

use simplex_types::types::{Digest, Elector, Scheme};

/// Agreement of a network of members, and the laws of votes that it rests on: for every list of calls and restarts of
/// every honest member, over payloads `D` and terms of any length but 0. The function does nothing: its contract is the
/// law.
///
/// A member's actions are its execution: a start, then calls and restarts in any order, each with its reply, as `run`
/// returns them. Its trace is the certificates that it accepted and the votes that it signed, over all its lifetimes (a
/// lifetime lasts from a start or a restart to the next restart). `IsExecution`: in each lifetime it signs as one
/// member of the network, `i`, or not at all, and terms have one length.
///
/// - `exact`: a vote is signed exactly if its rule allows it. It is returned only on request, and only if its rule
///   holds for the state that the earlier steps left. It is signed with the member's key, on the view's round or the
///   held proposal. If the rule holds and there is a key it is returned, unless the call is refused.
/// - `lawful`: the trace keeps the voting rules, `IsLawful`, over all lifetimes.
///
/// The premises of the other claims, `IsNetworkOf`: of n members at most f = (n - 1) / 3 are faulty, or else fewer than
/// n - 2f; a faulty member may send anything. Each other one does what `IsExecution` says, as the member of its index.
/// And each certificate that such a member accepted is backed: n - f members are faulty or signed the vote that it
/// certifies. Nothing is assumed of time, of the order in which messages come, or of leaders.
///
/// The claims are about every backed certificate, whether or not a member has seen it:
/// - `one_proposal`: the notarizations and the finalizations of one view are of one proposal.
/// - `finalized_uncovered`: no nullification covers a finalized view.
/// - `parent_before`: a notarized or finalized proposal names an earlier view as its parent.
/// - `parent_not_below`: no notarized proposal above a finalized view names a parent below that view.
/// - `finalized_notarized`: a finalized proposal is notarized.
/// - `chain_holds_finalized`: take a chain of notarized proposals, each naming the next one's view as its parent, with
///   one above a finalized view and one at or below it. Then the chain has the finalized proposal.
pub fn agreement<S: Scheme<D>, L: Elector<S>, D: Digest>()
    ensures exact { OfEachMember S.PublicKey D.eq L.elect (λ term_length s. SignsExactly D.eq L.elect s) }
    ensures lawful { OfEachMember S.PublicKey D.eq L.elect (λ term_length s. IsLawful term_length (trace_of s)) }
    ensures one_proposal { OfEachNetwork S.PublicKey D.eq L.elect (λ term_length. OneProposal) }
    ensures finalized_uncovered { OfEachNetwork S.PublicKey D.eq L.elect
        (λ term_length network. FinalizedUncovered network term_length) }
    ensures parent_before { OfEachNetwork S.PublicKey D.eq L.elect (λ term_length. ParentBefore) }
    ensures parent_not_below { OfEachNetwork S.PublicKey D.eq L.elect (λ term_length. ParentNotBelow) }
    ensures finalized_notarized { OfEachNetwork S.PublicKey D.eq L.elect (λ term_length. FinalizedNotarized) }
    ensures chain_holds_finalized { OfEachNetwork S.PublicKey D.eq L.elect (λ term_length. ChainHoldsFinalized) }
{}

/// All actions of a member, over all its lifetimes, keep the voting rules, whatever keys its lifetimes sign with. The
/// function does nothing: its contract is the law.
///
/// It says more than the clause `lawful` of `agreement`: a restart may have other settings, another scheme, another key
/// and another floor, may drop the last entries of the record and may prune it. Only the length of the terms, which is
/// not 0, is the same in each lifetime (`HasTerms`, `KeepTerms`).
///
/// - `lawful`: all that a run signed and accepted keeps the rules.
/// - `gapless`: in each state that a run leads to, if the rule of votes to notarize holds, the parent lies below and
///   the nullifications that this very state knows cover each view between. So a nullification that only an earlier
///   lifetime knew, or that was pruned since, lets no vote skip a view.
pub fn votes_are_lawful<S: Scheme<D>, L: Elector<S>, D: Digest>()
    ensures lawful { RunsAreLawful S.PublicKey D.eq L.elect }
    ensures gapless { OfEachState S.PublicKey D.eq L.elect (NotarizesGapless D.eq L.elect) }
{}
