//! Who is accountable for certificates that contradict, if more members are faulty than agreement tolerates.

ghost use Rattle.laws_safety.specs.Accountability.{ContradictionsHaveFaultyMembers, ContradictionsAreTraced, NearestIsEvidence};
ghost use Rattle.laws_safety.specs.Accountability.{BrokenRulesAreRules, EvidenceHolds, ThirdIsAnother, ContradictionsNeedFaults, ContradictionsAreTracedInNetworks};

use simplex_types::types::{Digest, Elector, Scheme};

/// Accountability, over payloads `D`: who is accountable for two certificates that contradict, for any number of faulty
/// members. The function does nothing: its contract is the law.
///
/// For each member its trace is known, or nothing, as for a faulty one. Two certificates contradict (`Contradicts`) if
/// they are of two proposals of a view, if a finalization's view is covered by a nullification, or if a notarized
/// proposal above a finalized view names a parent below that view. Each may exist: n - f members are unknown or gave
/// its vote.
///
/// - `answered`: then at least n - 2f members, with f = (n - 1) / 3, are unknown or gave both votes. Each of these that
///   is known broke a rule by the two, which `BreaksBy` names, or accepted before one of them a third certificate that
///   contradicts one of the two from nearer (`HasAcceptedNearer`). The distance of two certificates is a number, so
///   this ends.
/// - `third`: the third is indeed another certificate than the two, so accepting one of the two is no excuse.
/// - `traced`: if each certificate that a known member accepted may exist too, there are two certificates that
///   contradict at which at least n - 2f members are unknown or gave both votes and broke a rule by these: so of the
///   known members at least n - 2f - u, if u are unknown.
/// - `broken`: a member that broke a rule by `BreaksBy` did not keep the voting rules, `IsLawful`.
/// - `evidence`: two votes alone show that their signer broke a rule if both are to notarize one view or both to
///   finalize it, on two proposals, or if one is to nullify and one to finalize the same view.
/// - `nearest`: certificates that contradict at distance 0 are of such votes.
pub fn accountability<D: Digest>()
    ensures answered { ContradictionsHaveFaultyMembers D }
    ensures third { ThirdIsAnother D }
    ensures traced { ContradictionsAreTraced D }
    ensures broken { BrokenRulesAreRules D }
    ensures evidence { EvidenceHolds D }
    ensures nearest { NearestIsEvidence D }
{}

/// The same for members that run this code, for any number of faulty ones. The function does nothing: its contract is
/// the law.
///
/// As in `agreement`, each member that isn't faulty does what `IsExecution` says, and each certificate that it accepted
/// is backed (`IsBackedNetwork`).
///
/// - `faulty`: if two backed certificates contradict, at least n - 2f members are faulty, with f = (n - 1) / 3. So with
///   fewer no two contradict.
/// - `traced`: and two are found, each of votes that n - f members may have given, at which n - 2f members are faulty
///   or broke a rule by both votes; what misled a member on the way was backed.
pub fn contradictions_need_faults<S: Scheme<D>, L: Elector<S>, D: Digest>()
    ensures faulty { ContradictionsNeedFaults S.PublicKey D.eq L.elect }
    ensures traced { ContradictionsAreTracedInNetworks S.PublicKey D.eq L.elect }
{}
