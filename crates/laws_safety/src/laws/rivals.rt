//! Networks in which certificates contradict, since as many members are faulty as two quorums share.

ghost use Rattle.std.specs.Prelude.{◌≡◌, nat_eq, length, Some};
ghost use Rattle.simplex_types.specs.declared.types.messages.Subject.TheVariants.{Notarize, Nullify, Finalize};
ghost use Rattle.laws_safety.specs.Accountability.{Contradicts, distance, IsEvidence, HasAcceptedNearer, IsBackedNetwork};
ghost use Rattle.laws_safety.specs.Accountability.{AcceptCertified, MayBeCertified, IsGuilty, IsSuspect};
ghost use Rattle.laws_safety.specs.DividedNetwork.{rival};
ghost use Rattle.laws_safety.specs.Replicas.{faults, AtLeastFrom, Backed};
ghost use Rattle.laws_safety.specs.Rivals.{two_proposals, known_of_two_proposals, double};
ghost use Rattle.laws_safety.specs.Rivals.{past_two, misled, skipped_over, known_of_skipped, turncoat};
ghost use Rattle.laws_safety.specs.Scripts.{leader};
ghost use Rattle.laws_safety.specs.Executions.{trace_of};
ghost use Rattle.laws_safety.specs.ScenarioSteps.{round, one, two};

/// A network of four in terms of five views, of which two are faulty, with two proposals of view 1. Each of the other
/// two votes for the one that it receives, and both are notarized. The function does nothing: its contract is the law.
///
/// - `network`, `many`: both accept what is backed; two are faulty.
/// - `contradict`: both notarizations are backed, and contradict at distance 0.
/// - `evidence`: so two votes for both are evidence.
/// - `known`: what is known of the four, with the trace of one of the faulty members, meets the premises of
///   `accountability`.
/// - `suspects`, `guilty`: two are suspects, of which the known one is guilty.
pub fn rivals_have_faulty_members()
    ensures network { IsBackedNetwork nat_eq leader 5 two_proposals }
    ensures many { (length two_proposals ≡ 4) × (faults two_proposals ≡ 2) }
    ensures contradict { Contradicts 5 (Notarize one) (Notarize rival)
        × (distance (Notarize one) (Notarize rival) ≡ 0)
        × Backed two_proposals (Notarize one)
        × Backed two_proposals (Notarize rival) }
    ensures evidence { IsEvidence (Notarize one) (Notarize rival) }
    ensures known { AcceptCertified known_of_two_proposals
        × MayBeCertified known_of_two_proposals (Notarize one)
        × MayBeCertified known_of_two_proposals (Notarize rival) }
    ensures suspects { AtLeastFrom 0 2 (IsSuspect 5 (Notarize one) (Notarize rival)) known_of_two_proposals }
    ensures guilty { IsGuilty 5 (Notarize one) (Notarize rival) 2 (Some (double 2)) }
{}

/// A network of four in terms of one view, of which two are faulty. View 2 is finalized, and view 3 is notarized on
/// view 1, below it. The function does nothing: its contract is the law.
///
/// - `network`, `many`: the other two accept what is backed; two are faulty.
/// - `contradict`: both certificates are backed, and contradict at distance 3.
/// - `misled`: the first member signed both votes and kept the rules. It had accepted the nullification of view 2
///   between them, which contradicts the finalization at distance 0.
/// - `evidence`: at that distance the two votes are evidence.
/// - `known`: what is known of the four, with the trace of one of the faulty members, meets the premises of
///   `accountability`.
/// - `suspects`, `guilty`: at the nearer pair two are suspects, of which the known one is guilty.
pub fn skipped_finalizations_have_faulty_members()
    ensures network { IsBackedNetwork nat_eq leader 1 skipped_over }
    ensures many { (length skipped_over ≡ 4) × (faults skipped_over ≡ 2) }
    ensures contradict { Contradicts 1 (Notarize past_two) (Finalize two)
        × (distance (Notarize past_two) (Finalize two) ≡ 3)
        × Backed skipped_over (Notarize past_two)
        × Backed skipped_over (Finalize two) }
    ensures misled { (nearer : HasAcceptedNearer 1 (Notarize past_two) (Finalize two) (trace_of misled))
        × (nearer.third ≡ Nullify (round 2)) }
    ensures evidence { Contradicts 1 (Nullify (round 2)) (Finalize two)
        × (distance (Nullify (round 2)) (Finalize two) ≡ 0)
        × IsEvidence (Nullify (round 2)) (Finalize two) }
    ensures known { AcceptCertified known_of_skipped
        × MayBeCertified known_of_skipped (Notarize past_two)
        × MayBeCertified known_of_skipped (Finalize two) }
    ensures suspects { AtLeastFrom 0 2 (IsSuspect 1 (Nullify (round 2)) (Finalize two)) known_of_skipped }
    ensures guilty { IsGuilty 1 (Nullify (round 2)) (Finalize two) 2 (Some (turncoat 2)) }
{}
