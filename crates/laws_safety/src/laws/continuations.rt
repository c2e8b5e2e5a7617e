//! Networks that look stuck, and continue: in each the honest members alone finalize a view above all that could be
//! finalized.

ghost use Rattle.std.specs.Prelude.{◌≡◌, ℕ, ◌≤◌, nat_eq, length};
ghost use Rattle.simplex_types.specs.declared.types.messages.Proposal.{Proposal};
ghost use Rattle.simplex_types.specs.declared.types.messages.Subject.TheVariants.{Notarize, Nullify};
ghost use Rattle.laws_safety.specs.Continuations.{HasAccepted, HasSignedAs, ContinuesToFinalize};
ghost use Rattle.laws_safety.specs.DividedNetwork.{divided, united, after_conflict};
ghost use Rattle.laws_safety.specs.HandoffNetwork.{handed_over, takes_over, taken_over, gone_on, after_handoff};
ghost use Rattle.laws_safety.specs.MissingCertificatesNetwork.{lacks_nullification, member_without_notarization, missing_certificates, supplied, over_two};
ghost use Rattle.laws_safety.specs.Replicas.{faults, Backed, IsNetworkOf};
ghost use Rattle.laws_safety.specs.ScenarioSteps.{round, one, in_turn};

/// A network of four in terms of one view, whose faulty leader proposes two payloads in view 1: one member votes for
/// each, the third for none, and all three restart. They nullify view 1 and finalize view 2. The function does nothing:
/// its contract is the law.
///
/// - `network`, `few`: it keeps the premises of `agreement`; one of four is faulty.
/// - `divided`: no proposal has enough votes for a notarization, whatever the faulty member signs.
/// - `continues`: it may continue as `united`, by actions of its honest members alone, and view 2 is finalized there.
pub fn conflicts_are_left()
    ensures network { IsNetworkOf nat_eq in_turn 1 divided }
    ensures few { (length divided ≡ 4) × (faults divided ≡ 1) }
    ensures divided { (p : Proposal ℕ) → Backed divided (Notarize p) → ⊥ }
    ensures continues { ContinuesToFinalize nat_eq in_turn 1 divided united after_conflict }
{}

/// A network of four in terms of one view, where view 3 is built on view 1. One member can't verify that yet, since it
/// lacks the nullification of view 2, and another one since it lacks the notarization of view 1. They receive these
/// from the third one, and all finalize view 3. The function does nothing: its contract is the law.
///
/// - `network`, `few`: it keeps the premises of `agreement`; one of four is faulty.
/// - `lacks`: the certificates that the two members have not accepted.
/// - `continues`: it may continue as `supplied`, by actions of its honest members alone, and view 3 is finalized there.
pub fn gaps_are_closed()
    ensures network { IsNetworkOf nat_eq in_turn 1 missing_certificates }
    ensures few { (length missing_certificates ≡ 4) × (faults missing_certificates ≡ 1) }
    ensures lacks { (HasAccepted (Nullify (round 2)) 0 lacks_nullification → ⊥)
        × (HasAccepted (Notarize one) 2 member_without_notarization → ⊥) }
    ensures continues { ContinuesToFinalize nat_eq in_turn 1 missing_certificates supplied over_two }
{}

/// A network of four in terms of two views. The leader of the second term takes it over early: it builds view 3 on view
/// 2 and votes for that, before view 2 is certified; and then view 2 is nullified. The members abandon the rest of the
/// term and finalize view 5, which is built on view 1. The function does nothing: its contract is the law.
///
/// - `network`, `few`: it keeps the premises of `agreement`; one of four is faulty.
/// - `voted`: the leader has cast its vote to notarize in view 3.
/// - `stuck`: no proposal above view 1 has enough votes for a notarization, whatever the faulty member signs.
/// - `continues`: it may continue as `gone_on`, by actions of its honest members alone, and view 5 is finalized there.
pub fn nullified_handoffs_are_left()
    ensures network { IsNetworkOf nat_eq in_turn 2 taken_over }
    ensures few { (length taken_over ≡ 4) × (faults taken_over ≡ 1) }
    ensures voted { HasSignedAs (Notarize handed_over) 0 takes_over }
    ensures stuck { (p : Proposal ℕ) → 2 ≤ p.round.view → Backed taken_over (Notarize p) → ⊥ }
    ensures continues { ContinuesToFinalize nat_eq in_turn 2 taken_over gone_on after_handoff }
{}
