//! Networks that keep the premises of `agreement`, in which much happens.

ghost use Rattle.std.specs.Prelude.{◌≡◌, ℕ, nat_eq, false, true, List, [], ◌∷◌, length, Contains, Some};
ghost use Rattle.simplex_types.specs.Terms.{covers};
ghost use Rattle.simplex_types.specs.declared.types.messages.Subject.TheVariants.{Notarize, Nullify, Finalize};
ghost use Rattle.laws_safety.specs.Replicas.{faults, AtLeastFrom, IsNetworkOf, Backed};
ghost use Rattle.laws_safety.specs.Accountability.{Contradicts, distance, IsEvidence, HasAcceptedNearer, IsBackedNetwork};
ghost use Rattle.laws_safety.specs.Accountability.{AcceptCertified, MayBeCertified, IsGuilty, IsSuspect};
ghost use Rattle.laws_safety.specs.Scripts.{leader, impatient, patient, four, restarting, skipping, five};
ghost use Rattle.laws_safety.specs.Scripts.{overrun, two_faced, known_of_overrun};
ghost use Rattle.laws_safety.specs.ChangedSettings.{refusing, changing, with_refusing, with_changing};
ghost use Rattle.laws_safety.specs.AheadNetwork.{early, joining, voted_ahead, three};
ghost use Rattle.laws_safety.specs.ScenarioSteps.{round, proposal, one, two, in_turn};
ghost use Rattle.laws_safety.specs.Traces.{Accepts, Signs};
ghost use Rattle.laws_safety.specs.Executions.{trace_of, IsExecution};

/// A network of four in terms of five views, with a faulty leader. One member votes to nullify view 1. Two others
/// finalize it, one of which then restarts, and the first finalizes view 2 once it accepted the finalization of view 1.
/// The function does nothing: its contract is the law.
///
/// - `network`, `few`: it keeps the premises of `agreement`; one of four is faulty.
/// - `covered`: a nullification of view 1 covers view 2, so the first member may not finalize it at once.
/// - `does`: what the first member accepts and signs.
/// - `finalizes`: both finalizations have enough votes.
pub fn terms_are_agreed_on()
    ensures network { IsNetworkOf nat_eq leader 5 four }
    ensures few { (length four ≡ 4) × (faults four ≡ 1) }
    ensures covered { covers 5 1 2 ≡ true }
    ensures does { trace_of impatient ≡
        Signs 0 (Nullify (round 1)) ∷ Accepts (Notarize one) ∷ Accepts (Notarize two)
        ∷ Accepts (Finalize one) ∷ Signs 0 (Finalize two) ∷ [] }
    ensures finalizes { Backed four (Finalize one) × Backed four (Finalize two) }
{}

/// A member that restarts three times: with the last entry dropped, with the record pruned, and at a finalized floor.
/// Its votes stay: it votes for no view twice. The function does nothing: its contract is the law.
///
/// - `ran`: it is what member 1 of a network does.
/// - `does`: what it accepts and signs; the notarization that was dropped is accepted again.
pub fn restarts_are_runs()
    ensures ran { IsExecution nat_eq leader 5 1 restarting }
    ensures does { trace_of restarting ≡
        Accepts (Notarize one) ∷ Signs 1 (Finalize one) ∷ Accepts (Notarize two) ∷ Accepts (Notarize two)
        ∷ Signs 1 (Finalize two) ∷ Accepts (Finalize (proposal 3 2)) ∷ Accepts (Finalize (proposal 4 3))
        ∷ Signs 1 (Nullify (round 5)) ∷ [] }
{}

/// A network of five in terms of one view, of which two are faulty: more than f, but fewer than n - 2f. View 2 is
/// nullified, and view 3, which is built on view 1, is finalized. The function does nothing: its contract is the law.
///
/// - `network`, `few`: it keeps the premises of `agreement`; two of five are faulty.
/// - `does`: what each honest member accepts and signs.
/// - `backs`: the votes make the certificates that these accept.
pub fn skipped_views_are_agreed_on()
    ensures network { IsNetworkOf nat_eq leader 1 five }
    ensures few { (length five ≡ 5) × (faults five ≡ 2) }
    ensures does { (me : ℕ) → trace_of (skipping me) ≡
        Signs me (Notarize one) ∷ Accepts (Notarize one) ∷ Signs me (Nullify (round 2))
        ∷ Accepts (Nullify (round 2)) ∷ Signs me (Notarize (proposal 3 1))
        ∷ Accepts (Notarize (proposal 3 1)) ∷ Signs me (Finalize (proposal 3 1)) ∷ [] }
    ensures backs { Backed five (Notarize one)
        × Backed five (Nullify (round 2))
        × Backed five (Finalize (proposal 3 1)) }
{}

/// A network of four in terms of five views, of which two are faulty: as many as two quorums share, so that
/// certificates may contradict. View 1 is nullified, and view 2, which this covers, is finalized. The function does
/// nothing: its contract is the law.
///
/// - `network`, `many`: the other two do what they do in `terms_are_agreed_on`, and accept what is backed; two are
///   faulty.
/// - `contradict`: both certificates are backed, and contradict at distance 1.
/// - `misled`: the first member signed both votes and kept the rules. It had accepted the finalization of view 1
///   between them, which contradicts the nullification at distance 0.
/// - `evidence`: at that distance the two votes are evidence.
/// - `known`: what is known of the four, with the trace of one of the faulty members, meets the premises of
///   `accountability`.
/// - `suspects`, `guilty`: at the nearer pair two are suspects, of which the known one is guilty.
pub fn contradictions_are_answered_for()
    ensures network { IsBackedNetwork nat_eq leader 5 overrun }
    ensures many { (length overrun ≡ 4) × (faults overrun ≡ 2) }
    ensures contradict { Contradicts 5 (Nullify (round 1)) (Finalize two)
        × (distance (Nullify (round 1)) (Finalize two) ≡ 1)
        × Backed overrun (Nullify (round 1))
        × Backed overrun (Finalize two) }
    ensures misled { (nearer : HasAcceptedNearer 5 (Nullify (round 1)) (Finalize two) (trace_of impatient))
        × (nearer.third ≡ Finalize one) }
    ensures evidence { Contradicts 5 (Nullify (round 1)) (Finalize one)
        × (distance (Nullify (round 1)) (Finalize one) ≡ 0)
        × IsEvidence (Nullify (round 1)) (Finalize one) }
    ensures known { AcceptCertified known_of_overrun
        × MayBeCertified known_of_overrun (Nullify (round 1))
        × MayBeCertified known_of_overrun (Finalize two) }
    ensures suspects { AtLeastFrom 0 2 (IsSuspect 5 (Nullify (round 1)) (Finalize one)) known_of_overrun }
    ensures guilty { IsGuilty 5 (Nullify (round 1)) (Finalize one) 2 (Some (two_faced 2)) }
{}

/// A member that refuses much. It refuses certificates that name views that are too large, that come too late or are of
/// another epoch; and a restart that would retain more views of its pruned record, which changes nothing. It refuses a
/// restart at a floor of another epoch, after which it refuses all until it restarts. The function does nothing: its
/// contract is the law.
///
/// - `ran`, `network`: it is what member 1 of a network does, and with two more and a faulty leader it keeps the
///   premises of `agreement`.
/// - `does`: what it refuses is no event of its trace: it accepts neither these certificates nor these floors.
pub fn refusals_accept_nothing()
    ensures ran { IsExecution nat_eq leader 5 1 refusing }
    ensures network { IsNetworkOf nat_eq leader 5 with_refusing }
    ensures does { trace_of refusing ≡
        Accepts (Notarize one) ∷ Signs 1 (Finalize one) ∷ Accepts (Finalize one)
        ∷ Accepts (Notarize two) ∷ Signs 1 (Finalize two) ∷ [] }
{}

/// A member whose lifetimes differ. The first one has no key: it certifies view 1, and no vote is signed. The second
/// one has a key, other times, views ahead and a stall timeout, and starts at a finalized floor; there view 2 is
/// certified false, timed out and nullified. Then a restart without a key is refused, since the record has a vote, and
/// one as at first, with the key, succeeds. The function does nothing: its contract is the law.
///
/// - `ran`, `network`: it is what member 1 of a network does, and with two more and a faulty leader it keeps the
///   premises of `agreement`.
/// - `does`: what it accepts and signs.
pub fn lifetimes_may_differ()
    ensures ran { IsExecution nat_eq leader 5 1 changing }
    ensures network { IsNetworkOf nat_eq leader 5 with_changing }
    ensures does { trace_of changing ≡
        Accepts (Notarize one) ∷ Accepts (Finalize one) ∷ Signs 1 (Nullify (round 2)) ∷ Accepts (Notarize two)
        ∷ Accepts (Nullify (round 2)) ∷ Signs 1 (Nullify (round 6)) ∷ [] }
{}

/// A network of four in terms of two views, of which one is voted for ahead, with a faulty leader. Two members vote for
/// views 1 and 2 before either has a certificate, and the leader of view 3 builds on view 2 before that is certified. A
/// third member starts at the finalization of view 2. The function does nothing: its contract is the law.
///
/// - `network`, `few`: it keeps the premises of `agreement`; one of four is faulty.
/// - `does`: what the next leader accepts and signs, and what the late joiner does.
/// - `finalizes`: the finalization of view 3 has enough votes.
pub fn views_ahead_are_agreed_on()
    ensures network { IsNetworkOf nat_eq in_turn 2 voted_ahead }
    ensures few { (length voted_ahead ≡ 4) × (faults voted_ahead ≡ 1) }
    ensures does { (trace_of early ≡
        Signs 0 (Notarize one) ∷ Signs 0 (Notarize two) ∷ Accepts (Notarize one) ∷ Signs 0 (Finalize one)
        ∷ Signs 0 (Notarize three) ∷ Accepts (Notarize two) ∷ Signs 0 (Finalize two)
        ∷ Accepts (Notarize three) ∷ Signs 0 (Finalize three) ∷ Accepts (Finalize three) ∷ [])
        × (trace_of joining ≡
        Accepts (Finalize two) ∷ Signs 2 (Notarize three) ∷ Accepts (Notarize three) ∷ Signs 2 (Finalize three)
        ∷ Accepts (Finalize three) ∷ []) }
    ensures finalizes { Backed voted_ahead (Finalize three) }
{}
