//! Networks that can finalize a view.

ghost use Rattle.std.specs.Prelude.{◌≡◌, nat_eq, length};
ghost use Rattle.laws_safety.specs.DividedNetwork.{divided};
ghost use Rattle.laws_safety.specs.HandoffNetwork.{taken_over};
ghost use Rattle.laws_safety.specs.MissingCertificatesNetwork.{missing_certificates};
ghost use Rattle.laws_safety.specs.Replicas.{faults, IsNetworkOf};
ghost use Rattle.laws_safety.specs.ScenarioSteps.{in_turn};
ghost use Rattle.laws_progress.specs.NetworkStates.{EachRuns};
ghost use Rattle.laws_progress.specs.TooManyFaulty.{with_two_faulty, IsStuck, MayContinueOtherwise};
ghost use Rattle.laws_progress.specs.StartedNetworks.{with_first_leader, with_second_leader, StandsFirst, StandsBeforeSecond, Finalizes};
ghost use Rattle.laws_progress.specs.WorkedNetworks.{MayReach, Reaches, ReachesWithin};

/// Does nothing: its contract is the law. Two networks of four in terms of one view, one of which is faulty, whose
/// others have just started: the premises of `fresh_starts_are_finalized` are true, and a view is finalized.
///
/// - `first`, `first_few`: a network that keeps the premises of `agreement`, whose faulty member doesn't lead view 1.
/// - `first_stands`: each honest one is at view 1, which nobody touched, on genesis.
/// - `first_goes_on`: they continue, and view 1 is finalized.
/// - `second`, `second_few`: the same for a network whose faulty member leads view 1.
/// - `second_stands`: each honest one is at view 1 on genesis, and knows nothing of view 2.
/// - `second_goes_on`: they abandon view 1, and view 2 is finalized.
pub fn started_networks_continue()
    ensures first { IsNetworkOf nat_eq in_turn 1 with_first_leader }
    ensures first_few { (length with_first_leader ≡ 4) × (faults with_first_leader ≡ 1) }
    ensures first_stands { EachRuns nat_eq in_turn with_first_leader StandsFirst }
    ensures first_goes_on { Finalizes with_first_leader 1 }
    ensures second { IsNetworkOf nat_eq in_turn 1 with_second_leader }
    ensures second_few { (length with_second_leader ≡ 4) × (faults with_second_leader ≡ 1) }
    ensures second_stands { EachRuns nat_eq in_turn with_second_leader StandsBeforeSecond }
    ensures second_goes_on { Finalizes with_second_leader 2 }
{}

/// Does nothing: its contract is the law. The worked networks that look stuck keep the premises of
/// `no_network_is_stuck`, and so they can finalize a view, also later starts.
///
/// - `divided`: the network of `conflicts_are_left`, whose leader proposed twice and whose members restarted; view 6.
/// - `soon`: its members lead round-robin and know the next start, but none of the two after that. So one of these is
///   finalized within seven exchanges of messages: one for the term that is skipped, and f + 5.
/// - `lacking`: the network of `gaps_are_closed`, whose members miss a nullification and a notarization; view 6.
/// - `taken_over`: the network of `nullified_handoffs_are_left`, in terms of two views; view 11.
pub fn worked_networks_may_continue()
    ensures divided { MayReach 1 divided 6 × Reaches 1 divided 6 }
    ensures soon { ReachesWithin 7 1 divided }
    ensures lacking { MayReach 1 missing_certificates 6 × Reaches 1 missing_certificates 6 }
    ensures taken_over { MayReach 2 taken_over 11 × Reaches 2 taken_over 11 }
{}

/// Does nothing: its contract is the law. A network of five in terms of one view, two of which are faulty, whose others
/// have just started, is stuck. It keeps the premises of `agreement`, but not the first one of `no_network_is_stuck`,
/// that at most f are faulty.
///
/// - `network`, `too_many`: a network that keeps the premises of `agreement`, with one faulty member more than f.
/// - `otherwise`: all other premises of `no_network_is_stuck` are true of it, if view 4 is to be finalized.
/// - `stuck`: its honest members can finalize no proposal by what they do alone.
pub fn overrun_network_is_stuck()
    ensures network { IsNetworkOf nat_eq in_turn 1 with_two_faulty }
    ensures too_many { (length with_two_faulty ≡ 5) × (faults with_two_faulty ≡ 2) }
    ensures otherwise { MayContinueOtherwise }
    ensures stuck { IsStuck }
{}
