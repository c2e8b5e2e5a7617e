//! The certificates and verdicts that led members to their views.

ghost use Rattle.laws_progress.specs.ViewCauses.{CurrentViewsAreLedTo, NullifiedViewsAreLedTo, NullifyVotesComeAfter};
ghost use Rattle.laws_progress.specs.ViewCauses.{ExplicitViewsAreAccepted, JudgedAreNotarized, VerdictsAreReported};

use simplex_types::types::{Digest, Elector, Scheme};

/// Does nothing: its contract is the law. It says what led a member of a network to its views, over all its calls and
/// restarts: the certificates that it accepted and the verdicts that it received.
///
/// - `current`: while the member has not failed, its current view is the first one, or lies just above one that it
///   finalized or certified, or begins the term after one whose nullification it accepted, each in its epoch.
/// - `nullified`: the same for each view that it voted to nullify, in the vote's epoch.
/// - `ordered`: and what led to the view came before the vote.
/// - `explicit`: while it has not failed, each view but genesis that a proposal may be built on was finalized or
///   certified.
/// - `verdicts`: while it has not failed, each verdict that it stores was received.
/// - `judged`: each proposal that it received a verdict on has a notarization that it accepted.
pub fn views_are_led_to<S: Scheme<D>, L: Elector<S>, D: Digest>()
    ensures current { CurrentViewsAreLedTo S.PublicKey D.eq L.elect }
    ensures nullified { NullifiedViewsAreLedTo S.PublicKey D.eq L.elect }
    ensures ordered { NullifyVotesComeAfter S.PublicKey D.eq L.elect }
    ensures explicit { ExplicitViewsAreAccepted S.PublicKey D.eq L.elect }
    ensures verdicts { VerdictsAreReported S.PublicKey D.eq L.elect }
    ensures judged { JudgedAreNotarized S.PublicKey D.eq L.elect }
{}
