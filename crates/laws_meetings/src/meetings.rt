//! What is sent and asked at rest, and whether views meet. A function does nothing: its contract is the law.

ghost use Rattle.laws_meetings.specs.AwaitedVerdicts.{VerdictsAreAwaited};
ghost use Rattle.laws_meetings.specs.Broadcasts.{SendsAllAtRest};
ghost use Rattle.laws_meetings.specs.Meetings.{ViewsAreFollowed, ViewsMeet};

use laws_rounds::rounds::{
    finality_spreads, notarizations_spread, nullifications_spread, rounds_keep_networks,
};
use laws_safety::laws::agreement;
use simplex_types::types::{Digest, Elector, Scheme};

/// At rest an engine has returned each certificate that its member tracks, to be broadcast.
///
/// The process has made calls as the engine's contract describes them (`IsEngineRun`), the last of them a poll that
/// returned nothing. Then each certificate that the member tracks, of a view from its last finalized one on, is among
/// the broadcasts that these calls returned, in its kind, view and epoch.
///
/// Except the certificates that the process began with: that of the floor, and those of the record that an engine is
/// resumed from. They count as broadcast from the beginning.
pub fn all_is_sent_at_rest<S: Scheme<D>, L: Elector<S>, D: Digest>()
    ensures { SendsAllAtRest D.eq L.elect D.bytes S.certificate_bytes S.IsSignature S.participants }
{}

/// At rest each true verdict that a member lacks is awaited: its application was asked, or another reason is named.
///
/// The host is an honest one of a network, its last process has made calls as the engine's contract describes them
/// (`IsEngineRun`), and that has come to rest. Of each view above the last finalized one that has no true verdict, one
/// of these is true (`LacksVerdict`):
///
/// - `Asked`: in this process the host has carried out `Certify` for a proposal of the view. The application has given
///   no verdict on it since.
/// - `Refused`: the verdict is false.
/// - `NotNotarized`: the member tracks no notarization of the view.
/// - `AwaitsParent`: the view's proposal requires that the view before is certified first, and this view lacks its
///   verdict for one of these reasons.
/// - `WrongParent`: no proposal of the view may have this parent.
///
/// So a process that resumes asks again for each verdict that its record lacks.
pub fn verdicts_are_awaited<S: Scheme<D>, L: Elector<S>, D: Digest>()
    ensures { VerdictsAreAwaited D.eq L.elect D.bytes S.certificate_bytes S.IsSignature S.participants S.me L.terms }
{}

/// Each honest host follows each other one: within two rounds it comes to the view in which the other one was after the
/// first, or above it.
///
/// Of two hosts of one epoch that have not failed. Two things can be in the way (`Follows`):
///
/// - The other one's process began with the certificate that led it to its view, and its host has not sent that.
/// - The other one has certified the view below. This host tracks a notarization of it too, but awaits a true verdict,
///   for one of the reasons of `verdicts_are_awaited`.
///
/// Nullifications are never in the way, in terms of whatever length. By `agreement` none that one of the two accepted
/// covers a view that one of them finalized. So the other one still tracks the nullification that led it to its view,
/// and this host takes that, or has finalized a view above its term.
pub fn views_are_followed<S: Scheme<D>, L: Elector<S>, D: Digest>()
    ensures { ViewsAreFollowed D.eq L.elect D.bytes S.certificate_bytes S.IsSignature S.participants S.me L.terms }
{
    agreement::<S, L, D>();
    rounds_keep_networks::<S, L, D>();
    finality_spreads::<S, L, D>();
    nullifications_spread::<S, L, D>();
    notarizations_spread::<S, L, D>();
    all_is_sent_at_rest::<S, L, D>();
    verdicts_are_awaited::<S, L, D>();
}

/// Views meet: within two rounds two honest hosts are in one view, unless one of them has entered a view in the second
/// round.
///
/// Of two hosts of one epoch that have not failed, in terms of whatever length:
///
/// - Each has sent the certificates that its process began with, of views from its last finalized one on (`IsSeen`). A
///   process that begins at genesis with nothing stored began with none (`begin`).
/// - Their applications agree (`CertifiesAlike`).
pub fn views_meet<S: Scheme<D>, L: Elector<S>, D: Digest>()
    ensures { ViewsMeet D.eq L.elect D.bytes S.certificate_bytes S.IsSignature S.participants S.me L.terms }
{
    agreement::<S, L, D>();
    rounds_keep_networks::<S, L, D>();
    finality_spreads::<S, L, D>();
    nullifications_spread::<S, L, D>();
    notarizations_spread::<S, L, D>();
    all_is_sent_at_rest::<S, L, D>();
    verdicts_are_awaited::<S, L, D>();
}
