//! Starts of a correct leader's term, and what leads to them.

ghost use Rattle.laws_progress.specs.FreshStarts.{FreshStartsAreFinalized};
ghost use Rattle.laws_progress.specs.CommonViews.{MembersThatMeetContinue};
ghost use Rattle.laws_progress.specs.SharedView.{MembersOfOneViewContinue};
ghost use Rattle.laws_progress.specs.UndecidedViews.{CurrentViewsMayBeAbandoned, NoneIsDecidedAhead};

use simplex_types::types::{Digest, Elector, Scheme};

/// Does nothing: its contract is the law. It says from which networks the honest members finalize a view above all that
/// could be finalized before, by what they do alone: certificates by their own votes, and proposals that one of them
/// built (`ContinuesToFinalize`).
///
/// At most f of n members are faulty, whatever they and the others did so far: calls, restarts, records that were
/// pruned. The honest ones live with their keys, in one epoch, by one elector (`IsSetUpAs`), and the start's view lies
/// below 2^63.
///
/// - `finalizes`: the start of a correct leader's term that nobody touched, at which they are on one parent, is
///   finalized, with whatever payload its leader builds.
/// - `continues`: from any view at which they are on one parent, with none above it certified or finalized, they
///   abandon term after term. They finalize the start of a later one, which none of them knows and whose leader is
///   correct.
/// - `meets`: so they do from any state in which they can come to such a view.
pub fn fresh_starts_are_finalized<S: Scheme<D>, L: Elector<S>, D: Digest>()
    ensures finalizes { FreshStartsAreFinalized S.PublicKey D.eq L.elect }
    ensures continues { MembersOfOneViewContinue S.PublicKey D.eq L.elect }
    ensures meets { MembersThatMeetContinue S.PublicKey D.eq L.elect }
{}

/// Does nothing: its contract is the law. While a member of a network has not failed, it has decided to finalize no
/// view from its current one on, whatever its calls and restarts; so nothing prevents it from abandoning the view.
pub fn none_is_decided_ahead<S: Scheme<D>, L: Elector<S>, D: Digest>()
    ensures { NoneIsDecidedAhead S.PublicKey D.eq L.elect }
{}

/// Does nothing: its contract follows from that of `none_is_decided_ahead`. While a member of a network has not failed,
/// its rule of votes to nullify lets it abandon its current view, whatever its calls and restarts: with a key it signs
/// the vote when it is asked.
pub fn current_views_may_be_given_up<S: Scheme<D>, L: Elector<S>, D: Digest>()
    ensures { CurrentViewsMayBeAbandoned S.PublicKey D.eq L.elect }
{
    none_is_decided_ahead::<S, L, D>();
}
