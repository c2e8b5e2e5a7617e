//! The laws of the definitions that the voter's contracts cite. Each function does nothing: its contract is the law.
//! `K` are the members' keys, `L` the elector and `D` the payloads.

ghost use Rattle.laws_voter.specs.Laws.{CoveringStays, FindsFirstGap, GaplessJoins, OptimisticPayloadIs, AllowedParentIs, PreferredParentStands, MayNotarizeIs, MayNullifyIs, MayFinalizeIs, RequiredParentIsBefore, WindowsAgree, OpenedViewsAre, ListsAreContainers};

/// A view that nullifications cover stays covered by more of them.
pub fn covering_stays<K, L, D>()
    ensures { CoveringStays K L D }
{}

/// The search for the first gap finds the lowest uncovered view between two views, and nothing exactly where each is
/// covered.
pub fn first_gap_is_found<K, L, D>()
    ensures { FindsFirstGap K L D }
{}

/// If no gap lies between two views, and none between the second and a third, none lies between the first and the third
/// if the second is covered.
pub fn gapless_joins<K, L, D>()
    ensures { GaplessJoins K L D }
{}

/// The payload that a view offers before it is certified follows from those that the views below it offer, so it is at
/// most one.
pub fn optimistic_payload_is<K, L, D>()
    ensures { OptimisticPayloadIs K L D }
{}

/// An allowed parent is at or above the last finalized view and below its view, with no gap between, just below inside
/// a term, and has the payload that the view may build on; and each such view is allowed.
pub fn allowed_parent_is<K, L, D>()
    ensures { AllowedParentIs K L D }
{}

/// The parent that this member prefers is allowed, or handed off to it.
pub fn preferred_parent_stands<K, L, D>()
    ensures { PreferredParentStands K L D }
{}

/// A notarize vote may be signed exactly if each part of its rule holds.
pub fn may_notarize_is<K, L, D>()
    ensures { MayNotarizeIs K L D }
{}

/// A nullify vote may be signed exactly if each part of its rule holds.
pub fn may_nullify_is<K, L, D>()
    ensures { MayNullifyIs K L D }
{}

/// A finalize vote may be signed exactly if each part of its rule holds: the view is certified, notarized, above the
/// last finalized one, and no vote to nullify conflicts.
pub fn may_finalize_is<K, L, D>()
    ensures { MayFinalizeIs K L D }
{}

/// The view that must be certified before a proposal is the view before its own.
pub fn required_parent_is_before<K, L, D>()
    ensures { RequiredParentIsBefore K L D }
{}

/// The tests of which votes and certificates are admitted are those of the member's window.
pub fn windows_agree<K, L, D>()
    ensures { WindowsAgree K L D }
{}

/// A certificate passes its leader on to the views whose window it lies in, up to the first whose window it does not.
pub fn opened_views_are<K, L, D>()
    ensures { OpenedViewsAre K L D }
{}

/// The facts' lists change like the sorted containers that they are read from.
pub fn lists_are_containers<R>()
    ensures { ListsAreContainers R }
{}
