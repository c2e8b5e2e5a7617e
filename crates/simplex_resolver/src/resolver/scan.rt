//! The search for the views that must be fetched.

ghost use Rattle.std.specs.Prelude.{◌≡◌, ◌<◌, ◌≤◌, ◌^◌, [], ◌∷◌, ◌++◌, if◌then◌else◌, filter, not, nat_lt, ◌&&◌, is_some, IfOk, OnOk};
ghost use Rattle.std.specs.Option.{option_copied};
ghost use Rattle.std.specs.FinMap as map;
ghost use Rattle.simplex_view_maps.specs.ByTerm.{has_covering};
ghost use Rattle.simplex_resolver.specs.Facts.{covering_encoding, uncovered_anchors, end_of_scan};
ghost use Rattle.simplex_resolver.specs.Steps.{missing_fetches, failure_fetches};
ghost use Rattle.simplex_types.specs.declared.reasons.FetchReason.TheVariants.{MissingNullification};
ghost use Rattle.simplex_resolver.specs.declared.resolver.effect.Effect.TheVariants.{Fetch};

use crate::resolver::effect::Effect;
use crate::resolver::views::Views;
use bytes::Bytes;
use simplex_types::reasons::FetchReason;
use simplex_types::types::{TermLength, View};
use simplex_view_maps::by_term::ByTerm;
use std::alloc::AllocError;

/// The encoding of the nullification of the highest view that covers `view`.
pub(super) fn covering_nullification(nullifications: &ByTerm<Bytes>, view: View) -> Option<&Bytes>
    ensures value { option_copied result ≡ covering_encoding nullifications.now view }
    ensures found { is_some result ≡ has_covering nullifications.now view }
{
    match nullifications.covering(view) {
        Some((_, encoding)) => Some(encoding),
        None => None,
    }
}

/// Returns whether a nullification for the view is missing and still of interest, since the floor is below.
pub(super) fn needs_nullification(nullifications: &ByTerm<Bytes>, floor: View, view: View) -> bool
    ensures { result ≡ (nat_lt floor view && not (has_covering nullifications.now view)) }
{
    view > floor && covering_nullification(nullifications, view).is_none()
}

/// Fetches the uncovered anchors from `first` on below `current`, and returns the first anchor that is not
/// below it.
pub(super) fn scan(
    nullifications: &ByTerm<Bytes>,
    term_length: TermLength,
    first: View,
    current: View,
    cause: View,
    effects: &mut Vec<Effect>,
) -> Result<View, AllocError>
    requires same_terms { nullifications.now.term_length ≡ term_length }
    requires long { 0 < term_length }
    requires first { 1 ≤ first }
    requires current { current < 2 ^ 63 }
    ensures end { IfOk result (λ end. end ≡ end_of_scan term_length first current) }
    ensures fetched { OnOk result (effects.new.items ≡ effects.old.items
        ++ missing_fetches cause (uncovered_anchors nullifications.now first current)) }
{
    let mut anchor = first;
    while anchor < current {
        fetch_anchor(nullifications, anchor, cause, effects)?;
        let next = anchor.next_term_start(term_length);
        anchor = next;
    }
    Ok(anchor)
}

/// Fetches an anchor, unless it is covered.
fn fetch_anchor(
    nullifications: &ByTerm<Bytes>,
    anchor: View,
    cause: View,
    effects: &mut Vec<Effect>,
) -> Result<(), AllocError>
    ensures { OnOk result (effects.new.items ≡ effects.old.items
        ++ (if not (has_covering nullifications.now anchor)
        then Fetch anchor cause MissingNullification ∷ [] else [])) }
{
    if covering_nullification(nullifications, anchor).is_none() {
        effects.push(Effect::Fetch {
            view: anchor,
            cause,
            reason: FetchReason::MissingNullification,
        })?;
    }
    Ok(())
}

/// Fetches each of the views that is above the floor and uncovered.
pub(super) fn fetch_failures(
    views: &Views,
    nullifications: &ByTerm<Bytes>,
    floor: View,
    effects: &mut Vec<Effect>,
) -> Result<(), AllocError>
    ensures { OnOk result (effects.new.items ≡ effects.old.items ++ failure_fetches
        (filter (λ v. nat_lt floor v && not (has_covering nullifications.now v)) (map.keys views.now))) }
{
    let mut rest = views.iter();
    while let Some(view) = rest.next().copied() {
        if needs_nullification(nullifications, floor, view) {
            effects.push(Effect::Fetch {
                view,
                cause: view,
                reason: FetchReason::CertificationFailed,
            })?;
        }
    }
    Ok(())
}
