//! The views whose fetch is open.

ghost use Rattle.std.specs.Prelude.{◌≡◌, ℕ, ◌≤◌, ◌==◌, ◌&&◌, ◌||◌, not, nat_le, filter, slice_get, length, take, OnOk, OnErr, IsOkUnless};
ghost use Rattle.simplex_resolver.specs.Repair.{has, fetches, settles, IsApplied, KeepsOutstanding};

use crate::resolver::effect::Effect;
use simplex_types::reasons::Kind;
use simplex_types::types::{Fault, View};
use std::alloc::AllocError;
use std::collections::BTreeSet;

/// Adds the view.
fn add_view(views: &mut BTreeSet<View>, view: View) -> Result<(), AllocError>
    ensures after { OnOk result ((v : ℕ) → has views.new.keys v ≡ (v == view || has views.old.keys v)) }
    ensures refused { OnErr result (views.new.keys ≡ views.old.keys) }
{
    views.insert(view)?;
    Ok(())
}

/// Returns the lowest of the views from `start` to `end`, both included.
fn first_within(views: &BTreeSet<View>, start: View, end: View) -> Option<View>
    requires { start ≤ end }
    ensures { result ≡ slice_get (filter (λ v. nat_le start v && nat_le v end) views.now.keys) 0 }
{
    views.range(start..=end).next().copied()
}

/// Removes the views from `start` to `end`, both included. What it costs grows with the views that it removes.
pub(super) fn drop_range(views: &mut BTreeSet<View>, start: View, end: View)
    ensures { (v : ℕ) → has views.new.keys v ≡ (not (nat_le start v && nat_le v end) && has views.old.keys v) }
{
    if start > end {
        return;
    }
    while let Some(view) = first_within(views, start, end) {
        views.remove(&view);
    }
}

fn apply_one(outstanding: &mut BTreeSet<View>, effect: &Effect) -> Result<(), AllocError>
    ensures after { OnOk result ((v : ℕ) → has outstanding.new.keys v
        ≡ (fetches v effect.now || (has outstanding.old.keys v && not (settles v effect.now)))) }
    ensures refused { OnErr result (outstanding.new.keys ≡ outstanding.old.keys) }
{
    match *effect {
        Effect::Fetch { view, .. } => add_view(outstanding, view)?,
        Effect::Settled {
            kind: Kind::Nullification,
            start,
            end,
        } => drop_range(outstanding, start, end),
        Effect::Settled { .. } => {}
        Effect::Finalized(settled) | Effect::Raised(settled) => {
            drop_range(outstanding, View::zero(), settled);
        }
    }
    Ok(())
}

/// Applies the effects, in order, to the views whose fetch is open: a fetch adds its view; what a
/// nullification, a finalization or the floor settles is removed. A settled notarization changes nothing.
///
/// # Errors
///
/// Only `OutOfMemory`; then a prefix of the effects is applied.
pub fn apply(outstanding: &mut BTreeSet<View>, effects: &[Effect]) -> Result<(), Fault>
    ensures applied { OnOk result (IsApplied outstanding.old.keys effects.now outstanding.new.keys) }
    ensures kept { OnOk result (KeepsOutstanding outstanding.old.keys effects.now outstanding.new.keys) }
    ensures refused { IsOkUnless result Fault.OutOfMemory }
    ensures a_beginning { OnErr result ((n : ℕ) × (n ≤ length effects.now)
        × IsApplied outstanding.old.keys (take n effects.now) outstanding.new.keys) }
{
    for effect in effects {
        apply_one(outstanding, effect)?;
    }
    Ok(())
}
