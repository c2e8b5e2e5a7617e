//! A set of views.

ghost use Rattle.std.specs.Prelude.{◌≡◌, ℕ, nat_le, ◌&&◌, OnOk, OnErr};
ghost use Rattle.std.specs.FinMap as map;
ghost use Rattle.simplex_view_maps.specs.Tracked.{at_or_above};
ghost use Rattle.simplex_resolver.specs.Repair.{has};
ghost use Rattle.simplex_resolver.specs.Steps.{insert_new};

use crate::resolver::outstanding::drop_range;
use simplex_types::types::{Fault, View};
use std::alloc::Global;
use std::collections::BTreeSet;
use std::collections::btree_set::Iter;
use std::marker::Model;

/// A set of views, seen as a map from them.
///
/// Most views have only a place in such sets, so the set allocates no box for each.
#[derive(Drop)]
pub(super) struct Views {
    views: BTreeSet<View>,
}

impl Model for Views {
    ghost use Rattle.std.specs.Prelude.{IsTrue};
    ghost use base.Stored.{coded_unit};
    ghost use Rattle.std.specs.FinMap as map;
    ghost use Rattle.std.specs.Ordering.{nat_cmp};
    ghost use Rattle.std.specs.Coded.{coded_ℕ};
    ghost use Rattle.simplex_resolver.specs.ViewSets.{keyed};

    ghost Value = { map.FinMap nat_cmp (Unit {0}) };

    ghost coded = { map.code coded_ℕ coded_unit };

    ghost view = { λ s. map.from_sorted (keyed s.views.keys) };

    ghost invariant = { λ s. IsTrue (map.is_sorted nat_cmp (keyed s.views.keys)) };
}

/// Removes the views below a view, at the cost of those that are removed.
fn drop_lower(views: &mut BTreeSet<View>, view: View)
    ensures { (v : ℕ) → has views.new.keys v ≡ (nat_le view v && has views.old.keys v) }
{
    let Some(last) = view.previous() else {
        return;
    };
    drop_range(views, View::zero(), last);
}

impl Views {
    pub(super) fn new(alloc: Global) -> Views
        ensures { result ≡ map.empty }
    {
        Views {
            views: BTreeSet::new(alloc),
        }
    }

    /// Adds a view, unless it is there.
    pub(super) fn insert(&mut self, view: View) -> Result<(), Fault>
        ensures inserted { OnOk result (self.new ≡ map.insert self.old view tt) }
        ensures unless_there { OnOk result (self.new ≡ insert_new self.old view tt) }
        ensures refused { OnErr result (self.new ≡ self.old) }
    {
        self.views.insert(view)?;
        Ok(())
    }

    /// Removes a view, if it is there.
    pub(super) fn remove(&mut self, view: View)
        ensures { self.new ≡ map.remove self.old view }
    {
        self.views.remove(&view);
    }

    /// Returns whether the set has a view.
    pub(super) fn contains(&self, view: View) -> bool
        ensures { result ≡ map.contains_key self.now view }
    {
        self.views.contains(&view)
    }

    /// The views, rising.
    pub(super) fn iter(&self) -> Iter<'_, View>
        ensures { result ≡ map.keys self.now }
    {
        self.views.iter()
    }

    /// Removes the views below a view.
    pub(super) fn drop_below(&mut self, view: View)
        ensures { self.new ≡ at_or_above self.old view }
    {
        drop_lower(&mut self.views, view);
        // proof only: exposes that the views are in order
        let _count = self.views.len();
    }
}
