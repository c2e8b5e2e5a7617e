//! Values at the tracked views, in rows sorted by view.

ghost use Rattle.std.specs.Prelude.{◌≡◌, ◌+◌, ◌-◌, ◌^◌, ◌<◌, ◌≤◌, IfOk, IfErr, IfSome, OnErr, Some, None, [], ◌∷◌, ◌==◌, is_some, option_map, nat_lt, drop, if◌then◌else◌};
ghost use Rattle.std.specs.Option.{option_copied};
ghost use Rattle.std.specs.FinMap as map;
ghost use Rattle.std.specs.Ordering.{nat_cmp};
ghost use Rattle.simplex_view_maps.specs.Tracked.{below, at_or_above, first_entry, last_entry, after_insert, IsAtMostBinaryDigits};

use crate::entries::Entries;
use crate::rows::Rows;
use simplex_types::types::{AllocFailed, View};
use std::alloc::{AllocError, Global};
use std::marker::Model;

/// A map from views to values.
///
/// The values are stored out of line, so that two words move for each entry that an insert moves.
#[derive(Drop)]
pub struct Tracked<V> {
    entries: Rows<(View, Box<V>)>,
}

impl<V> Model for Tracked<V> {
    ghost use Rattle.std.specs.Prelude.{IsTrue};
    ghost use Rattle.std.specs.FinMap as map;
    ghost use Rattle.std.specs.Ordering.{nat_cmp};
    ghost use Rattle.std.specs.Coded.{coded_ℕ};
    ghost use Rattle.simplex_view_maps.specs.Tracked.{unboxed};

    ghost Value = { map.FinMap nat_cmp V };

    ghost coded = { map.code coded_ℕ V.code };

    ghost view = { λ t. map.from_sorted (unboxed t.entries) };

    ghost invariant = { λ t. IsTrue (map.is_sorted nat_cmp (unboxed t.entries)) };
}

impl<V> Tracked<V> {
    ghost use Rattle.std.specs.Borrow.{LendsIf, sem};
    ghost use Rattle.std.specs.Option.{option_copied_mut};
    ghost use Rattle.simplex_view_maps.specs.contracts.tracked.Tracked.{the_row};

    pub fn new(alloc: Global) -> Self
        ensures { result ≡ map.empty }
    {
        Tracked {
            entries: Rows::new(alloc),
        }
    }

    pub(super) fn allocator(&self) -> Global {
        self.entries.allocator()
    }

    /// Returns whether no view is tracked.
    pub(super) fn is_empty(&self) -> bool
        ensures { result ≡ (map.len self.now == 0) }
    {
        self.len() == 0
    }

    /// How many views are tracked.
    pub fn len(&self) -> usize
        ensures { result ≡ map.len self.now }
    {
        self.entries.len()
    }

    /// Returns the place of a view, which is the number of entries below it, and how many entries the search compared
    /// with it.
    pub fn find(&self, view: View) -> (usize, usize)
        ensures place { result.0 ≡ map.len (below self.now view) }
        ensures probes { IsAtMostBinaryDigits result.1 (map.len self.now) }
    {
        if let Some(found) = self.find_in_run(view) {
            return found;
        }
        let mut low = 0;
        let mut high = self.len();
        let mut probes = 0;
        while low < high {
            let middle = low + (high - low) / 2;
            if self.is_below(middle, view, &mut probes) {
                low = middle + 1;
            } else {
                high = middle;
            }
        }
        (low, probes)
    }

    /// The same if each view from the first entry's to the last one's is there: then the first entry alone gives the
    /// place.
    fn find_in_run(&self, view: View) -> Option<(usize, usize)>
        ensures place { IfSome result (λ found. found.0 ≡ map.len (below self.now view)) }
        ensures probes { IfSome result (λ found. IsAtMostBinaryDigits found.1 (map.len self.now)) }
    {
        let count = self.len();
        let end = count.checked_sub(1)?;
        let first = self.entries[0].0;
        let last = self.entries[end].0;
        if last.get().saturating_sub(first.get()) != end as u64 {
            return None;
        }
        let mut probes = 0;
        let distance = distance(view, first, &mut probes);
        Some((distance.min(count as u64) as usize, probes))
    }

    /// Returns whether the entry at a place is below the view.
    fn is_below(&self, place: usize, view: View, probes: &mut usize) -> bool
        requires in_range { place < map.len self.now }
        requires room { probes.old < map.len self.now }
        ensures answer { result ≡ nat_lt place (map.len (below self.now view)) }
        ensures counted { probes.new ≡ probes.old + 1 }
    {
        distance(view, self.entries[place].0, probes) > 0
    }

    /// Returns whether the entry at this place is the view's.
    fn has_view_at(&self, place: usize, view: View) -> bool
        requires { place ≡ map.len (below self.now view) }
        ensures { result ≡ map.contains_key self.now view }
    {
        match self.entries.get(place) {
            Some(entry) => entry.0 == view,
            None => false,
        }
    }

    /// The number of entries at or below the view.
    fn end_of(&self, view: View) -> usize
        ensures { result ≡ map.len (below self.now (view + 1)) }
    {
        let (place, _) = self.find(view);
        if place == self.len() {
            return place;
        }
        if self.has_view_at(place, view) {
            place + 1
        } else {
            place
        }
    }

    /// The value at a view.
    pub fn get(&self, view: View) -> Option<&V>
        ensures { option_copied result ≡ map.get self.now view }
    {
        let (place, _) = self.find(view);
        if self.has_view_at(place, view) {
            Some(&*self.entries[place].1)
        } else {
            None
        }
    }

    /// The value at a view, for changes.
    pub fn get_mut(&mut self, view: View) -> Option<&mut V>
        ensures* writes_back { sem 𝓛
            (LendsIf (the_row V.row) V.row self.entry result (map.insert self.old view) self.old) }
        ensures value { option_copied_mut result ≡ map.get self.old view }
    {
        let (place, _) = self.find(view);
        if !self.has_view_at(place, view) {
            return None;
        }
        let entry = self.entries.get_mut(place)?;
        Some(&mut *entry.1)
    }

    /// Sets the value of a view that has none. Returns the value if the view has another, or if there is no memory.
    pub fn insert(&mut self, view: View, value: V) -> Result<Option<V>, AllocFailed<V>>
        ensures standing { IfOk result (λ back. back ≡ (if map.contains_key self.old view then Some value else None)) }
        ensures refused { IfErr result (λ refused. refused.value ≡ value) }
        ensures refused_only_new { OnErr result (map.get self.old view ≡ None) }
        ensures after { self.new ≡ after_insert self.old view value result }
    {
        let (place, _) = self.find(view);
        if self.has_view_at(place, view) {
            return Ok(Some(value));
        }
        let boxed = boxed(self.entries.allocator(), value)?;
        if let Err(refused) = self.entries.insert(place, (view, boxed)) {
            let (_, boxed) = refused.value;
            return Err(AllocFailed {
                value: Box::into_inner(boxed),
            });
        }
        Ok(None)
    }

    /// The entries at or above a view, by rising view.
    pub fn at_or_above(&self, view: View) -> Entries<'_, V>
        ensures { result ≡ map.entries (at_or_above self.now view) }
    {
        let (start, _) = self.find(view);
        Entries::within(&self.entries, start, self.entries.len())
    }

    /// The entries below a view, by rising view.
    pub fn below(&self, view: View) -> Entries<'_, V>
        ensures { result ≡ map.entries (below self.now view) }
    {
        let (end, _) = self.find(view);
        Entries::within(&self.entries, 0, end)
    }

    /// The entries at or below a view, by rising view.
    pub fn up_to(&self, view: View) -> Entries<'_, V>
        ensures { result ≡ map.entries (below self.now (view + 1)) }
    {
        Entries::within(&self.entries, 0, self.end_of(view))
    }

    /// The entries of the views from one view on and below another, by rising view.
    pub fn between(&self, from: View, to: View) -> Entries<'_, V>
        requires { from ≤ to }
        ensures { result ≡ map.entries (at_or_above (below self.now to) from) }
    {
        let (start, _) = self.find(from);
        let (end, _) = self.find(to);
        Entries::within(&self.entries, start, end)
    }

    /// The entries of the views from one view up to another, by rising view.
    pub fn from_to(&self, from: View, last: View) -> Entries<'_, V>
        requires { from ≤ last + 1 }
        ensures { result ≡ map.entries (at_or_above (below self.now (last + 1)) from) }
    {
        let (start, _) = self.find(from);
        Entries::within(&self.entries, start, self.end_of(last))
    }

    /// The views below a view, rising.
    pub fn views_below(&self, alloc: Global, view: View) -> Result<Vec<View>, AllocError>
        ensures { IfOk result (λ views. views.items ≡ map.keys (below self.now view)) }
    {
        let mut rest = self.below(view);
        let mut views = Vec::new(alloc);
        while let Some(entry) = rest.pop_first() {
            views.push(entry.0)?;
        }
        Ok(views)
    }

    /// The entry of the lowest view at or above a view.
    pub fn first_at(&self, view: View) -> Option<(View, &V)>
        ensures { option_map (λ entry. (entry.0, entry.1.now)) result ≡ first_entry (at_or_above self.now view) }
    {
        let mut rest = self.at_or_above(view);
        rest.pop_first()
    }

    /// The entry of the highest view at or below a view.
    pub fn last_at(&self, view: View) -> Option<(View, &V)>
        ensures { option_map (λ entry. (entry.0, entry.1.now)) result ≡ last_entry (below self.now (view + 1)) }
    {
        let mut rest = self.up_to(view);
        rest.pop_last()
    }

    /// The entry of the highest view below a view.
    pub fn last_below(&self, view: View) -> Option<(View, &V)>
        ensures { option_map (λ entry. (entry.0, entry.1.now)) result ≡ last_entry (below self.now view) }
    {
        let mut rest = self.below(view);
        rest.pop_last()
    }
}

impl<V: Drop> Tracked<V> {
    /// Removes the entries below a view.
    pub fn drop_below(&mut self, view: View)
        ensures { self.new ≡ at_or_above self.old view }
    {
        let (below, _) = self.find(view);
        drop_first(&mut self.entries, below);
    }

    /// Removes the entries at or below a view.
    pub(super) fn drop_up_to(&mut self, view: View)
        ensures { self.new ≡ at_or_above self.old (view + 1) }
    {
        let end = self.end_of(view);
        drop_first(&mut self.entries, end);
    }

    /// A map of one view, with room for no more: most never get more.
    pub(super) fn of_one(alloc: Global, view: View, value: V) -> Result<Self, AllocFailed<V>>
        ensures made { IfOk result (λ made. made ≡ map.insert map.empty view value) }
        ensures refused { IfErr result (λ refused. refused.value ≡ value) }
    {
        let Ok(entries) = Rows::with_room(alloc) else {
            return Err(AllocFailed { value });
        };
        let mut made = Tracked { entries };
        made.insert(view, value)?;
        Ok(made)
    }

    /// The value of a map of one view.
    pub(super) fn into_only(mut self) -> V
        requires { map.len self ≡ 1 }
        ensures { map.values self ≡ result ∷ [] }
    {
        let Some((_, boxed)) = self.entries.pop_front() else {
            unreachable!()
        };
        Box::into_inner(boxed)
    }

    /// Removes the entry of a view, if there is one.
    pub fn remove(&mut self, view: View)
        ensures { self.new ≡ map.remove self.old view }
    {
        let (place, _) = self.find(view);
        if self.has_view_at(place, view) {
            self.entries.remove(place);
        }
    }
}

/// The distance of a view above an entry's view: 0 if it isn't above. It is the only comparison of a search, and counts
/// itself.
fn distance(view: View, entry: View, probes: &mut usize) -> u64
    requires { probes.old + 1 < 2 ^ 64 }
    ensures distance { result ≡ view - entry }
    ensures counted { probes.new ≡ probes.old + 1 }
{
    *probes += 1;
    view.get().saturating_sub(entry.get())
}

/// Puts a value on the heap. Returns it if there is no memory.
fn boxed<V>(alloc: Global, value: V) -> Result<Box<V>, AllocFailed<V>>
    ensures holds { IfOk result (λ boxed. boxed.value ≡ value) }
    ensures refused { IfErr result (λ refused. refused.value ≡ value) }
{
    match Box::new(alloc, value) {
        Ok(boxed) => Ok(boxed),
        Err(refused) => Err(AllocFailed {
            value: refused.value,
        }),
    }
}

/// Removes the first `count` entries.
fn drop_first<V: Drop>(entries: &mut Rows<(View, Box<V>)>, count: usize)
    ensures { entries.new ≡ drop count entries.old }
{
    for _ in 0..count {
        entries.drop_front();
    }
}
