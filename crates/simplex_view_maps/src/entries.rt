//! The entries of a range of views, taken one at a time from either end.

ghost use Rattle.std.specs.Prelude.{◌≡◌, [], ◌∷◌, ◌++◌, MatchOption};

use crate::rows::Rows;
use simplex_types::types::View;
use std::marker::Model;

/// The entries that remain, by rising view.
#[derive(Drop)]
pub struct Entries<'a, V> {
    rows: &'a Rows<(View, Box<V>)>,
    // the places from the first remaining entry to past the last
    start: usize,
    end: usize,
}

impl<'a, V> Model for Entries<'a, V> {
    ghost use Rattle.std.specs.Prelude.{ℕ, List, ◌≤◌, length, take, drop};
    ghost use Rattle.std.specs.Coded.{coded_ℕ, coded_list, coded×};
    ghost use Rattle.simplex_view_maps.specs.Tracked.{unboxed};

    ghost Value = { List (ℕ × V) };

    ghost coded = { coded_list (coded× coded_ℕ V.code) };

    ghost view = { λ e. drop e.start (take e.end (unboxed e.rows.now)) };

    ghost invariant = { λ e. (e.start ≤ e.end) × (e.end ≤ length e.rows.now) };
}

impl<'a, V> Entries<'a, V> {
    ghost use Rattle.std.specs.Prelude.{◌≤◌, length, take, drop};
    ghost use Rattle.simplex_view_maps.specs.Tracked.{unboxed};

    /// The entries from one place on and before another.
    pub(super) fn within(rows: &'a Rows<(View, Box<V>)>, start: usize, end: usize) -> Self
        requires { (start ≤ end) × (end ≤ length rows.now) }
        ensures { result ≡ drop start (take end (unboxed rows.now)) }
    {
        Entries { rows, start, end }
    }

    /// Takes the remaining entry of the lowest view.
    pub fn pop_first(&mut self) -> Option<(View, &'a V)>
        ensures { MatchOption result ((self.old ≡ []) × (self.new ≡ []))
            (λ entry. self.old ≡ (entry.0, entry.1.now) ∷ self.new) }
    {
        if self.start == self.end {
            return None;
        }
        let entry = &self.rows[self.start];
        self.start += 1;
        Some((entry.0, &*entry.1))
    }

    /// Takes the remaining entry of the highest view.
    pub fn pop_last(&mut self) -> Option<(View, &'a V)>
        ensures { MatchOption result ((self.old ≡ []) × (self.new ≡ []))
            (λ entry. self.old ≡ self.new ++ (entry.0, entry.1.now) ∷ []) }
    {
        if self.start == self.end {
            return None;
        }
        self.end -= 1;
        let entry = &self.rows[self.end];
        Some((entry.0, &*entry.1))
    }
}
