//! Values at views, in a list for each term.

ghost use Rattle.std.specs.Prelude.{◌≡◌, ◌≤◌, ◌<◌, ◌-◌, ◌+◌, ◌^◌, min, IfOk, IfErr, OnErr, Some, None, is_some, option_map, MatchOption, if◌then◌else◌};
ghost use Rattle.std.specs.Option.{option_copied};
ghost use Rattle.std.specs.FinMap as map;
ghost use Rattle.simplex_view_maps.specs.Tracked.{after_insert, at_or_above};
ghost use Rattle.simplex_types.specs.Terms.{next_term_start};
ghost use Rattle.simplex_view_maps.specs.ByTerm.{covering, covering_below, not_ended, has_covering, Gapless, IsFirstUncovered};
ghost use Rattle.simplex_view_maps.specs.Runs.{AreIn};

use crate::run::{REACH, Run};
use crate::tracked::Tracked;
use simplex_types::types::{AllocFailed, TermLength, View};
use std::alloc::Global;
use std::marker::Model;

/// A map from views to values, and how many views a term has.
#[derive(Drop)]
pub(super) struct TermTable<V> {
    term_length: TermLength,
    // the views of each term that has some, by the term's first view
    terms: Tracked<Tracked<V>>,
}

impl<V> Model for TermTable<V> {
    ghost use Rattle.simplex_view_maps.specs.ByTerm.{ByTermFacts, by_term_code};
    ghost use Rattle.simplex_view_maps.specs.TermLists.{joined, AreByTerm};

    ghost Value = { ByTermFacts V };

    ghost coded = { by_term_code V.code };

    ghost view = { λ t. record { term_length = t.term_length; by_view = joined t.terms } };

    ghost invariant = { λ t. AreByTerm t.term_length t.terms };
}

impl<V> TermTable<V> {
    pub(super) fn new(alloc: Global, term_length: TermLength) -> Self
        ensures { result ≡ record { term_length = term_length; by_view = map.empty } }
    {
        TermTable {
            term_length,
            terms: Tracked::new(alloc),
        }
    }

    /// The entry of the highest view that covers a view.
    pub(super) fn covering(&self, view: View) -> Option<(View, &V)>
        ensures { option_map (λ entry. (entry.0, entry.1.now)) result ≡ covering self.now view }
    {
        let start = view.term_start(self.term_length);
        self.terms.get(start)?.last_at(view)
    }

    /// The entry of the highest view below a view in its term.
    pub(super) fn covering_below(&self, view: View) -> Option<(View, &V)>
        ensures { option_map (λ entry. (entry.0, entry.1.now)) result ≡ covering_below self.now view }
    {
        let start = view.term_start(self.term_length);
        self.terms.get(start)?.last_below(view)
    }

    /// Returns whether a view is covered.
    fn has_covering(&self, view: View) -> bool
        ensures { result ≡ has_covering self.now view }
    {
        self.covering(view).is_some()
    }

    /// The views that an entry covers: its own, and the later ones of its term.
    pub(super) fn covered_by(&self, view: View) -> Run
        ensures first { result.first ≡ view }
        ensures end { result.end ≡ min (next_term_start self.now.term_length view) (2 ^ 64 - 1) }
    {
        Run {
            first: view,
            end: self.end_of_term(view),
        }
    }

    /// The first view after a view's term; if that isn't a number of 64 bits, the greatest view.
    pub(super) fn end_of_term(&self, view: View) -> View
        ensures end { result ≡ min (next_term_start self.now.term_length view) (2 ^ 64 - 1) }
        ensures positive { 0 < self.now.term_length }
    {
        let start = view.term_start(self.term_length);
        let views = u64::from(self.term_length.get().get());
        View::new(start.get().saturating_add(views))
    }

    /// A run extended by the views after it, within its reach, that are covered too.
    pub(super) fn grown(&self, run: Run) -> Run
        ensures first { result.first ≡ run.first }
        ensures behind { AreIn (has_covering self.now) run.end result.end }
    {
        let Some(last) = run.end.previous() else {
            return run;
        };
        let limit = View::new(run.end.get().saturating_add(REACH));
        let end = match self.first_uncovered(last, limit) {
            Some(gap) => gap,
            None => limit,
        };
        Run {
            first: run.first,
            end,
        }
    }

    /// The value at a view.
    pub(super) fn get(&self, view: View) -> Option<&V>
        ensures { option_copied result ≡ map.get self.now.by_view view }
    {
        let start = view.term_start(self.term_length);
        self.terms.get(start)?.get(view)
    }

    /// The first view strictly between two others that no view covers.
    ///
    /// It goes from term to term, by one look-up each.
    pub(super) fn first_uncovered(&self, after: View, before: View) -> Option<View>
        ensures { MatchOption result (Gapless self.now after before) (IsFirstUncovered self.now after before) }
    {
        if before <= after {
            return None;
        }
        let mut cursor = after.next();
        while cursor < before {
            if !self.has_covering(cursor) {
                return Some(cursor);
            }
            cursor = self.end_of_term(cursor);
        }
        None
    }
}

impl<V: Drop> TermTable<V> {
    /// Sets the value of a view that has none; genesis has none. Returns the value if the view has another, or if there
    /// is no memory.
    pub(super) fn insert(&mut self, view: View, value: V) -> Result<Option<V>, AllocFailed<V>>
        requires { 1 ≤ view }
        ensures standing { IfOk result
            (λ back. back ≡ (if map.contains_key self.old.by_view view then Some value else None)) }
        ensures refused { IfErr result (λ refused. refused.value ≡ value) }
        ensures refused_only_new { OnErr result (map.get self.old.by_view view ≡ None) }
        ensures after { self.new ≡ record self.old { by_view = after_insert self.old.by_view view value result } }
    {
        let start = view.term_start(self.term_length);
        if let Some(term) = self.terms.get_mut(start) {
            return term.insert(view, value);
        }
        let term = Tracked::of_one(self.terms.allocator(), view, value)?;
        match self.terms.insert(start, term) {
            Ok(_) => Ok(None),
            Err(refused) => Err(AllocFailed {
                value: refused.value.into_only(),
            }),
        }
    }

    /// Removes the terms that end at or below a view.
    pub(super) fn drop_ended(&mut self, view: View)
        ensures { self.new ≡ record self.old { by_view = not_ended self.old view } }
    {
        let views = u64::from(self.term_length.get().get());
        if view.get() < views {
            return;
        }
        let end = view.get() / views * views;
        self.terms.drop_up_to(View::new(end));
    }

    /// Removes the entries below a view.
    pub(super) fn drop_below(&mut self, view: View)
        ensures { self.new ≡ record self.old { by_view = at_or_above self.old.by_view view } }
    {
        let start = view.term_start(self.term_length);
        self.terms.drop_below(start);
        let Some(term) = self.terms.get_mut(start) else {
            return;
        };
        term.drop_below(view);
        if term.is_empty() {
            self.terms.remove(start);
        }
    }
}
