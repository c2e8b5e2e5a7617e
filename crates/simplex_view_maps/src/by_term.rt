//! Values at views, stored by the terms of the views, with a run of views that a search for a gap skips.

ghost use Rattle.std.specs.Prelude.{◌≡◌, ◌≤◌, ◌<◌, ◌+◌, ◌^◌, IfOk, IfErr, OnErr, Some, None, option_map, MatchOption, if◌then◌else◌};
ghost use Rattle.std.specs.Option.{option_copied};
ghost use Rattle.std.specs.FinMap as map;
ghost use Rattle.simplex_view_maps.specs.Tracked.{after_insert, at_or_above};
ghost use Rattle.simplex_view_maps.specs.ByTerm.{covering, covering_below, not_ended, Gapless, IsFirstUncovered};

use crate::run::Run;
use crate::term_table::TermTable;
use simplex_types::types::{AllocFailed, TermLength, View};
use std::alloc::Global;
use std::marker::Model;

/// A map from views to values that finds quickly whether its views cover another, and where a gap is.
#[derive(Drop)]
pub struct ByTerm<V> {
    table: TermTable<V>,
    // each of its views is covered
    run: Run,
}

impl<V> Model for ByTerm<V> {
    ghost use Rattle.simplex_view_maps.specs.ByTerm.{ByTermFacts, by_term_code, has_covering};
    ghost use Rattle.simplex_view_maps.specs.Runs.{AreIn};

    ghost Value = { ByTermFacts V };

    ghost coded = { by_term_code V.code };

    ghost view = { λ t. t.table };

    ghost invariant = { λ t. AreIn (has_covering t.table) t.run.first t.run.end };
}

impl<V> ByTerm<V> {
    pub fn new(alloc: Global, term_length: TermLength) -> Self
        ensures { result ≡ record { term_length = term_length; by_view = map.empty } }
    {
        ByTerm {
            table: TermTable::new(alloc, term_length),
            run: Run::empty(),
        }
    }

    /// The entry of the highest view that covers a view.
    pub fn covering(&self, view: View) -> Option<(View, &V)>
        ensures { option_map (λ entry. (entry.0, entry.1.now)) result ≡ covering self.now view }
    {
        self.table.covering(view)
    }

    /// The entry of the highest view below a view in its term.
    pub fn covering_below(&self, view: View) -> Option<(View, &V)>
        ensures { option_map (λ entry. (entry.0, entry.1.now)) result ≡ covering_below self.now view }
    {
        self.table.covering_below(view)
    }

    /// The value at a view.
    pub fn get(&self, view: View) -> Option<&V>
        ensures { option_copied result ≡ map.get self.now.by_view view }
    {
        self.table.get(view)
    }

    /// The first view strictly between two others that no view covers.
    ///
    /// It looks at the terms before the run and after it.
    pub fn first_uncovered(&self, after: View, before: View) -> Option<View>
        ensures { MatchOption result (Gapless self.now after before) (IsFirstUncovered self.now after before) }
    {
        let gap = self
            .table
            .first_uncovered(after, before.min(self.run.first));
        if gap.is_some() {
            return gap;
        }
        self.table.first_uncovered(self.run.last_or(after), before)
    }
}

impl<V: Drop> ByTerm<V> {
    /// Sets the value of a view that has none; genesis has none. Returns the value if the view has another, or if there
    /// is no memory.
    pub fn insert(&mut self, view: View, value: V) -> Result<Option<V>, AllocFailed<V>>
        requires { 1 ≤ view }
        ensures standing { IfOk result
            (λ back. back ≡ (if map.contains_key self.old.by_view view then Some value else None)) }
        ensures refused { IfErr result (λ refused. refused.value ≡ value) }
        ensures refused_only_new { OnErr result (map.get self.old.by_view view ≡ None) }
        ensures after { self.new ≡ record self.old { by_view = after_insert self.old.by_view view value result } }
    {
        let back = self.table.insert(view, value)?;
        let run = self.run.joined(self.table.covered_by(view));
        self.run = self.table.grown(run);
        Ok(back)
    }

    /// Removes the terms that end at or below a view.
    pub fn drop_ended(&mut self, view: View)
        ensures { self.new ≡ record self.old { by_view = not_ended self.old view } }
    {
        self.table.drop_ended(view);
        self.run = self.run.at_or_above(self.table.end_of_term(view));
    }

    /// Removes the entries below a view.
    pub fn drop_below(&mut self, view: View)
        ensures { self.new ≡ record self.old { by_view = at_or_above self.old.by_view view } }
    {
        self.table.drop_below(view);
        self.run = self.run.at_or_above(self.table.end_of_term(view));
    }
}
