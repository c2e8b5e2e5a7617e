//! A run of consecutive views.

ghost use Rattle.std.specs.Prelude.{◌≡◌, ℕ, Bool, ◌<◌, ◌-◌, ◌^◌, max, nat_lt, nat_le};
ghost use Rattle.simplex_view_maps.specs.Runs.{AreIn};

use simplex_types::types::View;

/// The views from the first on and below the end.
#[derive(Clone, Copy)]
pub(super) struct Run {
    pub(super) first: View,
    pub(super) end: View,
}

/// How many views after its end a run looks for what to join: views may come out of order by this much.
pub(super) const REACH: u64 = 64;

/// Returns whether a view is above another by more than the reach.
fn is_far_above(view: View, other: View) -> bool
    ensures { result ≡ nat_lt 64 (view - other) }
{
    view.get().saturating_sub(other.get()) > REACH
}

impl Run {
    /// A run of no view.
    pub(super) fn empty() -> Run
        ensures { result.end ≡ 0 }
    {
        Run {
            first: View::zero(),
            end: View::zero(),
        }
    }

    /// Returns whether no view is in it.
    fn is_empty(self) -> bool
        ensures { result ≡ nat_le self.end self.first }
    {
        self.end <= self.first
    }

    /// Returns the run over both, if they touch. Else the first one, unless it is empty or the other lies far above:
    /// views may come a little out of order, and the newest ones are searched.
    pub(super) fn joined(self, other: Run) -> Run
        ensures { (set : ℕ → Bool) → AreIn set self.first self.end → AreIn set other.first other.end
            → AreIn set result.first result.end }
    {
        if self.is_empty() || is_far_above(other.first, self.end) {
            return other;
        }
        if self.end < other.first || other.end < self.first {
            return self;
        }
        Run {
            first: self.first.min(other.first),
            end: self.end.max(other.end),
        }
    }

    /// The part of it at or above a view.
    pub(super) fn at_or_above(self, view: View) -> Run
        ensures first { result.first ≡ max self.first view }
        ensures end { result.end ≡ self.end }
        ensures in_range { self.end < 2 ^ 64 }
    {
        Run {
            first: self.first.max(view),
            end: View::new(self.end.get()),
        }
    }

    /// The higher of a view and the last one of the run.
    pub(super) fn last_or(self, view: View) -> View
        ensures { result ≡ max (self.end - 1) view }
    {
        let last = View::new(self.end.get().saturating_sub(1));
        last.max(view)
    }
}
