//! Which views may be voted for, and which messages are accepted.

ghost use Rattle.std.specs.Prelude.{◌≡◌, ◌↔◌, ◌≤◌, ◌^◌, ◌-◌, IsTrue};
ghost use Rattle.simplex_types.specs.Terms.{HasTerm};
ghost use Rattle.simplex_types.specs.Window.{issuance_floor, AdmitsOutbound, AdmitsCertificate, AdmitsVote};

use crate::types::numbers::{TermLength, View, ViewDelta};

/// How an elector divides the views into terms, and how far members run ahead inside one.
#[derive(Clone, Copy, PartialEq, Eq, Debug)]
pub struct Terms {
    /// How many views one leader leads.
    pub term_length: TermLength,
    /// How many views above the current one may be voted for inside its term.
    pub optimistic_views: u64,
    /// The milliseconds from the entry of the lowest unfinalized view of a term until the term counts as stalled.
    pub stall_timeout: Option<u64>,
}

impl Terms {
    /// How far ahead of the current view a member of these terms may vote.
    pub fn lookahead(&self) -> Lookahead
        ensures { result ≡ record { term_length = self.now.term_length; optimistic_views = self.now.optimistic_views } }
    {
        Lookahead {
            term_length: self.term_length,
            optimistic_views: self.optimistic_views,
        }
    }
}

/// How far ahead of the current view a member may issue votes.
#[derive(Clone, Copy, PartialEq, Eq, Debug)]
pub struct Lookahead {
    pub term_length: TermLength,
    pub optimistic_views: u64,
}

impl Lookahead {
    /// The lowest view whose certificate opens the window of a view for optimistic votes.
    ///
    /// `None` for genesis, for the first view of a term, and if no view is voted for ahead.
    pub fn issuance_floor(&self, view: View) -> Option<View>
        ensures { result ≡ issuance_floor self.now.term_length self.now.optimistic_views view }
    {
        if view.is_zero() || self.optimistic_views == 0 {
            return None;
        }
        let start = view.term_start(self.term_length);
        if view == start {
            return None;
        }
        let before_term = start.get().saturating_sub(1);
        let before_window = view
            .get()
            .saturating_sub(1)
            .saturating_sub(self.optimistic_views);
        Some(View::new(before_term.max(before_window)))
    }

    /// Returns whether a member whose current view is `current` may send a vote for `view`.
    ///
    /// It may at or below the current view, `optimistic_views` ahead inside the current term, and at the next term's
    /// start if that is one view ahead or no more than `optimistic_views`.
    pub fn admits_outbound(&self, current: View, view: View) -> bool
        ensures { IsTrue result ↔ AdmitsOutbound self.now.term_length self.now.optimistic_views current view }
    {
        if view <= current {
            return !view.is_zero();
        }
        let ahead = view.get().saturating_sub(current.get());
        // no term's end, since that may lie above 2^64 - 1
        let start = current.term_start(self.term_length);
        let place = view.get().saturating_sub(start.get());
        let length = u64::from(self.term_length.get().get());
        if place < length {
            return ahead <= self.optimistic_views;
        }
        place == length && ahead <= self.optimistic_views.max(1)
    }
}

/// Which views a member retains, and which messages it accepts, at its current and last finalized view.
#[derive(Clone, Copy, PartialEq, Eq, Debug)]
pub struct Viewport {
    pub finalized: View,
    pub current: View,
    pub view_retention: ViewDelta,
    pub lookahead: Lookahead,
}

impl Viewport {
    /// The lowest retained view: the retention below the last finalized one, and not below 0.
    pub fn floor(&self) -> View
        ensures { result ≡ self.now.finalized - self.now.view_retention }
    {
        View::new(
            self.finalized
                .get()
                .saturating_sub(self.view_retention.get()),
        )
    }

    /// Returns whether a certificate of the view is accepted: the view is retained and is not genesis.
    pub fn admits_certificate(&self, view: View) -> bool
        ensures { IsTrue result ↔ AdmitsCertificate self.now view }
    {
        !view.is_zero() && self.floor() <= view
    }

    /// Returns whether a vote for the view is accepted: the view is retained, and not above the next term's start.
    pub fn admits_vote(&self, view: View) -> bool
        requires { HasTerm self.now.current }
        ensures { IsTrue result ↔ AdmitsVote self.now view }
    {
        let last = self.current.next_term_start(self.lookahead.term_length);
        self.admits_certificate(view) && view <= last
    }
}
