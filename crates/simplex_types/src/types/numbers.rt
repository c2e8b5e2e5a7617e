//! The numbers in messages: views and their terms, epochs, members and counts of views.

ghost use Rattle.std.specs.Range.{range_inclusive_start, range_inclusive_end, range_inclusive_exhausted};
ghost use Rattle.std.specs.Prelude.{◌≡◌, false, ◌+◌, ◌-◌, ◌^◌, ◌<◌, ◌≤◌, ◌↔◌, IsTrue, IsSome, SomeIff};
ghost use Rattle.simplex_types.specs.Terms.{term_index, term_start, term_end, next_term_start, HasTerm};
ghost use Rattle.simplex_types.specs.CoveringLaws.{CoveringLaws};

use std::marker::Model;
use std::num::NonZeroU32;
use std::ops::RangeInclusive;

/// No certificate, proposal or artifact may name a view above this one.
pub const LARGEST_VIEW: u64 = (1 << 63) - 1;

/// A view: 0 is genesis, and the views from 1 on are grouped into terms.
#[derive(Clone, Copy, PartialEq, Eq, PartialOrd, Ord, Debug)]
pub struct View {
    number: u64,
}

impl Model for View {
    ghost use Rattle.std.specs.Prelude.{ℕ, ◌<◌, ◌^◌};

    ghost Value = { ℕ };

    ghost view = { λ v. v.number };

    ghost invariant = { λ v. v.number < 2 ^ 64 };

    ghost inverse = { λ n. record { number = n } };
}

/// How many views a term has: at least one.
#[derive(Clone, Copy, PartialEq, Eq, Debug)]
pub struct TermLength {
    views: u32,
}

impl Model for TermLength {
    ghost use Rattle.std.specs.Prelude.{ℕ, ◌<◌, ◌^◌};

    ghost Value = { ℕ };

    ghost view = { λ t. t.views };

    ghost invariant = { λ t. (0 < t.views) × (t.views < 2 ^ 32) };

    ghost inverse = { λ n. record { views = n } };
}

impl TermLength {
    /// Terms of one view each.
    pub const ONE: TermLength = TermLength { views: 1 };

    /// Terms of this many views.
    pub fn new(views: NonZeroU32) -> TermLength
        ensures { result ≡ views.value }
    {
        TermLength { views: views.get() }
    }

    /// The number of views.
    pub fn get(self) -> NonZeroU32
        ensures value { result.value ≡ self }
        ensures positive { 0 < self }
        ensures in_range { self < 2 ^ 32 }
    {
        let views = self.views;
        match NonZeroU32::new(views) {
            Some(count) => count,
            None => unreachable!(),
        }
    }
}

impl View {
    /// The view of a number.
    pub fn new(number: u64) -> View
        ensures { result ≡ number }
    {
        View { number }
    }

    /// Genesis.
    pub fn zero() -> View
        ensures { result ≡ 0 }
    {
        View { number: 0 }
    }

    /// The view's number.
    pub fn get(self) -> u64
        ensures { result ≡ self }
    {
        self.number
    }

    /// Returns whether this is genesis.
    pub fn is_zero(self) -> bool
        ensures { IsTrue result ↔ (self ≡ 0) }
    {
        self.number == 0
    }

    /// The view after this one, which must be below 2^64 - 1.
    pub fn next(self) -> View
        requires { self + 1 < 2 ^ 64 }
        ensures { result ≡ self + 1 }
    {
        View {
            number: self.number + 1,
        }
    }

    /// The view before this one; genesis has none.
    pub fn previous(self) -> Option<View>
        ensures { SomeIff result (0 < self) (self - 1) }
    {
        let number = self.number.checked_sub(1)?;
        Some(View { number })
    }

    /// The number of the view's term, from 0. Genesis counts as part of the first.
    pub fn term_index(self, length: TermLength) -> u64
        ensures { result ≡ term_index length self }
    {
        self.number.saturating_sub(1) / u64::from(length.views)
    }

    /// The first view of the view's term; of the first term for genesis.
    pub fn term_start(self, length: TermLength) -> View
        ensures { result ≡ term_start length self }
    {
        let index = self.term_index(length);
        View {
            number: index * u64::from(length.views) + 1,
        }
    }

    /// The last view of the view's term.
    pub fn term_end(self, length: TermLength) -> View
        requires { HasTerm self }
        ensures { result ≡ term_end length self }
    {
        let start = self.term_start(length);
        View {
            number: start.number + u64::from(length.views) - 1,
        }
    }

    /// The first view of the term after the view's.
    pub fn next_term_start(self, length: TermLength) -> View
        requires { HasTerm self }
        ensures { result ≡ next_term_start length self }
    {
        let end = self.term_end(length);
        View {
            number: end.number + 1,
        }
    }

    /// The views whose nullifications cover this one: from its term's start to itself; none for genesis.
    pub fn covering_range(self, length: TermLength) -> RangeInclusive<View>
        ensures start { range_inclusive_start result ≡ term_start length self }
        ensures end { range_inclusive_end result ≡ self }
        ensures whole { range_inclusive_exhausted result ≡ false }
    {
        self.term_start(length)..=self
    }

    /// Returns whether the view is the first of its term. Genesis is not.
    pub fn is_term_start(self, length: TermLength) -> bool
        ensures { IsTrue result ↔ (self ≡ term_start length self) }
    {
        self == self.term_start(length)
    }
}

/// An epoch: one instance of the protocol runs in each, and every message names its own.
#[derive(Clone, Copy, PartialEq, Eq, PartialOrd, Ord, Debug)]
pub struct Epoch {
    number: u64,
}

impl Model for Epoch {
    ghost use Rattle.std.specs.Prelude.{ℕ, ◌<◌, ◌^◌};

    ghost Value = { ℕ };

    ghost view = { λ e. e.number };

    ghost invariant = { λ e. e.number < 2 ^ 64 };

    ghost inverse = { λ n. record { number = n } };
}

impl Epoch {
    /// The epoch of a number.
    pub fn new(number: u64) -> Epoch
        ensures { result ≡ number }
    {
        Epoch { number }
    }

    /// The epoch's number.
    pub fn get(self) -> u64
        ensures { result ≡ self }
    {
        self.number
    }
}

/// A member, by its index among the participants.
#[derive(Clone, Copy, PartialEq, Eq, PartialOrd, Ord, Debug)]
pub struct Participant {
    index: u32,
}

impl Model for Participant {
    ghost use Rattle.std.specs.Prelude.{ℕ, ◌<◌, ◌^◌};

    ghost Value = { ℕ };

    ghost view = { λ p. p.index };

    ghost invariant = { λ p. p.index < 2 ^ 32 };

    ghost inverse = { λ n. record { index = n } };
}

impl Participant {
    /// The member of an index.
    pub fn new(index: u32) -> Participant
        ensures { result ≡ index }
    {
        Participant { index }
    }

    /// The member's index.
    pub fn get(self) -> u32
        ensures { result ≡ self }
    {
        self.index
    }
}

/// One view of one epoch.
#[derive(Clone, Copy, PartialEq, Eq, Debug)]
pub struct Round {
    pub epoch: Epoch,
    pub view: View,
}

/// A number of views.
#[derive(Clone, Copy, PartialEq, Eq, PartialOrd, Ord, Debug)]
pub struct ViewDelta {
    views: u64,
}

impl Model for ViewDelta {
    ghost use Rattle.std.specs.Prelude.{ℕ, ◌<◌, ◌^◌};

    ghost Value = { ℕ };

    ghost view = { λ d. d.views };

    ghost invariant = { λ d. d.views < 2 ^ 64 };

    ghost inverse = { λ n. record { views = n } };
}

impl ViewDelta {
    /// This many views.
    pub fn new(views: u64) -> ViewDelta
        ensures { result ≡ views }
    {
        ViewDelta { views }
    }

    /// How many views.
    pub fn get(self) -> u64
        ensures { result ≡ self }
    {
        self.views
    }
}

/// The law of covering within a term: a nullification covers its own view and the rest of its term, and nothing below.
///
/// The function does nothing: its contract is the law.
pub fn covering_keeps_to_terms()
    ensures { CoveringLaws }
{}
