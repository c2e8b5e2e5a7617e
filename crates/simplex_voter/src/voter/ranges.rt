//! The tracked views of a range: searches over them, and dropping them.

ghost use Rattle.std.specs.Prelude.{◌≡◌, ◌≤◌, ◌<◌, ◌+◌, ◌^◌, ◌&&◌, IfErr, IfOk, true, false, max, filter, nat_le, nat_lt, map as map_list, if◌then◌else◌};
ghost use Rattle.std.specs.List.{list_any};
ghost use Rattle.std.specs.Option.{option_map_or};
ghost use Rattle.std.specs.FinMap as map;
ghost use Rattle.simplex_types.specs.declared.types.fault.Fault.TheVariants.{OutOfMemory};
ghost use Rattle.simplex_round.specs.Round.{is_judged};
ghost use Rattle.simplex_voter.specs.Windows.{is_notarized};
ghost use Rattle.simplex_voter.specs.Certification.{without_token};
ghost use Rattle.simplex_voter.specs.Rounds.{IsQuietBelow, is_refused_above};

use super::rounds::Rounds;
use simplex_round::round::{Certification, Round};
use simplex_types::types::{CertificateScheme, Digest, Fault, View};
use simplex_view_maps::entries::Entries;
use simplex_view_maps::tracked::Tracked;

/// Returns whether one of the rounds is notarized or finalized.
fn has_notarized<S: CertificateScheme, D: Digest>(mut entries: Entries<'_, Round<S, D>>) -> bool
    ensures { result ≡ list_any (λ e. is_notarized e.1) entries.entry }
{
    while let Some(entry) = entries.pop_first() {
        if entry.1.is_directly_notarized() {
            return true;
        }
    }
    false
}

/// Returns whether the round was certified false.
fn was_refused<S: CertificateScheme, D: Digest>(round: &Round<S, D>) -> bool
    ensures { result ≡ is_judged false round.now.certification }
{
    match round.certification() {
        Certification::Judged(verdict) => !verdict,
        Certification::Ready | Certification::Outstanding(_) | Certification::Aborted => false,
    }
}

/// Returns whether the view is above another, and tracked with a round that was certified false.
fn was_refused_above<S: CertificateScheme, D: Digest>(
    rounds: &Tracked<Round<S, D>>,
    view: View,
    above: View,
) -> bool
    ensures { result ≡ is_refused_above rounds.now above view }
{
    if view <= above {
        return false;
    }
    match rounds.get(view) {
        Some(round) => was_refused(round),
        None => false,
    }
}

/// The later of two views.
fn later(view: View, other: View) -> View
    ensures { result ≡ max view other }
{
    view.max(other)
}

/// Returns whether a round of one of the views, above another, was certified false.
fn has_refused<S: CertificateScheme, D: Digest>(
    rounds: &Tracked<Round<S, D>>,
    mut views: Entries<'_, ()>,
    above: View,
) -> bool
    ensures { result ≡ list_any (λ e. is_refused_above rounds.now above e.0) views.entry }
{
    while let Some(entry) = views.pop_first() {
        if was_refused_above(rounds, entry.0, above) {
            return true;
        }
    }
    false
}

/// Ends the certifications that are under way at or below a view; `from` is a view below which none is.
fn end_certifications<S: CertificateScheme, D: Digest>(
    rounds: &mut Tracked<Round<S, D>>,
    from: View,
    view: View,
)
    requires in_range { view < 2 ^ 63 }
    requires quiet { IsQuietBelow rounds.old from }
    ensures { map.entries rounds.new ≡ map_list (λ e. (e.0, if nat_le e.0 view then without_token e.1 else e.1))
        (map.entries rounds.old) }
{
    let mut next = from.min(view);
    while let Some(entry) = rounds.first_at(next) {
        let at = entry.0;
        if at > view {
            break;
        }
        end_certification(rounds, at);
        next = at.next();
    }
}

/// Ends the certification of a tracked view, if it is under way.
fn end_certification<S: CertificateScheme, D: Digest>(rounds: &mut Tracked<Round<S, D>>, view: View)
    ensures { rounds.new ≡ option_map_or (λ r. map.insert rounds.old view (without_token r))
        (map.get rounds.old view) rounds.old }
{
    let Some(round) = rounds.get_mut(view) else {
        return;
    };
    if round.certify_token().is_none() {
        return;
    }
    round.abort_certify();
}

impl<S: CertificateScheme, D: Digest> Rounds<S, D> {
    ghost use Rattle.std.specs.Ordering.{nat_cmp};
    ghost use Rattle.std.specs.FinMap.Entries.{is_sorted};
    ghost use Rattle.simplex_voter.specs.Rounds.{is_refused_between, AreDownFrom};

    /// The rounds of the tracked views below a view, by rising view, without those above each one that is finalized or
    /// was certified true.
    pub(super) fn down_from(&self, view: View) -> Entries<'_, Round<S, D>>
        ensures { AreDownFrom self.now view result }
    {
        if self.bounds.explicit < view {
            self.by_view.up_to(self.bounds.explicit)
        } else {
            self.by_view.below(view)
        }
    }

    /// The rounds of the tracked views at or above a view, by rising view.
    pub(super) fn at_or_above(&self, view: View) -> Entries<'_, Round<S, D>>
        ensures above { result ≡ filter (λ e. nat_le view e.0) self.now.by_view }
        ensures ordered { is_sorted nat_cmp self.now.by_view ≡ true }
    {
        self.by_view.at_or_above(view)
    }

    /// The rounds of the tracked views from one view to another, by rising view.
    pub(super) fn within(&self, low: View, high: View) -> Entries<'_, Round<S, D>>
        requires { (low ≤ high + 1) × (high + 1 < 2 ^ 64) }
        ensures within { result ≡ filter (λ e. nat_le low e.0 && nat_le e.0 high) self.now.by_view }
        ensures ordered { is_sorted nat_cmp self.now.by_view ≡ true }
    {
        self.by_view.between(low, high.next())
    }

    /// Returns whether a view at or above `from` and below `to` is notarized or finalized.
    pub(super) fn has_notarized_between(&self, from: View, to: View) -> bool
        requires { from ≤ to }
        ensures { result ≡ list_any (λ e. nat_le from e.0 && nat_lt e.0 to && is_notarized e.1) self.now.by_view }
    {
        has_notarized(self.by_view.between(from, to))
    }

    /// Returns whether a view above `above`, from `from` on and up to `last`, was certified false.
    pub(super) fn has_refused_between(&self, above: View, from: View, last: View) -> bool
        requires { from ≤ last + 1 }
        ensures { result ≡ list_any (is_refused_between above from last) self.now.by_view }
    {
        if last < above {
            return false;
        }
        let views = self.bounds.refused.from_to(later(from, above), last);
        has_refused(&self.by_view, views, above)
    }

    /// Ends the certifications that are under way at or below a view.
    pub(super) fn end_certifications(&mut self, view: View)
        requires { view < 2 ^ 63 }
        ensures { self.new ≡ record
            self.old {
              by_view = map_list (λ e. (e.0, if nat_le e.0 view then without_token e.1 else e.1))
                  self.old.by_view;
            } }
    {
        end_certifications(&mut self.by_view, self.bounds.under_way, view);
        self.bounds.end_certifications(view);
    }

    /// The tracked views below a view, rising.
    pub(super) fn views_below(&self, view: View) -> Result<Vec<View>, Fault>
        ensures views { IfOk result
            (λ views. views.items ≡ map_list (λ e. e.0) (filter (λ e. nat_lt e.0 view) self.now.by_view)) }
        ensures refused { IfErr result (λ fault. fault ≡ OutOfMemory) }
    {
        Ok(self.by_view.views_below(self.alloc, view)?)
    }

    /// Drops the rounds of the views below a view.
    pub(super) fn drop_below(&mut self, view: View)
        ensures { self.new ≡ record self.old { by_view = filter (λ e. nat_le view e.0) self.old.by_view } }
    {
        self.by_view.drop_below(view);
        self.bounds.drop_below(view);
    }
}
