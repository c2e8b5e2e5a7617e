//! The views and payloads that a view may build on; which views nullifications cover, and where they leave a gap.

ghost use Rattle.std.specs.Prelude.{◌≡◌, ◌+◌, None};
ghost use Rattle.std.specs.List.{filter_map, last_or};
ghost use Rattle.simplex_voter.specs.Parents.{is_payload, is_parent, at_view};

use super::leaders::before;
use super::state::State;
use simplex_round::round::Round;
use simplex_types::types::{CertificateScheme, Digest, Elector, Proposal, View};
use simplex_view_maps::entries::Entries;

/// A view with its payload, if it has one.
fn at_view<D: Digest>(view: View, payload: Option<D>) -> Option<(View, D)>
    ensures { result ≡ at_view view payload }
{
    Some((view, payload?))
}

/// Returns whether this payload was found.
fn is_payload<D: Digest>(found: Option<D>, payload: D) -> bool
    ensures { result ≡ is_payload D.eq found payload }
{
    match found {
        Some(other) => other == payload,
        None => false,
    }
}

/// Returns whether this view was found, with this payload.
fn is_parent<D: Digest>(found: Option<(View, D)>, parent: View, payload: D) -> bool
    ensures { result ≡ is_parent D.eq found parent payload }
{
    match found {
        Some(other) => other.0 == parent && other.1 == payload,
        None => false,
    }
}

impl<S: CertificateScheme, L: Elector<S>, D: Digest> State<S, L, D> {
    ghost use Rattle.simplex_voter.specs.Gaps.{is_covered, first_unnullified_view, is_gapless};
    ghost use Rattle.simplex_voter.specs.Payloads.{is_handoff_parent, explicit_ancestry_payload};
    ghost use Rattle.simplex_voter.specs.Parents.{ancestry_payload_for_child, has_valid_parent_span, leads, parent_payload_for, explicit_at, highest_explicit, handoff, preferred_at_start, find_parent, captured_parent_valid, holds_binding, verification_matches};

    /// Returns whether the view's term has a nullification, at the view or below.
    pub(super) fn is_covered(&self, view: View) -> bool
        ensures { result ≡ is_covered self.now view }
    {
        self.nullified.covering(view).is_some()
    }

    /// The lowest view strictly between two others that no nullification covers.
    pub(super) fn first_unnullified_view(&self, parent: View, view: View) -> Option<View>
        ensures { result ≡ first_unnullified_view self.now parent view }
    {
        // proof only: exposes that the term length is positive
        let _length = self.elector.terms().term_length.get();
        self.nullified.first_uncovered(parent, view)
    }

    /// Returns whether nullifications cover each view strictly between two others.
    pub(super) fn is_gapless(&self, parent: View, view: View) -> bool
        ensures { result ≡ is_gapless self.now parent view }
    {
        self.first_unnullified_view(parent, view).is_none()
    }

    /// Returns whether the term that the view ends may be handed over to this member; `next` is the next view. A
    /// nullification in that term shows that others have left it, and the next leader would build on what they skip.
    #[tactic(auto, unfolding(crate::specs::Payloads::is_handoff_parent))]
    pub(super) fn is_handoff_parent(&self, view: View, next: View) -> bool
        requires { next ≡ view + 1 }
        ensures { result ≡ is_handoff_parent L.elect self.now view }
    {
        self.is_elected_early(next) && !self.is_covered(view)
    }

    /// The payload that the view may build on: inside its window what the parent offers, else what is certified.
    #[tactic(auto, unfolding(crate::specs::Parents::ancestry_payload_for_child))]
    pub(super) fn ancestry_payload_for_child(&self, view: View, parent: View) -> Option<D>
        ensures { result ≡ ancestry_payload_for_child D.eq L.elect self.now view parent }
    {
        if self.in_issuance_window(view) {
            self.optimistic_ancestry_payload(parent)
        } else {
            self.explicit_ancestry_payload(parent).copied()
        }
    }

    /// Returns whether the parent is below the view, not below the last finalized one, and inside a term exactly one
    /// below. If not, that can't change for the better.
    #[tactic(auto, unfolding(crate::specs::Parents::has_valid_parent_span))]
    pub(super) fn has_valid_parent_span(&self, view: View, parent: View) -> bool
        ensures { result ≡ has_valid_parent_span self.now view parent }
    {
        parent < view
            && parent >= self.finalized
            && (parent == before(view) || self.is_term_start(view))
    }

    /// The payload with which the parent is allowed.
    #[tactic(auto, unfolding(crate::specs::Parents::parent_payload_for))]
    pub(super) fn parent_payload_for(&self, view: View, parent: View) -> Option<D>
        ensures { result ≡ parent_payload_for D.eq L.elect self.now view parent }
    {
        if !self.has_valid_parent_span(view, parent) {
            return None;
        }
        if !self.is_gapless(parent, view) {
            return None;
        }
        self.ancestry_payload_for_child(view, parent)
    }

    /// The view before a term's start, with the payload that it offers, if its term may be handed over to this member.
    fn handoff(&self, view: View) -> Option<(View, D)>
        ensures { result ≡ handoff D.eq L.elect self.now view }
    {
        let payload = self.optimistic_ancestry_payload(view)?;
        if !self.is_handoff_parent(view, view.next()) {
            return None;
        }
        Some((view, payload))
    }

    /// At a term's start the highest explicit view below; if a gap lies above that, the view before. Any lower explicit
    /// view has the same gap above it.
    fn preferred_at_start(&self, view: View) -> Option<(View, D)>
        ensures { result ≡ preferred_at_start D.eq L.elect self.now view }
    {
        let found = self.highest_explicit(view)?;
        if self.is_gapless(found.0, view) {
            return Some(found);
        }
        self.handoff(before(view))
    }

    /// The parent, with its payload, on which this member builds.
    #[tactic(auto, unfolding(crate::specs::Parents::find_parent))]
    pub(super) fn find_parent(&self, view: View) -> Option<(View, D)>
        ensures { result ≡ find_parent D.eq L.elect self.now view }
    {
        if self.is_term_start(view) {
            return self.preferred_at_start(view);
        }
        let parent = before(view);
        at_view(parent, self.ancestry_payload_for_child(view, parent))
    }

    /// Returns whether the parent is allowed, or preferred, with this payload.
    #[tactic(auto, unfolding(crate::specs::Parents::captured_parent_valid))]
    pub(super) fn captured_parent_valid(&self, view: View, parent: View, payload: D) -> bool
        ensures { result ≡ captured_parent_valid D.eq L.elect self.now view parent payload }
    {
        is_parent(self.find_parent(view), parent, payload)
            || is_payload(self.parent_payload_for(view, parent), payload)
    }

    /// The highest tracked view below with an explicit payload, else genesis.
    fn highest_explicit(&self, view: View) -> Option<(View, D)>
        ensures { result ≡ highest_explicit self.now view }
    {
        match self.last_explicit(self.rounds.down_from(view)) {
            Some(found) => Some(found),
            None => at_view(View::zero(), self.genesis),
        }
    }

    /// The last of the views that has an explicit payload.
    fn last_explicit(&self, mut entries: Entries<'_, Round<S, D>>) -> Option<(View, D)>
        ensures { result ≡ last_or None (filter_map (explicit_at self.now) entries.entry) }
    {
        while let Some(entry) = entries.pop_last() {
            let found = self.explicit_at(entry.0);
            if found.is_some() {
                return found;
            }
        }
        None
    }

    /// The view with its explicit payload, if it has one.
    fn explicit_at(&self, view: View) -> Option<(View, D)>
        ensures { result ≡ at_view view (explicit_ancestry_payload self.now view) }
    {
        Some((view, *self.explicit_ancestry_payload(view)?))
    }

    /// Returns whether this member leads the round's view.
    fn leads(&self, round: &Round<S, D>) -> bool
        ensures { result ≡ leads self.now round.now }
    {
        match round.leader() {
            Some(leader) => self.is_me(leader.idx),
            None => false,
        }
    }

    /// Returns whether the bound proposal is held, and its parent is allowed with the bound payload, or preferred if
    /// this member leads. Its own handoff builds on a parent that is preferred, but not allowed before it is certified.
    fn holds_binding(&self, view: View, round: &Round<S, D>, bound: &(Proposal<D>, D)) -> bool
        ensures { result ≡ holds_binding D.eq L.elect self.now view round.now bound.now }
    {
        let Some(proposal) = round.proposal() else {
            return false;
        };
        if *proposal != bound.0 {
            return false;
        }
        let parent = proposal.parent;
        is_payload(self.parent_payload_for(view, parent), bound.1)
            || (self.leads(round) && is_parent(self.find_parent(view), parent, bound.1))
    }

    /// Returns whether nothing is bound at the view, or its binding still holds.
    #[tactic(auto, unfolding(crate::specs::Parents::verification_matches))]
    pub(super) fn verification_matches(&self, view: View) -> bool
        ensures { result ≡ verification_matches D.eq L.elect self.now view }
    {
        let Some(round) = self.round_at(view) else {
            return true;
        };
        match round.verifying() {
            Some(bound) => self.holds_binding(view, round, bound),
            None => true,
        }
    }
}
