//! Leaders that carry over from view to view, within a window and at a handoff.

ghost use Rattle.std.specs.Prelude.{◌≡◌, ◌-◌, ◌≤◌, Some, ◌+◌, IfErr, OnOk, ◌<◌};
ghost use Rattle.std.specs.List.{range_with_len};
ghost use Rattle.simplex_types.specs.Terms.{IsVotable};
ghost use Rattle.simplex_types.specs.declared.types.fault.Fault.TheVariants.{OutOfMemory};

use super::state::State;
use simplex_types::types::{CertificateScheme, Digest, Elector, Fault, View};

/// The view before a view; genesis for genesis.
pub(super) fn before(view: View) -> View
    ensures { result ≡ view - 1 }
{
    View::new(view.get().saturating_sub(1))
}

impl<S: CertificateScheme, L: Elector<S>, D: Digest> State<S, L, D> {
    ghost use Rattle.simplex_voter.specs.Windows.{is_open, in_issuance_window};
    ghost use Rattle.simplex_voter.specs.Setup.{HasSameSetup};
    ghost use Rattle.simplex_voter.specs.Rounds.{largest_tracked};
    ghost use Rattle.simplex_voter.specs.Leaders.{with_leader_of, opened_views, with_window_leaders, with_next_view_ready};

    /// Returns whether the view may build on a parent that is not certified yet.
    #[tactic(auto, unfolding(crate::specs::Windows::in_issuance_window))]
    pub(super) fn in_issuance_window(&self, view: View) -> bool
        ensures { result ≡ in_issuance_window self.now view }
    {
        match self.elector.terms().lookahead().issuance_floor(view) {
            Some(floor) => self.is_open(view, floor),
            None => false,
        }
    }

    /// Returns whether, from the floor on and below the view, there is genesis or a notarized or finalized view.
    fn is_open(&self, view: View, floor: View) -> bool
        requires { floor ≤ view }
        ensures { result ≡ is_open self.now view (Some floor) }
    {
        if floor.is_zero() {
            return true;
        }
        self.rounds.has_notarized_between(floor, view)
    }

    /// Gives a view without a leader the leader of another view, if that is known.
    pub(super) fn inherit_leader(&mut self, from: View, to: View) -> Result<(), Fault>
        requires { to ≤ largest_tracked }
        ensures inherited { OnOk result (self.new ≡ with_leader_of self.old from to) }
        ensures refused { IfErr result (λ fault. fault ≡ OutOfMemory) }
        ensures setup { HasSameSetup self.old self.new }
    {
        self.rounds.inherit_leader(from, to)
    }

    /// Gives each view whose window a certificate of this view opens the leader of the view before it, one after the
    /// other.
    pub(super) fn slide_optimistic_frontier(&mut self, view: View) -> Result<(), Fault>
        requires { IsVotable view }
        ensures slid { OnOk result (self.new ≡ with_window_leaders self.old view) }
        ensures refused { IfErr result (λ fault. fault ≡ OutOfMemory) }
        ensures setup { HasSameSetup self.old self.new }
    {
        let last = self.last_opened(view);
        let mut from = view;
        while from < last {
            let next = from.next();
            self.inherit_leader(from, next)?;
            from = next;
        }
        Ok(())
    }

    /// The last view whose window a certificate of this view opens; this view itself if it opens none.
    fn last_opened(&self, view: View) -> View
        requires { IsVotable view }
        ensures above { view ≤ result }
        ensures in_range { result ≤ largest_tracked }
        ensures opened { opened_views self.now view ≡ range_with_len (view + 1) (result - view) }
    {
        let terms = self.elector.terms();
        if terms.optimistic_views == 0 {
            return view;
        }
        let near = view
            .get()
            .saturating_add(terms.optimistic_views)
            .saturating_add(1);
        View::new(near.min(view.term_end(terms.term_length).get()))
    }

    /// Gives the next view the leader of this one in its window; at a term's start, after a vote here, this member
    /// leads it if it is elected early.
    ///
    /// Before the view is notarized a handoff can rest on this member's own vote alone, so it waits for that. Other
    /// members learn the next leader from the certificate.
    pub(super) fn prepare_optimistic_successor(&mut self, view: View) -> Result<(), Fault>
        requires { view < largest_tracked }
        ensures prepared { OnOk result (self.new ≡ with_next_view_ready L.elect self.old view) }
        ensures refused { IfErr result (λ fault. fault ≡ OutOfMemory) }
        ensures setup { HasSameSetup self.old self.new }
    {
        let next = view.next();
        if self.in_issuance_window(next) {
            return self.inherit_leader(view, next);
        }
        if !self.has_voted_to_notarize(view) {
            return Ok(());
        }
        if !self.is_elected_early(next) {
            return Ok(());
        }
        let leader = self.early_leader(next);
        self.set_leader(next, leader)
    }
}
