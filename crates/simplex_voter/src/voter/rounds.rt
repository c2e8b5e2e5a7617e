//! The rounds of the tracked views.

ghost use Rattle.std.specs.Prelude.{◌≡◌, ◌<◌, ◌≤◌, ◌+◌, ◌^◌, IfErr, IfSome, OnOk, OnSome, true, max, is_some, option_map, option_and_then, length};
ghost use Rattle.simplex_round.specs.Round.{after_nullify};
ghost use Rattle.std.specs.Option.{option_copied};
ghost use Rattle.simplex_types.specs.declared.types.fault.Fault.TheVariants.{OutOfMemory};
ghost use Rattle.simplex_view_maps.specs.Tracked.{at_or_above};

use simplex_round::round::Round;
use simplex_types::types;
use simplex_types::types::{CertificateScheme, Digest, Epoch, Fault, Participant, View};
use simplex_view_maps::tracked::Tracked;
use std::alloc::Global;
use std::marker::Model;

/// The moments, in milliseconds, at which an entered view times out.
#[derive(Clone, Copy)]
pub struct Deadlines {
    pub leader: u64,
    pub certification: u64,
    pub stall: Option<u64>,
}

impl Deadlines {
    /// No moment: for a view that is not entered.
    pub(super) fn none() -> Deadlines
        ensures { result ≡ record { leader = 0; certification = 0; stall = None } }
    {
        Deadlines {
            leader: 0,
            certification: 0,
            stall: None,
        }
    }
}

/// Bounds on where a search may find tracked views of certain kinds, so that it need not visit the others.
#[derive(Drop)]
pub struct Bounds {
    // no view above it is finalized or was certified true
    pub explicit: View,
    // no certification is under way below it
    pub under_way: View,
    // no other view was certified false
    pub refused: Tracked<()>,
}

impl Bounds {
    ghost use Rattle.simplex_voter.specs.Rounds.{IsWider, MayBeJudged};

    /// Bounds for no tracked view: a search finds nothing.
    pub(super) fn none(alloc: Global) -> Bounds {
        Bounds {
            explicit: View::zero(),
            under_way: View::zero(),
            refused: Tracked::new(alloc),
        }
    }

    /// Widens the bounds: the view may be finalized.
    pub(super) fn raise_finalized_bound(&mut self, view: View)
        ensures wider { IsWider self.old self.new }
        ensures explicit { view ≤ self.new.explicit }
    {
        self.explicit = self.explicit.max(view);
    }

    /// Widens the bounds: the view may have this verdict.
    pub(super) fn allow_verdict(&mut self, view: View, success: bool) -> Result<(), Fault>
        ensures wider { IsWider self.old self.new }
        ensures judged { OnOk result (MayBeJudged self.new view success) }
        ensures refused { IfErr result (λ fault. fault ≡ OutOfMemory) }
    {
        if success {
            self.raise_finalized_bound(view);
            return Ok(());
        }
        let _standing = self.refused.insert(view, ())?;
        Ok(())
    }

    /// Widens the bounds: a certification may be under way at the view.
    pub(super) fn allow_certification(&mut self, view: View)
        ensures wider { IsWider self.old self.new }
        ensures under_way { self.new.under_way ≤ view }
    {
        self.under_way = self.under_way.min(view);
    }

    /// Narrows the bounds: no certification is under way at or below the view.
    pub(super) fn end_certifications(&mut self, view: View)
        requires { view < 2 ^ 63 }
        ensures { self.new ≡ record self.old { under_way = max self.old.under_way (view + 1) } }
    {
        self.under_way = self.under_way.max(view.next());
    }

    /// Narrows the bounds: no view below this one is searched for any more.
    pub(super) fn drop_below(&mut self, view: View)
        ensures { self.new ≡ record self.old { refused = at_or_above self.old.refused view } }
    {
        self.refused.drop_below(view);
    }
}

/// The rounds of the tracked views: each is this member's, among its members and in its epoch.
///
/// Contracts see them as the record `RoundsFacts`. No view above 2^63 + 2^33 is tracked, only views up to 2^63 - 1 are
/// notarized, and each leader is a member. Bounds are stored of what a search may find, so that it need not visit all
/// rounds.
#[derive(Drop)]
pub struct Rounds<S: CertificateScheme, D> {
    pub(super) alloc: Global,
    // signs as the member whose rounds these are; each round has a copy
    scheme: S,
    epoch: Epoch,
    pub(super) by_view: Tracked<Round<S, D>>,
    pub(super) bounds: Bounds,
}

impl<S: CertificateScheme, D> Model for Rounds<S, D> {
    ghost use Rattle.simplex_voter.specs.Rounds.{RoundsFacts, AreKept};

    ghost Value = { RoundsFacts S.PublicKey D };

    ghost use Rattle.simplex_voter.specs.RoundsView.{rounds_view};

    ghost view = { rounds_view S.me S.participants };

    ghost invariant = { λ r. AreKept r.bounds (rounds_view S.me S.participants r) };
}

impl<S: CertificateScheme, D: Digest> Rounds<S, D> {
    ghost use Rattle.simplex_voter.specs.Rounds.{no_rounds, find_round, round_in, put_round, with_change, rounds_with_leader, rounds_with_leader_of, with_entry, largest_tracked, HasSameOrigin};

    /// No view is tracked.
    pub(super) fn new(alloc: Global, scheme: S, epoch: Epoch) -> Rounds<S, D>
        ensures { result ≡ no_rounds (S.me scheme) (S.participants scheme) epoch }
    {
        Rounds {
            alloc,
            scheme,
            epoch,
            by_view: Tracked::new(alloc),
            bounds: Bounds::none(alloc),
        }
    }

    /// The scheme by which this member signs.
    pub(super) fn scheme(&self) -> &S
        ensures me { S.me result.now ≡ self.now.me }
        ensures members { S.participants result.now ≡ self.now.members }
    {
        &self.scheme
    }

    /// The epoch of all rounds.
    pub(super) fn epoch(&self) -> Epoch
        ensures { result ≡ self.now.epoch }
    {
        self.epoch
    }

    /// The round of a tracked view.
    pub(super) fn get(&self, view: View) -> Option<&Round<S, D>>
        ensures round { option_copied result ≡ find_round self.now view }
        ensures in_range { OnSome result (view ≤ largest_tracked) }
    {
        self.by_view.get(view)
    }

    /// Tracks a view from now on.
    pub(super) fn track(&mut self, view: View) -> Result<(), Fault>
        requires { view ≤ largest_tracked }
        ensures tracked { OnOk result (self.new ≡ put_round self.old view (round_in self.old view)) }
        ensures refused { IfErr result (λ fault. (fault ≡ OutOfMemory) × (self.new ≡ self.old)) }
        ensures origin { HasSameOrigin self.old self.new }
    {
        if self.by_view.get(view).is_some() {
            return Ok(());
        }
        let round = types::Round {
            epoch: self.epoch,
            view,
        };
        let fresh = Round::new(self.scheme.copy(self.alloc)?, round);
        let _standing = self.by_view.insert(view, fresh)?;
        Ok(())
    }

    /// Sets the leader of a view that has none.
    pub(super) fn lead(&mut self, view: View, leader: Participant) -> Result<(), Fault>
        requires in_range { view ≤ largest_tracked }
        requires member { leader < length self.old.members }
        ensures led { OnOk result (self.new ≡ rounds_with_leader self.old view leader) }
        ensures refused { IfErr result (λ fault. fault ≡ OutOfMemory) }
        ensures origin { HasSameOrigin self.old self.new }
    {
        if self.has_leader(view) {
            return Ok(());
        }
        self.track(view)?;
        let Some(round) = self.by_view.get_mut(view) else {
            unreachable!()
        };
        round.set_leader(leader);
        Ok(())
    }

    /// Gives a view without a leader the leader of another view, if that is known.
    pub(super) fn inherit_leader(&mut self, from: View, to: View) -> Result<(), Fault>
        requires { to ≤ largest_tracked }
        ensures inherited { OnOk result (self.new ≡ rounds_with_leader_of self.old from to) }
        ensures refused { IfErr result (λ fault. fault ≡ OutOfMemory) }
        ensures origin { HasSameOrigin self.old self.new }
    {
        if self.has_leader(to) {
            return Ok(());
        }
        let Some(leader) = self.leader(from) else {
            return Ok(());
        };
        self.lead(to, leader)
    }

    /// The index of the leader of a view, once it is known.
    fn leader(&self, view: View) -> Option<Participant>
        ensures leader { result ≡ option_map (λ l. l.idx) (round_in self.now view).leader }
        ensures member { IfSome result (λ leader. leader < length self.now.members) }
    {
        // proof only: exposes that leaders are members
        let _rounds = &self.by_view;
        let leader = self.get(view)?.leader()?;
        Some(leader.idx)
    }

    /// The view after a notarized one.
    pub(super) fn after_notarized(&self, view: View) -> View
        requires { is_some (option_and_then (λ r. r.notarization) (find_round self.now view)) ≡ true }
        ensures next { result ≡ view + 1 }
        ensures in_range { view < 2 ^ 63 }
    {
        match self.by_view.get(view) {
            Some(_) => view.next(),
            None => unreachable!(),
        }
    }

    /// Returns whether the leader of the view is set.
    fn has_leader(&self, view: View) -> bool
        ensures { result ≡ is_some (round_in self.now view).leader }
    {
        match self.get(view) {
            Some(round) => round.leader().is_some(),
            None => false,
        }
    }

    /// Records the first entry of a view, and arms its deadlines.
    pub(super) fn enter_view(
        &mut self,
        view: View,
        now: u64,
        deadlines: &Deadlines,
    ) -> Result<(), Fault>
        requires { view ≤ largest_tracked }
        ensures entered { OnOk result (self.new ≡ with_change self.old view (λ r. with_entry r now deadlines.now)) }
        ensures refused { IfErr result (λ fault. fault ≡ OutOfMemory) }
        ensures origin { HasSameOrigin self.old self.new }
    {
        self.track(view)?;
        let Some(round) = self.by_view.get_mut(view) else {
            unreachable!()
        };
        round.mark_entered(now);
        round.set_deadlines(deadlines.leader, deadlines.certification, deadlines.stall);
        Ok(())
    }

    /// Decides the vote to nullify a view, unless the vote to finalize it was decided.
    pub(super) fn decide_nullify(&mut self, view: View) -> Result<(), Fault>
        requires { view ≤ largest_tracked }
        ensures decided { OnOk result (self.new ≡ with_change self.old view after_nullify) }
        ensures refused { IfErr result (λ fault. fault ≡ OutOfMemory) }
        ensures origin { HasSameOrigin self.old self.new }
    {
        self.track(view)?;
        let Some(round) = self.by_view.get_mut(view) else {
            unreachable!()
        };
        let _retry = round.construct_nullify();
        Ok(())
    }
}
