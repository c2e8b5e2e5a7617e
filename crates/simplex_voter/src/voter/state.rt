//! A member's state, its setup and its plain getters.

ghost use Rattle.std.specs.Prelude.{◌≡◌, ◌<◌, ◌≤◌, ◌↔◌, IsTrue, IsNone, IfSome, IfErr, OnOk, OnSome, Some, None, true, nat_lt, option_and_then, option_map, length};
ghost use Rattle.std.specs.Option.{option_copied};
ghost use Rattle.simplex_types.specs.declared.types.fault.Fault.TheVariants.{OutOfMemory};

use super::rounds::{Deadlines, Rounds};
use simplex_round::round::Round;
use simplex_types::types;
use simplex_types::types::{
    CertificateScheme, Digest, Elector, Epoch, Fault, Participant, View, ViewDelta,
};
use simplex_view_maps::by_term::ByTerm;
use simplex_view_maps::tracked::Tracked;
use std::alloc::Global;
use std::marker::Model;

/// The setup of a state. Times are milliseconds.
#[derive(Drop)]
pub struct Config<S: CertificateScheme, L: Elector<S>> {
    /// The scheme of this member.
    pub scheme: S,
    /// Chooses each view's leader. Its members are the scheme's participants.
    pub elector: L,
    /// The epoch of every message.
    pub epoch: Epoch,
    /// How many views below the last finalized one are retained.
    pub view_retention: ViewDelta,
    /// From the entry of a view until it times out without a proposal.
    pub leader_timeout: u64,
    /// From the entry of a view until it times out without its certification.
    pub certification_timeout: u64,
    /// From the first poll after a vote to nullify until the vote is repeated.
    pub timeout_retry: u64,
    /// A latched timeout counts while fewer terms than this were skipped since the last finalized view.
    pub skip_budget: u64,
}

/// A member's state over all views.
///
/// Contracts see it as the record `StateFacts`. A call that changes the state and runs out of memory leaves it failed.
/// A failed state may be called whatever a call requires of others, and each call with a result then returns `Failed`.
/// So it returns no vote.
#[derive(Drop)]
pub struct State<S: CertificateScheme, L: Elector<S>, D> {
    pub(super) alloc: Global,
    // who leads each view
    pub(super) elector: L,
    // how it was set up; see `Config`
    pub(super) view_retention: ViewDelta,
    leader_timeout: u64,
    certification_timeout: u64,
    pub(super) timeout_retry: u64,
    pub(super) skip_budget: u64,
    // the payload of genesis, if the state starts there
    pub(super) genesis: Option<D>,
    // the view that was entered last; 0 before the floor is set
    pub(super) current: View,
    // the highest view whose finalization was passed to this state
    pub(super) finalized: View,
    // the moment that the last call carried, in milliseconds
    pub(super) last_moment: u64,
    // the views that wait to be offered for certification
    pub(super) candidates: Tracked<()>,
    // the views with a nullification, passed in or replayed
    pub(super) nullified: ByTerm<()>,
    // the views that this member voted to nullify
    pub(super) nullify_votes: ByTerm<()>,
    // the rounds of the tracked views, with the scheme and the epoch
    pub(super) rounds: Rounds<S, D>,
    // a call ran out of memory
    pub(super) failed: bool,
}

impl<S: CertificateScheme, L: Elector<S>, D> Model for State<S, L, D> {
    ghost use Rattle.simplex_voter.specs.Facts.{StateFacts};

    ghost Value = { StateFacts S.PublicKey L D };

    ghost use Rattle.simplex_voter.specs.StateView.{state_view, IsStateKept};

    ghost view = { state_view L.terms L.elects_early };

    ghost invariant = { IsStateKept L.terms L.members };
}

impl<S: CertificateScheme, L: Elector<S>, D: Digest> State<S, L, D> {
    ghost use Rattle.simplex_voter.specs.Facts.{new_facts, round_at, round_number};
    ghost use Rattle.simplex_voter.specs.StateView.{settings_of, largest_current};
    ghost use Rattle.simplex_voter.specs.Rounds.{largest_tracked};
    ghost use Rattle.simplex_voter.specs.Setup.{HasSameSetup, deadlines_at};
    ghost use Rattle.simplex_voter.specs.Refusals.{has_late_deadline, enters_late};
    ghost use Rattle.simplex_voter.specs.ViewEntry.{at_moment, with_view_entered};
    ghost use Rattle.simplex_voter.specs.Leaders.{with_leader_at, with_elected_leader};

    /// Returns a state without a floor: nothing is known, and no view is entered.
    pub fn new(alloc: Global, config: Config<S, L>) -> State<S, L, D>
        requires { L.members config.elector ≡ length (S.participants config.scheme) }
        ensures { result ≡ new_facts (settings_of config) (S.me config.scheme) (S.participants config.scheme)
            config.elector (L.terms config.elector) (L.elects_early config.elector) }
    {
        let term_length = config.elector.terms().term_length;
        State {
            alloc,
            elector: config.elector,
            view_retention: config.view_retention,
            leader_timeout: config.leader_timeout,
            certification_timeout: config.certification_timeout,
            timeout_retry: config.timeout_retry,
            skip_budget: config.skip_budget,
            genesis: None,
            current: View::zero(),
            finalized: View::zero(),
            last_moment: 0,
            candidates: Tracked::new(alloc),
            nullified: ByTerm::new(alloc, term_length),
            nullify_votes: ByTerm::new(alloc, term_length),
            rounds: Rounds::new(alloc, config.scheme, config.epoch),
            failed: false,
        }
    }

    /// The view in this epoch.
    pub(super) fn round_number(&self, view: View) -> types::Round
        ensures { result ≡ round_number self.now view }
    {
        types::Round {
            epoch: self.epoch(),
            view,
        }
    }

    /// The round of a tracked view.
    pub(super) fn round_at(&self, view: View) -> Option<&Round<S, D>>
        ensures round { option_copied result ≡ round_at self.now view }
        ensures in_range { OnSome result (view ≤ largest_tracked) }
    {
        self.rounds.get(view)
    }

    /// The deadlines of a view that is entered at a moment; `None` if one passes 2^64 - 1.
    pub(super) fn deadlines(&self, now: u64) -> Option<Deadlines>
        ensures late { IsNone result ↔ IsTrue (has_late_deadline self.now now) }
        ensures moments { IfSome result (λ deadlines. deadlines ≡ deadlines_at self.now now) }
    {
        let (Some(leader), Some(certification)) = (
            now.checked_add(self.leader_timeout),
            now.checked_add(self.certification_timeout),
        ) else {
            return None;
        };
        let stall = match self.elector.terms().stall_timeout {
            Some(timeout) => Some(now.checked_add(timeout)?),
            None => None,
        };
        Some(Deadlines {
            leader,
            certification,
            stall,
        })
    }

    /// The deadlines of a view that may be entered at a moment; `None` if it is ahead and one passes 2^64 - 1.
    pub(super) fn deadlines_to(&self, view: View, now: u64) -> Option<Deadlines>
        ensures late { IsNone result ↔ IsTrue (enters_late self.now view now) }
        ensures moments { IfSome result
            (λ deadlines. nat_lt self.now.current view ≡ true → deadlines ≡ deadlines_at self.now now) }
    {
        if view <= self.current {
            return Some(Deadlines::none());
        }
        self.deadlines(now)
    }

    /// Gives a view without a leader the elector's choice, after this certificate if there is one.
    pub(super) fn elect(
        &mut self,
        view: View,
        certificate: Option<&S::Certificate>,
    ) -> Result<(), Fault>
        requires { view ≤ largest_tracked }
        ensures elected { OnOk result (self.new
            ≡ with_elected_leader L.elect self.old view
            (option_map S.certificate_bytes (option_copied certificate.entry))) }
        ensures refused { IfErr result (λ fault. fault ≡ OutOfMemory) }
        ensures setup { HasSameSetup self.old self.new }
    {
        let leader = self.elector.elect(self.round_number(view), certificate);
        self.set_leader(view, leader)
    }

    /// The elector's choice for a view, without a certificate.
    pub(super) fn early_leader(&self, view: View) -> Participant
        ensures leader { result ≡ L.elect self.now.elector (round_number self.now view) None }
        ensures member { result < length self.now.members }
    {
        self.elector
            .elect(self.round_number(view), self.no_certificate())
    }

    fn no_certificate(&self) -> Option<&S::Certificate>
        ensures { result ≡ None }
    {
        None
    }

    /// Records this moment as the last one that a call carried.
    pub(super) fn note_moment(&mut self, now: u64)
        ensures { self.new ≡ at_moment self.old now }
    {
        self.last_moment = now;
    }

    pub(super) fn store_genesis(&mut self, payload: D)
        ensures { self.new ≡ record self.old { genesis = Some payload } }
    {
        self.genesis = Some(payload);
    }

    /// Records that a call ran out of memory.
    pub(super) fn fail(&mut self)
        ensures { self.new ≡ record self.old { failed = true } }
    {
        self.failed = true;
    }

    /// Sets the leader of a view that has none.
    pub(super) fn set_leader(&mut self, view: View, leader: Participant) -> Result<(), Fault>
        requires in_range { view ≤ largest_tracked }
        requires member { leader < length self.old.members }
        ensures led { OnOk result (self.new ≡ with_leader_at self.old view leader) }
        ensures refused { IfErr result (λ fault. fault ≡ OutOfMemory) }
        ensures setup { HasSameSetup self.old self.new }
    {
        self.rounds.lead(view, leader)
    }
}
