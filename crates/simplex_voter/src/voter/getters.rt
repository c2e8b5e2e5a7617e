//! Plain getters of a state: they change nothing and take no memory.

ghost use Rattle.std.specs.Prelude.{◌≡◌, ◌↔◌, IsTrue, true, ◌&&◌, option_map, is_some};
ghost use Rattle.std.specs.Option.{option_copied, option_map_or};
ghost use Rattle.simplex_types.specs.Certificates.{notarization_facts, nullification_facts, finalization_facts};

use super::state::State;
use simplex_types::types::{
    CertificateScheme, Digest, Elector, Epoch, Finalization, Notarization, Nullification,
    Participant, Proposal, View, Viewport,
};

impl<S: CertificateScheme, L: Elector<S>, D: Digest> State<S, L, D> {
    ghost use Rattle.simplex_voter.specs.Facts.{round_at, is_tracked};
    ghost use Rattle.simplex_voter.specs.Windows.{is_me, viewport, min_active, admits_certificate, admits_vote};
    ghost use Rattle.simplex_voter.specs.Refusals.{is_started};
    ghost use Rattle.simplex_voter.specs.StateAnswers.{notarization_of, nullification_of, finalization_of, leader_of, forwardable_of, elapsed_since_start, elapsed_since_entry};

    /// The epoch. This also holds after the state has failed.
    pub fn epoch(&self) -> Epoch
        ensures { result ≡ self.now.settings.epoch }
    {
        self.rounds.epoch()
    }

    /// The current view: 0 until a floor is set.
    pub fn current_view(&self) -> View
        ensures { result ≡ self.now.current }
    {
        self.current
    }

    /// The last finalized view: 0 until one is finalized.
    pub fn last_finalized(&self) -> View
        ensures { result ≡ self.now.finalized }
    {
        self.finalized
    }

    /// Returns whether the state has failed: a call that changes it ran out of memory.
    pub fn is_failed(&self) -> bool
        ensures { result ≡ self.now.failed }
    {
        self.failed
    }

    /// The lowest retained view: the retention below the last finalized one, and not below 0.
    pub fn min_active(&self) -> View
        ensures { result ≡ min_active self.now }
    {
        self.viewport().floor()
    }

    /// Returns whether a certificate of the view is accepted: the view is retained and is not genesis.
    pub fn admits_certificate(&self, view: View) -> bool
        ensures { IsTrue result ↔ IsTrue (admits_certificate self.now view) }
    {
        self.viewport().admits_certificate(view)
    }

    /// Returns whether a vote of the view is accepted: a floor was set, and the view is retained, is not genesis, and
    /// is not above the next term's start.
    pub fn admits_vote(&self, view: View) -> bool
        ensures { IsTrue result ↔ IsTrue (is_started self.now && admits_vote self.now view) }
    {
        if self.current.is_zero() {
            return false;
        }
        let next = self
            .current
            .next_term_start(self.elector.terms().term_length);
        self.admits_certificate(view) && view <= next
    }

    fn viewport(&self) -> Viewport
        ensures { result ≡ viewport self.now }
    {
        Viewport {
            finalized: self.finalized,
            current: self.current,
            view_retention: self.view_retention,
            lookahead: self.elector.terms().lookahead(),
        }
    }

    /// Returns whether the state's scheme signs as this member. Without a key it signs as no one.
    pub fn is_me(&self, member: Participant) -> bool
        ensures { result ≡ is_me self.now member }
    {
        self.rounds.scheme().me() == Some(member)
    }

    /// The index of the leader of a tracked view, once it is known.
    pub fn leader_index(&self, view: View) -> Option<Participant>
        ensures { result ≡ leader_of self.now view }
    {
        let leader = self.round_at(view)?.leader()?;
        Some(leader.idx)
    }

    /// Returns whether the view is tracked.
    pub fn is_tracked(&self, view: View) -> bool
        ensures { result ≡ is_tracked self.now view }
    {
        self.round_at(view).is_some()
    }

    /// The notarization of a tracked view, if it is there.
    pub fn notarization(&self, view: View) -> Option<&Notarization<S, D>>
        ensures { option_map (notarization_facts S.certificate_bytes) (option_copied result) ≡
            notarization_of self.now view }
    {
        self.round_at(view)?.notarization()
    }

    /// The nullification of a tracked view, if it is there.
    pub fn nullification(&self, view: View) -> Option<&Nullification<S>>
        ensures { option_map (nullification_facts S.certificate_bytes) (option_copied result) ≡
            nullification_of self.now view }
    {
        self.round_at(view)?.nullification()
    }

    /// The finalization of a tracked view, if it is there.
    pub fn finalization(&self, view: View) -> Option<&Finalization<S, D>>
        ensures { option_map (finalization_facts S.certificate_bytes) (option_copied result) ≡
            finalization_of self.now view }
    {
        self.round_at(view)?.finalization()
    }

    /// The proposal of a tracked view that may be forwarded: the held one, if the view is finalized, or notarized and
    /// not found bad.
    pub fn forwardable_proposal(&self, view: View) -> Option<&Proposal<D>>
        ensures { option_copied result ≡ forwardable_of self.now view }
    {
        self.round_at(view)?.forwardable_proposal()
    }

    /// The milliseconds since work on a tracked view began; 0 if the moment lies before.
    pub fn elapsed_since_start(&self, view: View, now: u64) -> Option<u64>
        ensures { result ≡ elapsed_since_start self.now view now }
    {
        self.round_at(view)?.elapsed_since_start(now)
    }

    /// The milliseconds since a tracked view was entered; 0 if the moment lies before.
    pub fn elapsed_since_entry(&self, view: View, now: u64) -> Option<u64>
        ensures { result ≡ elapsed_since_entry self.now view now }
    {
        self.round_at(view)?.elapsed_since_entry(now)
    }
}
