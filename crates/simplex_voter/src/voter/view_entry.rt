//! How a view becomes the current one.

ghost use Rattle.std.specs.Prelude.{◌≡◌, ◌≤◌, ◌<◌, ◌+◌, ◌^◌, IfErr, OnOk, Some, true, nat_lt, option_map};
ghost use Rattle.std.specs.Option.{option_copied};
ghost use Rattle.simplex_types.specs.declared.types.fault.Fault.TheVariants.{OutOfMemory};

use super::rounds::Deadlines;
use super::state::State;
use simplex_types::types::{CertificateScheme, Digest, Elector, Fault, View};

impl<S: CertificateScheme, L: Elector<S>, D: Digest> State<S, L, D> {
    ghost use Rattle.simplex_voter.specs.StateView.{largest_current};
    ghost use Rattle.simplex_voter.specs.Setup.{HasSameSetup, deadlines_at};
    ghost use Rattle.simplex_voter.specs.ViewEntry.{at_moment, with_view_entered};
    ghost use Rattle.simplex_voter.specs.Leaders.{with_elected_leader};
    ghost use Rattle.simplex_voter.specs.Certification.{with_finalized_view};

    /// Enters a view that is above the current one.
    pub(super) fn enter_view(
        &mut self,
        view: View,
        now: u64,
        deadlines: &Deadlines,
    ) -> Result<(), Fault>
        requires in_range { view ≤ largest_current }
        requires deadlines { nat_lt self.old.current view ≡ true → deadlines.now ≡ deadlines_at self.old now }
        ensures entered { OnOk result (self.new ≡ with_view_entered self.old view now) }
        ensures refused { IfErr result (λ fault. fault ≡ OutOfMemory) }
        ensures setup { HasSameSetup self.old self.new }
    {
        if view <= self.current {
            return Ok(());
        }
        self.rounds.enter_view(view, now, deadlines)?;
        self.current = view;
        Ok(())
    }

    /// Enters a view that is above the current one, led by the elector's choice after this certificate.
    pub(super) fn enter_led(
        &mut self,
        view: View,
        now: u64,
        deadlines: &Deadlines,
        certificate: &S::Certificate,
    ) -> Result<(), Fault>
        requires in_range { view ≤ largest_current }
        requires deadlines { nat_lt self.old.current view ≡ true → deadlines.now ≡ deadlines_at self.old now }
        ensures entered { OnOk result (self.new
            ≡ with_elected_leader L.elect (with_view_entered self.old view now) view
            (Some (S.certificate_bytes certificate.now))) }
        ensures refused { IfErr result (λ fault. fault ≡ OutOfMemory) }
        ensures setup { HasSameSetup self.old self.new }
    {
        self.enter_view(view, now, deadlines)?;
        self.elect(view, Some(certificate))
    }

    /// Makes this view the last finalized one if it is above the one before, and enters the next view if that is ahead,
    /// led by the elector's choice after this certificate.
    pub(super) fn pass(
        &mut self,
        view: View,
        now: u64,
        deadlines: &Deadlines,
        certificate: &S::Certificate,
    ) -> Result<(), Fault>
        requires in_range { view < 2 ^ 63 }
        requires deadlines { nat_lt self.old.current (view + 1) ≡ true → deadlines.now ≡ deadlines_at self.old now }
        ensures passed { OnOk result (self.new
            ≡ with_elected_leader L.elect
            (with_view_entered (with_finalized_view (at_moment self.old now) view) (view + 1) now) (view + 1)
            (Some (S.certificate_bytes certificate.now))) }
        ensures refused { IfErr result (λ fault. fault ≡ OutOfMemory) }
        ensures setup { HasSameSetup self.old self.new }
    {
        self.note_moment(now);
        self.raise(view);
        self.enter_led(view.next(), now, deadlines, certificate)
    }
}
