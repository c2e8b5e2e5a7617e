//! Where a state starts: at genesis, or above a finalization.

ghost use Rattle.std.specs.Prelude.{◌≡◌, ◌||◌, ◌==◌, nat_le, ◌+◌, IfSome, IfOk, IfErr, OnOk, Err, Some, None, true, nat_lt, option_map};
ghost use Rattle.simplex_types.specs.Terms.{IsVotable};
ghost use Rattle.simplex_types.specs.Certificates.{finalization_facts};
ghost use Rattle.simplex_voter.specs.Replay.{artifact_finalization};
ghost use Rattle.simplex_types.specs.declared.types.fault.Fault.TheVariants.{OutOfMemory};

use super::rounds::Deadlines;
use super::state::State;
use simplex_types::config::Floor;
use simplex_types::types::{
    Artifact, CertificateScheme, Digest, Elector, Fault, Finalization, View, Viewable,
};

impl<S: CertificateScheme, L: Elector<S>, D: Digest> State<S, L, D> {
    ghost use Rattle.simplex_voter.specs.Setup.{HasSameSetup, deadlines_at};
    ghost use Rattle.simplex_voter.specs.Refusals.{HasFailed};
    ghost use Rattle.simplex_types.specs.Config.{Genesis, floor_facts};
    ghost use Rattle.simplex_voter.specs.Acceptance.{takes_floor, floor_refusal, floor_answer, after_set_floor, after_set_genesis, finalization_refusal, after_add_finalization, with_finalization_broadcast};

    /// Starts at genesis: stores its payload, and enters view 1 at the moment `now`, in milliseconds, led by the
    /// elector's choice.
    ///
    /// The state must have no floor, or have failed. Returns `TimeOverflow` if a deadline of view 1 passes 2^64 - 1.
    pub fn set_genesis(&mut self, payload: D, now: u64) -> Result<(), Fault>
        requires { (self.old.failed || self.old.current == 0) ≡ true }
        ensures refused { IfSome (floor_refusal self.old (Genesis payload) now)
            (λ fault. (result ≡ Err fault) × (self.new ≡ self.old)) }
        ensures after { OnOk result (self.new ≡ after_set_genesis L.elect self.old payload now) }
        ensures out_of_memory { floor_refusal self.old (Genesis payload) now ≡ None
            → IfErr result (λ fault. (fault ≡ OutOfMemory) × HasFailed self.old self.new) }
    {
        if self.is_failed() {
            return Err(Fault::Failed);
        }
        let Some(deadlines) = self.deadlines(now) else {
            return Err(Fault::TimeOverflow);
        };
        match self.start_at_genesis(payload, now, &deadlines) {
            Ok(()) => Ok(()),
            Err(fault) => {
                self.fail();
                Err(fault)
            }
        }
    }

    fn start_at_genesis(&mut self, payload: D, now: u64, deadlines: &Deadlines) -> Result<(), Fault>
        requires { deadlines.now ≡ deadlines_at self.old now }
        ensures started { OnOk result (self.new ≡ after_set_genesis L.elect self.old payload now) }
        ensures refused { IfErr result (λ fault. fault ≡ OutOfMemory) }
        ensures setup { HasSameSetup self.old self.new }
    {
        self.note_moment(now);
        self.store_genesis(payload);
        let first = View::new(1);
        self.enter_view(first, now, deadlines)?;
        let leader = self.early_leader(first);
        self.set_leader(first, leader)
    }

    /// Starts at a floor: at genesis as `set_genesis` does; above a finalization as `add_finalization` accepts it,
    /// which then counts as already broadcast. Returns that finalization; `None` for genesis.
    ///
    /// The state must have no floor, or have failed. A finalization must be of this epoch, and not of view 0. Returns
    /// `ViewTooLarge` if its view or its parent's is above 2^63 - 1, `TimeOverflow` if a deadline of the view to be
    /// entered passes 2^64 - 1 milliseconds.
    pub fn set_floor(
        &mut self,
        floor: Floor<S, D>,
        now: u64,
    ) -> Result<Option<Finalization<S, D>>, Fault>
        requires { (self.old.failed || takes_floor self.old (floor_facts S.certificate_bytes floor)) ≡ true }
        ensures refused { IfSome (floor_refusal self.old (floor_facts S.certificate_bytes floor) now)
            (λ fault. (result ≡ Err fault) × (self.new ≡ self.old)) }
        ensures answer { IfOk result (λ answer.
            option_map (finalization_facts S.certificate_bytes) answer ≡ floor_answer
            (floor_facts S.certificate_bytes floor)) }
        ensures after { OnOk result
            (self.new ≡ after_set_floor D.eq L.elect self.old (floor_facts S.certificate_bytes floor) now) }
        ensures out_of_memory { floor_refusal self.old (floor_facts S.certificate_bytes floor) now ≡ None
            → IfErr result (λ fault. (fault ≡ OutOfMemory) × HasFailed self.old self.new) }
    {
        match floor {
            Floor::Genesis(payload) => match self.set_genesis(payload, now) {
                Ok(()) => Ok(None),
                Err(fault) => Err(fault),
            },
            Floor::Finalized(finalization) => self.set_finalized(finalization, now),
        }
    }

    fn set_finalized(
        &mut self,
        finalization: Finalization<S, D>,
        now: u64,
    ) -> Result<Option<Finalization<S, D>>, Fault>
        requires { (self.old.failed || nat_le 1 finalization.proposal.round.view) ≡ true }
        ensures refused { IfSome (finalization_refusal self.old finalization.proposal now)
            (λ fault. (result ≡ Err fault) × (self.new ≡ self.old)) }
        ensures answer { IfOk result (λ answer.
            option_map (finalization_facts S.certificate_bytes) answer ≡ Some
            (finalization_facts S.certificate_bytes finalization)) }
        ensures after { OnOk result (self.new ≡ with_finalization_broadcast
            (after_add_finalization D.eq L.elect self.old (finalization_facts S.certificate_bytes finalization) now)
            finalization.proposal.round.view) }
        ensures out_of_memory { finalization_refusal self.old finalization.proposal now ≡ None
            → IfErr result (λ fault. (fault ≡ OutOfMemory) × HasFailed self.old self.new) }
    {
        let deadlines = self.deadlines_above(&finalization, now)?;
        match self.start_above(finalization, now, &deadlines) {
            Ok(answer) => Ok(answer),
            Err(fault) => {
                self.fail();
                Err(fault)
            }
        }
    }

    fn start_above(
        &mut self,
        finalization: Finalization<S, D>,
        now: u64,
        deadlines: &Deadlines,
    ) -> Result<Option<Finalization<S, D>>, Fault>
        requires votable { IsVotable finalization.proposal.round.view }
        requires deadlines { nat_lt self.old.current (finalization.proposal.round.view + 1) ≡ true
            → deadlines.now ≡ deadlines_at self.old now }
        ensures answer { IfOk result (λ answer.
            option_map (finalization_facts S.certificate_bytes) answer ≡ Some
            (finalization_facts S.certificate_bytes finalization)) }
        ensures started { OnOk result (self.new ≡ with_finalization_broadcast
            (after_add_finalization D.eq L.elect self.old (finalization_facts S.certificate_bytes finalization) now)
            finalization.proposal.round.view) }
        ensures refused { IfErr result (λ fault. fault ≡ OutOfMemory) }
        ensures setup { HasSameSetup self.old self.new }
    {
        let copy = finalization.clone(self.alloc)?;
        match self.accept_finalization(finalization, now, deadlines) {
            Ok(_) => self.return_floor(copy),
            Err(fault) => Err(fault),
        }
    }

    /// Marks a stored finalization as already broadcast, and returns it.
    fn return_floor(
        &mut self,
        finalization: Finalization<S, D>,
    ) -> Result<Option<Finalization<S, D>>, Fault>
        requires { IsVotable finalization.proposal.round.view }
        ensures answer { IfOk result (λ answer.
            option_map (finalization_facts S.certificate_bytes) answer ≡ Some
            (finalization_facts S.certificate_bytes finalization)) }
        ensures counted { OnOk result
            (self.new ≡ with_finalization_broadcast self.old finalization.proposal.round.view) }
        ensures refused { IfErr result (λ fault. fault ≡ OutOfMemory) }
        ensures setup { HasSameSetup self.old self.new }
    {
        let view = finalization.view();
        let entry = Artifact::Finalization(finalization);
        match self.recall(view, &entry, None) {
            Ok(()) => Ok(finalization_in(entry)),
            Err(fault) => Err(fault),
        }
    }
}

/// The finalization in an entry of the record, if it is one.
fn finalization_in<S: CertificateScheme, D: Digest>(
    entry: Artifact<S, D>,
) -> Option<Finalization<S, D>>
    ensures { result ≡ artifact_finalization entry }
{
    match entry {
        Artifact::Finalization(finalization) => Some(finalization),
        _ => None,
    }
}
