//! Restarting a member from its record.

ghost use Rattle.std.specs.Prelude.{◌≡◌, ◌⊎◌, ◌&&◌, ◌==◌, true, false, IfOk, IfErr, OnOk, OnErr, length, min, option_map};
ghost use Rattle.simplex_types.specs.Certificates.{artifact_facts, finalization_facts};
ghost use Rattle.simplex_types.specs.Config.{floor_facts};
ghost use Rattle.simplex_voter.specs.Acceptance.{floor_answer};
ghost use Rattle.simplex_voter.specs.Refusals.{is_started};
ghost use Rattle.simplex_record.specs.Check.{stands};
ghost use Rattle.simplex_record.specs.Entries.{entries_of, entry_view};
ghost use Rattle.simplex_record.specs.Votes.{votes_of};
ghost use Rattle.simplex_member.specs.RestartedStates.{IsRemadeBy, IsRefusedBy};
ghost use Rattle.simplex_record.specs.Recovery.{is_finalization_entry, with_finalization_entry, with_floor};
ghost use Rattle.simplex_member.specs.Restarts.{IsByView};
ghost use Rattle.simplex_record.specs.Start.{start_facts};
ghost use Rattle.simplex_record.specs.declared.record.error.RecoverError.TheVariants.{OutOfMemory};

use super::life::Member;
use super::outstanding_work::OutstandingWork;
use super::recorded_calls::keep;
use simplex_record::record::{RecoverError, Start, drop_last, prune_record, remake, retention_of};
use simplex_types::types::{
    Artifact, CertificateScheme, Digest, Elector, Fault, Finalization, View, ViewDelta, Viewable,
};
use simplex_voter::voter::State;
use std::alloc::Global;

/// The parameters of a member's restart.
#[derive(Drop)]
pub struct Restart<S: CertificateScheme, L: Elector<S>, D> {
    /// At most this many of the record's last entries are dropped, but never a vote nor anything before one.
    pub drop: u64,
    /// True if the restart prunes the record.
    pub prune: bool,
    pub start: Start<S, L, D>,
}

impl<S: CertificateScheme, L: Elector<S>, D: Digest> Member<S, L, D> {
    ghost use Rattle.simplex_member.specs.Restarts.{restart_facts, retention_grows, cut_member, cut_votes, votes_left, RecoversByView, IsRestart};

    /// Ends the member's lifetime, also if it has failed, and begins another from its record.
    ///
    /// The last entries of the record are dropped and it is pruned, as asked: each entry more than the last lifetime's
    /// retention below the highest finalized view of the record is removed, and the rest is closed to later drops. A
    /// copy, sorted by view, makes the new state. The floor's finalization is recorded unless the record has one of its
    /// view.
    ///
    /// Returns `RetentionGrown`, with nothing changed, if the record is or was pruned and the settings retain more
    /// views than an earlier lifetime. After any other error the record stays cut, and the member has failed until a
    /// restart succeeds: those of `recover`, and `OutOfMemory`.
    #[tactic(auto, unfolding(crate::specs::Restarts::IsRestart))]
    pub fn restart(&mut self, restart: Restart<S, L, D>) -> Result<(), RecoverError>
        requires { L.members restart.start.settings.elector ≡ length (S.participants restart.start.settings.scheme) }
        ensures restarted { IsRestart D.eq L.elect self.old.facts
            (restart_facts S.me S.participants L.terms L.elects_early S.certificate_bytes restart)
            result self.new.facts }
        ensures votes { self.new.votes
            ≡ votes_left self.old.facts
            (restart_facts S.me S.participants L.terms L.elects_early S.certificate_bytes restart) self.old.votes }
    {
        let retention = retention_of(&restart.start.settings);
        if self.retention_grows(restart.prune, retention) {
            return Err(RecoverError::RetentionGrown);
        }
        self.cut(restart.drop, restart.prune);
        self.go_on(restart.start)
    }

    /// Returns whether more views are to be retained than in an earlier lifetime, of a record that is pruned now or was
    /// pruned: votes in views that are gone from it could be cast again.
    fn retention_grows(&self, prune: bool, retention: ViewDelta) -> bool
        ensures { result ≡ retention_grows self.now.facts prune retention }
    {
        (prune || self.is_pruned) && self.least_retention < retention
    }

    /// Drops the last entries, and prunes the record if asked.
    fn cut(&mut self, drop: u64, prune: bool)
        ensures left { self.new.facts ≡ cut_member self.old.facts drop prune }
        ensures votes { self.new.votes ≡ cut_votes self.old.facts drop prune self.old.votes }
    {
        drop_last(&mut self.artifacts, self.closed, drop);
        if prune {
            prune_record(&mut self.artifacts, self.retention);
            self.closed = self.artifacts.len();
            self.is_pruned = true;
        }
    }

    /// Begins a lifetime from the record as it is.
    fn go_on(&mut self, start: Start<S, L, D>) -> Result<(), RecoverError>
        requires { L.members start.settings.elector ≡ length (S.participants start.settings.scheme) }
        ensures continues { RecoversByView D.eq L.elect self.old.facts
            (start_facts S.me S.participants L.terms L.elects_early S.certificate_bytes start) result self.new.facts }
        ensures votes { self.new.votes ≡ self.old.votes }
    {
        self.failed = true;
        let retention = retention_of(&start.settings);
        let state = renew(self.alloc, start, &mut self.artifacts)?;
        self.state = state;
        self.outstanding_work = OutstandingWork::new(self.alloc);
        self.retention = retention;
        self.least_retention = lesser(self.least_retention, retention);
        self.failed = false;
        Ok(())
    }
}

/// The lesser of two retentions.
pub(super) fn lesser(retention: ViewDelta, other: ViewDelta) -> ViewDelta
    ensures { result ≡ min retention other }
{
    retention.min(other)
}

/// Makes a state from a record, and then records the floor's finalization there.
pub(super) fn renew<S: CertificateScheme, L: Elector<S>, D: Digest>(
    alloc: Global,
    start: Start<S, L, D>,
    artifacts: &mut Vec<Artifact<S, D>>,
) -> Result<Box<State<S, L, D>>, RecoverError>
    requires { L.members start.settings.elector ≡ length (S.participants start.settings.scheme) }
    ensures renewed { IfOk result (λ state. IsRemadeBy D.eq L.elect
        (start_facts S.me S.participants L.terms L.elects_early S.certificate_bytes start)
        (entries_of S.certificate_bytes artifacts.old.items) state.value) }
    ensures resumption { IfOk result (λ state. (state.value.failed ≡ false) × (is_started state.value ≡ true)) }
    ensures recorded { OnOk result (entries_of S.certificate_bytes artifacts.new.items
        ≡ with_floor (entries_of S.certificate_bytes artifacts.old.items)
        (floor_facts S.certificate_bytes start.floor)) }
    ensures votes { votes_of artifacts.new.items ≡ votes_of artifacts.old.items }
    ensures same { OnErr result (artifacts.new.items ≡ artifacts.old.items) }
    ensures refused { IfErr result (λ error. (error ≡ OutOfMemory) ⊎ IsRefusedBy D.eq
        (start_facts S.me S.participants L.terms L.elects_early S.certificate_bytes start)
        (entries_of S.certificate_bytes artifacts.old.items) error) }
{
    let (state, finalization) = remake_by_view(alloc, start, artifacts)?;
    store_finalization(artifacts, finalization)?;
    Ok(state)
}

/// Makes a state from a copy of a record sorted by view, and returns it with the floor's finalization.
fn remake_by_view<S: CertificateScheme, L: Elector<S>, D: Digest>(
    alloc: Global,
    start: Start<S, L, D>,
    artifacts: &[Artifact<S, D>],
) -> Result<(Box<State<S, L, D>>, Option<Finalization<S, D>>), RecoverError>
    requires { L.members start.settings.elector ≡ length (S.participants start.settings.scheme) }
    ensures remade { IfOk result (λ made. IsRemadeBy D.eq L.elect
        (start_facts S.me S.participants L.terms L.elects_early S.certificate_bytes start)
        (entries_of S.certificate_bytes artifacts.now) made.0.value) }
    ensures floor { IfOk result (λ made. option_map (finalization_facts S.certificate_bytes) made.1
        ≡ floor_answer (floor_facts S.certificate_bytes start.floor)) }
    ensures resumption { IfOk result (λ made. (made.0.value.failed ≡ false) × (is_started made.0.value ≡ true)) }
    ensures refused { IfErr result (λ error. (error ≡ OutOfMemory) ⊎ IsRefusedBy D.eq
        (start_facts S.me S.participants L.terms L.elects_early S.certificate_bytes start)
        (entries_of S.certificate_bytes artifacts.now) error) }
{
    let Ok(copy) = by_view(alloc, artifacts) else {
        return Err(RecoverError::OutOfMemory);
    };
    remake(alloc, start, &copy)
}

/// Returns a copy of a record, sorted by view.
fn by_view<S: CertificateScheme, D: Digest>(
    alloc: Global,
    artifacts: &[Artifact<S, D>],
) -> Result<Vec<Artifact<S, D>>, Fault>
    ensures { IfOk result (λ copy.
        IsByView (entries_of S.certificate_bytes artifacts.now) (entries_of S.certificate_bytes copy.items)) }
{
    let mut copy = copy_of(alloc, artifacts)?;
    copy.sort_by_key(|artifact| artifact.view())?;
    Ok(copy)
}

/// Returns a copy of a record.
fn copy_of<S: CertificateScheme, D: Digest>(
    alloc: Global,
    artifacts: &[Artifact<S, D>],
) -> Result<Vec<Artifact<S, D>>, Fault>
    ensures { IfOk result (λ copy.
        entries_of S.certificate_bytes copy.items ≡ entries_of S.certificate_bytes artifacts.now) }
{
    let mut copy = Vec::new(alloc);
    for artifact in artifacts {
        copy.push(artifact.clone(alloc)?)?;
    }
    Ok(copy)
}

/// Records a finalization, unless the record has one of its view.
pub(super) fn store_finalization<S: CertificateScheme, D: Digest>(
    artifacts: &mut Vec<Artifact<S, D>>,
    finalization: Option<Finalization<S, D>>,
) -> Result<(), RecoverError>
    ensures kept { OnOk result (entries_of S.certificate_bytes artifacts.new.items
        ≡ with_finalization_entry (entries_of S.certificate_bytes artifacts.old.items)
        (option_map (finalization_facts S.certificate_bytes) finalization)) }
    ensures votes { votes_of artifacts.new.items ≡ votes_of artifacts.old.items }
    ensures same { OnErr result (artifacts.new.items ≡ artifacts.old.items) }
    ensures refused { IfErr result (λ error. error ≡ OutOfMemory) }
{
    let Some(finalization) = finalization else {
        return Ok(());
    };
    if is_finalized_in(artifacts, finalization.view()) {
        return Ok(());
    }
    artifacts.reserve(1)?;
    keep(artifacts, Artifact::Finalization(finalization));
    Ok(())
}

/// Returns whether the record has a finalization of the view.
fn is_finalized_in<S: CertificateScheme, D: Digest>(
    artifacts: &[Artifact<S, D>],
    view: View,
) -> bool
    ensures { result ≡ stands view is_finalization_entry (entries_of S.certificate_bytes artifacts.now) }
{
    for artifact in artifacts {
        if is_finalization_of(artifact, view) {
            return true;
        }
    }
    false
}

/// Returns whether the artifact is a finalization of the view.
fn is_finalization_of<S: CertificateScheme, D: Digest>(
    artifact: &Artifact<S, D>,
    view: View,
) -> bool
    ensures { result ≡ (entry_view (artifact_facts S.certificate_bytes artifact.now) == view && is_finalization_entry
        (artifact_facts S.certificate_bytes artifact.now)) }
{
    match artifact {
        Artifact::Finalization(finalization) => finalization.view() == view,
        _ => false,
    }
}
