//! Timeouts of views: the first explicit one, how many terms may be skipped before it no longer counts, when a term
//! counts as stalled, and the next timeout of the current view.

ghost use Rattle.std.specs.Prelude.{◌≡◌, ◌&&◌, IfOk, IfSome, IsOk, OnOk, Err, None, true, ◌+◌, is_some, option_and_then, filter, slice_get, ◌||◌, IfErr, Some, is_err};
ghost use Rattle.simplex_types.specs.Terms.{term_index};
ghost use Rattle.simplex_voter.specs.Timeouts.{is_entered_between, standing_deadline, or_stalled};
ghost use Rattle.simplex_round.specs.Round.{awaits_retry, round_timeout};
ghost use Rattle.simplex_types.specs.declared.types.fault.Fault.TheVariants.{TimeOverflow};

use super::state::State;
use simplex_round::round::{Decision, Round};
use simplex_types::reasons::TimeoutReason;
use simplex_types::types::{CertificateScheme, Digest, Elector, Fault, TermLength, View};
use simplex_view_maps::entries::Entries;

/// The number of the term of a view, from 0. Genesis counts as part of the first term.
fn index_of(view: View, length: TermLength) -> u64
    ensures { result ≡ term_index length view }
{
    view.get().saturating_sub(1) / u64::from(length.get().get())
}

/// The number of the term of the view after a view.
fn index_after(view: View, length: TermLength) -> u64
    ensures { result ≡ term_index length (view + 1) }
{
    view.get() / u64::from(length.get().get())
}

/// The stall deadline of the first of the rounds that was entered, with a view above `finalized` and not above
/// `current`.
fn first_deadline<S: CertificateScheme, D: Digest>(
    mut entries: Entries<'_, Round<S, D>>,
    finalized: View,
    current: View,
) -> Option<u64>
    ensures { result ≡ option_and_then (λ e. standing_deadline e.1)
        (slice_get (filter (is_entered_between finalized current) entries.entry) 0) }
{
    while let Some(entry) = entries.pop_first() {
        if is_entered_between(entry.0, entry.1, finalized, current) {
            return entry.1.stall_deadline();
        }
    }
    None
}

/// Returns whether a view was entered, above `finalized` and not above `current`.
fn is_entered_between<S: CertificateScheme, D: Digest>(
    view: View,
    round: &Round<S, D>,
    finalized: View,
    current: View,
) -> bool
    ensures { result ≡ is_entered_between finalized current (view, round.now) }
{
    view > finalized && view <= current && is_entered(round)
}

/// Returns whether the view was entered.
fn is_entered<S: CertificateScheme, D: Digest>(round: &Round<S, D>) -> bool
    ensures { result ≡ is_some round.now.entered_at }
{
    round.elapsed_since_entry(0).is_some()
}

/// Returns whether a round has a timeout; a vote to nullify that waits for the moment of its repeat counts too.
fn can_time_out<S: CertificateScheme, D: Digest>(round: &Round<S, D>, allow_latched: bool) -> bool
    ensures { result ≡ (awaits_retry round.now || is_some (round_timeout round.now allow_latched)) }
{
    if round.finalization().is_some() {
        return false;
    }
    match round.decision() {
        Decision::Finalize => false,
        Decision::Nullify { .. } => true,
        Decision::Pending {
            leader,
            certification,
            latch,
        } => {
            (allow_latched && latch.is_some())
                || (leader.is_some() && round.proposal().is_none())
                || (certification.is_some() && !round.is_certified())
        }
    }
}

/// A round's timeout, or a stall deadline at or below it while the round's timeout is ahead. A repeat is never
/// replaced.
fn or_stalled(stall: Option<u64>, now: u64, timeout: (u64, TimeoutReason)) -> (u64, TimeoutReason)
    ensures { result ≡ or_stalled stall now timeout }
{
    // repeats go by their own interval, also where the stall deadline of an older view has passed
    if timeout.1 == TimeoutReason::Retry {
        return timeout;
    }
    match stall {
        // where both are due the round's own reason says more
        Some(deadline) if deadline <= timeout.0 && now < timeout.0 => {
            (deadline, TimeoutReason::StallTimeout)
        }
        _ => timeout,
    }
}

impl<S: CertificateScheme, L: Elector<S>, D: Digest> State<S, L, D> {
    ghost use Rattle.simplex_voter.specs.Facts.{is_tracked, round_of, with_tracked};
    ghost use Rattle.simplex_round.specs.Round.{awaits_latch, with_latch};
    ghost use Rattle.simplex_voter.specs.Refusals.{is_started, plain_refusal, is_past_u64};
    ghost use Rattle.simplex_voter.specs.Timeouts.{after_trigger_timeout, is_contradicted, trigger_answer, with_timeout, has_skip_budget, stall_deadline, after_next_timeout, has_timeout, next_timeout_answer, next_timeout_refusal, round_with_retry};

    /// Times a view out at its next poll, for a reason and at a moment in milliseconds. The first such timeout of a
    /// view stays, and none is set once either vote was decided. A view that is passed or isn't tracked stays as it is;
    /// so does one that times out for `Inactivity` while a proposal without conflict is held. The moment is recorded
    /// always. Returns whether this timeout is the one that counts from now on.
    ///
    /// The state must have a floor.
    pub fn trigger_timeout(
        &mut self,
        view: View,
        reason: TimeoutReason,
        now: u64,
    ) -> Result<bool, Fault>
        requires { (self.old.failed || is_started self.old) ≡ true }
        ensures refused { IfSome (plain_refusal self.old) (λ fault. (result ≡ Err fault) × (self.new ≡ self.old)) }
        ensures answer { IfOk result (λ latched. latched ≡ trigger_answer self.old view reason) }
        ensures after { OnOk result (self.new ≡ after_trigger_timeout self.old view reason now) }
        ensures taken { plain_refusal self.old ≡ None → IsOk result }
    {
        if self.is_failed() {
            return Err(Fault::Failed);
        }
        self.note_moment(now);
        Ok(self.trigger(view, reason, now))
    }

    /// Times the view out at its next poll, unless it is passed, not tracked, or the reason is contradicted. Returns
    /// whether this timeout was latched.
    pub(super) fn trigger(&mut self, view: View, reason: TimeoutReason, now: u64) -> bool
        ensures answer { result ≡ trigger_answer self.old view reason }
        ensures triggered { self.new ≡ with_timeout self.old view reason now }
    {
        // only the current view is polled, so nobody would read it. One ahead is stored: its proposal is held and was
        // already returned for verification, so once it is current no other timeout would come before that of the
        // certification
        if view < self.current {
            return false;
        }
        // a leader's silence is a guess, and a proposal of that leader proves it wrong; other reasons remain
        if self.is_contradicted(view, reason) {
            return false;
        }
        self.latch(view, reason, now)
    }

    /// Returns whether the reason is an inactive leader, and the leader is known to be active.
    fn is_contradicted(&self, view: View, reason: TimeoutReason) -> bool
        ensures { result ≡ is_contradicted reason (round_of self.now view) }
    {
        if reason != TimeoutReason::Inactivity {
            return false;
        }
        match self.round_at(view) {
            Some(round) => round.has_unequivocated_proposal(),
            None => false,
        }
    }

    pub(super) fn latch(&mut self, view: View, reason: TimeoutReason, now: u64) -> bool
        ensures answer { result ≡ (is_tracked self.old view && awaits_latch (round_of self.old view)) }
        ensures latched { self.new ≡ with_tracked self.old view (with_latch (round_of self.old view) now reason) }
    {
        self.rounds.latch(view, now, reason)
    }

    /// Returns whether few enough terms lie between the first one that isn't finalized and the current one.
    pub(super) fn has_skip_budget(&self) -> bool
        ensures { result ≡ has_skip_budget self.now }
    {
        let length = self.elector.terms().term_length;
        let current = index_of(self.current, length);
        let first = index_after(self.finalized, length);
        current.saturating_sub(first) < self.skip_budget
    }

    /// The stall deadline of the lowest entered view of the current term above the last finalized one. A view that was
    /// skipped was never entered and has none.
    pub(super) fn stall_deadline(&self) -> Option<u64>
        ensures { result ≡ stall_deadline self.now }
    {
        let start = self.current.term_start(self.elector.terms().term_length);
        let entries = self.rounds.at_or_above(start.max(self.finalized));
        first_deadline(entries, self.finalized, self.current)
    }

    /// Returns whether the current view has a timeout. Once a floor is set, it has none only if it is finalized, or
    /// this member voted to finalize it, or its held proposal is certified and no latched timeout counts.
    pub fn has_timeout(&self) -> bool
        ensures { result ≡ has_timeout self.now }
    {
        match self.round_at(self.current) {
            Some(round) => can_time_out(round, self.has_skip_budget()),
            None => false,
        }
    }

    /// Returns the moment of the current view's next timeout, in milliseconds, and its reason.
    ///
    /// It is the round's own: a latched timeout while few enough terms were skipped; else that for a missing proposal;
    /// else that for a missing certification. After a vote to nullify it is only the vote's repeat, whose moment the
    /// first poll sets. The stall deadline of the lowest entered view of the current term above the last finalized one
    /// replaces the round's, if it is at or below the round's and the round's is ahead; it never replaces a repeat.
    ///
    /// The state must have a floor and `has_timeout`. Returns `TimeOverflow` if the moment of a repeat passes 2^64 - 1.
    pub fn next_timeout(&mut self, now: u64) -> Result<(u64, TimeoutReason), Fault>
        requires started { (self.old.failed || is_started self.old) ≡ true }
        requires timeout { (self.old.failed || has_timeout self.old) ≡ true }
        ensures refused { IfSome (next_timeout_refusal self.old now)
            (λ fault. (result ≡ Err fault) × (self.new ≡ self.old)) }
        ensures answer { IfOk result (λ timeout. next_timeout_answer self.old now ≡ Some timeout) }
        ensures after { OnOk result (self.new ≡ after_next_timeout self.old now) }
        ensures taken { next_timeout_refusal self.old now ≡ None → IsOk result }
    {
        if self.is_failed() {
            return Err(Fault::Failed);
        }
        let stall = self.stall_deadline();
        let Some(timeout) = self.poll(now)? else {
            unreachable!()
        };
        self.note_moment(now);
        Ok(or_stalled(stall, now, timeout))
    }

    /// The next timeout of the current view's round, if it has one.
    fn poll(&mut self, now: u64) -> Result<Option<(u64, TimeoutReason)>, Fault>
        ensures late { is_err result ≡
            (awaits_retry (round_of self.old self.old.current) && is_past_u64 (now + self.old.settings.timeout_retry)) }
        ensures refused { IfErr result (λ fault. (fault ≡ TimeOverflow) × (self.new ≡ self.old)) }
        ensures polled { OnOk result
            (self.new ≡ with_tracked self.old self.old.current (round_with_retry self.old now)) }
        ensures answer { IfOk result
            (λ timeout. timeout ≡ round_timeout (round_with_retry self.old now) (has_skip_budget self.old)) }
    {
        let allow_latched = self.has_skip_budget();
        self.rounds
            .poll(self.current, now, self.timeout_retry, allow_latched)
    }
}
