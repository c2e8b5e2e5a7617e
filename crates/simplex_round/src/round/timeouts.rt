//! The moments of a view: when work on it began, and when it times out. All are in milliseconds.

ghost use Rattle.std.specs.Prelude.{◌≡◌, ◌↔◌, ◌+◌, IfOk, OnOk, OnErr, IsOkUnless, Err, Some, None, true, false, is_some, unwrap_or, if◌then◌else◌};
ghost use Rattle.simplex_round.specs.Round.{awaits_latch, elapsed, RetryOverflows, round_timeout, start_of, with_deadlines, with_latch, with_retry};

use super::{Decision, Round};
use simplex_types::reasons::TimeoutReason;
use simplex_types::types::{CertificateScheme, Digest, Fault};

impl<S: CertificateScheme, D: Digest> Round<S, D> {
    /// Records that this member entered the view at `now`. The first entry stays.
    pub fn mark_entered(&mut self, now: u64)
        ensures { self.new ≡ record self.old { entered_at = Some (unwrap_or self.old.entered_at now) } }
    {
        if self.entered_at.is_none() {
            self.entered_at = Some(now);
        }
    }

    /// Returns the milliseconds from the build of this member's own proposal to `now`, or without
    /// one from its entry: 0 if `now` is earlier, `None` without either.
    pub fn elapsed_since_start(&self, now: u64) -> Option<u64>
        ensures { result ≡ elapsed now (start_of self.now) }
    {
        match self.proposed_at {
            Some(start) => Some(now.saturating_sub(start)),
            None => self.elapsed_since_entry(now),
        }
    }

    /// The milliseconds since this member entered the view: 0 if `now` is earlier, `None` if it did
    /// not enter.
    pub fn elapsed_since_entry(&self, now: u64) -> Option<u64>
        ensures { result ≡ elapsed now self.now.entered_at }
    {
        let start = self.entered_at?;
        Some(now.saturating_sub(start))
    }

    /// Arms the deadlines at the entry of the view: those for a proposal and for its certification
    /// while neither vote was decided, the stall deadline always.
    pub fn set_deadlines(&mut self, leader: u64, certification: u64, stall: Option<u64>)
        ensures { self.new ≡ with_deadlines self.old leader certification stall }
    {
        if let Decision::Pending { latch, .. } = self.decision {
            self.decision = Decision::Pending {
                leader: Some(leader),
                certification: Some(certification),
                latch,
            };
        }
        self.stall_deadline = stall;
    }

    /// The moment at which the term counts as stalled on this view, until the view is finalized.
    /// It outlives both votes.
    pub fn stall_deadline(&self) -> Option<u64>
        ensures { result ≡ (if is_some self.now.finalization then None else self.now.stall_deadline) }
    {
        if self.finalization.is_some() {
            return None;
        }
        self.stall_deadline
    }

    /// Latches an explicit timeout at `now`, and returns whether it did. The first one stays, with
    /// its moment and reason; once either vote was decided nothing is latched any more.
    pub fn latch_timeout(&mut self, now: u64, reason: TimeoutReason) -> bool
        ensures answer { result ≡ awaits_latch self.old }
        ensures latched { self.new ≡ with_latch self.old now reason }
    {
        if let Decision::Pending { latch, .. } = &mut self.decision
            && latch.is_none()
        {
            *latch = Some((now, reason));
            return true;
        }
        false
    }

    /// Returns the round's next timeout and its reason. `None` if the view is finalized or this
    /// member voted to finalize it.
    ///
    /// After its vote to nullify only the repetition of that vote is due, `retry_interval` after
    /// the first poll since the vote. Before, it is the latched timeout if `allow_latched`, else
    /// the leader deadline while no proposal is held, else the certification deadline while the
    /// view is not certified. Returns `TimeOverflow`, with nothing changed, if the moment of a
    /// repetition passes the greatest u64.
    pub fn next_timeout(
        &mut self,
        now: u64,
        retry_interval: u64,
        allow_latched: bool,
    ) -> Result<Option<(u64, TimeoutReason)>, Fault>
        ensures overflow { (result ≡ Err Fault.TimeOverflow) ↔ RetryOverflows self.old now retry_interval }
        ensures refused { IsOkUnless result Fault.TimeOverflow }
        ensures unchanged { OnErr result (self.new ≡ self.old) }
        ensures facts { OnOk result (self.new ≡ with_retry self.old now retry_interval) }
        ensures answer { IfOk result
            (λ timeout. timeout ≡ round_timeout (with_retry self.old now retry_interval) allow_latched) }
    {
        if self.finalization.is_some() {
            return Ok(None);
        }
        match self.decision {
            Decision::Finalize => Ok(None),
            Decision::Nullify { retry: Some(due) } => Ok(Some((due, TimeoutReason::Retry))),
            Decision::Nullify { retry: None } => {
                let moment = now.checked_add(retry_interval).ok_or(Fault::TimeOverflow)?;
                self.decision = Decision::Nullify {
                    retry: Some(moment),
                };
                Ok(Some((moment, TimeoutReason::Retry)))
            }
            Decision::Pending {
                leader,
                certification,
                latch,
            } => {
                if allow_latched && latch.is_some() {
                    return Ok(latch);
                }
                if let Some(moment) = leader
                    && self.slot.proposal().is_none()
                {
                    return Ok(Some((moment, TimeoutReason::LeaderTimeout)));
                }
                if let Some(moment) = certification
                    && !self.is_certified()
                {
                    return Ok(Some((moment, TimeoutReason::CertificationTimeout)));
                }
                Ok(None)
            }
        }
    }
}
