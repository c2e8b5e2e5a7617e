//! The policies of a member, its starting point, and the check of its settings.

ghost use Rattle.std.specs.Prelude.{◌≡◌, ◌≢◌, ◌↔◌, ◌<◌, ◌^◌, true, IsTrue, IfOk, OnErr, IsOkUnless, MatchOption, Ok, Err, length};
ghost use Rattle.simplex_types.specs.Config.{skip_budget, floor_view, is_finalization, floor_facts, is_at_or_below, first_broken_rule, first_broken_floor_rule, config_error_name};
ghost use Rattle.simplex_types.specs.declared.config.ForwardPolicy.TheVariants.{Disabled as ForwardDisabled};

use crate::types::{
    CertificateScheme, Digest, Epoch, Fault, Finalization, Scheme, Subject, View, ViewDelta,
    Viewable,
};
use std::alloc::Global;
use std::error::Error;
use std::fmt;
use std::num::NonZeroU64;

/// How many unfinalized terms may be skipped.
#[derive(Clone, Copy, PartialEq, Eq, Debug, Default)]
pub enum SkipBudget {
    /// As many as there are participants.
    #[default]
    Participants,
    /// This many.
    Fixed(NonZeroU64),
}

impl SkipBudget {
    /// The number of terms, among this many participants.
    pub fn resolve(self, participants: usize) -> u64
        ensures { result ≡ skip_budget self participants }
    {
        match self {
            SkipBudget::Participants => participants as u64,
            SkipBudget::Fixed(budget) => budget.get(),
        }
    }
}

/// The policy on voting to nullify a view before its own deadlines, because its leader is inactive.
///
/// The view's own deadlines hold whatever the policy is.
#[derive(Clone, Copy, PartialEq, Eq, Debug)]
pub enum SkipPolicy {
    /// Only the view's own deadlines count.
    Disabled,
    /// An inactive leader's view may be skipped.
    Enabled {
        /// The milliseconds after which a leader counts as inactive, above the certification timeout and the retry.
        timeout: u64,
        /// How many unfinalized terms may be skipped.
        budget: SkipBudget,
    },
}

impl SkipPolicy {
    /// Returns whether skipping is enabled with a timeout at or below this one.
    fn is_at_or_below(&self, timeout: u64) -> bool
        ensures { result ≡ is_at_or_below self.now timeout }
    {
        match self {
            SkipPolicy::Disabled => false,
            SkipPolicy::Enabled { timeout: skip, .. } => *skip <= timeout,
        }
    }
}

/// Who receives a proposal when the next view is entered.
///
/// Forwarding never affects safety: a batcher sends what `forwardable_proposal` of the voter returns.
#[derive(Clone, Copy, PartialEq, Eq, Debug)]
pub enum ForwardPolicy {
    /// Nobody.
    Disabled,
    /// Each participant whose vote for the proposal was not seen.
    SilentVoters,
    /// The next view's leader, if its vote for the proposal was not seen.
    SilentLeader,
}

impl ForwardPolicy {
    /// Returns whether proposals are forwarded at all.
    pub fn is_enabled(&self) -> bool
        ensures { IsTrue result ↔ (self.now ≢ ForwardDisabled) }
    {
        !matches!(self, ForwardPolicy::Disabled)
    }
}

/// The certified point that a member starts from.
#[derive(Drop)]
pub enum Floor<S: CertificateScheme, D> {
    /// The payload of genesis, at view 0.
    Genesis(D),
    /// A proposal that is finalized.
    Finalized(Finalization<S, D>),
}

impl<S: CertificateScheme, D: Digest> Floor<S, D> {
    /// Returns 0 for genesis, else the view of the finalization.
    pub fn view(&self) -> View
        ensures { result ≡ floor_view self.now }
    {
        match self {
            Floor::Genesis(_) => View::zero(),
            Floor::Finalized(finalization) => finalization.view(),
        }
    }

    /// Returns a copy, with the same payload or proposal and the same certificate bytes. The only fault is
    /// `OutOfMemory`; copying genesis takes no memory.
    pub fn clone(&self, alloc: Global) -> Result<Self, Fault>
        ensures same { IfOk result
            (λ floor. floor_facts S.certificate_bytes floor ≡ floor_facts S.certificate_bytes self.now) }
        ensures refused { IsOkUnless result Fault.OutOfMemory }
        ensures refused_only_a_finalization { OnErr result (is_finalization self.now ≡ true) }
    {
        Ok(match self {
            Floor::Genesis(payload) => Floor::Genesis(*payload),
            Floor::Finalized(finalization) => Floor::Finalized(finalization.clone(alloc)?),
        })
    }
}

/// The settings of a member, as far as the decision core reads them. Times are milliseconds.
#[derive(Drop)]
pub struct Config<S: CertificateScheme, D> {
    /// The scheme of this member.
    pub scheme: S,
    /// The epoch of every message.
    pub epoch: Epoch,
    /// The certified point that the member starts from.
    pub floor: Floor<S, D>,
    /// How long a view waits for its proposal.
    pub leader_timeout: u64,
    /// How long a view waits for its certification, above the leader timeout.
    pub certification_timeout: u64,
    /// After how long a vote to nullify is sent again.
    pub timeout_retry: u64,
    /// How many views below the last finalized one are retained.
    pub view_retention: ViewDelta,
    /// The policy on skipping views of inactive leaders.
    pub skip: SkipPolicy,
    /// Who receives proposals that are forwarded.
    pub forward: ForwardPolicy,
}

impl<S: CertificateScheme, D: Digest> Config<S, D> {
    /// Tests the settings, and returns the first rule of `ConfigError`'s list that they break.
    pub fn assert(&self) -> Result<(), ConfigError>
    where
        S: Scheme<D>,
        ensures { MatchOption (first_broken_rule (length (S.participants self.now.scheme))
            (S.accepts self.now.scheme) self.now)
            (result ≡ Ok tt) (λ broken. result ≡ Err broken) }
    {
        if self.scheme.participants().is_empty() {
            return Err(ConfigError::NoParticipants);
        }
        if self.leader_timeout == 0 {
            return Err(ConfigError::LeaderTimeoutZero);
        }
        if self.certification_timeout <= self.leader_timeout {
            return Err(ConfigError::CertificationNotAboveLeader);
        }
        if self.skip.is_at_or_below(self.certification_timeout) {
            return Err(ConfigError::SkipNotAboveCertification);
        }
        if self.skip.is_at_or_below(self.timeout_retry) {
            return Err(ConfigError::SkipNotAboveRetry);
        }
        if self.timeout_retry == 0 {
            return Err(ConfigError::RetryZero);
        }
        if self.view_retention.get() == 0 {
            return Err(ConfigError::RetentionZero);
        }
        self.assert_floor()
    }

    /// Tests only the floor.
    fn assert_floor(&self) -> Result<(), ConfigError>
    where
        S: Scheme<D>,
        ensures { MatchOption (first_broken_floor_rule (S.accepts self.now.scheme) self.now.epoch self.now.floor)
            (result ≡ Ok tt) (λ broken. result ≡ Err broken) }
    {
        let Floor::Finalized(finalization) = &self.floor else {
            return Ok(());
        };
        if finalization.proposal.round.epoch != self.epoch {
            return Err(ConfigError::FloorEpoch);
        }
        if finalization.proposal.round.view.is_zero() {
            return Err(ConfigError::FloorAtGenesis);
        }
        let subject = Subject::Finalize(finalization.proposal);
        if !self.scheme.verify(&subject, &finalization.certificate) {
            return Err(ConfigError::FloorUnverified);
        }
        Ok(())
    }
}

/// Why a member's settings are refused, in the order of the tests.
#[derive(Clone, Copy, PartialEq, Eq, Debug)]
pub enum ConfigError {
    /// The scheme has no participants.
    NoParticipants,
    /// The leader timeout is 0.
    LeaderTimeoutZero,
    /// The certification timeout is not above the leader timeout.
    CertificationNotAboveLeader,
    /// The skip timeout is not above the certification timeout.
    SkipNotAboveCertification,
    /// The skip timeout is not above the retry.
    SkipNotAboveRetry,
    /// The retry is 0.
    RetryZero,
    /// The view retention is 0.
    RetentionZero,
    /// The floor's finalization is of another epoch.
    FloorEpoch,
    /// The floor's finalization is of view 0, which is genesis.
    FloorAtGenesis,
    /// The scheme does not accept the floor's finalization.
    FloorUnverified,
}

impl ConfigError {
    fn name(&self) -> &'static str
        ensures { result.now ≡ config_error_name self.now }
    {
        match self {
            ConfigError::NoParticipants => "NoParticipants",
            ConfigError::LeaderTimeoutZero => "LeaderTimeoutZero",
            ConfigError::CertificationNotAboveLeader => "CertificationNotAboveLeader",
            ConfigError::SkipNotAboveCertification => "SkipNotAboveCertification",
            ConfigError::SkipNotAboveRetry => "SkipNotAboveRetry",
            ConfigError::RetryZero => "RetryZero",
            ConfigError::RetentionZero => "RetentionZero",
            ConfigError::FloorEpoch => "FloorEpoch",
            ConfigError::FloorAtGenesis => "FloorAtGenesis",
            ConfigError::FloorUnverified => "FloorUnverified",
        }
    }
}

impl fmt::Display for ConfigError {
    ghost use Rattle.std.specs.Prelude.{Some};

    ghost output = { λ error. Some (config_error_name error) };

    fn fmt<W: fmt::Write>(&self, f: &mut fmt::Formatter<W>) -> fmt::Result {
        f.write_str(self.name())
    }
}

impl Error for ConfigError {}
