//! How a member starts from flat settings.

ghost use Rattle.std.specs.Prelude.{◌≡◌, ◌<◌, Some, None, IfOk, IfErr, OnOk, MatchOption, length};
ghost use Rattle.std.specs.Option.{ForSome, option_or};
ghost use Rattle.ffi_scheme.specs.HostLeaders.{host_members, host_terms};
ghost use Rattle.ffi_scheme.specs.Host.{certificate_bytes, host_signer, host_keys, host_keys_in};
ghost use Rattle.ffi_member.specs.Calls.{IsFlatProposal};
ghost use Rattle.ffi_member.specs.Settings.{IsConfig, IsSettingsErrorDue, IsElector, IsFloor, IsNoStart, IsSigner, IsSkip, IsStart, IsTerms};
ghost use Rattle.ffi_member.specs.Numbers.{flag_number};
ghost use Rattle.ffi_member.specs.Settings.{config_error, elector_error, flag_error, names_members, signer_error, table_error, terms_error};

use crate::flat::FlatSettings;
use crate::flat_calls::finalization_of;
use crate::numbers::flag_of;
use ffi_scheme::elector::HostElector;
use ffi_scheme::scheme::{HostDigest, HostScheme};
use simplex_record::record::{Start, StartError};
use simplex_types::config::{Config, Floor, ForwardPolicy, SkipBudget, SkipPolicy};
use simplex_types::types::{Epoch, Participant, TermLength, Terms, ViewDelta};
use std::alloc::{AllocError, Global};
use std::num::{NonZeroU32, NonZeroU64};

/// The settings of a member of the host.
pub type HostConfig = Config<HostScheme, HostDigest>;

/// Why no member has these flat settings.
#[derive(Clone, Copy, PartialEq, Eq, Debug)]
pub enum SettingsError {
    OutOfMemory,
    /// There is no member, or the one that signs is not among them.
    NoSuchMember,
    /// A term has no view, or the table of leaders no entry.
    NothingLeads,
    /// A number that must be 0 or 1 is neither.
    NoFlag,
    /// An entry of the table of leaders is not a member's index.
    NoSuchLeader,
    /// The table of leaders does not have one entry a member, and no certificate names leaders.
    OtherTable,
    /// They break a rule of a member's settings.
    Refused(StartError),
}

impl From<AllocError> for SettingsError {
    ghost use Rattle.std.specs.Prelude.{◌≡◌};
    ghost use Rattle.ffi_member.specs.declared.settings.SettingsError.TheVariants.{OutOfMemory};

    ghost from_gives = { λ _ error. error ≡ OutOfMemory };

    fn from(_refused: AllocError) -> SettingsError {
        SettingsError::OutOfMemory
    }
}

/// How a member of the host starts.
pub type HostStart = Start<HostScheme, HostElector, HostDigest>;

/// Checks flat settings, and returns how a member starts from them, with a table of leaders and the bytes of the
/// floor's certificate, at a moment in milliseconds.
pub fn start_of(
    alloc: Global,
    flat: &FlatSettings,
    leaders: &[u32],
    certificate: &[u8],
    now: u64,
) -> Result<HostStart, SettingsError>
    ensures made { IfOk result (IsStart flat.now leaders.now certificate.now now) }
    ensures refused { IfErr result (IsNoStart flat.now leaders.now certificate.now) }
    ensures fits { IfOk result
        (λ start. host_members start.settings.elector ≡ length (host_keys start.settings.scheme)) }
{
    let config = config_of(alloc, flat, certificate)?;
    let elector = elector_of(alloc, flat, leaders)?;
    match Start::of(config, elector, now) {
        Ok(start) => Ok(start),
        Err(error) => Err(SettingsError::Refused(error)),
    }
}

/// Returns the settings of a flat struct, with the bytes of the floor's certificate.
pub fn config_of(
    alloc: Global,
    flat: &FlatSettings,
    certificate: &[u8],
) -> Result<HostConfig, SettingsError>
    ensures config { IfOk result (IsConfig flat.now certificate.now) }
    ensures accepted { OnOk result (config_error flat.now ≡ None) }
    ensures refused { IfErr result (IsSettingsErrorDue (config_error flat.now)) }
{
    let signer = signer_in(flat)?;
    let floor = floor_of(alloc, flat, certificate)?;
    Ok(Config {
        scheme: HostScheme::new(alloc, flat.namespace, flat.members, signer)?,
        epoch: Epoch::new(flat.epoch),
        floor,
        leader_timeout: flat.leader_timeout,
        certification_timeout: flat.certification_timeout,
        timeout_retry: flat.timeout_retry,
        view_retention: ViewDelta::new(flat.view_retention),
        skip: skip_of(flat),
        forward: ForwardPolicy::Disabled,
    })
}

/// Returns the elector that flat settings name, with a table of leaders.
pub fn elector_of(
    alloc: Global,
    flat: &FlatSettings,
    leaders: &[u32],
) -> Result<HostElector, SettingsError>
    ensures elector { IfOk result (IsElector flat.now leaders.now) }
    ensures accepted { OnOk result (elector_error flat.now leaders.now ≡ None) }
    ensures refused { IfErr result (IsSettingsErrorDue (elector_error flat.now leaders.now)) }
{
    if flat.members == 0 {
        return Err(SettingsError::NoSuchMember);
    }
    if leaders.is_empty() {
        return Err(SettingsError::NothingLeads);
    }
    let terms = terms_in(flat)?;
    let draws = draws_in(flat, leaders)?;
    let table = Vec::from_slice(alloc, leaders)?;
    Ok(if draws {
        HostElector::drawn(table, flat.members, terms)
    } else {
        HostElector::by_table(table, flat.members, terms)
    })
}

/// Returns whether leaders are drawn from certificates; it checks the table of leaders for that.
fn draws_in(flat: &FlatSettings, leaders: &[u32]) -> Result<bool, SettingsError>
    ensures draws { IfOk result (λ draws. flat.now.draws ≡ flag_number draws) }
    ensures accepted { OnOk result (option_or (flag_error flat.now.draws) (table_error flat.now leaders.now) ≡ None) }
    ensures refused { IfErr result
        (λ error. option_or (flag_error flat.now.draws) (table_error flat.now leaders.now) ≡ Some error) }
{
    let Some(draws) = flag_of(flat.draws) else {
        return Err(SettingsError::NoFlag);
    };
    if !names_members(leaders, flat.members) {
        return Err(SettingsError::NoSuchLeader);
    }
    if !draws && leaders.len() as u64 != u64::from(flat.members) {
        return Err(SettingsError::OtherTable);
    }
    Ok(draws)
}

/// Returns whether each entry of a table is a member's index.
fn names_members(leaders: &[u32], members: u32) -> bool
    ensures { result ≡ names_members members leaders.now }
{
    leaders.iter().all(|index| *index < members)
}

fn signer_in(flat: &FlatSettings) -> Result<Option<Participant>, SettingsError>
    ensures signer { IfOk result (IsSigner flat.now) }
    ensures member { IfOk result (λ signer. ForSome signer (λ m. m < flat.now.members)) }
    ensures accepted { OnOk result (signer_error flat.now ≡ None) }
    ensures refused { IfErr result (λ error. signer_error flat.now ≡ Some error) }
{
    if flat.signer == u32::MAX {
        return Ok(None);
    }
    if flat.signer < flat.members {
        return Ok(Some(Participant::new(flat.signer)));
    }
    Err(SettingsError::NoSuchMember)
}

fn terms_in(flat: &FlatSettings) -> Result<Terms, SettingsError>
    ensures terms { IfOk result (IsTerms flat.now) }
    ensures accepted { OnOk result (terms_error flat.now ≡ None) }
    ensures refused { IfErr result (λ error. terms_error flat.now ≡ Some error) }
{
    let Some(length) = NonZeroU32::new(flat.term_length) else {
        return Err(SettingsError::NothingLeads);
    };
    let stall_timeout = match flag_of(flat.stalls) {
        Some(true) => Some(flat.stall_timeout),
        Some(false) => None,
        None => return Err(SettingsError::NoFlag),
    };
    Ok(Terms {
        term_length: TermLength::new(length),
        optimistic_views: flat.optimistic_views,
        stall_timeout,
    })
}

fn skip_of(flat: &FlatSettings) -> SkipPolicy
    ensures { IsSkip flat.now result }
{
    if flat.skip_timeout == 0 {
        return SkipPolicy::Disabled;
    }
    SkipPolicy::Enabled {
        timeout: flat.skip_timeout,
        budget: match NonZeroU64::new(flat.skip_budget) {
            Some(budget) => SkipBudget::Fixed(budget),
            None => SkipBudget::Participants,
        },
    }
}

fn floor_of(
    alloc: Global,
    flat: &FlatSettings,
    certificate: &[u8],
) -> Result<Floor<HostScheme, HostDigest>, SettingsError>
    ensures floor { IfOk result (IsFloor flat.now certificate.now) }
    ensures accepted { OnOk result (flag_error flat.now.is_finalized ≡ None) }
    ensures refused { IfErr result (IsSettingsErrorDue (flag_error flat.now.is_finalized)) }
{
    match flag_of(flat.is_finalized) {
        Some(true) => {
            let finalization = finalization_of(alloc, &flat.floor, certificate)?;
            Ok(Floor::Finalized(finalization))
        }
        Some(false) => Ok(Floor::Genesis(HostDigest::from(flat.floor.payload))),
        None => Err(SettingsError::NoFlag),
    }
}
