//! Why there is no member, or why a record is not loaded, as numbers: 0 is success.

ghost use Rattle.std.specs.Prelude.{◌≡◌};
ghost use Rattle.ffi_member.specs.Statuses.{config_number, not_read_number, not_resumed_number, not_started_number, not_written_number, recover_number};
ghost use Rattle.ffi_member.specs.Statuses.{restart_number, settings_number};

use crate::held::NotStarted;
use crate::journal::{NotRead, NotWritten};
use crate::resumption::NotResumed;
use crate::settings::SettingsError;
use simplex_member::member::RecoverError;
use simplex_record::record::StartError;
use simplex_types::config::ConfigError;

/// Returns the number of an error of a start.
pub fn number_of_not_started(error: NotStarted) -> u32
    ensures { result ≡ not_started_number error }
{
    match error {
        NotStarted::Settings(error) => number_of_settings(error),
        NotStarted::Recover(error) => number_of_recover(error),
    }
}

/// Returns the number of an error of a resume.
pub fn number_of_not_resumed(error: NotResumed) -> u32
    ensures { result ≡ not_resumed_number error }
{
    match error {
        NotResumed::Settings(error) => number_of_settings(error),
        NotResumed::NoFlag => 10,
        NotResumed::Journal(error) => number_of_not_read(error),
        NotResumed::EntriesLost => 11,
        NotResumed::Recover(error) => number_of_recover(error),
    }
}

/// Returns the number of a restart's result: 0 if it succeeds.
pub fn number_of_restart(answer: Result<(), NotStarted>) -> u32
    ensures { result ≡ restart_number answer }
{
    match answer {
        Ok(()) => 0,
        Err(error) => number_of_not_started(error),
    }
}

fn number_of_not_read(error: NotRead) -> u32
    ensures { result ≡ not_read_number error }
{
    match error {
        NotRead::OutOfMemory => 1,
        NotRead::Damaged(_) => 12,
        NotRead::NoEntry(_, _) => 13,
    }
}

fn number_of_settings(error: SettingsError) -> u32
    ensures { result ≡ settings_number error }
{
    match error {
        SettingsError::OutOfMemory => 1,
        SettingsError::NoSuchMember => 8,
        SettingsError::NothingLeads => 9,
        SettingsError::NoFlag => 10,
        SettingsError::NoSuchLeader => 31,
        SettingsError::OtherTable => 32,
        SettingsError::Refused(StartError::Config(error)) => number_of_config(error),
        SettingsError::Refused(StartError::OtherMembers) => 30,
    }
}

fn number_of_config(error: ConfigError) -> u32
    ensures { result ≡ config_number error }
{
    match error {
        ConfigError::NoParticipants => 20,
        ConfigError::LeaderTimeoutZero => 21,
        ConfigError::CertificationNotAboveLeader => 22,
        ConfigError::SkipNotAboveCertification => 23,
        ConfigError::SkipNotAboveRetry => 24,
        ConfigError::RetryZero => 25,
        ConfigError::RetentionZero => 26,
        ConfigError::FloorEpoch => 27,
        ConfigError::FloorAtGenesis => 28,
        ConfigError::FloorUnverified => 29,
    }
}

/// Returns the number of why a record's entries are not loaded.
pub fn number_of_not_written(error: NotWritten) -> u32
    ensures { result ≡ not_written_number error }
{
    match error {
        NotWritten::OutOfMemory => 1,
        NotWritten::TooLong => 14,
    }
}

fn number_of_recover(error: RecoverError) -> u32
    ensures { result ≡ recover_number error }
{
    match error {
        RecoverError::OutOfMemory => 1,
        RecoverError::OutOfOrder => 40,
        RecoverError::OtherEpoch => 41,
        RecoverError::ZeroView => 42,
        RecoverError::ViewTooLarge => 43,
        RecoverError::ForeignSigner => 44,
        RecoverError::ParentNotBelow => 45,
        RecoverError::VerdictWithoutNotarization => 46,
        RecoverError::ContradictingVerdicts => 47,
        RecoverError::NullifyBesideFinalize => 48,
        RecoverError::ContradictingVotes => 49,
        RecoverError::FinalizeWithoutVerdict => 50,
        RecoverError::TimeOverflow => 51,
        RecoverError::RetentionGrown => 52,
    }
}
