//! How an engine behind a handle begins: a first lifetime at a floor, or another from the bytes of a journal.

ghost use Rattle.std.specs.Prelude.{◌≡◌, Err, IfOk, IfErr};
ghost use Rattle.ffi_engine.specs.EngineStarts.{engine_not_started_number, engine_not_started_of, options_of};

use crate::flat::FlatOptions;
use crate::held::HeldEngine;
use ffi_member::flat::FlatSettings;
use ffi_member::resolver_calls::{NotReplayed, number_of_not_replayed};
use ffi_member::resumption::{NotResumed, read_resumption};
use ffi_member::settings::{SettingsError, start_of};
use ffi_member::statuses::number_of_not_resumed;
use ffi_member::view_types::FlatStored;
use simplex_engine::engine::{Engine, Options, StartError};
use simplex_member::member::ResumeError;
use simplex_record::record::StartError as RefusedStart;
use simplex_resolver::replay::ReplayError;
use simplex_types::config::ConfigError;
use std::alloc::Global;

/// Why an engine could not begin.
#[derive(Clone, Copy, PartialEq, Eq, Debug)]
pub enum EngineNotStarted {
    /// No member of these settings starts or resumes, for this reason.
    Member(NotResumed),
    /// The resolver refuses the record.
    Resolver(ReplayError),
    /// The options' `retry` is 0: a fetch would be asked again at once, of one peer after another.
    FetchRetryZero,
}

impl HeldEngine {
    ghost use Rattle.ffi_engine.specs.EngineStarts.{IsEngineStarted, IsEngineNotStarted, IsEngineNotResumed, IsEngineResumed};
    ghost use Rattle.ffi_engine.specs.declared.begin.EngineNotStarted.TheVariants.{FetchRetryZero};

    /// Starts an engine whose member never voted, from flat settings, a table of leaders and the bytes of the floor's
    /// certificate.
    ///
    /// # Errors
    ///
    /// `FetchRetryZero` exactly if the options' `retry` is 0, whatever the settings are; otherwise why no member starts
    /// with the settings.
    pub fn start(
        alloc: Global,
        flat: &FlatSettings,
        leaders: &[u32],
        certificate: &[u8],
        options: &FlatOptions,
        now: u64,
    ) -> Result<HeldEngine, EngineNotStarted>
        ensures begun { IfOk result (IsEngineStarted flat.now leaders.now certificate.now options.now now) }
        ensures no_retry { options.now.retry ≡ 0 → result ≡ Err FetchRetryZero }
        ensures refused { IfErr result (IsEngineNotStarted flat.now leaders.now certificate.now options.now now) }
    {
        if options.retry == 0 {
            return Err(EngineNotStarted::FetchRetryZero);
        }
        let start = match start_of(alloc, flat, leaders, certificate, now) {
            Ok(start) => start,
            Err(error) => return Err(EngineNotStarted::Member(NotResumed::Settings(error))),
        };
        match Engine::start(alloc, start, options_in(options)) {
            Ok(engine) => Ok(HeldEngine::new(alloc, engine, flat.namespace, flat.draws)),
            Err(error) => Err(engine_not_started(error)),
        }
    }

    /// Resumes an engine from its journal: the bytes of its entries as frames, and what was last stored beside them.
    ///
    /// # Errors
    ///
    /// `FetchRetryZero` exactly if the options' `retry` is 0, whatever else is passed; otherwise why no member resumes
    /// from the journal, or the resolver does not.
    pub fn resume(
        alloc: Global,
        flat: &FlatSettings,
        leaders: &[u32],
        certificate: &[u8],
        options: &FlatOptions,
        now: u64,
        stored: &FlatStored,
        journal: &[u8],
    ) -> Result<HeldEngine, EngineNotStarted>
        ensures resumed { IfOk result
            (IsEngineResumed flat.now leaders.now certificate.now options.now now stored.now journal.now) }
        ensures no_retry { options.now.retry ≡ 0 → result ≡ Err FetchRetryZero }
        ensures refused { IfErr result
            (IsEngineNotResumed flat.now leaders.now certificate.now options.now now stored.now journal.now) }
    {
        if options.retry == 0 {
            return Err(EngineNotStarted::FetchRetryZero);
        }
        let from = match read_resumption(alloc, flat, leaders, certificate, now, stored, journal) {
            Ok(from) => from,
            Err(error) => return Err(EngineNotStarted::Member(error)),
        };
        let options = options_in(options);
        match Engine::resume(alloc, from.start, from.stored, from.entries, options) {
            Ok(engine) => Ok(HeldEngine::new(alloc, engine, flat.namespace, flat.draws)),
            Err(error) => Err(engine_not_started(error)),
        }
    }
}

/// Returns the options of a flat struct.
fn options_in(flat: &FlatOptions) -> Options
    ensures { result ≡ options_of flat.now }
{
    Options {
        retry: flat.retry,
        on_its_way: flat.on_its_way,
        long_record: flat.long_record as usize,
    }
}

fn engine_not_started(error: StartError) -> EngineNotStarted
    ensures { result ≡ engine_not_started_of error }
{
    match error {
        StartError::RetryZero => EngineNotStarted::Member(NotResumed::Settings(
            SettingsError::Refused(RefusedStart::Config(ConfigError::RetryZero)),
        )),
        StartError::Resume(ResumeError::EntriesLost) => EngineNotStarted::Member(
            NotResumed::EntriesLost,
        ),
        StartError::Resume(ResumeError::Recover(error)) => {
            EngineNotStarted::Member(NotResumed::Recover(error))
        }
        StartError::Replay(error) => EngineNotStarted::Resolver(error),
    }
}

/// Returns the number of an error of `start` or `resume`.
pub fn number_of_engine_not_started(error: EngineNotStarted) -> u32
    ensures { result ≡ engine_not_started_number error }
{
    match error {
        EngineNotStarted::Member(error) => number_of_not_resumed(error),
        EngineNotStarted::Resolver(error) => number_of_not_replayed(NotReplayed::Replay(error)),
        EngineNotStarted::FetchRetryZero => 33,
    }
}
