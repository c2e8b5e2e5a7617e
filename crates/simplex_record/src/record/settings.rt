//! A start from a member's settings, which are tested.

ghost use Rattle.std.specs.Prelude.{◌≡◌, ◌==◌, Ok, Err, IfOk, MatchOption, length};
ghost use Rattle.simplex_types.specs.Config.{first_broken_rule};
ghost use Rattle.simplex_record.specs.Settings.{skip_budget_of, start_by, start_error};

use super::start::Start;
use simplex_types::config::{Config, ConfigError, SkipPolicy};
use simplex_types::types::{Digest, Elector, Scheme};
use simplex_voter::voter::Config as StateConfig;
use std::error::Error;
use std::fmt;

/// Why settings make no start, in the order of the tests.
#[derive(Clone, Copy, PartialEq, Eq, Debug)]
pub enum StartError {
    /// The first rule that the settings break.
    Config(ConfigError),
    /// The elector has more or fewer members than the scheme has participants.
    OtherMembers,
}

impl fmt::Display for StartError {
    ghost use Rattle.std.specs.Prelude.{Some};
    ghost use Rattle.simplex_record.specs.Errors.{start_error_name};

    ghost output = { λ error. Some (start_error_name error) };

    fn fmt<W: fmt::Write>(&self, f: &mut fmt::Formatter<W>) -> fmt::Result {
        match self {
            StartError::Config(error) => write!(f, "{error}"),
            StartError::OtherMembers => write!(f, "OtherMembers"),
        }
    }
}

impl Error for StartError {}

impl<S: Scheme<D>, L: Elector<S>, D: Digest> Start<S, L, D> {
    /// Returns the start of a member from its settings, which are tested, with an elector and at a moment in
    /// milliseconds.
    ///
    /// If skipping is disabled no latched timeout counts, so a view ends only by its own deadlines. Returns `Config`
    /// with the first rule that the settings break; `OtherMembers` if the elector's members are not the scheme's
    /// participants. The returned start meets what `Member::start`, a restart and a resume require of it, `fits`.
    pub fn of(config: Config<S, D>, elector: L, now: u64) -> Result<Start<S, L, D>, StartError>
        ensures tested { MatchOption
            (start_error (first_broken_rule (length (S.participants config.scheme)) (S.accepts config.scheme) config)
            (L.members elector == length (S.participants config.scheme)))
            (result ≡ Ok (start_by (length (S.participants config.scheme)) config elector now))
            (λ error. result ≡ Err error) }
        ensures fits { IfOk result
            (λ start. L.members start.settings.elector ≡ length (S.participants start.settings.scheme)) }
    {
        if let Err(broken) = config.assert() {
            return Err(StartError::Config(broken));
        }
        let participants = config.scheme.participants().len();
        if elector.members() != participants {
            return Err(StartError::OtherMembers);
        }
        let skip_budget = skip_budget(config.skip, participants);
        let settings = StateConfig {
            scheme: config.scheme,
            elector,
            epoch: config.epoch,
            view_retention: config.view_retention,
            leader_timeout: config.leader_timeout,
            certification_timeout: config.certification_timeout,
            timeout_retry: config.timeout_retry,
            skip_budget,
        };
        Ok(Start {
            settings,
            floor: config.floor,
            now,
        })
    }
}

/// How many unfinalized terms may be skipped among this many participants.
fn skip_budget(policy: SkipPolicy, participants: usize) -> u64
    ensures { result ≡ skip_budget_of policy participants }
{
    match policy {
        SkipPolicy::Disabled => 0,
        SkipPolicy::Enabled { budget, .. } => budget.resolve(participants),
    }
}
