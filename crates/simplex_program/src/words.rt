//! The words of lines.

ghost use Rattle.std.specs.Prelude.{◌≡◌, ◌∷◌, []};
ghost use Rattle.std.specs.Option.{option_map_or};
ghost use Rattle.simplex_program.specs.Decimal.{ReadsDecimal};
ghost use Rattle.simplex_program.specs.Words.{words_in, ReadsFlag, ReadsTimeoutReason};

use crate::decimal::decimal;
use simplex_types::reasons::TimeoutReason;
use simplex_types::types::View;

/// Returns the first word of a text, and the text after the space that follows it, if there is one. One space separates
/// words.
pub(crate) fn first_word(text: &str) -> (&str, Option<&str>)
    ensures { words_in text.now ≡ result.0.now ∷ option_map_or (λ rest. words_in rest.now) result.1 [] }
{
    match text.split_once(' ') {
        Some((word, rest)) => (word, Some(rest)),
        None => (text, None),
    }
}

/// Returns the view that a word writes.
pub(crate) fn view_of(word: &str) -> Option<View>
    ensures { ReadsDecimal word.now result }
{
    Some(View::new(decimal(word)?))
}

/// Returns the Boolean that a word names.
pub(crate) fn flag_of(word: &str) -> Option<bool>
    ensures { ReadsFlag word.now result }
{
    match word {
        "true" => Some(true),
        "false" => Some(false),
        _ => None,
    }
}

/// Returns the reason of a timeout that a word names.
pub(crate) fn timeout_reason_of(word: &str) -> Option<TimeoutReason>
    ensures { ReadsTimeoutReason word.now result }
{
    match word {
        "Retry" => Some(TimeoutReason::Retry),
        "Inactivity" => Some(TimeoutReason::Inactivity),
        "LeaderNullify" => Some(TimeoutReason::LeaderNullify),
        "LeaderTimeout" => Some(TimeoutReason::LeaderTimeout),
        "CertificationTimeout" => Some(TimeoutReason::CertificationTimeout),
        "StallTimeout" => Some(TimeoutReason::StallTimeout),
        "MissingProposal" => Some(TimeoutReason::MissingProposal),
        "IgnoredProposal" => Some(TimeoutReason::IgnoredProposal),
        "InvalidProposal" => Some(TimeoutReason::InvalidProposal),
        "FailedCertification" => Some(TimeoutReason::FailedCertification),
        _ => None,
    }
}
