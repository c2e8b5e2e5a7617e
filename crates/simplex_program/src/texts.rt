//! The texts of faults, refusals and views.

ghost use Rattle.std.specs.Prelude.{◌≡◌, ◌∷◌, map, decimal};
ghost use Rattle.std.specs.List.{flat_map};
ghost use Rattle.std.specs.Fmt.{WritesOnOk};
ghost use Rattle.simplex_program.specs.Texts.{text_of, fault_number, fault_words, refusal_number, refusal_words};

use simplex_member::member::RecoverError;
use simplex_types::types::{Fault, View};
use std::fmt;
use std::fmt::Formatter;

/// Writes a fault, by its number and its name.
pub(crate) fn write_fault<W: fmt::Write>(f: &mut Formatter<W>, fault: Fault) -> fmt::Result
    ensures { WritesOnOk W.write_str_gives f.old result (text_of (fault_words fault)) f.new }
{
    write!(f, "fault {} {fault}", fault_number(fault))
}

/// Returns the number of a fault.
fn fault_number(fault: Fault) -> u8
    ensures { result ≡ fault_number fault }
{
    match fault {
        Fault::OutOfMemory => 1,
        Fault::Failed => 2,
        Fault::ViewTooLarge => 3,
        Fault::TimeOverflow => 4,
    }
}

/// Writes why a restart was refused, by its number and its name.
pub(crate) fn write_refusal<W: fmt::Write>(f: &mut Formatter<W>, error: RecoverError) -> fmt::Result
    ensures { WritesOnOk W.write_str_gives f.old result (text_of (refusal_words error)) f.new }
{
    write!(f, "refused {} {error}", refusal_number(error))
}

/// Returns the number of a refusal.
fn refusal_number(error: RecoverError) -> u8
    ensures { result ≡ refusal_number error }
{
    match error {
        RecoverError::OutOfOrder => 1,
        RecoverError::OtherEpoch => 2,
        RecoverError::ZeroView => 3,
        RecoverError::ViewTooLarge => 4,
        RecoverError::ForeignSigner => 5,
        RecoverError::ParentNotBelow => 6,
        RecoverError::VerdictWithoutNotarization => 7,
        RecoverError::ContradictingVerdicts => 8,
        RecoverError::NullifyBesideFinalize => 9,
        RecoverError::ContradictingVotes => 10,
        RecoverError::FinalizeWithoutVerdict => 11,
        RecoverError::TimeOverflow => 12,
        RecoverError::OutOfMemory => 13,
        RecoverError::RetentionGrown => 14,
    }
}

/// Writes a word, and each view after a space.
pub(crate) fn write_list<W: fmt::Write>(
    f: &mut Formatter<W>,
    first: &str,
    views: &[View],
) -> fmt::Result
    ensures { WritesOnOk W.write_str_gives f.old result (text_of (first.now ∷ map decimal views.now)) f.new }
{
    f.write_str(first)?;
    write_views(f, views)
}

/// Writes each view after a space.
fn write_views<W: fmt::Write>(f: &mut Formatter<W>, views: &[View]) -> fmt::Result
    ensures { WritesOnOk W.write_str_gives f.old result (flat_map (λ view. 32 ∷ decimal view) views.now) f.new }
{
    for view in views {
        write!(f, " {}", view.get())?;
    }
    Ok(())
}
