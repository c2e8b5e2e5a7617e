//! The lines that call a resolver.

ghost use Rattle.std.specs.Prelude.{◌∷◌, []};
ghost use Rattle.simplex_program.specs.Words.{words_in, ReadsKind};
ghost use Rattle.simplex_program.specs.ResolverLine.{ReadsLine, ReadsLineOf};

use crate::words::{first_word, flag_of, view_of};
use simplex_types::reasons::Kind;
use simplex_types::types::View;

/// A line's call of a resolver.
#[derive(Clone, Copy)]
pub enum ResolverLine {
    Notarization(View),
    Nullification(View),
    Finalization(View),
    Certified { view: View, success: bool },
    Replayed,
    Settled { view: View, kind: Kind },
    KeySettled(View),
    Uncertifiable(View),
    Produce(View),
    Outstanding,
}

impl ResolverLine {
    /// Returns the call of the text, or `None` if it is no call. One space separates words. A line is recognised by its
    /// number of words, and then by the first.
    pub(crate) fn parse(text: &str) -> Option<ResolverLine>
        ensures { ReadsLine (words_in text.now) result }
    {
        match first_word(text) {
            (word, None) => bare_line(word),
            (word, Some(rest)) => longer_line(word, rest),
        }
    }
}

/// Returns the call of a word and the text after it.
fn longer_line(word: &str, rest: &str) -> Option<ResolverLine>
    ensures { ReadsLine (word.now ∷ words_in rest.now) result }
{
    match first_word(rest) {
        (view, None) => line_of_view(word, view),
        (view, Some(rest)) => longest_line(word, view, rest),
    }
}

/// Returns the call of a word and two more, of which the last one is all that is left.
fn longest_line(word: &str, view: &str, rest: &str) -> Option<ResolverLine>
    ensures { ReadsLine (word.now ∷ view.now ∷ words_in rest.now) result }
{
    match first_word(rest) {
        (second, None) => line_of_two(word, view, second),
        (_, Some(_)) => None,
    }
}

/// Returns the call of a single word.
fn bare_line(word: &str) -> Option<ResolverLine>
    ensures { ReadsLineOf 1 (word.now ∷ []) result }
{
    match word {
        "replayed" => Some(ResolverLine::Replayed),
        "outstanding" => Some(ResolverLine::Outstanding),
        _ => None,
    }
}

/// Returns the call of a word and a view.
fn line_of_view(word: &str, view: &str) -> Option<ResolverLine>
    ensures { ReadsLineOf 2 (word.now ∷ view.now ∷ []) result }
{
    let view = view_of(view)?;
    match word {
        "notarization" => Some(ResolverLine::Notarization(view)),
        "nullification" => Some(ResolverLine::Nullification(view)),
        "finalization" => Some(ResolverLine::Finalization(view)),
        "key-settled" => Some(ResolverLine::KeySettled(view)),
        "uncertifiable" => Some(ResolverLine::Uncertifiable(view)),
        "produce" => Some(ResolverLine::Produce(view)),
        _ => None,
    }
}

/// Returns the call of a word, a view and one word more.
fn line_of_two(word: &str, view: &str, second: &str) -> Option<ResolverLine>
    ensures { ReadsLineOf 3 (word.now ∷ view.now ∷ second.now ∷ []) result }
{
    let view = view_of(view)?;
    match word {
        "certified" => Some(ResolverLine::Certified {
            view,
            success: flag_of(second)?,
        }),
        "settled" => Some(ResolverLine::Settled {
            view,
            kind: kind_of(second)?,
        }),
        _ => None,
    }
}

fn kind_of(word: &str) -> Option<Kind>
    ensures { ReadsKind word.now result }
{
    match word {
        "notarization" => Some(Kind::Notarization),
        "nullification" => Some(Kind::Nullification),
        _ => None,
    }
}
