//! The reply lines of a resolver.

ghost use Rattle.std.specs.Prelude.{◌++◌, codes, Some};
ghost use Rattle.std.specs.List.{flat_map};
ghost use Rattle.std.specs.Fmt.{WritesOnOk};
ghost use Rattle.simplex_program.specs.Texts.{text_of};
ghost use Rattle.simplex_program.specs.ResolverText.{resolver_reply_text, effects_text, effect_words, encoding_text};

use crate::resolver::Answer;
use crate::texts::{write_fault, write_list};
use simplex_resolver::resolver::Effect;
use std::fmt;
use std::fmt::{Display, Formatter};

impl Display for Answer {
    ghost output = { λ answer. Some (resolver_reply_text answer) };

    fn fmt<W: fmt::Write>(&self, f: &mut Formatter<W>) -> fmt::Result {
        match self {
            Answer::Effects(effects) => write_effects(f, effects.as_slice()),
            Answer::Flag(flag) => write!(f, "{flag}"),
            Answer::Encoding(None) => f.write_str("none"),
            Answer::Encoding(Some(bytes)) => write_hexadecimal(f, bytes.as_slice()),
            Answer::Outstanding(views) => write_list(f, "outstanding", views.as_slice()),
            Answer::Fault(fault) => write_fault(f, *fault),
            Answer::NotAllowed => f.write_str("not-allowed"),
        }
    }
}

fn write_effects<W: fmt::Write>(f: &mut Formatter<W>, effects: &[Effect]) -> fmt::Result
    ensures { WritesOnOk W.write_str_gives f.old result (effects_text effects.now) f.new }
{
    let Some((first, others)) = effects.split_first() else {
        return f.write_str("-");
    };
    write_effect(f, first)?;
    write_others(f, others)
}

/// Writes each effect after a semicolon and a space.
fn write_others<W: fmt::Write>(f: &mut Formatter<W>, effects: &[Effect]) -> fmt::Result
    ensures { WritesOnOk W.write_str_gives f.old result (flat_map (λ effect. codes "; " ++ text_of (effect_words effect)) effects.now) f.new }
{
    for effect in effects {
        f.write_str("; ")?;
        write_effect(f, effect)?;
    }
    Ok(())
}

fn write_effect<W: fmt::Write>(f: &mut Formatter<W>, effect: &Effect) -> fmt::Result
    ensures { WritesOnOk W.write_str_gives f.old result (text_of (effect_words effect.now)) f.new }
{
    match effect {
        Effect::Fetch {
            view,
            cause,
            reason,
        } => write!(
            f,
            "fetch {} {} {}",
            view.get(),
            cause.get(),
            reason.as_str()
        ),
        Effect::Settled { kind, start, end } => write!(
            f,
            "settled {} {} {}",
            kind.as_str(),
            start.get(),
            end.get()
        ),
        Effect::Finalized(view) => write!(f, "finalized {}", view.get()),
        Effect::Raised(view) => write!(f, "raised {}", view.get()),
    }
}

fn write_hexadecimal<W: fmt::Write>(f: &mut Formatter<W>, bytes: &[u8]) -> fmt::Result
    ensures { WritesOnOk W.write_str_gives f.old result (encoding_text bytes.now) f.new }
{
    for byte in bytes {
        write!(f, "{byte:02x}")?;
    }
    Ok(())
}
