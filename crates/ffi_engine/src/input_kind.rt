//! The kinds of inputs, and their numbers.

ghost use Rattle.std.specs.Prelude.{◌≡◌, ◌==◌, MatchOption};
ghost use Rattle.ffi_engine.specs.declared.input_kind.InputKind.TheVariants as kind;
ghost use Rattle.ffi_engine.specs.Inputs.{IsInputKind, IsNoInputKind, input_number};

/// The kind of an input.
#[derive(Clone, Copy, PartialEq, Eq, Debug)]
pub enum InputKind {
    Proposal,
    Vote,
    Certificate,
    Verified,
    Built,
    Certified,
    GivenUp,
}

/// Returns the input's kind of a number, if it is one's.
pub fn input_kind_of(number: u32) -> Option<InputKind>
    ensures { MatchOption result (IsNoInputKind number) (λ kind. (input_number kind ≡ number) × IsInputKind number) }
{
    match number {
        1 => Some(InputKind::Proposal),
        2 => Some(InputKind::Vote),
        3 => Some(InputKind::Certificate),
        4 => Some(InputKind::Verified),
        5 => Some(InputKind::Built),
        6 => Some(InputKind::Certified),
        7 => Some(InputKind::GivenUp),
        _ => None,
    }
}

/// Returns whether a number is that of votes.
pub fn is_number_of_votes(number: u32) -> bool
    ensures { result ≡ (number == input_number kind.Vote) }
{
    matches!(input_kind_of(number), Some(InputKind::Vote))
}
