//! The kinds of a resolver's effects, and their numbers.

ghost use Rattle.std.specs.Prelude.{◌≡◌};
ghost use Rattle.ffi_member.specs.Numbers.{effect_number};

/// The kind of a resolver's effect: one for each variant of `Effect`.
#[derive(Clone, Copy, PartialEq, Eq, Debug)]
pub enum EffectKind {
    Fetch,
    Settled,
    Finalized,
    Raised,
}

/// Returns the number of an effect's kind.
pub fn number_of_effect(kind: EffectKind) -> u32
    ensures { result ≡ effect_number kind }
{
    match kind {
        EffectKind::Fetch => 1,
        EffectKind::Settled => 2,
        EffectKind::Finalized => 3,
        EffectKind::Raised => 4,
    }
}
