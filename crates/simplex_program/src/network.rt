//! The network that a voter is a member of.

ghost use Rattle.std.proofs.Props.{props};
ghost use Rattle.simplex_program.specs.Mode.{IsNetwork};

use simplex_types::types::TermLength;

/// The number of members, one of which signs or none; the length of terms, and how many views ahead of the current one
/// may be voted for.
#[derive(Clone, Copy)]
pub struct Network {
    pub members: u32,
    pub me: Option<u32>,
    pub term_length: TermLength,
    pub optimistic: u64,
    ghost is_network: { IsNetwork members me term_length } by { Prim.hlevel props },
}
