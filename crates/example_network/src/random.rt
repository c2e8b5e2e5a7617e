//! Random numbers, the same ones for the same seed.

ghost use Rattle.std.specs.Prelude.{◌≤◌};

/// A generator of numbers (SplitMix64).
#[derive(Clone, Copy)]
pub struct Random {
    state: u64,
}

impl Random {
    /// Returns a generator with this seed.
    pub(crate) fn new(seed: u64) -> Random {
        Random { state: seed }
    }

    /// Returns the next number of 64 bits.
    fn next(&mut self) -> u64 {
        self.state = self.state.wrapping_add(0x9e37_79b9_7f4a_7c15);
        let mixed = (self.state ^ (self.state >> 30)).wrapping_mul(0xbf58_476d_1ce4_e5b9);
        let mixed = (mixed ^ (mixed >> 27)).wrapping_mul(0x94d0_49bb_1331_11eb);
        mixed ^ (mixed >> 31)
    }

    /// Returns a number below a bound above 0; 0 if the bound is 0.
    pub(crate) fn below(&mut self, bound: u64) -> u64
        ensures { result ≤ bound }
    {
        let number = self.next();
        if bound == 0 { 0 } else { number % bound }
    }
}
