//! Digests of blocks.

ghost use Rattle.std.specs.Prelude.{◌≡◌, true, length, List, ℕ};
ghost use Rattle.std.specs.Int.{w64, to_be_bytes};
ghost use Rattle.example_engine.specs.Checksum.{block_number};

use crate::checksum::checksum;
use simplex_codec::hooks::DigestCodec;
use simplex_types::types::{Digest, View};
use std::fmt;

/// A block's digest, of eight bytes. A real one is a hash that nobody can invert.
#[derive(Clone, Copy, PartialEq, Eq)]
pub struct BlockDigest {
    bytes: [u8; 8],
    ghost sized: { length bytes ≡ 8 },
}

impl BlockDigest {
    ghost use Rattle.example_engine.specs.Digests.{block_bytes};

    /// Returns the digest of genesis.
    pub(crate) fn genesis() -> BlockDigest
        ensures { block_bytes result ≡ to_be_bytes w64 0 }
    {
        BlockDigest::of_number(0)
    }

    /// Returns the digest whose bytes are the number's, big-endian.
    pub(crate) fn of_number(number: u64) -> BlockDigest
        ensures { block_bytes result ≡ to_be_bytes w64 number }
    {
        BlockDigest {
            bytes: number.to_be_bytes(),
        }
    }

    /// Returns the digest of the block that is built in a view on a parent. A leader can choose among several blocks;
    /// `choice` is the number of the block.
    pub fn of_block(parent: &BlockDigest, view: View, choice: u64) -> BlockDigest
        ensures { block_bytes result ≡ to_be_bytes w64 (block_number (block_bytes parent.now) view choice) }
    {
        let number = view.get().to_be_bytes();
        let seed = checksum(choice % 1000 + 1, &parent.bytes);
        let low = checksum(seed, &number);
        let high = checksum(low, &parent.bytes);
        BlockDigest {
            bytes: (high * (1 << 32) + low).to_be_bytes(),
        }
    }
}

/// Writes eight hexadecimal digits of it.
impl fmt::Display for BlockDigest {
    fn fmt<W: fmt::Write>(&self, f: &mut fmt::Formatter<W>) -> fmt::Result {
        let start = u64::from_be_bytes(self.bytes) / (1 << 32);
        write!(f, "{start:08x}")
    }
}

impl Digest for BlockDigest {
    ghost use Rattle.example_engine.specs.Digests.{block_bytes, from_eq, eq_self, same_bytes};

    const SIZE: usize = 8;

    ghost SIZE = { 8 };

    ghost bytes = { block_bytes };

    fn as_bytes(&self) -> &[u8] {
        &self.bytes
    }

    ghost length_bytes = { λ d. d.sized };

    ghost equal_is_same = { from_eq };

    ghost same_is_equal = { eq_self };

    ghost bytes_injective = { same_bytes };
}

impl DigestCodec for BlockDigest {
    fn read(bytes: &[u8]) -> Option<BlockDigest> {
        let (front, rest) = bytes.split_first_chunk::<8>()?;
        if !rest.is_empty() {
            return None;
        }
        Some(BlockDigest { bytes: *front })
    }
}
