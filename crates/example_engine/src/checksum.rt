//! A checksum in place of a hash.

ghost use Rattle.std.specs.Prelude.{◌≡◌, ◌<◌, ◌^◌};
ghost use Rattle.example_engine.specs.Checksum.{checksum_from};

/// The largest prime of 32 bits.
const MODULUS: u64 = 4_294_967_291;

const FACTOR: u64 = 65_599;

/// Returns a number of 32 bits that depends on a seed and on each byte. It distinguishes texts only if nobody tries to
/// deceive.
pub(crate) fn checksum(seed: u64, bytes: &[u8]) -> u64
    requires { seed < 2 ^ 32 }
    ensures value { result ≡ checksum_from seed bytes.now }
    ensures in_range { result < 2 ^ 32 }
{
    let mut sum = seed;
    for byte in bytes {
        sum = (sum * FACTOR + u64::from(*byte)) % MODULUS;
    }
    sum
}
