//! A digest of a chosen number of bytes.

ghost use Rattle.std.specs.Prelude.{◌≡◌, length};

use crate::hooks::DigestCodec;
use simplex_types::types::Digest;

/// A digest of `N` bytes.
#[derive(Clone, Copy, PartialEq, Eq, PartialOrd, Ord, Hash, Debug)]
pub struct BytesDigest<const N: usize> {
    bytes: [u8; N],
    ghost sized: { length bytes ≡ N },
}

impl<const N: usize> Digest for BytesDigest<N> {
    ghost use Rattle.simplex_codec.specs.Digests.{bytes_in_digest, digest_from_eq, digest_eq_self, same_digest};

    const SIZE: usize = N;

    ghost SIZE = { N };

    ghost bytes = { bytes_in_digest };

    fn as_bytes(&self) -> &[u8] {
        &self.bytes
    }

    ghost length_bytes = { λ d. d.sized };

    ghost equal_is_same = { digest_from_eq };

    ghost same_is_equal = { digest_eq_self };

    ghost bytes_injective = { same_digest };
}

impl<const N: usize> DigestCodec for BytesDigest<N> {
    fn read(bytes: &[u8]) -> Option<BytesDigest<N>> {
        let (front, rest) = bytes.split_first_chunk::<N>()?;
        if !rest.is_empty() {
            return None;
        }
        Some(BytesDigest { bytes: *front })
    }
}

impl<const N: usize> From<[u8; N]> for BytesDigest<N> {
    ghost use Rattle.simplex_codec.specs.Digests.{bytes_in_digest};

    ghost from_gives = { λ bytes digest. bytes_in_digest digest ≡ bytes };

    fn from(bytes: [u8; N]) -> BytesDigest<N> {
        BytesDigest { bytes }
    }
}

impl<const N: usize> From<BytesDigest<N>> for [u8; N] {
    ghost use Rattle.simplex_codec.specs.Digests.{bytes_in_digest};

    ghost from_gives = { λ digest bytes. bytes ≡ bytes_in_digest digest };

    fn from(digest: BytesDigest<N>) -> [u8; N] {
        digest.bytes
    }
}
