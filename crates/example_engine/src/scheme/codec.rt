//! Signatures and certificates as bytes, and their decoding.

use super::{MemberKey, Seal, SealScheme, Signature};
use bytes::{BufMut, BytesMut};
use simplex_codec::hooks::SchemeCodec;
use std::alloc::{AllocError, Global};

impl SchemeCodec for SealScheme {
    ghost use Rattle.example_engine.specs.Seals.{signature_encoding, signature_from_bytes};

    ghost signature_bytes = { signature_encoding };

    ghost signature_of = { signature_from_bytes };

    /// Reads a certificate from any bytes; `Scheme::verify` checks whether it is valid.
    fn read_certificate(alloc: Global, bytes: &[u8]) -> Result<Option<Seal>, AllocError> {
        Ok(Some(Seal {
            signers: Vec::from_slice(alloc, bytes)?,
        }))
    }

    fn write_signature(out: &mut BytesMut, signature: &Signature) -> Result<(), AllocError> {
        out.put_u32(signature.key.number)?;
        out.put_u64(signature.sum)
    }

    fn read_signature(_alloc: Global, bytes: &[u8]) -> Result<Option<Signature>, AllocError> {
        let Some((key, rest)) = bytes.split_first_chunk::<4>() else {
            return Ok(None);
        };
        let Some((sum, rest)) = rest.split_first_chunk::<8>() else {
            return Ok(None);
        };
        if !rest.is_empty() {
            return Ok(None);
        }
        Ok(Some(Signature {
            key: MemberKey {
                number: u32::from_be_bytes(*key),
            },
            sum: u64::from_be_bytes(*sum),
        }))
    }
}
