//! The inverse of `Certificate::encode`: the codec's decoder at this crate's digest and scheme.

ghost use Rattle.std.specs.Prelude.{◌≡◌, IfOk, IfErr};
ghost use Rattle.simplex_types.specs.Certificates.{certificate_facts};
ghost use Rattle.simplex_types.specs.Encoding.{encoding, IsEncodable};
ghost use Rattle.simplex_codec.specs.Refusals.{IsCertificateRefusal, ReadsCertificates};
ghost use Rattle.example_engine.specs.Digests.{block_bytes};
ghost use Rattle.example_engine.specs.Seals.{seal_bytes};

use crate::parts::Proof;
use simplex_codec::certificate::decode_certificate;
use simplex_codec::error::DecodeError;
use std::alloc::Global;

/// Returns the certificate that the bytes encode: a kind, then the epoch, the view, and of a proposal the parent and
/// the payload, in eight bytes each, and after them the signers.
///
/// Bytes of no certificate are refused: each error but `OutOfMemory` says what is wrong with them. `Scheme::verify`
/// checks whether the certificate is valid.
pub fn decode(alloc: Global, bytes: &[u8]) -> Result<Proof, DecodeError>
    ensures decoded { IfOk result (λ proof. encoding block_bytes (certificate_facts seal_bytes proof) ≡ bytes.now) }
    ensures fits { IfOk result (λ proof. IsEncodable (certificate_facts seal_bytes proof)) }
    ensures refused { IfErr result (IsCertificateRefusal block_bytes 8 seal_bytes bytes.now) }
    ensures reads { ReadsCertificates block_bytes seal_bytes bytes.now result }
{
    decode_certificate(alloc, bytes)
}
