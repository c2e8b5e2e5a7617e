//! Decoding of certificates.

ghost use Rattle.std.specs.Prelude.{◌≡◌, ◌++◌, IfOk, IfErr};
ghost use Rattle.simplex_types.specs.Certificates.{certificate_facts};
ghost use Rattle.simplex_types.specs.Encoding.{round_bytes, proposal_bytes, encoding, IsEncodableRound, IsEncodable};
ghost use Rattle.simplex_codec.specs.Refusals.{IsEncodableProposal, IsProposalRefusal, IsRoundRefusal, IsCertificateRefusal, ReadsCertificates};

use crate::error::DecodeError;
use crate::hooks::{DigestCodec, SchemeCodec};
use crate::kinds::{FINALIZATION, NOTARIZATION, NULLIFICATION};
use crate::parts::{take_proposal, take_round};
use simplex_types::types::encoding::encoding_tells_apart;
use simplex_types::types::{
    Certificate, Finalization, Notarization, Nullification, Proposal, Round,
};
use std::alloc::Global;

/// Returns the certificate that `Certificate::encode` wrote as these bytes.
///
/// The returned certificate has exactly these bytes, and each certificate with these bytes has its kind, its round or
/// proposal and its scheme's bytes. Bytes of no certificate are refused: each error says what is wrong with them,
/// except `OutOfMemory`. `UnreadableSignature`, `UnknownVerdict` and `TrailingBytes` are never returned, since the
/// scheme receives all that is left. The crate itself takes no memory, only the scheme may.
pub fn decode_certificate<S: SchemeCodec, D: DigestCodec>(
    alloc: Global,
    bytes: &[u8],
) -> Result<Certificate<S, D>, DecodeError>
    ensures decoded { IfOk result (λ c. encoding D.bytes (certificate_facts S.certificate_bytes c) ≡ bytes.now) }
    ensures fits { IfOk result (λ c. IsEncodable (certificate_facts S.certificate_bytes c)) }
    ensures refused { IfErr result (IsCertificateRefusal D.bytes D.SIZE S.certificate_bytes bytes.now) }
    ensures reads { ReadsCertificates D.bytes S.certificate_bytes bytes.now result }
{
    encoding_tells_apart::<D>();
    decode_kind(alloc, bytes)
}

fn decode_kind<S: SchemeCodec, D: DigestCodec>(
    alloc: Global,
    bytes: &[u8],
) -> Result<Certificate<S, D>, DecodeError>
    ensures decoded { IfOk result (λ c. encoding D.bytes (certificate_facts S.certificate_bytes c) ≡ bytes.now) }
    ensures fits { IfOk result (λ c. IsEncodable (certificate_facts S.certificate_bytes c)) }
    ensures refused { IfErr result (IsCertificateRefusal D.bytes D.SIZE S.certificate_bytes bytes.now) }
{
    let Some((kind, rest)) = bytes.split_first() else {
        return Err(DecodeError::TooShort);
    };
    match *kind {
        NOTARIZATION => {
            let (proposal, certificate) = read_with_proposal::<S, D>(alloc, rest)?;
            Ok(Certificate::Notarization(Notarization {
                proposal,
                certificate,
            }))
        }
        NULLIFICATION => {
            let (round, certificate) = read_with_round::<S>(alloc, rest)?;
            Ok(Certificate::Nullification(Nullification { round, certificate }))
        }
        FINALIZATION => {
            let (proposal, certificate) = read_with_proposal::<S, D>(alloc, rest)?;
            Ok(Certificate::Finalization(Finalization {
                proposal,
                certificate,
            }))
        }
        unknown => Err(DecodeError::UnknownKind(unknown)),
    }
}

/// Reads a proposal, and a certificate of all the bytes after it.
fn read_with_proposal<S: SchemeCodec, D: DigestCodec>(
    alloc: Global,
    bytes: &[u8],
) -> Result<(Proposal<D>, S::Certificate), DecodeError>
    ensures parts { IfOk result (λ x. bytes.now ≡ proposal_bytes D.bytes x.0 ++ S.certificate_bytes x.1) }
    ensures fits { IfOk result (λ x. IsEncodableProposal x.0) }
    ensures refused { IfErr result (IsProposalRefusal D.bytes D.SIZE S.certificate_bytes bytes.now) }
{
    let (proposal, own) = take_proposal(bytes)?;
    match S::read_certificate(alloc, own)? {
        Some(certificate) => Ok((proposal, certificate)),
        None => Err(DecodeError::UnreadableCertificate),
    }
}

/// Reads a round, and a certificate of all the bytes after it.
fn read_with_round<S: SchemeCodec>(
    alloc: Global,
    bytes: &[u8],
) -> Result<(Round, S::Certificate), DecodeError>
    ensures parts { IfOk result (λ x. bytes.now ≡ round_bytes x.0 ++ S.certificate_bytes x.1) }
    ensures fits { IfOk result (λ x. IsEncodableRound x.0) }
    ensures refused { IfErr result (IsRoundRefusal S.certificate_bytes bytes.now) }
{
    let Some((round, own)) = take_round(bytes) else {
        return Err(DecodeError::TooShort);
    };
    match S::read_certificate(alloc, own)? {
        Some(certificate) => Ok((round, certificate)),
        None => Err(DecodeError::UnreadableCertificate),
    }
}
