//! Encoding and decoding of artifacts, the entries of a member's record.

ghost use Rattle.std.specs.Prelude.{◌≡◌, ◌++◌, ◌<◌, ◌^◌, IfOk, IfErr, OnOk, Some};
ghost use Rattle.simplex_types.specs.Certificates.{certificate_facts};
ghost use Rattle.simplex_types.specs.Encoding.{encoding, IsEncodableRound, IsEncodable};
ghost use Rattle.simplex_codec.specs.Refusals.{IsEncodableProposal};
ghost use Rattle.simplex_codec.specs.Artifacts.{artifact_bytes, signed_proposal_bytes, signed_round, verdict_bytes, IsEncodableArtifact};
ghost use Rattle.simplex_codec.specs.Artifacts.{HasReadableSignature, ReadsArtifacts};
ghost use Rattle.simplex_codec.specs.Artifacts.{IsProposalVoteRefusal, IsRoundVoteRefusal, IsVerdictRefusal, IsArtifactRefusal};

use crate::certificate::decode_certificate;
use crate::error::DecodeError;
use crate::fields::{
    put_proposal_certificate, put_proposal_vote, put_round_certificate, put_round_vote, put_verdict,
};
use crate::hooks::{DigestCodec, SchemeCodec};
use crate::kinds::{
    FINALIZATION, FINALIZE, NOTARIZATION, NOTARIZE, NULLIFICATION, NULLIFY, VERDICT,
};
use crate::parts::{take_proposal, take_round, take_u32};
use bytes::{Bytes, BytesMut};
use simplex_types::types::encoding::encoding_tells_apart;
use simplex_types::types::{
    Artifact, Certificate, Digest, Finalize, Notarize, Nullify, Participant, Proposal, Round,
};
use std::alloc::{AllocError, Global};

/// Returns the artifact's bytes. Those of a certificate are what `Certificate::encode` writes.
///
/// A vote's signature can be read from its bytes. The only error is that memory ran out.
pub fn encode_artifact<S: SchemeCodec, D: Digest>(
    alloc: Global,
    artifact: &Artifact<S, D>,
) -> Result<Bytes, AllocError>
    ensures encoded { IfOk result
        (λ bytes. bytes ≡ artifact_bytes D.bytes S.certificate_bytes S.signature_bytes artifact.now) }
    ensures readable { OnOk result (HasReadableSignature S.signature_bytes S.signature_of artifact.now) }
{
    let mut out = BytesMut::new(alloc);
    put_artifact(&mut out, artifact)?;
    Ok(out.freeze()?)
}

fn put_artifact<S: SchemeCodec, D: Digest>(
    out: &mut BytesMut,
    artifact: &Artifact<S, D>,
) -> Result<(), AllocError>
    ensures written { OnOk result
        (out.new.items ≡ out.old.items ++ artifact_bytes D.bytes S.certificate_bytes S.signature_bytes artifact.now) }
    ensures readable { OnOk result (HasReadableSignature S.signature_bytes S.signature_of artifact.now) }
{
    match artifact {
        Artifact::Notarization(n) => {
            put_proposal_certificate::<S, D>(out, NOTARIZATION, &n.proposal, &n.certificate)
        }
        Artifact::Nullification(n) => {
            put_round_certificate::<S>(out, NULLIFICATION, n.round, &n.certificate)
        }
        Artifact::Finalization(f) => {
            put_proposal_certificate::<S, D>(out, FINALIZATION, &f.proposal, &f.certificate)
        }
        Artifact::Notarize(vote) => {
            put_proposal_vote::<S, D>(out, NOTARIZE, vote.signer, &vote.proposal, &vote.signature)
        }
        Artifact::Nullify(vote) => {
            put_round_vote::<S>(out, NULLIFY, vote.signer, vote.round, &vote.signature)
        }
        Artifact::Finalize(vote) => {
            put_proposal_vote::<S, D>(out, FINALIZE, vote.signer, &vote.proposal, &vote.signature)
        }
        Artifact::Certification(round, success) => put_verdict(out, *round, *success),
    }
}

/// Returns the artifact that `encode_artifact` wrote as these bytes.
///
/// The returned artifact has exactly these bytes, and each artifact with these bytes has its kind, signer, round or
/// proposal, verdict, certificate's bytes and an equal signature. Bytes of no artifact are refused: each error says
/// what is wrong with them, except `OutOfMemory`. The crate itself takes no memory, only the scheme may.
pub fn decode_artifact<S: SchemeCodec, D: DigestCodec>(
    alloc: Global,
    bytes: &[u8],
) -> Result<Artifact<S, D>, DecodeError>
    ensures decoded { IfOk result (λ a. artifact_bytes D.bytes S.certificate_bytes S.signature_bytes a ≡ bytes.now) }
    ensures fits { IfOk result IsEncodableArtifact }
    ensures readable { IfOk result (HasReadableSignature S.signature_bytes S.signature_of) }
    ensures refused { IfErr result (IsArtifactRefusal D.bytes D.SIZE S.certificate_bytes S.signature_of bytes.now) }
    ensures reads { ReadsArtifacts D.bytes S.certificate_bytes S.signature_bytes S.signature_of bytes.now result }
{
    encoding_tells_apart::<D>();
    decode_kind(alloc, bytes)
}

fn decode_kind<S: SchemeCodec, D: DigestCodec>(
    alloc: Global,
    bytes: &[u8],
) -> Result<Artifact<S, D>, DecodeError>
    ensures decoded { IfOk result (λ a. artifact_bytes D.bytes S.certificate_bytes S.signature_bytes a ≡ bytes.now) }
    ensures fits { IfOk result IsEncodableArtifact }
    ensures readable { IfOk result (HasReadableSignature S.signature_bytes S.signature_of) }
    ensures refused { IfErr result (IsArtifactRefusal D.bytes D.SIZE S.certificate_bytes S.signature_of bytes.now) }
{
    let Some((kind, rest)) = bytes.split_first() else {
        return Err(DecodeError::TooShort);
    };
    match *kind {
        NOTARIZE => {
            let (signer, proposal, signature) = read_proposal_vote::<S, D>(alloc, rest)?;
            Ok(Artifact::Notarize(Notarize {
                proposal,
                signer,
                signature,
            }))
        }
        NULLIFY => {
            let (signer, round, signature) = read_round_vote::<S>(alloc, rest)?;
            Ok(Artifact::Nullify(Nullify {
                round,
                signer,
                signature,
            }))
        }
        FINALIZE => {
            let (signer, proposal, signature) = read_proposal_vote::<S, D>(alloc, rest)?;
            Ok(Artifact::Finalize(Finalize {
                proposal,
                signer,
                signature,
            }))
        }
        VERDICT => {
            let (round, success) = read_verdict(rest)?;
            Ok(Artifact::Certification(round, success))
        }
        _ => Ok(accepted(decode_certificate(alloc, bytes)?)),
    }
}

/// Returns an accepted certificate as an entry of the record.
fn accepted<S: SchemeCodec, D: Digest>(entry: Certificate<S, D>) -> Artifact<S, D>
    ensures same { artifact_bytes D.bytes S.certificate_bytes S.signature_bytes result ≡ encoding D.bytes
        (certificate_facts S.certificate_bytes entry) }
    ensures fits { IsEncodable (certificate_facts S.certificate_bytes entry) → IsEncodableArtifact result }
    ensures readable { HasReadableSignature S.signature_bytes S.signature_of result }
{
    match entry {
        Certificate::Notarization(notarization) => Artifact::Notarization(notarization),
        Certificate::Nullification(nullification) => Artifact::Nullification(nullification),
        Certificate::Finalization(finalization) => Artifact::Finalization(finalization),
    }
}

/// Reads a signer, a proposal, and a signature of all the bytes after them.
fn read_proposal_vote<S: SchemeCodec, D: DigestCodec>(
    alloc: Global,
    bytes: &[u8],
) -> Result<(Participant, Proposal<D>, S::Signature), DecodeError>
    ensures parts { IfOk result (λ x. bytes.now ≡ signed_proposal_bytes D.bytes x.0 x.1 (S.signature_bytes x.2)) }
    ensures fits { IfOk result (λ x. IsEncodableProposal x.1 × (x.0 < 2 ^ 32)) }
    ensures readable { IfOk result (λ x. S.signature_of (S.signature_bytes x.2) ≡ Some x.2) }
    ensures refused { IfErr result (IsProposalVoteRefusal D.bytes D.SIZE S.signature_of bytes.now) }
{
    let Some((signer, rest)) = take_u32(bytes) else {
        return Err(DecodeError::TooShort);
    };
    let (proposal, own) = take_proposal(rest)?;
    match S::read_signature(alloc, own)? {
        Some(signature) => Ok((Participant::new(signer), proposal, signature)),
        None => Err(DecodeError::UnreadableSignature),
    }
}

/// Reads a signer, a round, and a signature of all the bytes after them.
fn read_round_vote<S: SchemeCodec>(
    alloc: Global,
    bytes: &[u8],
) -> Result<(Participant, Round, S::Signature), DecodeError>
    ensures parts { IfOk result (λ x. bytes.now ≡ signed_round x.0 x.1 (S.signature_bytes x.2)) }
    ensures fits { IfOk result (λ x. IsEncodableRound x.1 × (x.0 < 2 ^ 32)) }
    ensures readable { IfOk result (λ x. S.signature_of (S.signature_bytes x.2) ≡ Some x.2) }
    ensures refused { IfErr result (IsRoundVoteRefusal S.signature_of bytes.now) }
{
    let Some((signer, rest)) = take_u32(bytes) else {
        return Err(DecodeError::TooShort);
    };
    let Some((round, own)) = take_round(rest) else {
        return Err(DecodeError::TooShort);
    };
    match S::read_signature(alloc, own)? {
        Some(signature) => Ok((Participant::new(signer), round, signature)),
        None => Err(DecodeError::UnreadableSignature),
    }
}

/// Reads a round and its verdict, and nothing after them.
fn read_verdict(bytes: &[u8]) -> Result<(Round, bool), DecodeError>
    ensures parts { IfOk result (λ x. bytes.now ≡ verdict_bytes x.0 x.1) }
    ensures fits { IfOk result (λ x. IsEncodableRound x.0) }
    ensures refused { IfErr result (IsVerdictRefusal bytes.now) }
{
    let Some((round, rest)) = take_round(bytes) else {
        return Err(DecodeError::TooShort);
    };
    match rest {
        [] => Err(DecodeError::TooShort),
        [0] => Ok((round, false)),
        [1] => Ok((round, true)),
        [0 | 1, ..] => Err(DecodeError::TrailingBytes),
        [verdict, ..] => Err(DecodeError::UnknownVerdict(*verdict)),
    }
}
