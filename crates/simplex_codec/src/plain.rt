//! Decoding of the plain digest, scheme and signatures, which tests and programs use.

ghost use Rattle.std.specs.Prelude.{◌≡◌, IfSome};
ghost use Rattle.simplex_types.specs.Plain.{digest_bytes};
ghost use Rattle.simplex_types.specs.Encoding.{round_bytes, proposal_bytes, subject_bytes};
ghost use Rattle.simplex_codec.specs.Plain.{plain_signature_bytes, plain_signature_of, plain_subject_of, plain_proposal_of, plain_round_of};

use crate::fields::put_subject;
use crate::hooks::{DigestCodec, SchemeCodec};
use crate::kinds::{FINALIZATION, NOTARIZATION, NULLIFICATION};
use crate::parts::{take_round, take_u32, take_u64};
use bytes::{BufMut, BytesMut};
use simplex_types::types::plain::{
    PlainCertificate, PlainDigest, PlainKey, PlainScheme, PlainSignature,
};
use simplex_types::types::{Proposal, Round, Subject, View};
use std::alloc::{AllocError, Global};

impl DigestCodec for PlainDigest {
    fn read(bytes: &[u8]) -> Option<PlainDigest> {
        let (number, rest) = take_u64(bytes)?;
        if !rest.is_empty() {
            return None;
        }
        Some(PlainDigest::new(number))
    }
}

impl SchemeCodec for PlainScheme {
    ghost signature_bytes = { plain_signature_bytes };

    ghost signature_of = { plain_signature_of };

    fn read_certificate(
        _alloc: Global,
        bytes: &[u8],
    ) -> Result<Option<PlainCertificate>, AllocError> {
        Ok(match bytes {
            [0] => Some(PlainCertificate { good: false }),
            [1] => Some(PlainCertificate { good: true }),
            _ => None,
        })
    }

    fn write_signature(out: &mut BytesMut, signature: &PlainSignature) -> Result<(), AllocError> {
        let PlainKey(key) = signature.key;
        out.put_u32(key)?;
        put_subject(out, &signature.subject)?;
        Ok(())
    }

    fn read_signature(_alloc: Global, bytes: &[u8]) -> Result<Option<PlainSignature>, AllocError> {
        Ok(read_signed(bytes))
    }
}

/// Reads a key, and what was signed.
fn read_signed(bytes: &[u8]) -> Option<PlainSignature>
    ensures read { result ≡ plain_signature_of bytes.now }
    ensures same_bytes { IfSome result (λ s. plain_signature_bytes s ≡ bytes.now) }
{
    let (key, text) = take_u32(bytes)?;
    let subject = read_subject(text)?;
    Some(PlainSignature {
        key: PlainKey(key),
        subject,
    })
}

/// Reads what was signed, and nothing after it.
fn read_subject(bytes: &[u8]) -> Option<Subject<PlainDigest>>
    ensures read { result ≡ plain_subject_of bytes.now }
    ensures same_bytes { IfSome result (λ s. subject_bytes digest_bytes s ≡ bytes.now) }
{
    let (kind, rest) = bytes.split_first()?;
    match *kind {
        NOTARIZATION => Some(Subject::Notarize(read_proposal(rest)?)),
        NULLIFICATION => Some(Subject::Nullify(read_round(rest)?)),
        FINALIZATION => Some(Subject::Finalize(read_proposal(rest)?)),
        _ => None,
    }
}

/// Reads a round, and nothing after it.
fn read_round(bytes: &[u8]) -> Option<Round>
    ensures read { result ≡ plain_round_of bytes.now }
    ensures same_bytes { IfSome result (λ r. round_bytes r ≡ bytes.now) }
{
    match take_round(bytes) {
        Some((round, [])) => Some(round),
        _ => None,
    }
}

/// Reads a proposal, and nothing after it.
fn read_proposal(bytes: &[u8]) -> Option<Proposal<PlainDigest>>
    ensures read { result ≡ plain_proposal_of bytes.now }
    ensures same_bytes { IfSome result (λ p. proposal_bytes digest_bytes p ≡ bytes.now) }
{
    let Some((round, rest)) = take_round(bytes) else {
        return None;
    };
    let (parent, rest) = take_u64(rest)?;
    let payload = PlainDigest::read(rest)?;
    Some(Proposal {
        round,
        parent: View::new(parent),
        payload,
    })
}
