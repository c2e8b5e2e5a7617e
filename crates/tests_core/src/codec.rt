//! Artifacts and certificates as bytes and their decoding, frames, digests, and each refusal by name.

mod random;

use bytes::{Bytes, BytesMut};
use simplex_codec::artifact::{decode_artifact, encode_artifact};
use simplex_codec::certificate::decode_certificate;
use simplex_codec::digest::BytesDigest;
use simplex_codec::error::DecodeError;
use simplex_codec::frame::{NoFrame, read_frame, write_frame};
use simplex_codec::hooks::DigestCodec;
use simplex_types::types::plain::{
    PlainCertificate, PlainDigest, PlainKey, PlainScheme, PlainSignature,
};
use simplex_types::types::{
    Artifact, Certificate, Digest, Epoch, Fault, Finalization, Finalize, Notarization, Notarize,
    Nullification, Nullify, Participant, Proposal, Round, Subject, View,
};
use std::alloc::{AllocError, Global};
use std::fmt::Display;
use std::test::Fail;

type PlainArtifact = Artifact<PlainScheme, PlainDigest>;

fn round(view: u64) -> Round {
    Round {
        epoch: Epoch::new(1),
        view: View::new(view),
    }
}

fn proposal(view: u64, parent: u64) -> Proposal<PlainDigest> {
    Proposal {
        round: round(view),
        parent: View::new(parent),
        payload: PlainDigest::new(7),
    }
}

fn good() -> PlainCertificate {
    PlainCertificate { good: true }
}

/// A proposal at views whose high bytes are not 0.
fn high_proposal() -> Proposal<PlainDigest> {
    proposal(0x0102_0304_0506_0708, 0x1112_1314_1516_1718)
}

fn notarization() -> Notarization<PlainScheme, PlainDigest> {
    Notarization {
        proposal: high_proposal(),
        certificate: good(),
    }
}

fn nullification() -> Nullification<PlainScheme> {
    Nullification {
        round: round(0x0102_0304_0506_0708),
        certificate: PlainCertificate { good: false },
    }
}

fn finalization() -> Finalization<PlainScheme, PlainDigest> {
    Finalization {
        proposal: high_proposal(),
        certificate: good(),
    }
}

/// Returns a certificate of each kind.
fn certificates() -> [Certificate<PlainScheme, PlainDigest>; 3] {
    [
        Certificate::Notarization(notarization()),
        Certificate::Nullification(nullification()),
        Certificate::Finalization(finalization()),
    ]
}

/// Returns a signature on the subject.
fn signature(subject: Subject<PlainDigest>) -> PlainSignature {
    PlainSignature {
        key: PlainKey(2),
        subject,
    }
}

/// Returns an artifact of each kind.
pub(crate) fn artifacts() -> [PlainArtifact; 8] {
    let signer = Participant::new(2);
    [
        Artifact::Notarize(Notarize {
            proposal: proposal(3, 2),
            signer,
            signature: signature(Subject::Notarize(proposal(3, 2))),
        }),
        Artifact::Notarization(notarization()),
        Artifact::Certification(round(3), true),
        Artifact::Certification(round(3), false),
        Artifact::Nullify(Nullify {
            round: round(3),
            signer,
            signature: signature(Subject::Nullify(round(3))),
        }),
        Artifact::Nullification(nullification()),
        Artifact::Finalize(Finalize {
            proposal: proposal(3, 2),
            signer,
            signature: signature(Subject::Finalize(proposal(3, 2))),
        }),
        Artifact::Finalization(finalization()),
    ]
}

/// Returns why the bytes are no certificate, if they are none.
fn certificate_refusal(alloc: Global, bytes: &[u8]) -> Option<DecodeError> {
    decode_certificate::<PlainScheme, PlainDigest>(alloc, bytes).err()
}

/// Returns why the bytes are no artifact, if they are none.
fn artifact_refusal(alloc: Global, bytes: &[u8]) -> Option<DecodeError> {
    match decode_artifact::<PlainScheme, PlainDigest>(alloc, bytes) {
        Ok(_) => None,
        Err(refusal) => Some(refusal),
    }
}

/// Returns whether the certificate of the bytes is read, and encodes to them again.
fn is_read_back(alloc: Global, bytes: &[u8]) -> Result<bool, Fail> {
    let read: Certificate<PlainScheme, PlainDigest> = decode_certificate(alloc, bytes)?;
    Ok(read.encode(alloc)?.as_slice() == bytes)
}

/// Returns whether each prefix of the bytes is refused with the right error: one that ends within the parts is too
/// short.
fn refuses_fronts(alloc: Global, bytes: &[u8], parts: usize) -> bool {
    for end in 0..bytes.len() {
        let wanted = if end < parts {
            DecodeError::TooShort
        } else {
            DecodeError::UnreadableCertificate
        };
        let front = &bytes[..end];
        if certificate_refusal(alloc, front) != Some(wanted)
            || artifact_refusal(alloc, front) != Some(wanted)
        {
            return false;
        }
    }
    true
}

/// Returns whether the bytes are refused with one byte more.
fn refuses_more(alloc: Global, bytes: &[u8]) -> Result<bool, AllocError> {
    let mut longer = Vec::from_slice(alloc, bytes)?;
    longer.push(0)?;
    let refused = Some(DecodeError::UnreadableCertificate);
    Ok(
        certificate_refusal(alloc, longer.as_slice()) == refused
            && artifact_refusal(alloc, longer.as_slice()) == refused,
    )
}

/// Returns whether a certificate is read from all its bytes, and from no more and no fewer.
fn is_read_whole(
    alloc: Global,
    certificate: &Certificate<PlainScheme, PlainDigest>,
) -> Result<bool, Fail> {
    let parts = match certificate {
        Certificate::Nullification(_) => 17,
        _ => 33,
    };
    let encoding = certificate.encode(alloc)?;
    let bytes = encoding.as_slice();
    Ok(
        refuses_fronts(alloc, bytes, parts)
            && is_read_back(alloc, bytes)?
            && refuses_more(alloc, bytes)?,
    )
}

#[test]
fn certificates_are_read_from_all_their_bytes_and_no_more(rt: HostRuntime) -> Result<(), Fail> {
    for certificate in &certificates() {
        assert!(rt; is_read_whole(rt.alloc(), certificate)?);
    }
    Ok(())
}

/// Returns the view, the parent and the payload of a notarization, and whether its certificate is valid.
fn notarized(certificate: &Certificate<PlainScheme, PlainDigest>) -> Option<(u64, u64, u64, bool)> {
    match certificate {
        Certificate::Notarization(read) => Some((
            read.proposal.round.view.get(),
            read.proposal.parent.get(),
            read.proposal.payload.number(),
            read.certificate.good,
        )),
        _ => None,
    }
}

/// A notarization in view 0x0200000000000003, as it is encoded.
static NOTARIZED: [u8; 34] = [
    0, 0, 0, 0, 0, 0, 0, 0, 1, 2, 0, 0, 0, 0, 0, 0, 3, 0, 0, 0, 0, 0, 0, 0, 2, 0, 0, 0, 0, 0, 0, 0,
    7, 1,
];

#[test]
fn a_certificate_is_read_as_the_vector_says(rt: HostRuntime) -> Result<(), Fail> {
    let read = decode_certificate(rt.alloc(), &NOTARIZED)?;
    assert!(rt; notarized(&read) == Some((0x0200_0000_0000_0003, 2, 7, true)));
    Ok(())
}

/// Returns whether the artifact is encoded as these bytes.
fn is_written(alloc: Global, artifact: &PlainArtifact, bytes: &[u8]) -> Result<bool, Fail> {
    Ok(encode_artifact(alloc, artifact)?.as_slice() == bytes)
}

/// Returns whether the artifact is read back from its bytes.
fn artifact_is_read_back(alloc: Global, artifact: &PlainArtifact) -> Result<bool, Fail> {
    let bytes = encode_artifact(alloc, artifact)?;
    match decode_artifact::<PlainScheme, PlainDigest>(alloc, bytes.as_slice()) {
        Ok(read) => is_written(alloc, &read, bytes.as_slice()),
        Err(refusal) => Err(refusal.into()),
    }
}

#[test]
fn artifacts_are_read_back(rt: HostRuntime) -> Result<(), Fail> {
    for artifact in &artifacts() {
        assert!(rt; artifact_is_read_back(rt.alloc(), artifact)?);
    }
    Ok(())
}

/// A true verdict on view 3, as it is encoded.
static VERDICT: [u8; 18] = [6, 0, 0, 0, 0, 0, 0, 0, 1, 0, 0, 0, 0, 0, 0, 0, 3, 1];

/// The vote below, as it is encoded.
static VOTE: [u8; 42] = [
    4, 1, 2, 3, 4, 0, 0, 0, 0, 0, 0, 0, 1, 0, 0, 0, 0, 0, 0, 0, 3, 0, 0, 0, 5, 1, 0, 0, 0, 0, 0, 0,
    0, 9, 0, 0, 0, 0, 0, 0, 0, 8,
];

/// A vote to nullify view 3, of a member whose index has four bytes, with a signature on another round.
fn vote() -> PlainArtifact {
    Artifact::Nullify(Nullify {
        round: round(3),
        signer: Participant::new(0x0102_0304),
        signature: PlainSignature {
            key: PlainKey(5),
            subject: Subject::Nullify(Round {
                epoch: Epoch::new(9),
                view: View::new(8),
            }),
        },
    })
}

#[test]
fn a_verdict_is_written_as_the_vector_says(rt: HostRuntime) -> Result<(), Fail> {
    let verdict = Artifact::Certification(round(3), true);
    assert!(rt; is_written(rt.alloc(), &verdict, &VERDICT)?);
    Ok(())
}

#[test]
fn a_vote_is_written_as_the_vector_says(rt: HostRuntime) -> Result<(), Fail> {
    assert!(rt; is_written(rt.alloc(), &vote(), &VOTE)?);
    Ok(())
}

/// Bytes that are no artifact, each with its refusal.
static REFUSED: [(&[u8], DecodeError); 10] = [
    (&[7; 40], DecodeError::UnknownKind(7)),
    (&[], DecodeError::TooShort),
    // a verdict of 6
    (&[6; 18], DecodeError::UnknownVerdict(6)),
    (&[6; 17], DecodeError::TooShort),
    // a verdict with one byte more
    (
        &[6, 0, 0, 0, 0, 0, 0, 0, 1, 0, 0, 0, 0, 0, 0, 0, 3, 1, 0],
        DecodeError::TrailingBytes,
    ),
    // three bytes of a key, after a signer and what was voted on
    (&[3; 40], DecodeError::UnreadableSignature),
    (&[4; 24], DecodeError::UnreadableSignature),
    // a key, and after it no kind of a vote
    (&[4; 42], DecodeError::UnreadableSignature),
    (&[5; 36], DecodeError::TooShort),
    (&[4; 20], DecodeError::TooShort),
];

#[test]
fn each_other_refusal_has_its_name(rt: HostRuntime) {
    assert!(rt; certificate_refusal(rt.alloc(), &[3; 40]) == Some(DecodeError::UnknownKind(3)));
    for (bytes, wanted) in &REFUSED {
        assert!(rt;
            artifact_refusal(rt.alloc(), bytes) == Some(*wanted),
            "{wanted:?}"
        );
    }
}

/// Returns whether a value has this text.
fn has_text<V: Display>(alloc: Global, value: &V, wanted: &str) -> Result<bool, Fail> {
    Ok(format!(in alloc; "{value}")?.as_str() == wanted)
}

/// The refusals, each with its text.
static TEXTS: [(DecodeError, &str); 8] = [
    (DecodeError::OutOfMemory, "no memory is left"),
    (DecodeError::TooShort, "the bytes end early"),
    (DecodeError::UnknownKind(200), "200 is no kind"),
    (DecodeError::UnreadablePayload, "the payload is no digest"),
    (
        DecodeError::UnreadableCertificate,
        "the certificate is not the scheme's",
    ),
    (
        DecodeError::UnreadableSignature,
        "the signature is not the scheme's",
    ),
    (DecodeError::UnknownVerdict(6), "6 is no verdict"),
    (DecodeError::TrailingBytes, "bytes are left over"),
];

#[test]
fn refusals_have_their_texts(rt: HostRuntime) -> Result<(), Fail> {
    for (error, wanted) in &TEXTS {
        assert!(rt; has_text(rt.alloc(), error, wanted)?, "{wanted}");
    }
    assert!(rt; has_text(rt.alloc(), &NoFrame::Cut, "the frame is cut")?);
    assert!(rt; has_text(rt.alloc(), &NoFrame::Damaged, "the frame is damaged")?);
    Ok(())
}

#[test]
fn a_digest_of_bytes_is_its_bytes(rt: HostRuntime) {
    let bytes = [7u8; 32];
    let digest = BytesDigest::from(bytes);
    let back: [u8; 32] = digest.into();
    assert!(rt; digest.as_bytes() == bytes.as_slice() && back.as_slice() == bytes.as_slice());
    assert!(rt;
        BytesDigest::<32>::read(bytes.as_slice()) == Some(digest)
            && BytesDigest::<32>::read(&[7; 31]).is_none()
            && BytesDigest::<32>::read(&[7; 33]).is_none()
    );
    assert!(rt; digest < BytesDigest::from([8u8; 32]));
}

/// Three entries in their frames.
fn journal(alloc: Global) -> Result<Bytes, Fault> {
    let mut out = BytesMut::new(alloc);
    let entries: [&[u8]; 3] = [&[1, 2, 3], &[], &[4; 70]];
    for entry in entries {
        write_frame(&mut out, entry)?;
    }
    Ok(out.freeze()?)
}

/// Returns how many entries are read, and why the bytes after them are no frame; `None` if the end is whole.
fn read_entries(bytes: &[u8]) -> (u32, Option<NoFrame>) {
    let mut rest = bytes;
    let mut read = 0u32;
    for _ in 0..bytes.len() {
        match read_frame(rest) {
            Ok(Some((_, behind))) => {
                rest = behind;
                read = read.wrapping_add(1);
            }
            Ok(None) => return (read, None),
            Err(error) => return (read, Some(error)),
        }
    }
    (read, None)
}

/// Returns how many whole entries lie before a place.
fn entries_before(place: usize) -> u32 {
    if place < 43 {
        0
    } else if place < 83 {
        1
    } else {
        2
    }
}

/// Returns the error for a journal that ends at a place.
fn cut_at(end: usize) -> Option<NoFrame> {
    if end == 43 || end == 83 {
        None
    } else {
        Some(NoFrame::Cut)
    }
}

/// Returns whether the entries are read up to each cut, and the end is cut except after an entry.
fn are_read_up_to_each_cut(bytes: &[u8]) -> bool {
    for end in 1..bytes.len() {
        if read_entries(&bytes[..end]) != (entries_before(end), cut_at(end)) {
            return false;
        }
    }
    true
}

/// Returns what is read of the bytes with a bit of a byte flipped.
fn read_flipped(
    alloc: Global,
    bytes: &[u8],
    place: usize,
    bit: u8,
) -> Result<(u32, Option<NoFrame>), AllocError> {
    let mut flipped = Vec::from_slice(alloc, bytes)?;
    if let Some(byte) = flipped.get_mut(place) {
        *byte ^= bit;
    }
    Ok(read_entries(flipped.as_slice()))
}

/// Returns whether the bit is detected in each byte, and never reported as a cut.
fn is_found_in_each_byte(alloc: Global, bytes: &[u8], bit: u8) -> Result<bool, AllocError> {
    for place in 0..bytes.len() {
        let found = read_flipped(alloc, bytes, place, bit)?;
        if found != (entries_before(place), Some(NoFrame::Damaged)) {
            return Ok(false);
        }
    }
    Ok(true)
}

#[test]
fn entries_of_a_journal_are_read_up_to_a_cut_or_a_flipped_bit(rt: HostRuntime) -> Result<(), Fail> {
    let journal = journal(rt.alloc())?;
    let bytes = journal.as_slice();
    assert!(rt; bytes.len() == 193 && read_entries(bytes) == (3, None));
    assert!(rt; are_read_up_to_each_cut(bytes));
    for bit in [1, 2, 4, 8, 16, 32, 64, 128] {
        assert!(rt; is_found_in_each_byte(rt.alloc(), bytes, bit)?, "{bit}");
    }
    Ok(())
}
