//! Encodings and copies.

use super::{finalization, notarization, nullification};
use crate::codec::artifacts;
use simplex_types::types::plain::{PlainDigest, PlainScheme};
use simplex_types::types::{Artifact, Certificate, View, Viewable};
use std::alloc::Global;
use std::test::Fail;

type PlainArtifact = Artifact<PlainScheme, PlainDigest>;

type PlainCertified = Certificate<PlainScheme, PlainDigest>;

fn encoded(alloc: Global, certificate: &PlainCertified) -> Result<String, Fail> {
    let bytes = certificate.encode(alloc)?;
    let mut text = String::new(alloc);
    for byte in bytes.as_slice() {
        text.push_str(format!(in alloc; "{byte:02x}")?.as_str())?;
    }
    Ok(text)
}

/// Returns whether the certificate is encoded as this text.
fn is_encoded_as(alloc: Global, certificate: &PlainCertified, text: &str) -> Result<bool, Fail> {
    Ok(encoded(alloc, certificate)?.as_str() == text)
}

#[test]
fn certificates_are_encoded_as_the_vectors_say(rt: HostRuntime) -> Result<(), Fail> {
    let nullified = Certificate::Nullification(nullification(9, 4));
    let text = "010000000000000009000000000000000401";
    assert!(rt; is_encoded_as(rt.alloc(), &nullified, text)?);
    let notarized = Certificate::Notarization(notarization(3));
    let text = "00000000000000000100000000000000030000000000000002000000000000000701";
    assert!(rt; is_encoded_as(rt.alloc(), &notarized, text)?);
    let finalized = Certificate::Finalization(finalization(1, 3, false));
    let text = "02000000000000000100000000000000030000000000000000000000000000000700";
    assert!(rt; is_encoded_as(rt.alloc(), &finalized, text)?);
    Ok(())
}

/// Returns whether a copy of a certificate of view 3 is of that view and encoded the same.
fn is_copied_alike(alloc: Global, certificate: &PlainCertified) -> Result<bool, Fail> {
    let copy = certificate.clone(alloc)?;
    Ok(copy.view() == View::new(3) && encoded(alloc, &copy)? == encoded(alloc, certificate)?)
}

#[test]
fn a_copy_is_encoded_alike(rt: HostRuntime) -> Result<(), Fail> {
    let certificates: [PlainCertified; 3] = [
        Certificate::Notarization(notarization(3)),
        Certificate::Nullification(nullification(1, 3)),
        Certificate::Finalization(finalization(1, 3, true)),
    ];
    for certificate in &certificates {
        assert!(rt; is_copied_alike(rt.alloc(), certificate)?);
    }
    Ok(())
}

/// The view of each of the artifacts of `artifacts`.
static VIEWS: [u64; 8] = [
    3,
    0x0102_0304_0506_0708,
    3,
    3,
    3,
    0x0102_0304_0506_0708,
    3,
    0x0102_0304_0506_0708,
];

/// Returns whether an artifact is of a view, and a copy of it too.
fn is_copied_with_its_view(
    alloc: Global,
    artifact: &PlainArtifact,
    view: u64,
) -> Result<bool, Fail> {
    match artifact.clone(alloc) {
        Ok(copy) => Ok(artifact.view() == View::new(view) && copy.view() == View::new(view)),
        Err(fault) => Err(fault.into()),
    }
}

#[test]
fn artifacts_are_copied_with_their_view(rt: HostRuntime) -> Result<(), Fail> {
    for (artifact, view) in artifacts().iter().zip(&VIEWS) {
        assert!(rt; is_copied_with_its_view(rt.alloc(), artifact, *view)?);
    }
    Ok(())
}
