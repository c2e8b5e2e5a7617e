//! Random bytes, and encodings with random damage.

use super::{PlainArtifact, artifacts, is_written};
use simplex_codec::artifact::{decode_artifact, encode_artifact};
use simplex_codec::certificate::decode_certificate;
use simplex_codec::error::DecodeError;
use simplex_types::types::plain::{PlainDigest, PlainScheme};
use std::alloc::{AllocError, Global};
use std::test::Fail;

/// How many inputs are read; `tests/sweeps/decodings.py` sets another number here.
const INPUTS: u32 = 40_000;

/// The seed of the generator; `tests/sweeps/decodings.py` sets another number here.
const SEED: u64 = 7;

/// A small generator of numbers, the same in each run.
#[derive(Drop)]
struct Random {
    state: u64,
}

impl Random {
    fn next(&mut self) -> u32 {
        let state = self.state;
        self.state = state
            .wrapping_mul(6_364_136_223_846_793_005)
            .wrapping_add(1_442_695_040_888_963_407);
        (state >> 33) as u32
    }

    fn byte(&mut self) -> u8 {
        (self.next() % 256) as u8
    }
}

/// How many inputs were read as what.
#[derive(Clone, Copy)]
struct Tally {
    artifacts: u32,
    certificates: u32,
    refused: u32,
}

/// Returns bytes of the generator: a length below 64, a first byte below 9 and a last one below 3.
fn random_bytes(alloc: Global, random: &mut Random) -> Result<Vec<u8>, Fail> {
    let len = random.next() % 64;
    let mut bytes = Vec::new(alloc);
    for index in 0..len {
        let byte = random.next();
        let byte = if index == 0 {
            byte % 9
        } else if index + 1 == len {
            byte % 3
        } else {
            byte % 256
        };
        bytes.push(byte as u8)?;
    }
    Ok(bytes)
}

/// Changes a byte, cuts off the end, or appends a byte.
fn damage(random: &mut Random, bytes: &mut Vec<u8>) -> Result<(), AllocError> {
    let place = random.next() as usize % (bytes.len().max(1));
    match random.next() % 4 {
        0 => bytes.truncate(place),
        1 => bytes.push(random.byte())?,
        _ => {
            let new = random.byte();
            if let Some(byte) = bytes.get_mut(place) {
                *byte = new;
            }
        }
    }
    Ok(())
}

/// Returns the encoding of one of the artifacts.
fn encoding(alloc: Global, random: &mut Random, whole: &[PlainArtifact]) -> Result<Vec<u8>, Fail> {
    match whole.get(random.next() as usize % 8) {
        Some(artifact) => Ok(Vec::from_slice(alloc, encode_artifact(alloc, artifact)?.as_slice())?),
        None => Err(Fail::from("eight artifacts")),
    }
}

/// Returns true for bytes that are read, if the result is encoded as them again.
fn is_read(is_written_again: bool) -> Result<bool, Fail> {
    if is_written_again {
        Ok(true)
    } else {
        Err(Fail::from("it is written as other bytes"))
    }
}

/// Returns false for bytes that are not read, because of a fault in them.
fn is_not_read(error: DecodeError) -> Result<bool, Fail> {
    match error {
        DecodeError::OutOfMemory => Err(Fail::from("no memory")),
        _ => Ok(false),
    }
}

/// Returns whether the bytes are read as an artifact. What is read encodes to them again, and what is not is refused by
/// the name of a fault in them.
fn is_artifact(alloc: Global, bytes: &[u8]) -> Result<bool, Fail> {
    match decode_artifact::<PlainScheme, PlainDigest>(alloc, bytes) {
        Ok(artifact) => is_read(is_written(alloc, &artifact, bytes)?),
        Err(error) => is_not_read(error),
    }
}

/// Returns the same for a certificate.
fn is_certificate(alloc: Global, bytes: &[u8]) -> Result<bool, Fail> {
    match decode_certificate::<PlainScheme, PlainDigest>(alloc, bytes) {
        Ok(certificate) => is_read(certificate.encode(alloc)?.as_slice() == bytes),
        Err(error) => is_not_read(error),
    }
}

/// Reads the bytes as an artifact and as a certificate.
fn read(alloc: Global, bytes: &[u8], tally: &mut Tally) -> Result<(), Fail> {
    if is_artifact(alloc, bytes)? {
        tally.artifacts = tally.artifacts.wrapping_add(1);
    } else {
        tally.refused = tally.refused.wrapping_add(1);
    }
    if is_certificate(alloc, bytes)? {
        tally.certificates = tally.certificates.wrapping_add(1);
    }
    Ok(())
}

/// Reads random bytes and a damaged encoding.
fn read_two(
    alloc: Global,
    random: &mut Random,
    whole: &[PlainArtifact],
    tally: &mut Tally,
) -> Result<(), Fail> {
    read(alloc, &random_bytes(alloc, random)?, tally)?;
    let mut bytes = encoding(alloc, random, whole)?;
    damage(random, &mut bytes)?;
    read(alloc, &bytes, tally)
}

#[test]
fn inputs_are_refused_or_encode_to_themselves(rt: HostRuntime) -> Result<(), Fail> {
    let alloc = rt.alloc();
    let whole = artifacts();
    let mut random = Random { state: SEED };
    let mut tally = Tally {
        artifacts: 0,
        certificates: 0,
        refused: 0,
    };
    for _ in 0..INPUTS / 2 {
        read_two(alloc, &mut random, whole.as_slice(), &mut tally)?;
    }
    println!(rt;
        "{} artifacts, {} certificates, {} refused",
        tally.artifacts, tally.certificates, tally.refused
    )?;
    assert!(rt; tally.artifacts > 1000 && tally.certificates > 1000 && tally.refused > 1000);
    Ok(())
}
