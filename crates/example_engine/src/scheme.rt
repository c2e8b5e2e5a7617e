//! The signatures and certificates. They give no security: in a real scheme nobody else can make a member's signatures.

ghost use Rattle.std.specs.Prelude.{◌≡◌, ◌<◌, ◌^◌, ◌&&◌, ◌↔◌, ℕ, true, IsTrue, List, Option, Some, None, length, map, nat_le, IfOk, option_map};
ghost use Rattle.std.specs.Option.{ForSome};
ghost use Rattle.example_engine.specs.MemberIndexes.{are_members};

use crate::checksum::checksum;
use crate::digest::BlockDigest;
use simplex_types::types::assembly::quorum;
use simplex_types::types::{CertificateScheme, Participant, PublicKey, Scheme, Subject};
use std::alloc::{AllocError, Global};

mod codec;

/// A member's key, by which it signs and is known.
#[derive(Clone, Copy, PartialEq, Eq)]
pub struct MemberKey {
    number: u32,
}

impl PublicKey for MemberKey {}

/// A member's signature: its key, and a sum over the key and the bytes of the vote.
#[derive(Clone, Copy, PartialEq, Eq)]
pub struct Signature {
    /// The key that it was made under.
    pub key: MemberKey,
    /// The sum, below 2^32.
    pub sum: u64,
}

/// A certificate: the indexes of its signers, rising.
#[derive(Drop)]
pub struct Seal {
    /// One byte a signer.
    pub signers: Vec<u8>,
}

/// The members' keys, and the index of the one that signs here. An index fits in a byte.
#[derive(Drop)]
pub struct SealScheme {
    keys: Vec<MemberKey>,
    signer: Option<Participant>,
    ghost signer_is_member: { ForSome signer (λ m. m < length keys.items) },
    ghost has_members: { 0 < length keys.items },
    ghost few: { length keys.items < 256 },
}

impl SealScheme {
    ghost use Rattle.example_engine.specs.Seals.{seal_keys, seal_signer, IsSignedBy};

    /// Returns the scheme of this number of members, for one of them.
    pub fn new(alloc: Global, members: u8, me: u8) -> Result<SealScheme, AllocError>
        requires { me < members }
        ensures members { IfOk result (λ s. length (seal_keys s) ≡ members) }
        ensures signer { IfOk result (λ s. seal_signer s ≡ Some me) }
    {
        let mut keys = Vec::new(alloc);
        for index in 0..members {
            keys.push(MemberKey {
                number: u32::from(index) * 7919 + 1,
            })?;
        }
        Ok(SealScheme {
            keys,
            signer: Some(Participant::new(u32::from(me))),
        })
    }

    /// Returns whether the signature is one of the member on the subject.
    pub fn is_signed_by(
        &self,
        alloc: Global,
        member: Participant,
        subject: &Subject<BlockDigest>,
        signature: Signature,
    ) -> Result<bool, AllocError>
        ensures { IfOk result (λ good. IsTrue good ↔ IsSignedBy self.now member subject.now signature) }
    {
        match self.keys.get(member.get() as usize) {
            Some(key) => Ok(Signature::of(alloc, *key, subject)? == signature),
            None => Ok(false),
        }
    }
}

impl Signature {
    ghost use Rattle.example_engine.specs.Seals.{IsSignature};

    /// Returns the signature under a key on a subject.
    fn of(
        alloc: Global,
        key: MemberKey,
        subject: &Subject<BlockDigest>,
    ) -> Result<Signature, AllocError>
        ensures { IfOk result (IsSignature key subject.now) }
    {
        let text = subject.encode(alloc)?;
        Ok(Signature {
            key,
            sum: checksum(u64::from(key.number), &text),
        })
    }
}

impl CertificateScheme for SealScheme {
    type PublicKey = MemberKey;

    type Signature = Signature;

    type Certificate = Seal;

    ghost use Rattle.example_engine.specs.Seals.{seal_keys, seal_signer, seal_bytes};

    ghost me = { seal_signer };

    ghost participants = { seal_keys };

    ghost certificate_bytes = { seal_bytes };

    fn copy(&self, alloc: Global) -> Result<SealScheme, AllocError> {
        let mut keys = Vec::new(alloc);
        keys.extend_from_slice(self.keys.as_slice())?;
        Ok(SealScheme {
            keys,
            signer: self.signer,
        })
    }

    fn copy_signature(_alloc: Global, signature: &Signature) -> Result<Signature, AllocError> {
        Ok(*signature)
    }

    fn copy_certificate(alloc: Global, certificate: &Seal) -> Result<Seal, AllocError> {
        let mut signers = Vec::new(alloc);
        signers.extend_from_slice(certificate.signers.as_slice())?;
        Ok(Seal { signers })
    }

    fn me(&self) -> Option<Participant> {
        self.signer
    }

    fn participants(&self) -> &[MemberKey] {
        self.keys.as_slice()
    }

    fn certificate_bytes(certificate: &Seal) -> &[u8] {
        certificate.signers.as_slice()
    }

    ghost me_is_member = { λ s. s.signer_is_member };
}

/// Returns whether the bytes are rising indexes of members, of which there are `count`.
fn are_members(count: usize, signers: &[u8]) -> bool
    ensures { result ≡ are_members count 0 signers.now }
{
    let mut low = 0;
    for signer in signers {
        let index = usize::from(*signer);
        if index < low || index >= count {
            return false;
        }
        low = index + 1;
    }
    true
}

impl Scheme<BlockDigest> for SealScheme {
    ghost use Rattle.example_engine.specs.Seals.{IsSignature, is_good};

    ghost IsSignature = { IsSignature };

    ghost accepts = { λ scheme _ seal. is_good scheme seal };

    fn sign(
        &self,
        alloc: Global,
        subject: &Subject<BlockDigest>,
    ) -> Result<Option<Signature>, AllocError> {
        let Some(signer) = self.signer else {
            return Ok(None);
        };
        let key = self.keys[signer.get() as usize];
        Ok(Some(Signature::of(alloc, key, subject)?))
    }

    fn verify(&self, _subject: &Subject<BlockDigest>, certificate: &Seal) -> bool {
        let count = self.keys.len();
        let signers = certificate.signers.as_slice();
        count > 0 && quorum(count) <= signers.len() && are_members(count, signers)
    }
}
