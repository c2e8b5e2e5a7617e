//! A digest, keys, a scheme and an elector for tests and the program. They are not secure.

ghost use Rattle.std.specs.Prelude.{◌≡◌, ◌<◌, ◌+◌, ◌^◌, ◌%◌, ℕ, true, List, Option, Some, None, length, IfOk, nat_eq, refl, option_map, map};
ghost use Rattle.std.specs.Option.{ForSome};
ghost use Rattle.std.specs.Int.{w64, to_be_bytes, from_be_bytes};

use crate::types::assembly::Assembly;
use crate::types::messages::Subject;
use crate::types::numbers::{Participant, Round};
use crate::types::scheme::{CertificateScheme, Digest, Elector, PublicKey, Scheme};
use crate::types::window::Terms;
use std::alloc::{AllocError, Global};

/// A digest of eight bytes.
#[derive(Clone, Copy, PartialEq, Eq, Debug)]
pub struct PlainDigest {
    bytes: [u8; 8],
    ghost sized: { length bytes ≡ 8 },
}

impl PlainDigest {
    ghost use Rattle.simplex_types.specs.Plain.{digest_bytes};

    /// The digest whose bytes are the number's, big-endian.
    pub fn new(number: u64) -> PlainDigest
        ensures { digest_bytes result ≡ to_be_bytes w64 number }
    {
        PlainDigest {
            bytes: number.to_be_bytes(),
        }
    }

    /// The number in the bytes, big-endian.
    pub fn number(&self) -> u64
        ensures { result ≡ from_be_bytes w64 (digest_bytes self.now) }
    {
        u64::from_be_bytes(self.bytes)
    }
}

impl Digest for PlainDigest {
    ghost use Rattle.simplex_types.specs.Plain.{digest_bytes, digest_from_eq, digest_eq_self, same_digest};

    const SIZE: usize = 8;

    ghost SIZE = { 8 };

    ghost bytes = { digest_bytes };

    fn as_bytes(&self) -> &[u8] {
        &self.bytes
    }

    ghost length_bytes = { λ d. d.sized };

    ghost equal_is_same = { digest_from_eq };

    ghost same_is_equal = { digest_eq_self };

    ghost bytes_injective = { same_digest };
}

/// A member's key: its index.
#[derive(Clone, Copy, PartialEq, Eq, Debug)]
pub struct PlainKey(pub u32);

impl PublicKey for PlainKey {}

/// A signature: the key that made it, and what was signed.
#[derive(Clone, Copy)]
pub struct PlainSignature {
    pub key: PlainKey,
    pub subject: Subject<PlainDigest>,
}

/// A certificate that is valid or not.
#[derive(Drop)]
pub struct PlainCertificate {
    pub good: bool,
}

/// A scheme of `keys.len()` members, which signs for one of them or for none.
#[derive(Drop)]
pub struct PlainScheme {
    keys: Vec<PlainKey>,
    signer: Option<Participant>,
    ghost signer_is_member: { ForSome signer (λ m. m < length keys.items) },
}

impl PlainScheme {
    ghost use Rattle.simplex_types.specs.Plain.{signer_of, keys_of, keys_below};

    /// The scheme of this many members, with the key of one of them or of none.
    pub fn new(
        alloc: Global,
        members: u32,
        signer: Option<Participant>,
    ) -> Result<PlainScheme, AllocError>
        requires { ForSome signer (λ m. m < members) }
        ensures signer { IfOk result (λ s. signer_of s ≡ signer) }
        ensures members { IfOk result (λ s. keys_of s ≡ keys_below members) }
    {
        let mut keys = Vec::new(alloc);
        for index in 0..members {
            keys.push(PlainKey(index))?;
        }
        Ok(PlainScheme { keys, signer })
    }
}

impl CertificateScheme for PlainScheme {
    type PublicKey = PlainKey;

    type Signature = PlainSignature;

    type Certificate = PlainCertificate;

    ghost use Rattle.std.specs.Prelude.{◌∷◌, [], if◌then◌else◌};
    ghost use Rattle.simplex_types.specs.Plain.{signer_of, keys_of};

    ghost me = { signer_of };

    ghost participants = { keys_of };

    ghost certificate_bytes = { λ c. (if c.good then 1 else 0) ∷ [] };

    fn copy(&self, alloc: Global) -> Result<PlainScheme, AllocError> {
        let mut keys = Vec::new(alloc);
        keys.extend_from_slice(self.keys.as_slice())?;
        Ok(PlainScheme {
            keys,
            signer: self.signer,
        })
    }

    fn copy_signature(
        _alloc: Global,
        signature: &PlainSignature,
    ) -> Result<PlainSignature, AllocError> {
        Ok(*signature)
    }

    fn copy_certificate(
        _alloc: Global,
        certificate: &PlainCertificate,
    ) -> Result<PlainCertificate, AllocError> {
        Ok(PlainCertificate {
            good: certificate.good,
        })
    }

    fn me(&self) -> Option<Participant> {
        self.signer
    }

    fn participants(&self) -> &[PlainKey] {
        self.keys.as_slice()
    }

    fn certificate_bytes(certificate: &PlainCertificate) -> &[u8] {
        if certificate.good { &[1] } else { &[0] }
    }

    ghost me_is_member = { λ s. s.signer_is_member };
}

impl Scheme<PlainDigest> for PlainScheme {
    ghost use Rattle.simplex_types.specs.Plain.{IsPlainSignature};

    ghost IsSignature = { IsPlainSignature };

    ghost accepts = { λ _ _ c. c.good };

    fn sign(
        &self,
        _alloc: Global,
        subject: &Subject<PlainDigest>,
    ) -> Result<Option<PlainSignature>, AllocError> {
        let Some(signer) = self.signer else {
            return Ok(None);
        };
        let key = self.keys[signer.get() as usize];
        Ok(Some(PlainSignature {
            key,
            subject: *subject,
        }))
    }

    fn verify(&self, _subject: &Subject<PlainDigest>, certificate: &PlainCertificate) -> bool {
        certificate.good
    }
}

/// Members lead round-robin, one each term.
#[derive(Drop)]
pub struct PlainElector {
    count: u32,
    terms: Terms,
    ghost has_members: { 0 < count },
    ghost in_range: { count < 2 ^ 32 },
}

impl PlainElector {
    ghost use Rattle.simplex_types.specs.Plain.{members_of, terms_of};

    /// The elector of this many members.
    pub fn new(count: u32, terms: Terms) -> PlainElector
        requires { 0 < count }
        ensures count { members_of result ≡ count }
        ensures terms { terms_of result ≡ terms }
    {
        PlainElector { count, terms }
    }
}

impl<S: CertificateScheme> Elector<S> for PlainElector {
    ghost use Rattle.simplex_types.specs.Plain.{members_of, terms_of, leader_in_turn, elected_below};
    ghost use Rattle.std.specs.Prelude.{◌%◌, refl, true};

    ghost terms = { terms_of };

    ghost members = { members_of };

    ghost elects_early = { λ _. true };

    ghost elect = { λ e round _. leader_in_turn e round.view };

    fn terms(&self) -> Terms {
        self.terms
    }

    fn members(&self) -> usize {
        self.count as usize
    }

    fn elects_early(&self) -> bool {
        true
    }

    fn elect(&self, round: Round, _certificate: Option<&S::Certificate>) -> Participant {
        let index = round.view.get().saturating_sub(1)
            / u64::from(self.terms.term_length.get().get());
        let count = self.count;
        Participant::new((index % u64::from(count)) as u32)
    }

    ghost elected_is_member = { λ e round seed. elected_below e round.view };

    ghost early_needs_no_seed = { λ e round seed h. refl };
}

impl Assembly<PlainDigest> for PlainScheme {
    ghost IsMadeOf = { λ _ _ _ certificate. certificate.good ≡ true };

    fn assemble(
        &self,
        _alloc: Global,
        _subject: &Subject<PlainDigest>,
        _signatures: &[(Participant, PlainSignature)],
    ) -> Result<PlainCertificate, AllocError> {
        Ok(PlainCertificate { good: true })
    }

    ghost made_is_good = { λ _ _ _ _ _ made. made };
}
