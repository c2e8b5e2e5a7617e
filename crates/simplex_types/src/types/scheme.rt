//! The traits that the protocol requires of digests, keys, schemes and electors.

ghost use Rattle.std.specs.Prelude.{◌≡◌, ◌<◌, ◌↔◌, ℕ, Bool, true, List, Option, Some, None, length, IsTrue, IsSome, IfOk, IfSome, is_some, option_map};
ghost use Rattle.std.specs.Option.{option_copied, ForSome};
ghost use Rattle.simplex_types.specs.declared.types.numbers.Round.{Round};
ghost use Rattle.simplex_types.specs.declared.types.messages.Subject.{Subject};
ghost use Rattle.simplex_types.specs.declared.types.window.Terms.{Terms};
ghost use Rattle.simplex_types.specs.Signatures.{IsSignedAs};

use crate::types::messages::Subject;
use crate::types::numbers::{Participant, Round};
use crate::types::window::Terms;
use std::alloc::{AllocError, Global};

/// A payload's digest: a value of `SIZE` bytes.
pub trait Digest: Copy + PartialEq {
    /// How many bytes a digest has.
    const SIZE: usize;

    ghost SIZE: { ℕ };

    /// The bytes of a digest: as many as `SIZE`, and equal exactly if the digests are.
    ghost bytes: { Self → List ℕ };

    /// The digest's bytes.
    fn as_bytes(&self) -> &[u8]
        ensures { result.now ≡ bytes self.now };

    ghost length_bytes: { (d : Self) → length (bytes d) ≡ SIZE };

    ghost equal_is_same: { (d e : Self) → Self.eq d e ≡ true → d ≡ e };

    ghost same_is_equal: { (d : Self) → Self.eq d d ≡ true };

    ghost bytes_injective: { (d e : Self) → bytes d ≡ bytes e → d ≡ e };
}

/// A member's public key. It is stored and returned; the core compares no keys.
pub trait PublicKey: Copy {}

/// The members and their keys, this member's own key, and the type of certificates.
pub trait CertificateScheme: Drop {
    type PublicKey: PublicKey;

    type Signature: Drop;

    type Certificate: Drop;

    /// The member that the scheme signs for, if it has a key.
    ghost me: { Self → Option ℕ };

    /// The keys of the members.
    ghost participants: { Self → List Self.PublicKey };

    /// The bytes of a certificate.
    ghost certificate_bytes: { Self.Certificate → List ℕ };

    /// Returns a scheme with the same key and the same participants.
    fn copy(&self, alloc: Global) -> Result<Self, AllocError>
        ensures signer { IfOk result (λ s. me s ≡ me self.now) }
        ensures members { IfOk result (λ s. participants s ≡ participants self.now) };

    /// Returns an equal signature.
    fn copy_signature(
        alloc: Global,
        signature: &Self::Signature,
    ) -> Result<Self::Signature, AllocError>
        ensures { IfOk result (λ s. s ≡ signature.now) };

    /// Returns a certificate with the same bytes.
    fn copy_certificate(
        alloc: Global,
        certificate: &Self::Certificate,
    ) -> Result<Self::Certificate, AllocError>
        ensures { IfOk result (λ c. certificate_bytes c ≡ certificate_bytes certificate.now) };

    /// The member that the scheme signs for; `None` without a key.
    fn me(&self) -> Option<Participant>
        ensures { result ≡ me self.now };

    /// The members' keys, by index.
    fn participants(&self) -> &[Self::PublicKey]
        ensures { result.now ≡ participants self.now };

    /// The bytes of a certificate, which encodings hold.
    fn certificate_bytes(certificate: &Self::Certificate) -> &[u8]
        ensures { result.now ≡ certificate_bytes certificate.now };

    /// The signer is one of the members.
    ghost me_is_member: { (s : Self) → ForSome (me s) (λ m. m < length (participants s)) };
}

/// How votes on proposals of `D` are signed and certificates tested.
pub trait Scheme<D: Digest>: CertificateScheme {
    /// The signature is one on the subject, under the key. There may be several of one subject and key.
    ghost IsSignature: { Self.PublicKey → Subject D → Self.Signature → Type 0 };

    /// True if a certificate is valid for a subject.
    ghost accepts: { Self → Subject D → Self.Certificate → Bool };

    /// Returns a signature on a subject under the key of this scheme's member; `None` exactly if the scheme signs for
    /// no one.
    fn sign(
        &self,
        alloc: Global,
        subject: &Subject<D>,
    ) -> Result<Option<Self::Signature>, AllocError>
        ensures signs { IfOk result (λ s. is_some s ≡ is_some (Self.me self.now)) }
        ensures signed { IfOk result
            (λ s. IfSome s (IsSignedAs IsSignature (Self.me self.now) (Self.participants self.now) subject.now)) };

    /// Returns whether the certificate is valid for the subject.
    fn verify(&self, subject: &Subject<D>, certificate: &Self::Certificate) -> bool
        ensures { result ≡ accepts self.now subject.now certificate.now };
}

/// Chooses the leader of each view.
pub trait Elector<S: CertificateScheme>: Drop {
    /// The terms of the views.
    ghost terms: { Self → Terms };

    /// How many members there are.
    ghost members: { Self → ℕ };

    /// Leaders are known before any certificate.
    ghost elects_early: { Self → Bool };

    /// The leader of a round, after a certificate of these bytes.
    ghost elect: { Self → Round → Option (List ℕ) → ℕ };

    /// How the views are divided into terms.
    fn terms(&self) -> Terms
        ensures { result ≡ terms self.now };

    /// How many members there are.
    fn members(&self) -> usize
        ensures { result ≡ members self.now };

    /// Returns whether leaders are known before any certificate.
    fn elects_early(&self) -> bool
        ensures { result ≡ elects_early self.now };

    /// The leader of a view, after the certificate that leads to it if there is one.
    fn elect(&self, round: Round, certificate: Option<&S::Certificate>) -> Participant
        ensures { result ≡ elect self.now round (option_map S.certificate_bytes (option_copied certificate.entry)) };

    /// Each leader is a member.
    ghost elected_is_member: { (e : Self) (round : Round) (seed : Option (List ℕ)) → elect e round seed < members e };

    /// If leaders are known early, the certificate makes no difference.
    ghost early_needs_no_seed: { (e : Self) (round : Round) (seed : Option (List ℕ)) → elects_early e ≡ true
        → elect e round seed ≡ elect e round None };
}
