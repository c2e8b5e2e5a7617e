//! The engine's further requirement of a scheme: to make certificates of votes.

ghost use Rattle.std.specs.Prelude.{◌≡◌, ◌<◌, ◌-◌, ◌/◌, ℕ, List, true, length, IfOk};
ghost use Rattle.simplex_types.specs.declared.types.messages.Subject.{Subject};
ghost use Rattle.simplex_types.specs.Quorums.{quorum_of, AreRising, IsSignedByQuorum};

use crate::types::messages::Subject;
use crate::types::numbers::Participant;
use crate::types::scheme::{Digest, Scheme};
use std::alloc::{AllocError, Global};

/// A scheme whose certificates are made of the signatures of votes.
pub trait Assembly<D: Digest>: Scheme<D> {
    /// The certificate is made of exactly these members' signatures on the subject.
    ghost IsMadeOf: { Self → Subject D → List (ℕ × Self.Signature) → Self.Certificate → Type 0 };

    /// Returns a certificate of the signatures of exactly n - f of the n members on the subject, by rising member. Each
    /// signature was tested before.
    fn assemble(
        &self,
        alloc: Global,
        subject: &Subject<D>,
        signatures: &[(Participant, Self::Signature)],
    ) -> Result<Self::Certificate, AllocError>
        requires quorum { length signatures.now ≡ quorum_of (length (Self.participants self.now)) }
        requires rising { AreRising (length (Self.participants self.now)) 0 signatures.now }
        ensures { IfOk result (IsMadeOf self.now subject.now signatures.now) };

    /// A certificate of valid signatures is valid.
    ghost made_is_good: { (s : Self) (subject : Subject D) (signatures : List (ℕ × Self.Signature))
        (certificate : Self.Certificate)
        → IsSignedByQuorum Self.IsSignature (Self.participants s) subject signatures
        → IsMadeOf s subject signatures certificate
        → Self.accepts s subject certificate ≡ true };
}

/// Returns how many votes make a certificate among this many members: all but the faulty ones, which are fewer than a
/// third.
pub fn quorum(members: usize) -> usize
    ensures { result ≡ quorum_of members }
{
    members - members.saturating_sub(1) / 3
}
