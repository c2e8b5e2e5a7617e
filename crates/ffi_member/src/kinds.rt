//! The kinds of certificates and of votes, and their numbers: votes of a kind make the certificate of the same number.

ghost use Rattle.std.specs.Prelude.{◌≡◌, MatchOption};
ghost use Rattle.ffi_member.specs.Numbers.{IsKind, IsNoKind, certificate_number, missing_number, vote_number};

use simplex_types::reasons::Kind;

/// The kind of a certificate.
#[derive(Clone, Copy, PartialEq, Eq, Debug)]
pub enum CertificateKind {
    Notarization,
    Nullification,
    Finalization,
}

/// The kind of a vote.
#[derive(Clone, Copy, PartialEq, Eq, Debug)]
pub enum VoteKind {
    Notarize,
    Nullify,
    Finalize,
}

/// Returns the certificate's kind of a number, if it is one's.
pub fn certificate_kind_of(number: u32) -> Option<CertificateKind>
    ensures { MatchOption result (IsNoKind number) (λ kind. (certificate_number kind ≡ number) × IsKind number) }
{
    match number {
        1 => Some(CertificateKind::Notarization),
        2 => Some(CertificateKind::Nullification),
        3 => Some(CertificateKind::Finalization),
        _ => None,
    }
}

/// Returns the vote's kind of a number, if it is one's.
pub fn vote_kind_of(number: u32) -> Option<VoteKind>
    ensures { MatchOption result (IsNoKind number) (λ kind. (vote_number kind ≡ number) × IsKind number) }
{
    match number {
        1 => Some(VoteKind::Notarize),
        2 => Some(VoteKind::Nullify),
        3 => Some(VoteKind::Finalize),
        _ => None,
    }
}

/// Returns the number of a certificate's kind.
pub fn number_of_certificate(kind: CertificateKind) -> u32
    ensures { result ≡ certificate_number kind }
{
    match kind {
        CertificateKind::Notarization => 1,
        CertificateKind::Nullification => 2,
        CertificateKind::Finalization => 3,
    }
}

/// Returns the number of a missing certificate's kind.
pub fn number_of_missing(kind: Kind) -> u32
    ensures { result ≡ missing_number kind }
{
    match kind {
        Kind::Nullification => number_of_certificate(CertificateKind::Nullification),
        Kind::Notarization => number_of_certificate(CertificateKind::Notarization),
    }
}
