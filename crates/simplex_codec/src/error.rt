//! Why bytes cannot be decoded.

use std::alloc::AllocError;
use std::error::Error;
use std::fmt;

/// Why bytes cannot be decoded: the first fault from left to right, or out of memory.
#[derive(Clone, Copy, PartialEq, Eq, Debug)]
pub enum DecodeError {
    /// An allocation failed. It says nothing about the bytes.
    OutOfMemory,
    /// The bytes end within the parts that their kind begins with.
    TooShort,
    /// The first byte, which is given, marks no kind.
    UnknownKind(u8),
    /// The bytes in the payload's place are no digest's.
    UnreadablePayload,
    /// The remaining bytes are no certificate of the scheme.
    UnreadableCertificate,
    /// The remaining bytes are no signature of the scheme.
    UnreadableSignature,
    /// The byte of a verdict, which is given, is neither 0 nor 1.
    UnknownVerdict(u8),
    /// Bytes are left over.
    TrailingBytes,
}

impl fmt::Display for DecodeError {
    ghost use Rattle.std.specs.Prelude.{Some};
    ghost use Rattle.simplex_codec.specs.Texts.{decode_error_text};

    ghost output = { λ error. Some (decode_error_text error) };

    fn fmt<W: fmt::Write>(&self, f: &mut fmt::Formatter<W>) -> fmt::Result {
        match self {
            DecodeError::OutOfMemory => write!(f, "no memory is left"),
            DecodeError::TooShort => write!(f, "the bytes end early"),
            DecodeError::UnknownKind(kind) => write!(f, "{kind} is no kind"),
            DecodeError::UnreadablePayload => write!(f, "the payload is no digest"),
            DecodeError::UnreadableCertificate => write!(f, "the certificate is not the scheme's"),
            DecodeError::UnreadableSignature => write!(f, "the signature is not the scheme's"),
            DecodeError::UnknownVerdict(verdict) => write!(f, "{verdict} is no verdict"),
            DecodeError::TrailingBytes => write!(f, "bytes are left over"),
        }
    }
}

impl Error for DecodeError {}

impl From<AllocError> for DecodeError {
    ghost use Rattle.std.specs.Prelude.{◌≡◌};
    ghost use Rattle.simplex_codec.specs.declared.error.DecodeError.TheVariants.{OutOfMemory};

    ghost from_gives = { λ _ error. error ≡ OutOfMemory };

    fn from(_refused: AllocError) -> DecodeError {
        DecodeError::OutOfMemory
    }
}
