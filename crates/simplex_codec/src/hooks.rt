//! The requirements of decoding on digests and schemes, besides those of the protocol.

ghost use Rattle.std.specs.Prelude.{◌≡◌, ◌++◌, List, ℕ, Option, Some, IfOk, IfSome, OnOk};
ghost use Rattle.simplex_codec.specs.Decoded.{ReadsBack};

use bytes::BytesMut;
use simplex_types::types::{CertificateScheme, Digest};
use std::alloc::{AllocError, Global};

/// A digest that can be read from its bytes.
pub trait DigestCodec: Digest {
    /// Returns the digest with exactly these bytes; `None` exactly if no digest has them.
    fn read(bytes: &[u8]) -> Option<Self>
        ensures { ReadsBack Self.bytes bytes.now result };
}

/// A scheme whose certificates and signatures can be read from their bytes.
///
/// Both are the last part of what holds them, so a scheme receives all of the remaining bytes, and must refuse bytes
/// that are too many.
pub trait SchemeCodec: CertificateScheme {
    /// The bytes of a signature.
    ghost signature_bytes: { Self.Signature → List ℕ };

    /// The signature that bytes are read as, if they are a signature's.
    ghost signature_of: { List ℕ → Option Self.Signature };

    /// Returns a certificate with exactly these bytes; `None` exactly if no certificate has them.
    fn read_certificate(
        alloc: Global,
        bytes: &[u8],
    ) -> Result<Option<Self::Certificate>, AllocError>
        ensures { IfOk result (ReadsBack Self.certificate_bytes bytes.now) };

    /// Writes the bytes of a signature after those of `out`. They are read back as an equal signature.
    fn write_signature(out: &mut BytesMut, signature: &Self::Signature) -> Result<(), AllocError>
        ensures written { OnOk result (out.new.items ≡ out.old.items ++ signature_bytes signature.now) }
        ensures read_back { OnOk result (signature_of (signature_bytes signature.now) ≡ Some signature.now) };

    /// Returns the signature that the bytes are read as, which has exactly these bytes; `None` if they are no
    /// signature's.
    fn read_signature(alloc: Global, bytes: &[u8]) -> Result<Option<Self::Signature>, AllocError>
        ensures read { IfOk result (λ read. read ≡ signature_of bytes.now) }
        ensures same_bytes { IfOk result (λ read. IfSome read (λ signature. signature_bytes signature ≡ bytes.now)) };
}
