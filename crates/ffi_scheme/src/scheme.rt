//! Signing and certificates where a host in another language signs and verifies.
//!
//! The core's signature of a vote is an order: the member's index and the very bytes that the host must sign. So what
//! is proved of signatures is proved of orders; the host itself must sign nothing else. These bytes begin with the
//! namespace of the member's network, so no order of one network is an order of another.

ghost use Rattle.std.specs.Prelude.{◌≡◌, ◌<◌, ℕ, true, List, Option, Some, None, length, IfOk, OnOk};
ghost use Rattle.std.specs.Option.{ForSome};

use bytes::{BufMut, Bytes, BytesMut};
use simplex_codec::digest::BytesDigest;
use simplex_codec::hooks::SchemeCodec;
use simplex_types::types::{CertificateScheme, Digest, Participant, PublicKey, Scheme, Subject};
use std::alloc::{AllocError, Global};

/// A payload's digest.
pub type HostDigest = BytesDigest<32>;

/// The bytes that distinguish a network: each text that its members sign begins with them.
pub type Namespace = [u8; 32];

/// A member's key: its index in a network.
#[derive(Clone, Copy, PartialEq, Eq, Debug)]
pub struct HostKey {
    pub namespace: Namespace,
    pub index: u32,
}

impl PublicKey for HostKey {}

/// An order to the host: sign the text, under the key of the member with this index.
#[derive(Drop)]
pub struct Order {
    pub index: u32,
    pub text: Bytes,
}

impl Order {
    ghost use Rattle.ffi_scheme.specs.Host.{IsOrder, signed_text};

    /// Returns the order to sign a subject: the text begins with the namespace of the key.
    pub fn new<D: Digest>(
        alloc: Global,
        key: HostKey,
        subject: &Subject<D>,
    ) -> Result<Order, AllocError>
        ensures { IfOk result (IsOrder D.bytes key subject.now) }
    {
        let text = Order::text_in(alloc, &key.namespace, subject)?;
        Ok(Order {
            index: key.index,
            text,
        })
    }

    /// Returns the text that a member of a network signs for a subject: the namespace, then the subject's bytes.
    pub fn text_in<D: Digest>(
        alloc: Global,
        namespace: &Namespace,
        subject: &Subject<D>,
    ) -> Result<Bytes, AllocError>
        ensures { IfOk result (λ text. text ≡ signed_text D.bytes namespace.now subject.now) }
    {
        let encoded = subject.encode(alloc)?;
        let mut out = BytesMut::new(alloc);
        out.put_slice(namespace)?;
        out.put_slice(encoded.as_slice())?;
        Ok(out.freeze()?)
    }
}

/// A certificate's bytes, which the host made and verified.
#[derive(Drop)]
pub struct HostCertificate {
    pub bytes: Bytes,
}

/// The members' keys, and the one that signs here, if any.
#[derive(Drop)]
pub struct HostScheme {
    keys: Vec<HostKey>,
    signer: Option<Participant>,
    ghost signer_is_member: { ForSome signer (λ m. m < length keys.items) },
}

impl HostScheme {
    ghost use Rattle.ffi_scheme.specs.Host.{host_signer, host_keys, host_keys_in};

    /// Returns the scheme of this many members of a network, with the key of one of them or of none.
    pub fn new(
        alloc: Global,
        namespace: Namespace,
        members: u32,
        signer: Option<Participant>,
    ) -> Result<HostScheme, AllocError>
        requires { ForSome signer (λ m. m < members) }
        ensures signer { IfOk result (λ s. host_signer s ≡ signer) }
        ensures members { IfOk result (λ s. host_keys s ≡ host_keys_in namespace members) }
    {
        let mut keys = Vec::new(alloc);
        for index in 0..members {
            keys.push(HostKey { namespace, index })?;
        }
        Ok(HostScheme { keys, signer })
    }
}

impl CertificateScheme for HostScheme {
    type PublicKey = HostKey;

    type Signature = Order;

    type Certificate = HostCertificate;

    ghost use Rattle.ffi_scheme.specs.Host.{host_signer, host_keys, certificate_bytes};

    ghost me = { host_signer };

    ghost participants = { host_keys };

    ghost certificate_bytes = { certificate_bytes };

    fn copy(&self, alloc: Global) -> Result<HostScheme, AllocError> {
        let mut keys = Vec::new(alloc);
        keys.extend_from_slice(self.keys.as_slice())?;
        Ok(HostScheme {
            keys,
            signer: self.signer,
        })
    }

    fn copy_signature(_alloc: Global, signature: &Order) -> Result<Order, AllocError> {
        Ok(Order {
            index: signature.index,
            text: signature.text.clone()?,
        })
    }

    fn copy_certificate(
        _alloc: Global,
        certificate: &HostCertificate,
    ) -> Result<HostCertificate, AllocError> {
        Ok(HostCertificate {
            bytes: certificate.bytes.clone()?,
        })
    }

    fn me(&self) -> Option<Participant> {
        self.signer
    }

    fn participants(&self) -> &[HostKey] {
        self.keys.as_slice()
    }

    fn certificate_bytes(certificate: &HostCertificate) -> &[u8] {
        certificate.bytes.as_slice()
    }

    ghost me_is_member = { λ s. s.signer_is_member };
}

impl<D: Digest> Scheme<D> for HostScheme {
    ghost use Rattle.ffi_scheme.specs.Host.{IsOrder};

    ghost IsSignature = { IsOrder D.bytes };

    ghost accepts = { λ _ _ _. true };

    fn sign(&self, alloc: Global, subject: &Subject<D>) -> Result<Option<Order>, AllocError> {
        let Some(signer) = self.signer else {
            return Ok(None);
        };
        let key = self.keys[signer.get() as usize];
        Ok(Some(Order::new(alloc, key, subject)?))
    }

    /// The host verified it before it passed it in.
    fn verify(&self, _subject: &Subject<D>, _certificate: &HostCertificate) -> bool {
        true
    }
}

impl SchemeCodec for HostScheme {
    ghost use Rattle.ffi_scheme.specs.Host.{order_bytes, order_of};

    ghost signature_bytes = { order_bytes };

    ghost signature_of = { order_of };

    fn read_certificate(
        alloc: Global,
        bytes: &[u8],
    ) -> Result<Option<HostCertificate>, AllocError> {
        Ok(Some(HostCertificate {
            bytes: Bytes::copy_from_slice(alloc, bytes)?,
        }))
    }

    fn write_signature(out: &mut BytesMut, signature: &Order) -> Result<(), AllocError> {
        out.put_u32(signature.index)?;
        out.put_slice(signature.text.as_slice())
    }

    fn read_signature(alloc: Global, bytes: &[u8]) -> Result<Option<Order>, AllocError> {
        let Some((index, text)) = bytes.split_first_chunk::<4>() else {
            return Ok(None);
        };
        Ok(Some(Order {
            index: u32::from_be_bytes(*index),
            text: Bytes::copy_from_slice(alloc, text)?,
        }))
    }
}
