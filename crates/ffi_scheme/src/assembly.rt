//! Certificates of the host's votes: their signatures, one after another.

ghost use Rattle.std.specs.Prelude.{◌≡◌, refl, true, OnOk, ◌++◌};
ghost use Rattle.ffi_scheme.specs.Host.{certificate_bytes};
ghost use Rattle.ffi_scheme.specs.HostCertificates.{signed_bytes, signature_bytes};

use crate::scheme::{HostCertificate, HostDigest, HostScheme, Order};
use bytes::{BufMut, BytesMut};
use simplex_types::types::assembly::Assembly;
use simplex_types::types::{Participant, Subject};
use std::alloc::{AllocError, Global};

impl Assembly<HostDigest> for HostScheme {
    ghost IsMadeOf = { λ _ _ signatures certificate. certificate_bytes certificate ≡ signed_bytes signatures };

    fn assemble(
        &self,
        alloc: Global,
        _subject: &Subject<HostDigest>,
        signatures: &[(Participant, Order)],
    ) -> Result<HostCertificate, AllocError> {
        let mut out = BytesMut::new(alloc);
        for (member, order) in signatures {
            put_signature(&mut out, *member, order)?;
        }
        Ok(HostCertificate {
            bytes: out.freeze()?,
        })
    }

    ghost made_is_good = { λ _ _ _ _ _ _. refl };
}

/// Writes a member's signature after the bytes of `out`.
fn put_signature(out: &mut BytesMut, member: Participant, order: &Order) -> Result<(), AllocError>
    ensures { OnOk result (out.new.items ≡ out.old.items ++ signature_bytes member order.now) }
{
    out.put_u32(member.get())?;
    out.put_u64(order.text.len() as u64)?;
    out.put_slice(order.text.as_slice())
}
