//! How certificates are made of votes.

ghost use Rattle.std.specs.Prelude.{◌≡◌, ◌≤◌, IfOk};
ghost use Rattle.simplex_types.specs.Quorums.{AreRising};
ghost use Rattle.example_engine.specs.SealedCertificates.{signers_of};

use crate::digest::BlockDigest;
use crate::scheme::{Seal, SealScheme, Signature};
use simplex_types::types::assembly::Assembly;
use simplex_types::types::{CertificateScheme, Participant, Subject};
use std::alloc::{AllocError, Global};

impl Assembly<BlockDigest> for SealScheme {
    ghost use Rattle.example_engine.specs.SealedCertificates.{IsSealOf, made_is_good};

    ghost IsMadeOf = { λ _ _ signatures seal. IsSealOf signatures seal };

    fn assemble(
        &self,
        alloc: Global,
        _subject: &Subject<BlockDigest>,
        signatures: &[(Participant, Signature)],
    ) -> Result<Seal, AllocError> {
        let members = self.participants().len();
        Ok(Seal {
            signers: signers(alloc, members, signatures)?,
        })
    }

    ghost made_is_good = { made_is_good };
}

/// Returns the indexes of the signers, of which each fits in a byte.
fn signers(
    alloc: Global,
    members: usize,
    signatures: &[(Participant, Signature)],
) -> Result<Vec<u8>, AllocError>
    requires few { members ≤ 256 }
    requires rising { AreRising members 0 signatures.now }
    ensures { IfOk result (λ signers. signers.items ≡ signers_of signatures.now) }
{
    let mut signers = Vec::new(alloc);
    for (member, _) in signatures {
        signers.push(member.get() as u8)?;
    }
    Ok(signers)
}
