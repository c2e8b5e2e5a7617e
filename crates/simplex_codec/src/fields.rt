//! The parts of encodings, written after the existing bytes.

ghost use Rattle.std.specs.Prelude.{◌≡◌, ◌++◌, ◌∷◌, [], OnOk, Some};
ghost use Rattle.std.specs.Int.{w32, w64, to_be_bytes};
ghost use Rattle.simplex_types.specs.Encoding.{round_bytes, proposal_bytes, subject_bytes, IsEncodableRound};
ghost use Rattle.simplex_codec.specs.Refusals.{IsEncodableProposal, IsEncodableSubject};
ghost use Rattle.simplex_codec.specs.Artifacts.{signed_proposal_bytes, signed_round, verdict_bytes};

use crate::hooks::SchemeCodec;
use crate::kinds::{FINALIZATION, NOTARIZATION, NULLIFICATION, VERDICT};
use bytes::{BufMut, BytesMut};
use simplex_types::types::{Digest, Participant, Proposal, Round, Subject};
use std::alloc::AllocError;

fn put_round(out: &mut BytesMut, round: Round) -> Result<(), AllocError>
    ensures written { OnOk result (out.new.items ≡ out.old.items ++ round_bytes round) }
    ensures fits { OnOk result (IsEncodableRound round) }
{
    out.put_u64(round.epoch.get())?;
    out.put_u64(round.view.get())?;
    Ok(())
}

fn put_proposal<D: Digest>(out: &mut BytesMut, proposal: &Proposal<D>) -> Result<(), AllocError>
    ensures written { OnOk result (out.new.items ≡ out.old.items ++ proposal_bytes D.bytes proposal.now) }
    ensures fits { OnOk result (IsEncodableProposal proposal.now) }
{
    put_round(out, proposal.round)?;
    out.put_u64(proposal.parent.get())?;
    out.put_slice(proposal.payload.as_bytes())?;
    Ok(())
}

/// Writes what a vote on the subject signs. Its numbers fit, as those of each subject do.
pub(crate) fn put_subject<D: Digest>(
    out: &mut BytesMut,
    subject: &Subject<D>,
) -> Result<(), AllocError>
    ensures written { OnOk result (out.new.items ≡ out.old.items ++ subject_bytes D.bytes subject.now) }
    ensures fits { OnOk result (IsEncodableSubject subject.now) }
{
    match subject {
        Subject::Notarize(proposal) => {
            out.put_u8(NOTARIZATION)?;
            put_proposal(out, proposal)
        }
        Subject::Nullify(round) => {
            out.put_u8(NULLIFICATION)?;
            put_round(out, *round)
        }
        Subject::Finalize(proposal) => {
            out.put_u8(FINALIZATION)?;
            put_proposal(out, proposal)
        }
    }
}

/// Writes a kind, a proposal and a certificate.
pub(crate) fn put_proposal_certificate<S: SchemeCodec, D: Digest>(
    out: &mut BytesMut,
    kind: u8,
    proposal: &Proposal<D>,
    certificate: &S::Certificate,
) -> Result<(), AllocError>
    ensures { OnOk result (out.new.items ≡ out.old.items
        ++ (kind ∷ (proposal_bytes D.bytes proposal.now ++ S.certificate_bytes certificate.now))) }
{
    out.put_u8(kind)?;
    put_proposal(out, proposal)?;
    out.put_slice(S::certificate_bytes(certificate))?;
    Ok(())
}

/// Writes a kind, a round and a certificate.
pub(crate) fn put_round_certificate<S: SchemeCodec>(
    out: &mut BytesMut,
    kind: u8,
    round: Round,
    certificate: &S::Certificate,
) -> Result<(), AllocError>
    ensures { OnOk result (out.new.items ≡ out.old.items
        ++ (kind ∷ (round_bytes round ++ S.certificate_bytes certificate.now))) }
{
    out.put_u8(kind)?;
    put_round(out, round)?;
    out.put_slice(S::certificate_bytes(certificate))?;
    Ok(())
}

/// Writes a kind, a signer, a proposal and a signature, which can be read from its bytes.
pub(crate) fn put_proposal_vote<S: SchemeCodec, D: Digest>(
    out: &mut BytesMut,
    kind: u8,
    signer: Participant,
    proposal: &Proposal<D>,
    signature: &S::Signature,
) -> Result<(), AllocError>
    ensures bytes { OnOk result (out.new.items
        ≡ out.old.items ++ (kind
        ∷ signed_proposal_bytes D.bytes signer proposal.now (S.signature_bytes signature.now))) }
    ensures readable { OnOk result (S.signature_of (S.signature_bytes signature.now) ≡ Some signature.now) }
{
    out.put_u8(kind)?;
    out.put_u32(signer.get())?;
    put_proposal(out, proposal)?;
    S::write_signature(out, signature)?;
    Ok(())
}

/// Writes a kind, a signer, a round and a signature, which can be read from its bytes.
pub(crate) fn put_round_vote<S: SchemeCodec>(
    out: &mut BytesMut,
    kind: u8,
    signer: Participant,
    round: Round,
    signature: &S::Signature,
) -> Result<(), AllocError>
    ensures bytes { OnOk result
        (out.new.items ≡ out.old.items ++ (kind ∷ signed_round signer round (S.signature_bytes signature.now))) }
    ensures readable { OnOk result (S.signature_of (S.signature_bytes signature.now) ≡ Some signature.now) }
{
    out.put_u8(kind)?;
    out.put_u32(signer.get())?;
    put_round(out, round)?;
    S::write_signature(out, signature)?;
    Ok(())
}

/// Writes a round and its verdict.
pub(crate) fn put_verdict(out: &mut BytesMut, round: Round, success: bool) -> Result<(), AllocError>
    ensures { OnOk result (out.new.items ≡ out.old.items ++ 6 ∷ verdict_bytes round success) }
{
    out.put_u8(VERDICT)?;
    put_round(out, round)?;
    out.put_u8(u8::from(success))?;
    Ok(())
}
