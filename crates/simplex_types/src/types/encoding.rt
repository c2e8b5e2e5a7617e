//! The bytes of certificates, as members store and exchange them.

ghost use Rattle.std.specs.Prelude.{◌≡◌, ◌++◌, OnOk, IfOk, IsOkUnless};
ghost use Rattle.std.specs.Int.{w64, to_be_bytes};
ghost use Rattle.simplex_types.specs.Certificates.{certificate_facts};
ghost use Rattle.simplex_types.specs.Encoding.{encoding, certificate_subject, scheme_bytes, subject_bytes, round_bytes, proposal_bytes, EncodingTellsApart};

use crate::types::Fault;
use crate::types::messages::{Certificate, Proposal, Subject};
use crate::types::numbers::Round;
use crate::types::scheme::{CertificateScheme, Digest};
use bytes::{BufMut, Bytes, BytesMut};
use std::alloc::{AllocError, Global};

/// The first byte of an encoded notarization, and of what a vote to notarize signs; the same for the two below.
const NOTARIZATION: u8 = 0;
/// The first byte of an encoded nullification.
const NULLIFICATION: u8 = 1;
/// The first byte of an encoded finalization.
const FINALIZATION: u8 = 2;

impl<S: CertificateScheme, D: Digest> Certificate<S, D> {
    /// Returns the certificate's bytes: the kind, the round or the whole proposal, and the scheme's own bytes.
    ///
    /// Two certificates have equal encodings exactly if their kind, round, proposal and scheme's bytes are equal. The
    /// only fault is `OutOfMemory`. `decode_certificate` of `simplex_codec` is the inverse.
    pub fn encode(&self, alloc: Global) -> Result<Bytes, Fault>
        ensures encoded { IfOk result
            (λ bytes. bytes ≡ encoding D.bytes (certificate_facts S.certificate_bytes self.now)) }
        ensures refused { IsOkUnless result Fault.OutOfMemory }
    {
        let mut out = BytesMut::new(alloc);
        put_subject(&mut out, &self.subject())?;
        out.put_slice(self.scheme_bytes())?;
        Ok(out.freeze()?)
    }

    /// The subject of its votes.
    fn subject(&self) -> Subject<D>
        ensures { result ≡ certificate_subject (certificate_facts S.certificate_bytes self.now) }
    {
        match self {
            Certificate::Notarization(notarization) => Subject::Notarize(notarization.proposal),
            Certificate::Nullification(nullification) => Subject::Nullify(nullification.round),
            Certificate::Finalization(finalization) => Subject::Finalize(finalization.proposal),
        }
    }

    /// The scheme's own bytes.
    fn scheme_bytes(&self) -> &[u8]
        ensures { result.now ≡ scheme_bytes (certificate_facts S.certificate_bytes self.now) }
    {
        match self {
            Certificate::Notarization(it) => S::certificate_bytes(&it.certificate),
            Certificate::Nullification(it) => S::certificate_bytes(&it.certificate),
            Certificate::Finalization(it) => S::certificate_bytes(&it.certificate),
        }
    }
}

impl<D: Digest> Subject<D> {
    /// Returns the bytes that a vote on the subject signs: the kind of vote, then the round or the whole proposal.
    pub fn encode(&self, alloc: Global) -> Result<Bytes, AllocError>
        ensures { IfOk result (λ bytes. bytes ≡ subject_bytes D.bytes self.now) }
    {
        let mut out = BytesMut::new(alloc);
        put_subject(&mut out, self)?;
        Ok(out.freeze()?)
    }
}

/// Encodings distinguish certificates: equal ones are of one kind, round and proposal, and have the same scheme's
/// bytes.
///
/// The function does nothing: its contract is the law.
pub fn encoding_tells_apart<D: Digest>()
    ensures { EncodingTellsApart D.bytes }
{}

fn put_subject<D: Digest>(out: &mut BytesMut, subject: &Subject<D>) -> Result<(), AllocError>
    ensures { OnOk result (out.new.items ≡ out.old.items ++ subject_bytes D.bytes subject.now) }
{
    match subject {
        Subject::Notarize(proposal) => {
            out.put_u8(NOTARIZATION)?;
            put_proposal(out, proposal)
        }
        Subject::Nullify(round) => {
            out.put_u8(NULLIFICATION)?;
            put_round(out, *round)
        }
        Subject::Finalize(proposal) => {
            out.put_u8(FINALIZATION)?;
            put_proposal(out, proposal)
        }
    }
}

fn put_round(out: &mut BytesMut, round: Round) -> Result<(), AllocError>
    ensures { OnOk result (out.new.items ≡ out.old.items ++ round_bytes round) }
{
    out.put_u64(round.epoch.get())?;
    out.put_u64(round.view.get())?;
    Ok(())
}

fn put_proposal<D: Digest>(out: &mut BytesMut, proposal: &Proposal<D>) -> Result<(), AllocError>
    ensures { OnOk result (out.new.items ≡ out.old.items ++ proposal_bytes D.bytes proposal.now) }
{
    put_round(out, proposal.round)?;
    out.put_u64(proposal.parent.get())?;
    out.put_slice(proposal.payload.as_bytes())?;
    Ok(())
}
