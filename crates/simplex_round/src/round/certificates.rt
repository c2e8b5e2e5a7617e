//! The certificates of a view: at most one of a kind is stored, and each is returned for broadcast
//! once.

ghost use Rattle.std.specs.Prelude.{◌≡◌, ◌||◌, IfOk, OnOk, OnErr, IsOkUnless, Some, true, false, None, not, is_some, option_map, if◌then◌else◌};
ghost use Rattle.std.specs.Option.{option_copied};
ghost use Rattle.simplex_types.specs.Proposal.{same_proposal};
ghost use Rattle.simplex_types.specs.Certificates.{notarization_facts, nullification_facts, finalization_facts};
ghost use Rattle.simplex_round.specs.Round.{certificate_payload, equivocator, forwardable, has_unsent_certificate, once, with_finalization, with_notarization, with_nullification, with_recovered};

use super::{Certification, Round};
use crate::slot::Change;
use simplex_types::types::{
    CertificateScheme, Digest, Fault, Finalization, Notarization, Nullification, Proposal,
};
use std::alloc::Global;

/// Stores a certificate if none is stored yet. Returns whether it did.
fn store_first<C: Drop>(stored: &mut Option<C>, certificate: C) -> bool
    ensures first { result ≡ not (is_some stored.old) }
    ensures stored { stored.new ≡ (if is_some stored.old then stored.old else Some certificate) }
{
    let is_first = stored.is_none();
    if is_first {
        *stored = Some(certificate);
    }
    is_first
}

impl<S: CertificateScheme, D: Digest> Round<S, D> {
    /// The view's notarization, if one was added.
    pub fn notarization(&self) -> Option<&Notarization<S, D>>
        ensures { option_map (notarization_facts S.certificate_bytes) (option_copied result) ≡ self.now.notarization }
    {
        self.notarization.as_ref()
    }

    /// The view's nullification, if one was added.
    pub fn nullification(&self) -> Option<&Nullification<S>>
        ensures { option_map (nullification_facts S.certificate_bytes) (option_copied result) ≡ self.now.nullification }
    {
        self.nullification.as_ref()
    }

    /// The view's finalization, if one was added.
    pub fn finalization(&self) -> Option<&Finalization<S, D>>
        ensures { option_map (finalization_facts S.certificate_bytes) (option_copied result) ≡ self.now.finalization }
    {
        self.finalization.as_ref()
    }

    /// Returns whether the view itself has a notarization or a finalization, and not only a descendant.
    pub fn is_directly_notarized(&self) -> bool
        ensures { result ≡ (is_some self.now.notarization || is_some self.now.finalization) }
    {
        self.notarization.is_some() || self.finalization.is_some()
    }

    /// Takes the proposal of a certificate: it replaces a held one that differs, even after
    /// equivocation was seen, and the view then counts as equivocated. Returns the leader's key in
    /// that case, since the leader signed two proposals; `None` if no leader is known.
    pub fn add_recovered_proposal(&mut self, proposal: &Proposal<D>) -> Option<S::PublicKey>
        ensures equivocator { result ≡ equivocator (same_proposal D.eq) self.old proposal.now }
        ensures facts { self.new ≡ with_recovered (same_proposal D.eq) self.old proposal.now }
    {
        match self.slot.update_certificate(proposal) {
            Change::New | Change::Unchanged => None,
            Change::Equivocated { .. } => {
                let leader = self.leader?;
                Some(leader.key)
            }
        }
    }

    /// Adds a notarization and its proposal. Returns whether it was newly added, and the key of a
    /// leader found to equivocate. A second one is not added, and changes nothing.
    ///
    /// Deadlines stay armed: the proposal must still be certified.
    pub fn add_notarization(
        &mut self,
        notarization: Notarization<S, D>,
    ) -> (bool, Option<S::PublicKey>)
        ensures added { result ≡ (if is_some self.old.notarization then (false, None) else
            (true, equivocator (same_proposal D.eq) self.old notarization.proposal)) }
        ensures facts { self.new ≡ with_notarization (same_proposal D.eq) self.old
            (notarization_facts S.certificate_bytes notarization) }
    {
        let proposal = notarization.proposal;
        if store_first(&mut self.notarization, notarization) {
            (true, self.add_recovered_proposal(&proposal))
        } else {
            (false, None)
        }
    }

    /// Adds a nullification. Returns whether it was newly added; a second one is not.
    pub fn add_nullification(&mut self, nullification: Nullification<S>) -> bool
        ensures added { result ≡ not (is_some self.old.nullification) }
        ensures facts { self.new ≡ with_nullification self.old (nullification_facts S.certificate_bytes nullification) }
    {
        store_first(&mut self.nullification, nullification)
    }

    /// Adds a finalization and its proposal. Returns whether it was newly added, and the key of a
    /// leader found to equivocate. A second one is not added, and changes nothing.
    pub fn add_finalization(
        &mut self,
        finalization: Finalization<S, D>,
    ) -> (bool, Option<S::PublicKey>)
        ensures added { result ≡ (if is_some self.old.finalization then (false, None) else
            (true, equivocator (same_proposal D.eq) self.old finalization.proposal)) }
        ensures facts { self.new ≡ with_finalization (same_proposal D.eq) self.old
            (finalization_facts S.certificate_bytes finalization) }
    {
        let proposal = finalization.proposal;
        if store_first(&mut self.finalization, finalization) {
            (true, self.add_recovered_proposal(&proposal))
        } else {
            (false, None)
        }
    }

    /// Returns a copy of the notarization to send to others, once. `None` if there is none or it
    /// was returned before. The only fault is `OutOfMemory`, and then nothing has changed.
    pub fn broadcast_notarization(
        &mut self,
        alloc: Global,
    ) -> Result<Option<Notarization<S, D>>, Fault>
        ensures refused { IsOkUnless result Fault.OutOfMemory }
        ensures refused_only_a_copy { OnErr result
            (is_some (once self.old.notarization_broadcast self.old.notarization) ≡ true) }
        ensures unchanged { OnErr result (self.new ≡ self.old) }
        ensures answer { IfOk result (λ c. option_map (notarization_facts S.certificate_bytes) c
            ≡ once self.old.notarization_broadcast self.old.notarization) }
        ensures facts { OnOk result
            (self.new ≡ record self.old {
              notarization_broadcast = self.old.notarization_broadcast || is_some self.old.notarization;
            }) }
    {
        let copy = match self.unsent_notarization() {
            Some(notarization) => notarization.clone(alloc)?,
            None => return Ok(None),
        };
        self.notarization_broadcast = true;
        Ok(Some(copy))
    }

    /// The notarization, if there is one that was not returned before.
    fn unsent_notarization(&self) -> Option<&Notarization<S, D>>
        ensures { option_map (notarization_facts S.certificate_bytes) (option_copied result)
            ≡ once self.now.notarization_broadcast self.now.notarization }
    {
        if self.notarization_broadcast {
            return None;
        }
        self.notarization.as_ref()
    }

    /// Returns a copy of the nullification to send to others, once, as `broadcast_notarization`.
    pub fn broadcast_nullification(
        &mut self,
        alloc: Global,
    ) -> Result<Option<Nullification<S>>, Fault>
        ensures refused { IsOkUnless result Fault.OutOfMemory }
        ensures refused_only_a_copy { OnErr result
            (is_some (once self.old.nullification_broadcast self.old.nullification) ≡ true) }
        ensures unchanged { OnErr result (self.new ≡ self.old) }
        ensures answer { IfOk result (λ c. option_map (nullification_facts S.certificate_bytes) c
            ≡ once self.old.nullification_broadcast self.old.nullification) }
        ensures facts { OnOk result (self.new ≡ record self.old {
          nullification_broadcast = self.old.nullification_broadcast || is_some self.old.nullification;
        }) }
    {
        let copy = match self.unsent_nullification() {
            Some(nullification) => nullification.clone(alloc)?,
            None => return Ok(None),
        };
        self.nullification_broadcast = true;
        Ok(Some(copy))
    }

    /// The nullification, if there is one that was not returned before.
    fn unsent_nullification(&self) -> Option<&Nullification<S>>
        ensures { option_map (nullification_facts S.certificate_bytes) (option_copied result)
            ≡ once self.now.nullification_broadcast self.now.nullification }
    {
        if self.nullification_broadcast {
            return None;
        }
        self.nullification.as_ref()
    }

    /// Returns a copy of the finalization to send to others, once, as `broadcast_notarization`.
    pub fn broadcast_finalization(
        &mut self,
        alloc: Global,
    ) -> Result<Option<Finalization<S, D>>, Fault>
        ensures refused { IsOkUnless result Fault.OutOfMemory }
        ensures refused_only_a_copy { OnErr result
            (is_some (once self.old.finalization_broadcast self.old.finalization) ≡ true) }
        ensures unchanged { OnErr result (self.new ≡ self.old) }
        ensures answer { IfOk result (λ c. option_map (finalization_facts S.certificate_bytes) c
            ≡ once self.old.finalization_broadcast self.old.finalization) }
        ensures facts { OnOk result
            (self.new ≡ record self.old {
              finalization_broadcast = self.old.finalization_broadcast || is_some self.old.finalization;
            }) }
    {
        let copy = match self.unsent_finalization() {
            Some(finalization) => finalization.clone(alloc)?,
            None => return Ok(None),
        };
        self.finalization_broadcast = true;
        Ok(Some(copy))
    }

    /// The finalization, if there is one that was not returned before.
    fn unsent_finalization(&self) -> Option<&Finalization<S, D>>
        ensures { option_map (finalization_facts S.certificate_bytes) (option_copied result)
            ≡ once self.now.finalization_broadcast self.now.finalization }
    {
        if self.finalization_broadcast {
            return None;
        }
        self.finalization.as_ref()
    }

    /// Returns whether the view has a certificate that was not returned for broadcast.
    pub fn has_unsent_certificate(&self) -> bool
        ensures { result ≡ has_unsent_certificate self.now }
    {
        self.unsent_notarization().is_some()
            || self.unsent_nullification().is_some()
            || self.unsent_finalization().is_some()
    }

    /// The payload that the view's certificate lets later views build on: the finalization's,
    /// else the notarization's unless this member refused to certify it.
    pub fn certificate_ancestry_payload(&self) -> Option<&D>
        ensures { option_copied result ≡ certificate_payload self.now }
    {
        if let Some(finalization) = &self.finalization {
            return Some(&finalization.proposal.payload);
        }
        if matches!(self.certification, Certification::Judged(false)) {
            return None;
        }
        match &self.notarization {
            Some(notarization) => Some(&notarization.proposal.payload),
            None => None,
        }
    }

    /// The held proposal, if the view's certificate lets later views build on it.
    pub fn forwardable_proposal(&self) -> Option<&Proposal<D>>
        ensures { option_copied result ≡ forwardable self.now }
    {
        self.certificate_ancestry_payload()?;
        self.slot.proposal()
    }
}
