//! Starting a resolver from a record.

ghost use Rattle.std.specs.Prelude.{◌≡◌, ℕ, false, None, IfOk, IfErr, OnOk};
ghost use Rattle.std.specs.List.{AllByRecursion};
ghost use Rattle.simplex_types.specs.declared.types.fault.Fault.TheVariants.{OutOfMemory};
ghost use Rattle.simplex_resolver.specs.Steps.{Replayed, effects};
ghost use Rattle.simplex_resolver.specs.ReceivedFacts.{NamesAView, is_needed};
ghost use Rattle.simplex_resolver.specs.Repair.{facts_of, is_outstanding};
ghost use Rattle.simplex_resolver.specs.ReplayErrors.{IsDue};
ghost use Rattle.simplex_resolver.specs.RecordCalls.{newest_first, record_calls, replay_calls, all_after};
ghost use Rattle.simplex_resolver.specs.RecordRules.{record_error};

use super::calls::pass_every;
use super::check::check_entries;
use super::error::ReplayError;
use crate::resolver::{Effect, State};
use simplex_types::types::{Artifact, CertificateScheme, Digest, Fault, TermLength};
use std::alloc::Global;

/// Passes the whole record in and ends the replay.
fn replay<S: CertificateScheme, D: Digest>(
    alloc: Global,
    state: &mut State,
    entries: &[Artifact<S, D>],
) -> Result<Vec<Effect>, Fault>
    requires resumption { state.old.is_failed ≡ false }
    requires sound { record_error (newest_first S.certificate_bytes entries.now) ≡ None }
    ensures after { OnOk result
        (state.new ≡ all_after state.old (replay_calls D.bytes S.certificate_bytes entries.now)) }
    ensures effects { IfOk result
        (λ es. es.items ≡ effects
        (all_after state.old (record_calls D.bytes S.certificate_bytes entries.now)) Replayed) }
    ensures refused { IfErr result (λ fault. fault ≡ OutOfMemory) }
{
    pass_every(alloc, state, entries)?;
    state.replayed()
}

/// Starts a resolver from a member's record, oldest entry first. It receives each certificate, and each verdict
/// with the last notarization of its view before it, and then the end of the replay. Votes change nothing in
/// it. Returns the resolver and the fetches to open.
///
/// The record may be in any order that has a view's notarization before its verdicts.
///
/// # Errors
///
/// The first entry that cannot be passed in: a certificate of genesis (`ZeroView`), one that names a view above
/// 2^63 - 1 (`ViewTooLarge`), a verdict without a notarization of its view before it
/// (`VerdictWithoutNotarization`). `OutOfMemory` only if none of these applies. Then there is no resolver.
pub fn replay_record<S: CertificateScheme, D: Digest>(
    alloc: Global,
    term_length: TermLength,
    entries: &[Artifact<S, D>],
) -> Result<(State, Vec<Effect>), ReplayError>
    ensures state { IfOk result
        (λ made. made.0 ≡ facts_of term_length (replay_calls D.bytes S.certificate_bytes entries.now)) }
    ensures effects { IfOk result (λ made. made.1.items
        ≡ effects (facts_of term_length (record_calls D.bytes S.certificate_bytes entries.now)) Replayed) }
    ensures named { OnOk result (AllByRecursion NamesAView (replay_calls D.bytes S.certificate_bytes entries.now)) }
    ensures wanted { IfOk result (λ made. (v : ℕ) → is_outstanding made.1.items v
        ≡ is_needed term_length (replay_calls D.bytes S.certificate_bytes entries.now) v) }
    ensures accepted { OnOk result (record_error (newest_first S.certificate_bytes entries.now) ≡ None) }
    ensures refused { IfErr result (IsDue (record_error (newest_first S.certificate_bytes entries.now))) }
{
    check_entries(alloc, entries)?;
    // proof only: exposes that the term length is positive
    let _positive = term_length.get();
    let mut state = State::new(alloc, term_length);
    match replay(alloc, &mut state, entries) {
        Ok(effects) => Ok((state, effects)),
        Err(_) => Err(ReplayError::OutOfMemory),
    }
}
