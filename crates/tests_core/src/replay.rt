//! Records, and the fetches that a resolver starts with. The fetches were found by hand, from the rule that names them.

ghost use Rattle.std.specs.Prelude.{◌≡◌};
ghost use Rattle.simplex_types.specs.MessageViews.{certificate_view};

use simplex_resolver::replay::{LawfulResolver, ReplayError, replay_record};
use simplex_resolver::resolver::{Effect, State, apply};
use simplex_types::reasons::{FetchReason, Kind};
use simplex_types::types::plain::{
    PlainCertificate, PlainDigest, PlainKey, PlainScheme, PlainSignature,
};
use simplex_types::types::{
    Artifact, Certificate, Epoch, Finalization, Notarization, Nullification, Nullify, Participant,
    Proposal, Round, Subject, TermLength, View,
};
use std::alloc::Global;
use std::collections::BTreeSet;
use std::num::NonZeroU32;
use std::test::Fail;

type PlainArtifact = Artifact<PlainScheme, PlainDigest>;

/// A view above the largest that a certificate may name.
const TOO_LARGE: u64 = 1 << 63;

/// Terms of two views: 1 and 2, 3 and 4, and so on.
fn pairs() -> TermLength {
    TermLength::new(NonZeroU32::MIN.saturating_add(1))
}

fn round(view: u64) -> Round
    ensures { result.view ≡ view }
{
    Round {
        epoch: Epoch::new(1),
        view: View::new(view),
    }
}

fn proposal(view: u64, parent: u64) -> Proposal<PlainDigest>
    ensures { result.round.view ≡ view }
{
    Proposal {
        round: round(view),
        parent: View::new(parent),
        payload: PlainDigest::new(7),
    }
}

fn good() -> PlainCertificate {
    PlainCertificate { good: true }
}

fn notarization_on(view: u64, parent: u64) -> PlainArtifact {
    Artifact::Notarization(Notarization {
        proposal: proposal(view, parent),
        certificate: good(),
    })
}

fn notarization_of(view: u64) -> Notarization<PlainScheme, PlainDigest>
    ensures { result.proposal.round.view ≡ view }
{
    Notarization {
        proposal: proposal(view, 0),
        certificate: good(),
    }
}

fn notarization(view: u64) -> PlainArtifact {
    notarization_on(view, 0)
}

fn finalization(view: u64) -> PlainArtifact {
    Artifact::Finalization(Finalization {
        proposal: proposal(view, 0),
        certificate: good(),
    })
}

fn nullification_of(view: u64) -> Nullification<PlainScheme>
    ensures { result.round.view ≡ view }
{
    Nullification {
        round: round(view),
        certificate: good(),
    }
}

fn nullification(view: u64) -> PlainArtifact {
    Artifact::Nullification(nullification_of(view))
}

fn verdict(view: u64, success: bool) -> PlainArtifact {
    Artifact::Certification(round(view), success)
}

fn vote_to_nullify(view: u64) -> PlainArtifact {
    Artifact::Nullify(Nullify {
        round: round(view),
        signer: Participant::new(0),
        signature: PlainSignature {
            key: PlainKey(0),
            subject: Subject::Nullify(round(view)),
        },
    })
}

fn gap_fetch(view: u64, cause: u64) -> Effect {
    Effect::Fetch {
        view: View::new(view),
        cause: View::new(cause),
        reason: FetchReason::MissingNullification,
    }
}

fn failure_fetch(view: u64) -> Effect {
    Effect::Fetch {
        view: View::new(view),
        cause: View::new(view),
        reason: FetchReason::CertificationFailed,
    }
}

/// A record in which view 1 is finalized, the term of 3 is nullified, 5 has failed, nothing is known of 7, and 9 is
/// notarized.
fn gaps() -> [PlainArtifact; 8] {
    [
        notarization(1),
        verdict(1, true),
        finalization(1),
        vote_to_nullify(3),
        nullification(3),
        notarization(5),
        verdict(5, false),
        notarization(9),
    ]
}

/// A resolver and the effects of its replay.
type Replayed = (Box<State>, Vec<Effect>);

/// Returns the resolver of a record, on the heap.
fn replayed(alloc: Global, entries: &[PlainArtifact]) -> Result<Replayed, Fail> {
    let (state, effects) = replay_record(alloc, pairs(), entries)?;
    Ok((Box::new(alloc, state)?, effects))
}

fn with_gaps(alloc: Global) -> Result<Replayed, Fail> {
    replayed(alloc, &gaps())
}

/// Returns whether the effects leave the fetches of views 2, 5 and 7 open, and no other.
fn opens_the_gaps(alloc: Global, effects: &[Effect]) -> Result<bool, Fail> {
    let mut open = BTreeSet::new(alloc);
    apply(&mut open, effects)?;
    Ok(
        open.len() == 3
            && open.contains(&View::new(2))
            && open.contains(&View::new(5))
            && open.contains(&View::new(7)),
    )
}

/// Returns whether view 5 has failed, a nullification settles view 4, and none settles view 2.
fn settles_the_nullified(state: &State) -> bool {
    state.uncertifiable(View::new(5))
        && state.settled(View::new(4), Kind::Nullification)
        && !state.settled(View::new(2), Kind::Nullification)
}

#[test]
fn certificates_missing_from_a_record_are_fetched(rt: HostRuntime) -> Result<(), Fail> {
    let (state, effects) = with_gaps(rt.alloc())?;
    let expected = [
        gap_fetch(2, 9),
        gap_fetch(5, 9),
        gap_fetch(7, 9),
        failure_fetch(5),
    ];
    assert!(rt; effects.as_slice() == expected.as_slice() && settles_the_nullified(&state));
    assert!(rt; opens_the_gaps(rt.alloc(), effects.as_slice())?);
    Ok(())
}

/// Returns a certificate that nullifies a view.
fn nullified(view: u64) -> Certificate<PlainScheme, PlainDigest>
    ensures { certificate_view result ≡ view }
{
    Certificate::Nullification(nullification_of(view))
}

#[test]
fn a_resolver_continues_after_its_record(rt: HostRuntime) -> Result<(), Fail> {
    let (mut state, _effects) = with_gaps(rt.alloc())?;
    let settled = Effect::Settled {
        kind: Kind::Nullification,
        start: View::new(13),
        end: View::new(14),
    };
    let expected = [settled, gap_fetch(9, 13), gap_fetch(11, 13)];
    let effects = state.updated(&nullified(13))?;
    assert_eq!(rt; effects.as_slice(), expected.as_slice());
    Ok(())
}

/// Returns a resolver of a record that stores its fetches, on the heap.
fn kept(alloc: Global, entries: &[PlainArtifact]) -> Result<Box<LawfulResolver>, Fail> {
    Ok(Box::new(alloc, LawfulResolver::start(alloc, pairs(), entries)?)?)
}

/// Returns whether a nullification of view 7 settles its fetch, and leaves two.
fn settles_7(resolver: &mut LawfulResolver) -> Result<bool, Fail> {
    let effects = resolver.updated(&nullified(7))?;
    let fetches = resolver.fetches();
    Ok(effects.len() == 1 && fetches.len() == 2 && !fetches.contains(&View::new(7)))
}

#[test]
fn a_kept_resolver_starts_with_its_fetches(rt: HostRuntime) -> Result<(), Fail> {
    let mut resolver = kept(rt.alloc(), &gaps())?;
    resolver.keeps_the_laws();
    assert!(rt; resolver.fetches().len() == 3 && settles_7(&mut resolver)?);
    Ok(())
}

/// Returns whether a notarization of view 3 opens a fetch when the record is read, and its verdict closes it.
fn fetches_until_certified(resolver: &mut LawfulResolver) -> Result<bool, Fail> {
    resolver.updated(&Certificate::Notarization(notarization_of(3)))?;
    let waits = resolver.fetches().is_empty();
    let effects = resolver.replayed()?;
    let asks = effects.as_slice() == [gap_fetch(1, 3)].as_slice()
        && resolver.fetches().contains(&View::new(1));
    resolver.certified(notarization_of(3), true)?;
    Ok(waits && asks && resolver.fetches().is_empty() && !resolver.state().is_failed())
}

#[test]
fn a_kept_resolver_applies_each_call(rt: HostRuntime) -> Result<(), Fail> {
    let mut resolver = Box::new(rt.alloc(), LawfulResolver::new(rt.alloc(), pairs()))?;
    assert!(rt; fetches_until_certified(&mut resolver)?);
    Ok(())
}

/// Returns whether exactly these bytes are served for view 3.
fn serves_at_3(state: &State, bytes: &[u8]) -> Result<bool, Fail> {
    let served = state.produce(View::new(3))?.ok_or("nothing is served")?;
    Ok(served.as_slice() == bytes)
}

#[test]
fn a_certified_notarization_is_served_again(rt: HostRuntime) -> Result<(), Fail> {
    let entries = [notarization(3), nullification(5), verdict(3, true)];
    let (state, effects) = replayed(rt.alloc(), &entries)?;
    let encoding = [
        0u8, 0, 0, 0, 0, 0, 0, 0, 1, 0, 0, 0, 0, 0, 0, 0, 3, 0, 0, 0, 0, 0, 0, 0, 0, 0, 0, 0, 0, 0,
        0, 0, 7, 1,
    ];
    assert!(rt; effects.as_slice() == [gap_fetch(4, 5)].as_slice());
    assert!(rt; serves_at_3(&state, encoding.as_slice())?);
    Ok(())
}

#[test]
fn an_empty_record_fetches_nothing(rt: HostRuntime) -> Result<(), Fail> {
    let (state, effects) = replayed(rt.alloc(), &[])?;
    assert!(rt; effects.is_empty() && state.term_length() == pairs());
    Ok(())
}

/// Returns the text of a refusal.
fn text_of(error: ReplayError) -> &'static str {
    match error {
        ReplayError::ZeroView => "ZeroView",
        ReplayError::ViewTooLarge => "ViewTooLarge",
        ReplayError::VerdictWithoutNotarization => "VerdictWithoutNotarization",
        _ => "",
    }
}

/// Returns whether a record of two entries is refused with this error, and by its text.
fn is_refused(alloc: Global, entries: &[PlainArtifact], error: ReplayError) -> Result<bool, Fail> {
    let refused = replay_record(alloc, pairs(), entries).err();
    Ok(refused == Some(error) && format!(in alloc; "{error}")?.as_str() == text_of(error))
}

/// Returns records of two entries, of which the first breaks a rule, each with its refusal.
fn bad_records() -> [([PlainArtifact; 2], ReplayError); 5] {
    [
        (
            [notarization(0), notarization(TOO_LARGE)],
            ReplayError::ZeroView,
        ),
        (
            [notarization(TOO_LARGE), nullification(0)],
            ReplayError::ViewTooLarge,
        ),
        (
            [finalization(TOO_LARGE), verdict(1, true)],
            ReplayError::ViewTooLarge,
        ),
        (
            [notarization_on(3, TOO_LARGE), verdict(3, true)],
            ReplayError::ViewTooLarge,
        ),
        (
            [verdict(1, true), notarization(1)],
            ReplayError::VerdictWithoutNotarization,
        ),
    ]
}

#[test]
fn the_first_bad_entry_is_reported(rt: HostRuntime) -> Result<(), Fail> {
    for (entries, error) in &bad_records() {
        assert!(rt; is_refused(rt.alloc(), entries, *error)?, "{error}");
    }
    Ok(())
}
