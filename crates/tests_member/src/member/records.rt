//! Records that a recovery refuses, each for the first rule that it breaks, and the result for other records.

ghost use Rattle.std.specs.Prelude.{◌≡◌, ◌<◌, IfOk, length};
ghost use Rattle.simplex_types.specs.Plain.{members_of, keys_of};

use super::{PlainArtifact, start, terms_of_one};
use Began::{AtFinalization, AtGenesis, WithoutKey};
use Entry::{
    Finalized, Judged, Notarized, Nullified, VotedToFinalize, VotedToNotarize, VotedToNullify,
};
use RecoverError as Error;
use simplex_member::member::{RecoverError, Start, recover};
use simplex_types::config::Floor;
use simplex_types::types::plain::{
    PlainCertificate, PlainDigest, PlainElector, PlainScheme, PlainSignature,
};
use simplex_types::types::{
    Artifact, Epoch, Finalization, Finalize, Notarization, Notarize, Nullification, Nullify,
    Participant, Proposal, Round, Scheme, Subject, View,
};
use simplex_voter::voter::State;
use std::alloc::Global;
use std::test::Fail;

type PlainState = State<PlainScheme, PlainElector, PlainDigest>;

/// The first view that is too large.
const TOO_LARGE: u64 = 1 << 63;

/// How the recovered member starts, in epoch 1.
#[derive(Clone, Copy)]
enum Began {
    /// Member 0, at genesis.
    AtGenesis,
    /// Member 0, at a finalization of an epoch, a view and a parent.
    AtFinalization(u64, u64, u64),
    /// A member without a key, at genesis.
    WithoutKey,
}

/// An entry of a record, with the numbers by which it may break a rule. Unless stated otherwise, it is of epoch 1,
/// payload 7 and member 0.
#[derive(Clone, Copy)]
enum Entry {
    /// A notarization of an epoch, a view and a parent.
    Notarized(u64, u64, u64),
    /// A finalization of a view, on the view before.
    Finalized(u64),
    /// A nullification of a view.
    Nullified(u64),
    /// The verdict of a view.
    Judged(u64, bool),
    /// A member's vote to nullify a view.
    VotedToNullify(u32, u64),
    /// A vote to notarize a proposal of an epoch, a view, a parent and a payload.
    VotedToNotarize(u64, u64, u64, u64),
    /// A vote to finalize a proposal of a view, a parent and a payload.
    VotedToFinalize(u64, u64, u64),
}

fn round_of(epoch: u64, view: u64) -> Round {
    Round {
        epoch: Epoch::new(epoch),
        view: View::new(view),
    }
}

fn proposal_of(epoch: u64, view: u64, parent: u64, payload: u64) -> Proposal<PlainDigest> {
    Proposal {
        round: round_of(epoch, view),
        parent: View::new(parent),
        payload: PlainDigest::new(payload),
    }
}

fn good() -> PlainCertificate {
    PlainCertificate { good: true }
}

fn finalization(epoch: u64, view: u64, parent: u64) -> Finalization<PlainScheme, PlainDigest> {
    Finalization {
        proposal: proposal_of(epoch, view, parent, 7),
        certificate: good(),
    }
}

/// Returns a member's signature on a subject.
fn signature_of(
    alloc: Global,
    member: u32,
    subject: Subject<PlainDigest>,
) -> Result<PlainSignature, Fail>
    requires { member < 4 }
{
    let scheme = PlainScheme::new(alloc, 4, Some(Participant::new(member)))?;
    match scheme.sign(alloc, &subject)? {
        Some(signature) => Ok(signature),
        None => Err(Fail::from("no key")),
    }
}

fn vote_to_nullify(alloc: Global, member: u32, view: u64) -> Result<PlainArtifact, Fail> {
    if member >= 4 {
        return Err(Fail::from("no member"));
    }
    let subject = Subject::Nullify(round_of(1, view));
    let signature = signature_of(alloc, member, subject)?;
    Ok(Artifact::Nullify(Nullify {
        round: round_of(1, view),
        signer: Participant::new(member),
        signature,
    }))
}

fn vote_to_notarize(
    alloc: Global,
    epoch: u64,
    view: u64,
    parent: u64,
    payload: u64,
) -> Result<PlainArtifact, Fail> {
    let subject = Subject::Notarize(proposal_of(epoch, view, parent, payload));
    let signature = signature_of(alloc, 0, subject)?;
    Ok(Artifact::Notarize(Notarize {
        proposal: proposal_of(epoch, view, parent, payload),
        signer: Participant::new(0),
        signature,
    }))
}

fn vote_to_finalize(
    alloc: Global,
    view: u64,
    parent: u64,
    payload: u64,
) -> Result<PlainArtifact, Fail> {
    let subject = Subject::Finalize(proposal_of(1, view, parent, payload));
    let signature = signature_of(alloc, 0, subject)?;
    Ok(Artifact::Finalize(Finalize {
        proposal: proposal_of(1, view, parent, payload),
        signer: Participant::new(0),
        signature,
    }))
}

fn artifact_of(alloc: Global, entry: &Entry) -> Result<PlainArtifact, Fail> {
    match *entry {
        Entry::Notarized(epoch, view, parent) => Ok(Artifact::Notarization(Notarization {
            proposal: proposal_of(epoch, view, parent, 7),
            certificate: good(),
        })),
        Entry::Finalized(view) => {
            Ok(Artifact::Finalization(finalization(1, view, view.saturating_sub(1))))
        }
        Entry::Nullified(view) => Ok(Artifact::Nullification(Nullification {
            round: round_of(1, view),
            certificate: good(),
        })),
        Entry::Judged(view, success) => Ok(Artifact::Certification(round_of(1, view), success)),
        Entry::VotedToNullify(member, view) => vote_to_nullify(alloc, member, view),
        Entry::VotedToNotarize(epoch, view, parent, payload) => {
            vote_to_notarize(alloc, epoch, view, parent, payload)
        }
        Entry::VotedToFinalize(view, parent, payload) => {
            vote_to_finalize(alloc, view, parent, payload)
        }
    }
}

/// Returns how the member starts.
fn start_of(
    alloc: Global,
    began: &Began,
) -> Result<Start<PlainScheme, PlainElector, PlainDigest>, Fail>
    ensures { IfOk result (λ start. members_of start.settings.elector ≡ length (keys_of start.settings.scheme)) }
{
    let mut begun = start(alloc, 10)?;
    match *began {
        Began::AtGenesis => {}
        Began::AtFinalization(epoch, view, parent) => {
            begun.floor = Floor::Finalized(finalization(epoch, view, parent));
        }
        Began::WithoutKey => {
            begun.settings.scheme = PlainScheme::new(alloc, 4, None)?;
            begun.settings.elector = PlainElector::new(4, terms_of_one());
        }
    }
    Ok(begun)
}

/// Returns the state that a member recovers from a record, or why there is none.
fn recovered(
    alloc: Global,
    began: &Began,
    record: &[Entry],
) -> Result<Result<PlainState, RecoverError>, Fail> {
    let mut entries = Vec::new(alloc);
    for entry in record {
        entries.push(artifact_of(alloc, entry)?)?;
    }
    Ok(recover(alloc, start_of(alloc, began)?, &entries))
}

/// Records that break no rule.
static WHOLE: [(Began, &[Entry]); 4] = [
    (
        AtGenesis,
        &[
            Notarized(1, 3, 0),
            Judged(3, true),
            VotedToFinalize(3, 0, 7),
        ],
    ),
    (
        AtGenesis,
        &[VotedToNotarize(1, 3, 0, 7), VotedToNotarize(1, 3, 0, 7)],
    ),
    (WithoutKey, &[Notarized(1, 3, 0), Judged(3, false)]),
    (
        AtFinalization(1, TOO_LARGE - 1, TOO_LARGE - 1),
        &[Notarized(1, TOO_LARGE - 1, TOO_LARGE - 1)],
    ),
];

/// Records, each with the first rule that it breaks.
static BROKEN: [(Began, &[Entry], RecoverError); 25] = [
    (AtGenesis, &[Nullified(3), Nullified(2)], Error::OutOfOrder),
    (AtGenesis, &[VotedToNotarize(2, 3, 3, 7)], Error::OtherEpoch),
    (AtGenesis, &[Notarized(2, 3, 0)], Error::OtherEpoch),
    (AtGenesis, &[Nullified(0)], Error::ZeroView),
    (AtGenesis, &[Nullified(TOO_LARGE)], Error::ViewTooLarge),
    (
        AtGenesis,
        &[VotedToNotarize(1, 3, TOO_LARGE, 7)],
        Error::ViewTooLarge,
    ),
    (
        AtGenesis,
        &[Notarized(1, 3, TOO_LARGE)],
        Error::ViewTooLarge,
    ),
    (AtGenesis, &[VotedToNullify(2, 3)], Error::ForeignSigner),
    (WithoutKey, &[VotedToNullify(0, 3)], Error::ForeignSigner),
    (
        WithoutKey,
        &[VotedToNotarize(1, 3, 0, 7)],
        Error::ForeignSigner,
    ),
    (
        AtGenesis,
        &[VotedToFinalize(3, 3, 7)],
        Error::ParentNotBelow,
    ),
    (
        AtGenesis,
        &[VotedToNotarize(1, 3, 4, 7)],
        Error::ParentNotBelow,
    ),
    (
        AtGenesis,
        &[Judged(3, true)],
        Error::VerdictWithoutNotarization,
    ),
    (
        AtFinalization(1, 20, 19),
        &[Judged(5, true)],
        Error::VerdictWithoutNotarization,
    ),
    (
        AtGenesis,
        &[Notarized(1, 3, 0), Judged(3, true), Judged(3, false)],
        Error::ContradictingVerdicts,
    ),
    (
        AtGenesis,
        &[
            Notarized(1, 3, 0),
            Judged(3, true),
            VotedToNullify(0, 3),
            VotedToFinalize(3, 0, 7),
        ],
        Error::NullifyBesideFinalize,
    ),
    (
        AtGenesis,
        &[
            Notarized(1, 3, 0),
            Judged(3, true),
            VotedToFinalize(3, 0, 7),
            VotedToNullify(0, 3),
        ],
        Error::NullifyBesideFinalize,
    ),
    (
        AtGenesis,
        &[VotedToNotarize(1, 3, 0, 7), VotedToNotarize(1, 3, 0, 8)],
        Error::ContradictingVotes,
    ),
    (
        AtGenesis,
        &[
            Notarized(1, 3, 0),
            Judged(3, true),
            VotedToFinalize(3, 0, 7),
            VotedToFinalize(3, 0, 8),
        ],
        Error::ContradictingVotes,
    ),
    (
        AtGenesis,
        &[
            Notarized(1, 3, 0),
            VotedToFinalize(3, 0, 7),
            Judged(3, true),
        ],
        Error::FinalizeWithoutVerdict,
    ),
    (
        AtGenesis,
        &[
            Notarized(1, 3, 0),
            Judged(3, false),
            VotedToFinalize(3, 0, 7),
        ],
        Error::FinalizeWithoutVerdict,
    ),
    (
        AtFinalization(2, 20, 19),
        &[Nullified(0)],
        Error::OtherEpoch,
    ),
    (AtFinalization(1, 0, 0), &[], Error::ZeroView),
    (AtFinalization(1, TOO_LARGE, 0), &[], Error::ViewTooLarge),
    (AtFinalization(1, 20, TOO_LARGE), &[], Error::ViewTooLarge),
];

#[test]
fn a_record_is_refused_for_the_first_rule_that_it_breaks(rt: HostRuntime) -> Result<(), Fail> {
    for (began, record) in &WHOLE {
        assert_eq!(rt; recovered(rt.alloc(), began, record)?.err(), None);
    }
    for (began, record, error) in &BROKEN {
        assert_eq!(rt; recovered(rt.alloc(), began, record)?.err(), Some(*error));
    }
    Ok(())
}

/// Returns the views of a state: its current view, the last finalized one, and the lowest retained one.
fn views_of(state: &PlainState) -> [u64; 3] {
    [
        state.current_view().get(),
        state.last_finalized().get(),
        state.min_active().get(),
    ]
}

/// Records that are taken, and the views of the state then.
static TAKEN: [(Began, &[Entry], [u64; 3]); 6] = [
    (AtGenesis, &[], [1, 0, 0]),
    (AtFinalization(1, 20, 19), &[], [21, 20, 10]),
    (
        AtFinalization(1, 20, 19),
        &[Nullified(3), Notarized(1, 15, 14)],
        [21, 20, 10],
    ),
    (AtGenesis, &[Notarized(1, 3, 0), Judged(3, true)], [4, 0, 0]),
    (
        AtGenesis,
        &[Notarized(1, 3, 0), Judged(3, false)],
        [1, 0, 0],
    ),
    (
        AtFinalization(1, 5, 4),
        &[Finalized(7), Nullified(9)],
        [10, 7, 0],
    ),
];

#[test]
fn a_record_that_is_taken_leads_to_its_views(rt: HostRuntime) -> Result<(), Fail> {
    for (began, record, views) in &TAKEN {
        let Ok(state) = recovered(rt.alloc(), began, record)? else {
            panic!(rt; "refused");
        };
        assert_eq!(rt; views_of(&state), *views);
    }
    Ok(())
}

/// Returns whether a state retains the notarization of view 15, and no nullification of view 3.
fn keeps_what_is_retained(state: &PlainState) -> bool {
    state.notarization(View::new(15)).is_some() && state.nullification(View::new(3)).is_none()
}

#[test]
fn entries_below_the_floors_retention_are_passed_over(rt: HostRuntime) -> Result<(), Fail> {
    let record = [Nullified(3), Notarized(1, 15, 14)];
    let began = AtFinalization(1, 20, 19);
    let Ok(state) = recovered(rt.alloc(), &began, &record)? else {
        panic!(rt; "refused");
    };
    assert!(rt; keeps_what_is_retained(&state));
    Ok(())
}
