//! Rows of the slot.

use super::{proposal, proposal_of};
use simplex_round::slot::{Change, Slot, Status};
use simplex_types::types::plain::PlainDigest;

/// The expected change by a proposal; proposals are named by their payloads.
#[derive(Clone, Copy)]
enum Wanted {
    New,
    Unchanged,
    Equivocated { dropped: u64, retained: u64 },
}

/// A call with the expected answer, or the expected state of the slot.
enum Step {
    SetBuilding,
    ClearRequest,
    RequestVerify(bool),
    Record(u64, bool),
    Mark(bool),
    Vote(u64, Option<Wanted>),
    Certificate(u64, Wanted),
    Shows(Option<u64>, Status),
    IsUnequivocated(bool),
    Asks { build: bool, verify: bool },
}

struct Row {
    name: &'static str,
    steps: &'static [Step],
}

fn change(wanted: Wanted) -> Change<PlainDigest> {
    match wanted {
        Wanted::New => Change::New,
        Wanted::Unchanged => Change::Unchanged,
        Wanted::Equivocated { dropped, retained } => Change::Equivocated {
            dropped: proposal(dropped),
            retained: proposal(retained),
        },
    }
}

fn change_of(wanted: Option<Wanted>) -> Option<Change<PlainDigest>> {
    match wanted {
        Some(wanted) => Some(change(wanted)),
        None => None,
    }
}

/// Returns whether the slot does and has what the step expects.
fn meets(slot: &mut Slot<PlainDigest>, step: &Step) -> bool {
    match *step {
        Step::SetBuilding => {
            slot.set_building();
            true
        }
        Step::ClearRequest => {
            slot.clear_request();
            true
        }
        Step::RequestVerify(first) => slot.request_verify() == first,
        Step::Record(payload, taken) => slot.record_verified(proposal(payload)) == taken,
        Step::Mark(marked) => slot.mark_verified() == marked,
        Step::Vote(payload, wanted) => { slot.update_vote(&proposal(payload)) == change_of(wanted) }
        Step::Certificate(payload, wanted) => {
            slot.update_certificate(&proposal(payload)) == change(wanted)
        }
        Step::Shows(payload, status) => {
            slot.status() == status && slot.proposal().copied() == proposal_of(payload)
        }
        Step::IsUnequivocated(wanted) => slot.has_unequivocated_proposal() == wanted,
        Step::Asks { build, verify } => {
            slot.should_build() == build && slot.should_verify() == verify
        }
    }
}

static ROWS: [Row; 16] = [
    Row {
        name: "a vote that contradicts a certificate is kept out",
        steps: &[
            Step::Certificate(1, Wanted::New),
            Step::Vote(
                2,
                Some(Wanted::Equivocated {
                    dropped: 2,
                    retained: 1,
                }),
            ),
            Step::Shows(Some(1), Status::Equivocated),
        ],
    },
    Row {
        name: "a certificate wins over an equivocated vote",
        steps: &[
            Step::Vote(1, Some(Wanted::New)),
            Step::Vote(
                2,
                Some(Wanted::Equivocated {
                    dropped: 2,
                    retained: 1,
                }),
            ),
            Step::Shows(Some(1), Status::Equivocated),
            Step::Certificate(
                2,
                Wanted::Equivocated {
                    dropped: 1,
                    retained: 2,
                },
            ),
            Step::Shows(Some(2), Status::Equivocated),
        ],
    },
    Row {
        name: "an own proposal leaves equivocation as it is",
        steps: &[
            Step::Vote(1, Some(Wanted::New)),
            Step::Vote(
                2,
                Some(Wanted::Equivocated {
                    dropped: 2,
                    retained: 1,
                }),
            ),
            Step::Record(1, true),
            Step::Shows(Some(1), Status::Equivocated),
            Step::Asks {
                build: false,
                verify: false,
            },
        ],
    },
    Row {
        name: "an own proposal may come again, and no other",
        steps: &[
            Step::Record(1, true),
            Step::Record(1, true),
            Step::Record(2, false),
            Step::Shows(Some(1), Status::Verified),
            Step::Asks {
                build: false,
                verify: false,
            },
        ],
    },
    Row {
        name: "a build is asked for and given up",
        steps: &[
            Step::Asks {
                build: true,
                verify: true,
            },
            Step::SetBuilding,
            Step::Asks {
                build: false,
                verify: true,
            },
            Step::ClearRequest,
            Step::Asks {
                build: true,
                verify: true,
            },
        ],
    },
    Row {
        name: "with a proposal nothing is to be built, also after a release",
        steps: &[
            Step::Record(1, true),
            Step::ClearRequest,
            Step::Asks {
                build: false,
                verify: false,
            },
        ],
    },
    Row {
        name: "an own proposal sets both requests",
        steps: &[
            Step::Shows(None, Status::None),
            Step::Record(2, true),
            Step::Shows(Some(2), Status::Verified),
            Step::Asks {
                build: false,
                verify: false,
            },
            Step::RequestVerify(false),
        ],
    },
    Row {
        name: "an equal certificate keeps the status",
        steps: &[
            Step::Vote(1, Some(Wanted::New)),
            Step::Certificate(1, Wanted::Unchanged),
            Step::Shows(Some(1), Status::Unverified),
            Step::Mark(true),
            Step::Certificate(1, Wanted::Unchanged),
            Step::Shows(Some(1), Status::Verified),
        ],
    },
    Row {
        name: "an equal vote keeps the status",
        steps: &[
            Step::Vote(1, Some(Wanted::New)),
            Step::Mark(true),
            Step::Mark(false),
            Step::Vote(1, Some(Wanted::Unchanged)),
            Step::Shows(Some(1), Status::Verified),
        ],
    },
    Row {
        name: "a certificate that comes while building keeps the built one out",
        steps: &[
            Step::SetBuilding,
            Step::Asks {
                build: false,
                verify: true,
            },
            Step::Certificate(1, Wanted::New),
            Step::Shows(Some(1), Status::Unverified),
            Step::Record(2, false),
            Step::Shows(Some(1), Status::Unverified),
        ],
    },
    Row {
        name: "a certificate that comes while verifying ends the verification",
        steps: &[
            Step::Vote(1, Some(Wanted::New)),
            Step::Shows(Some(1), Status::Unverified),
            Step::RequestVerify(true),
            Step::RequestVerify(false),
            Step::Certificate(
                2,
                Wanted::Equivocated {
                    dropped: 1,
                    retained: 2,
                },
            ),
            Step::Shows(Some(2), Status::Equivocated),
            Step::Mark(false),
            Step::Certificate(2, Wanted::Unchanged),
        ],
    },
    Row {
        name: "a certificate overrides a vote",
        steps: &[
            Step::Vote(1, Some(Wanted::New)),
            Step::Certificate(
                2,
                Wanted::Equivocated {
                    dropped: 1,
                    retained: 2,
                },
            ),
            Step::Shows(Some(2), Status::Equivocated),
            Step::Asks {
                build: false,
                verify: false,
            },
        ],
    },
    Row {
        name: "once equivocated, votes say nothing",
        steps: &[
            Step::Vote(1, Some(Wanted::New)),
            Step::Certificate(
                2,
                Wanted::Equivocated {
                    dropped: 1,
                    retained: 2,
                },
            ),
            Step::Certificate(2, Wanted::Unchanged),
            Step::Shows(Some(2), Status::Equivocated),
            Step::Vote(1, None),
            Step::Vote(2, None),
            Step::Shows(Some(2), Status::Equivocated),
        ],
    },
    Row {
        name: "a second certificate wins again",
        steps: &[
            Step::Certificate(1, Wanted::New),
            Step::Certificate(
                2,
                Wanted::Equivocated {
                    dropped: 1,
                    retained: 2,
                },
            ),
            Step::Certificate(
                1,
                Wanted::Equivocated {
                    dropped: 2,
                    retained: 1,
                },
            ),
            Step::Shows(Some(1), Status::Equivocated),
        ],
    },
    Row {
        name: "an unverified proposal is usable until it is contradicted",
        steps: &[
            Step::IsUnequivocated(false),
            Step::Certificate(1, Wanted::New),
            Step::IsUnequivocated(true),
            Step::Vote(
                2,
                Some(Wanted::Equivocated {
                    dropped: 2,
                    retained: 1,
                }),
            ),
            Step::IsUnequivocated(false),
        ],
    },
    Row {
        name: "verification is asked for once, also without a proposal",
        steps: &[
            Step::Asks {
                build: true,
                verify: true,
            },
            Step::RequestVerify(true),
            Step::Asks {
                build: true,
                verify: false,
            },
            Step::RequestVerify(false),
            Step::Mark(false),
        ],
    },
];

/// Returns the place of the first step that the slot does not meet.
fn first_unmet(slot: &mut Slot<PlainDigest>, steps: &[Step]) -> Option<usize> {
    for (place, step) in steps.iter().enumerate() {
        if !meets(slot, step) {
            return Some(place);
        }
    }
    None
}

#[test]
fn rows_hold(rt: HostRuntime) {
    for row in &ROWS {
        let mut slot = Slot::default();
        assert_eq!(rt; first_unmet(&mut slot, row.steps), None, "{}", row.name);
    }
}
