//! Views, messages, plain parts, settings and names.

mod encoding;
mod names;
mod settings;
mod signers;
mod windows;

ghost use Rattle.std.specs.Prelude.{◌≡◌, ◌<◌, ◌≤◌, ◌^◌, IfOk, Some, None, Option};
ghost use Rattle.std.specs.Option.{ForSome};

use simplex_types::types::plain::{PlainCertificate, PlainDigest, PlainScheme};
use simplex_types::types::{
    Epoch, Finalization, Notarization, Nullification, Proposal, Round, View,
};

type PlainNotarization = Notarization<PlainScheme, PlainDigest>;

type PlainFinalization = Finalization<PlainScheme, PlainDigest>;

fn round(epoch: u64, view: u64) -> Round {
    Round {
        epoch: Epoch::new(epoch),
        view: View::new(view),
    }
}

fn proposal(epoch: u64, view: u64, parent: u64, payload: u64) -> Proposal<PlainDigest> {
    Proposal {
        round: round(epoch, view),
        parent: View::new(parent),
        payload: PlainDigest::new(payload),
    }
}

fn good() -> PlainCertificate {
    PlainCertificate { good: true }
}

fn notarization(view: u64) -> PlainNotarization {
    Notarization {
        proposal: proposal(1, view, 2, 7),
        certificate: good(),
    }
}

fn nullification(epoch: u64, view: u64) -> Nullification<PlainScheme> {
    Nullification {
        round: round(epoch, view),
        certificate: good(),
    }
}

fn finalization(epoch: u64, view: u64, good: bool) -> PlainFinalization {
    Finalization {
        proposal: proposal(epoch, view, 0, 7),
        certificate: PlainCertificate { good },
    }
}
