//! The lines that call a voter.

ghost use Rattle.std.specs.Prelude.{◌≡◌, ◌∷◌, [], codes, decimal};
ghost use Rattle.simplex_program.specs.Words.{words_in};
ghost use Rattle.simplex_program.specs.VoterLine.{ReadsVoterLine, ReadsVoterLineOf, ReadsCertificateKind};

use crate::decimal::decimal;
use crate::words::{first_word, flag_of, timeout_reason_of, view_of};
use simplex_types::reasons::TimeoutReason;
use simplex_types::types::View;

/// The kind of a certificate.
#[derive(Clone, Copy)]
pub enum CertificateKind {
    Notarization,
    Nullification,
    Finalization,
}

/// A line's call of a voter. Moments are milliseconds.
#[derive(Clone, Copy)]
pub enum VoterLine {
    Notarization {
        view: View,
        parent: View,
        payload: u64,
    },
    Nullification {
        view: View,
        now: u64,
    },
    Finalization {
        view: View,
        parent: View,
        payload: u64,
        now: u64,
    },
    Verdict {
        view: View,
        success: bool,
        now: u64,
    },
    Notarize(View),
    Nullify(View),
    Finalize(View),
    Broadcast {
        kind: CertificateKind,
        view: View,
    },
    Best,
    Prune,
    Proposal {
        view: View,
        parent: View,
        payload: u64,
    },
    Release(View),
    Propose,
    Proposed {
        view: View,
        payload: u64,
        now: u64,
    },
    Supersede(View),
    Abandon(View),
    Verify,
    Verified(View),
    Rejected {
        view: View,
        now: u64,
    },
    Candidates,
    Token {
        view: View,
        token: u64,
    },
    Trigger {
        view: View,
        reason: TimeoutReason,
        now: u64,
    },
    Timeout {
        now: u64,
    },
    Restart {
        drop: u64,
        now: u64,
    },
    RestartPruned {
        drop: u64,
        now: u64,
    },
    Record,
    Views,
}

impl VoterLine {
    /// Returns the call of the text, or `None` if it is no call. One space separates words. A line is recognised by its
    /// number of words, and then by the first.
    pub(crate) fn parse(text: &str) -> Option<VoterLine>
        ensures { ReadsVoterLine (words_in text.now) result }
    {
        match first_word(text) {
            (word, None) => bare_line(word),
            (word, Some(rest)) => longer_line(word, rest),
        }
    }
}

/// Returns the call of a word and the text after it.
fn longer_line(word: &str, rest: &str) -> Option<VoterLine>
    ensures { ReadsVoterLine (word.now ∷ words_in rest.now) result }
{
    match first_word(rest) {
        (number, None) => line_of_number(word, number),
        (first, Some(rest)) => line_behind_one(word, first, rest),
    }
}

fn line_behind_one(word: &str, first: &str, rest: &str) -> Option<VoterLine>
    ensures { ReadsVoterLine (word.now ∷ first.now ∷ words_in rest.now) result }
{
    match first_word(rest) {
        (second, None) => line_of_two(word, first, second),
        (second, Some(rest)) => line_behind_two(word, first, second, rest),
    }
}

fn line_behind_two(word: &str, first: &str, second: &str, rest: &str) -> Option<VoterLine>
    ensures { ReadsVoterLine (word.now ∷ first.now ∷ second.now ∷ words_in rest.now) result }
{
    match first_word(rest) {
        (third, None) => line_of_three(word, first, second, third),
        (third, Some(rest)) => longest_line(word, first, second, third, rest),
    }
}

/// Returns the call of a word and four more, of which the last one is all that is left.
fn longest_line(
    word: &str,
    view: &str,
    parent: &str,
    payload: &str,
    rest: &str,
) -> Option<VoterLine>
    ensures { ReadsVoterLine (word.now ∷ view.now ∷ parent.now ∷ payload.now ∷ words_in rest.now) result }
{
    match first_word(rest) {
        (now, None) => line_of_four(word, view, parent, payload, now),
        (_, Some(_)) => None,
    }
}

/// Returns the call of a single word.
fn bare_line(word: &str) -> Option<VoterLine>
    ensures { ReadsVoterLineOf 1 (word.now ∷ []) result }
{
    match word {
        "best" => Some(VoterLine::Best),
        "prune" => Some(VoterLine::Prune),
        "propose" => Some(VoterLine::Propose),
        "verify" => Some(VoterLine::Verify),
        "candidates" => Some(VoterLine::Candidates),
        "record" => Some(VoterLine::Record),
        "view" => Some(VoterLine::Views),
        _ => None,
    }
}

/// Returns the call of a word and a number: a moment for `timeout`, and otherwise a view.
fn line_of_number(word: &str, number: &str) -> Option<VoterLine>
    ensures { ReadsVoterLineOf 2 (word.now ∷ number.now ∷ []) result }
{
    let view = view_of(number)?;
    match word {
        "notarize" => Some(VoterLine::Notarize(view)),
        "nullify" => Some(VoterLine::Nullify(view)),
        "finalize" => Some(VoterLine::Finalize(view)),
        "release" => Some(VoterLine::Release(view)),
        "supersede" => Some(VoterLine::Supersede(view)),
        "abandon" => Some(VoterLine::Abandon(view)),
        "verified" => Some(VoterLine::Verified(view)),
        "timeout" => Some(VoterLine::Timeout { now: view.get() }),
        _ => None,
    }
}

/// Returns the call of a word and two more.
fn line_of_two(word: &str, first: &str, second: &str) -> Option<VoterLine>
    ensures { ReadsVoterLineOf 3 (word.now ∷ first.now ∷ second.now ∷ []) result }
{
    match word {
        "nullification" => Some(VoterLine::Nullification {
            view: view_of(first)?,
            now: decimal(second)?,
        }),
        "broadcast" => Some(VoterLine::Broadcast {
            kind: certificate_kind_of(first)?,
            view: view_of(second)?,
        }),
        "rejected" => Some(VoterLine::Rejected {
            view: view_of(first)?,
            now: decimal(second)?,
        }),
        "token" => Some(VoterLine::Token {
            view: view_of(first)?,
            token: decimal(second)?,
        }),
        "restart" => Some(VoterLine::Restart {
            drop: decimal(first)?,
            now: decimal(second)?,
        }),
        "restart-pruned" => Some(VoterLine::RestartPruned {
            drop: decimal(first)?,
            now: decimal(second)?,
        }),
        _ => None,
    }
}

/// Returns the call of a word, a view and two more words.
fn line_of_three(word: &str, view: &str, second: &str, third: &str) -> Option<VoterLine>
    ensures { ReadsVoterLineOf 4 (word.now ∷ view.now ∷ second.now ∷ third.now ∷ []) result }
{
    let view = view_of(view)?;
    match word {
        "notarization" => notarization_line(view, second, third),
        "verdict" => verdict_line(view, second, third),
        "proposal" => proposal_line(view, second, third),
        "proposed" => proposed_line(view, second, third),
        "trigger" => trigger_line(view, second, third),
        _ => None,
    }
}

fn notarization_line(view: View, parent: &str, payload: &str) -> Option<VoterLine>
    ensures { ReadsVoterLineOf 4 (codes "notarization" ∷ decimal view ∷ parent.now ∷ payload.now ∷ []) result }
{
    Some(VoterLine::Notarization {
        view,
        parent: view_of(parent)?,
        payload: decimal(payload)?,
    })
}

fn verdict_line(view: View, success: &str, now: &str) -> Option<VoterLine>
    ensures { ReadsVoterLineOf 4 (codes "verdict" ∷ decimal view ∷ success.now ∷ now.now ∷ []) result }
{
    Some(VoterLine::Verdict {
        view,
        success: flag_of(success)?,
        now: decimal(now)?,
    })
}

fn proposal_line(view: View, parent: &str, payload: &str) -> Option<VoterLine>
    ensures { ReadsVoterLineOf 4 (codes "proposal" ∷ decimal view ∷ parent.now ∷ payload.now ∷ []) result }
{
    Some(VoterLine::Proposal {
        view,
        parent: view_of(parent)?,
        payload: decimal(payload)?,
    })
}

fn proposed_line(view: View, payload: &str, now: &str) -> Option<VoterLine>
    ensures { ReadsVoterLineOf 4 (codes "proposed" ∷ decimal view ∷ payload.now ∷ now.now ∷ []) result }
{
    Some(VoterLine::Proposed {
        view,
        payload: decimal(payload)?,
        now: decimal(now)?,
    })
}

fn trigger_line(view: View, reason: &str, now: &str) -> Option<VoterLine>
    ensures { ReadsVoterLineOf 4 (codes "trigger" ∷ decimal view ∷ reason.now ∷ now.now ∷ []) result }
{
    Some(VoterLine::Trigger {
        view,
        reason: timeout_reason_of(reason)?,
        now: decimal(now)?,
    })
}

/// Returns the call of a word, a view and three more words.
fn line_of_four(word: &str, view: &str, parent: &str, payload: &str, now: &str) -> Option<VoterLine>
    ensures { ReadsVoterLineOf 5 (word.now ∷ view.now ∷ parent.now ∷ payload.now ∷ now.now ∷ []) result }
{
    match word {
        "finalization" => finalization_line(view, parent, payload, now),
        _ => None,
    }
}

fn finalization_line(view: &str, parent: &str, payload: &str, now: &str) -> Option<VoterLine>
    ensures { ReadsVoterLineOf 5 (codes "finalization" ∷ view.now ∷ parent.now ∷ payload.now ∷ now.now ∷ []) result }
{
    Some(VoterLine::Finalization {
        view: view_of(view)?,
        parent: view_of(parent)?,
        payload: decimal(payload)?,
        now: decimal(now)?,
    })
}

fn certificate_kind_of(word: &str) -> Option<CertificateKind>
    ensures { ReadsCertificateKind word.now result }
{
    match word {
        "notarization" => Some(CertificateKind::Notarization),
        "nullification" => Some(CertificateKind::Nullification),
        "finalization" => Some(CertificateKind::Finalization),
        _ => None,
    }
}
