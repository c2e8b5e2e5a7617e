//! Why views time out, handoffs are abandoned and certificates are fetched; and the requests to peers.

ghost use Rattle.std.specs.Prelude.{◌≡◌, codes};
ghost use Rattle.simplex_types.specs.Reasons.{timeout_reason_text, handoff_abandoned_reason_text, fetch_reason_text, kind_text, until_text, ancestry_ask, backfill_ask};

use std::fmt;
use std::fmt::Write as _;

/// Why a view times out.
#[derive(Clone, Copy, PartialEq, Eq, Hash, Debug)]
pub enum TimeoutReason {
    /// The vote to nullify is sent again.
    Retry,
    /// Too few recent votes of the leader were seen.
    Inactivity,
    /// The leader itself voted to nullify.
    LeaderNullify,
    /// No proposal came in time.
    LeaderTimeout,
    /// The proposal was not certified in time.
    CertificationTimeout,
    /// The term made no progress in time.
    StallTimeout,
    /// The application had no proposal to make.
    MissingProposal,
    /// The application did not answer a verification.
    IgnoredProposal,
    /// The application, or a rule on parents, refused the proposal.
    InvalidProposal,
    /// The application refused to certify the notarized proposal.
    FailedCertification,
}

impl TimeoutReason {
    /// The reason's name.
    pub fn as_str(self) -> &'static str
        ensures { result.now ≡ timeout_reason_text self }
    {
        match self {
            TimeoutReason::Retry => "Retry",
            TimeoutReason::Inactivity => "Inactivity",
            TimeoutReason::LeaderNullify => "LeaderNullify",
            TimeoutReason::LeaderTimeout => "LeaderTimeout",
            TimeoutReason::CertificationTimeout => "CertificationTimeout",
            TimeoutReason::StallTimeout => "StallTimeout",
            TimeoutReason::MissingProposal => "MissingProposal",
            TimeoutReason::IgnoredProposal => "IgnoredProposal",
            TimeoutReason::InvalidProposal => "InvalidProposal",
            TimeoutReason::FailedCertification => "FailedCertification",
        }
    }
}

impl fmt::Display for TimeoutReason {
    ghost use Rattle.std.specs.Prelude.{Some};
    ghost use Rattle.simplex_types.specs.Reasons.{timeout_reason_text};

    ghost output = { λ it. Some (timeout_reason_text it) };

    fn fmt<W: fmt::Write>(&self, f: &mut fmt::Formatter<W>) -> fmt::Result {
        f.write_str(self.as_str())
    }
}

/// Why a proposal that was prepared before its parent was certified is abandoned.
///
/// The voter's state returns only `AncestryInvalidated` and `ParentNullify`; the others are for its host.
#[derive(Clone, Copy, PartialEq, Eq, Hash, Debug)]
pub enum HandoffAbandonedReason {
    ViewExit,
    AncestrySuperseded,
    AncestryInvalidated,
    ParentNullify,
    ViewNullify,
    ResponseClosed,
    IneligibleAtRecording,
}

impl HandoffAbandonedReason {
    /// The reason's name.
    pub fn as_str(self) -> &'static str
        ensures { result.now ≡ handoff_abandoned_reason_text self }
    {
        match self {
            HandoffAbandonedReason::ViewExit => "ViewExit",
            HandoffAbandonedReason::AncestrySuperseded => "AncestrySuperseded",
            HandoffAbandonedReason::AncestryInvalidated => "AncestryInvalidated",
            HandoffAbandonedReason::ParentNullify => "ParentNullify",
            HandoffAbandonedReason::ViewNullify => "ViewNullify",
            HandoffAbandonedReason::ResponseClosed => "ResponseClosed",
            HandoffAbandonedReason::IneligibleAtRecording => "IneligibleAtRecording",
        }
    }
}

impl fmt::Display for HandoffAbandonedReason {
    ghost use Rattle.std.specs.Prelude.{Some};
    ghost use Rattle.simplex_types.specs.Reasons.{handoff_abandoned_reason_text};

    ghost output = { λ it. Some (handoff_abandoned_reason_text it) };

    fn fmt<W: fmt::Write>(&self, f: &mut fmt::Formatter<W>) -> fmt::Result {
        f.write_str(self.as_str())
    }
}

/// Why a certificate is fetched.
#[derive(Clone, Copy, PartialEq, Eq, Debug)]
pub enum FetchReason {
    /// A view below the current one has no nullification that covers it.
    MissingNullification,
    /// The view's notarization was not certified, so its nullification is needed.
    CertificationFailed,
}

impl FetchReason {
    /// The reason's name in snake case.
    pub fn as_str(self) -> &'static str
        ensures { result.now ≡ fetch_reason_text self }
    {
        match self {
            FetchReason::MissingNullification => "missing_nullification",
            FetchReason::CertificationFailed => "certification_failed",
        }
    }
}

impl fmt::Display for FetchReason {
    ghost use Rattle.std.specs.Prelude.{Some};
    ghost use Rattle.simplex_types.specs.Reasons.{fetch_reason_text};

    ghost output = { λ it. Some (fetch_reason_text it) };

    fn fmt<W: fmt::Write>(&self, f: &mut fmt::Formatter<W>) -> fmt::Result {
        f.write_str(self.as_str())
    }
}

/// The kind of certificate to fetch.
#[derive(Clone, Copy, PartialEq, Eq, PartialOrd, Ord, Debug)]
pub enum Kind {
    Nullification,
    Notarization,
}

impl Kind {
    /// The kind's name in lower case.
    pub fn as_str(self) -> &'static str
        ensures { result.now ≡ kind_text self }
    {
        match self {
            Kind::Nullification => "nullification",
            Kind::Notarization => "notarization",
        }
    }
}

impl fmt::Display for Kind {
    ghost use Rattle.std.specs.Prelude.{Some};
    ghost use Rattle.simplex_types.specs.Reasons.{kind_text};

    ghost output = { λ it. Some (kind_text it) };

    fn fmt<W: fmt::Write>(&self, f: &mut fmt::Formatter<W>) -> fmt::Result {
        f.write_str(self.as_str())
    }
}

/// When a request to peers ends.
#[derive(Clone, Copy, PartialEq, Eq, PartialOrd, Ord, Debug)]
pub enum Until {
    /// Until the resolver's floor is at or above the view.
    Floor,
    /// Until a finalization at or above the view.
    Finalization,
}

impl Until {
    /// The end of the request, in lower case.
    pub fn as_str(self) -> &'static str
        ensures { result.now ≡ until_text self }
    {
        match self {
            Until::Floor => "floor",
            Until::Finalization => "finalization",
        }
    }
}

impl fmt::Display for Until {
    ghost use Rattle.std.specs.Prelude.{Some};
    ghost use Rattle.simplex_types.specs.Reasons.{until_text};

    ghost output = { λ it. Some (until_text it) };

    fn fmt<W: fmt::Write>(&self, f: &mut fmt::Formatter<W>) -> fmt::Result {
        f.write_str(self.as_str())
    }
}

/// A request to a peer, and when it ends.
#[derive(Clone, Copy, PartialEq, Eq, PartialOrd, Ord, Debug)]
pub struct Ask {
    pub kind: Kind,
    pub until: Until,
}

impl Ask {
    /// The request that fills a gap: a nullification until the floor has passed it.
    pub fn backfill() -> Ask
        ensures { result ≡ backfill_ask }
    {
        Ask {
            kind: Kind::Nullification,
            until: Until::Floor,
        }
    }

    /// The request for a proposal's ancestry: a certificate of this kind until a finalization has passed it.
    pub fn ancestry(kind: Kind) -> Ask
        ensures { result ≡ ancestry_ask kind }
    {
        Ask {
            kind,
            until: Until::Finalization,
        }
    }
}

impl fmt::Display for Ask {
    ghost use Rattle.std.specs.Prelude.{Some};
    ghost use Rattle.simplex_types.specs.Reasons.{ask_text};

    ghost output = { λ it. Some (ask_text it) };

    fn fmt<W: fmt::Write>(&self, f: &mut fmt::Formatter<W>) -> fmt::Result {
        write!(f, "{} until {}", self.kind, self.until)
    }
}
