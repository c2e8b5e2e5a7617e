//! The inputs of an engine.

use engine_votes::votes::Vote;
use simplex_types::reasons::TimeoutReason;
use simplex_types::types::{Certificate, CertificateScheme, Context, Participant, Proposal, View};

/// One input. Time is no input: the host passes the moment with each call, and `poll` detects a timeout.
#[derive(Drop)]
pub enum Input<S: CertificateScheme, D> {
    /// A proposal, and the member that sent it, whose signature the host has verified.
    Proposal(Participant, Proposal<D>),
    /// A vote whose signature the host has verified; also each of the engine's own, once the host has sent it.
    Vote(Vote<D, S::Signature>),
    /// A certificate that the host has verified.
    Certificate(Certificate<S, D>),
    /// True if the application found the view's proposal valid, after `Work::Verify`.
    Verified(View, bool),
    /// The payload that the application built in the context of a `Work::Build`.
    Built(Context<D, S::PublicKey>, D),
    /// True if the application certified the view's notarized proposal. It is ignored if the member did not offer the
    /// proposal in this lifetime, or has its verdict.
    Certified(View, bool),
    /// The view times out for a reason that the engine can't see by itself.
    GivenUp(View, TimeoutReason),
}
