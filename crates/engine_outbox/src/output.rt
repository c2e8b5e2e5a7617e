//! The outputs of an engine, which its host carries out.

use engine_fetches::fetches::Ask;
use engine_votes::votes::Vote;
use simplex_types::types::{Artifact, Certificate, CertificateScheme, Context, Proposal, View};

/// One output. Carry outputs out in the order in which they are returned. `J` is what a journal stores beside its
/// entries.
#[derive(Drop)]
pub enum Output<S: CertificateScheme, D, J> {
    /// Append these entries to the journal and sync it, before you carry out the next output.
    Store(Vec<Artifact<S, D>>),
    /// Store these entries in place of all that is stored, in one step with what is stored beside them.
    Replace(Vec<Artifact<S, D>>, J),
    /// Send this vote of the member to all members.
    Vote(Vote<D, S::Signature>),
    /// This proposal and all its ancestors are final. Ancestors are not reported: follow parent links to the last block
    /// that you delivered.
    Finalized(Proposal<D>),
    /// Anything else.
    Work(Work<S, D>),
}

/// Work for the network and the application.
#[derive(Drop)]
pub enum Work<S: CertificateScheme, D> {
    /// Send this certificate to all other members.
    Broadcast(Certificate<S, D>),
    /// Let the application verify this proposal in its context.
    Verify(Context<D, S::PublicKey>, Proposal<D>),
    /// Let the application build a block in this context.
    Build(Context<D, S::PublicKey>),
    /// Stop building in this view: the block is not needed any more.
    StopBuilding(View),
    /// Let the application give its verdict on this notarized proposal.
    Certify(Proposal<D>),
    /// Ask a peer for a certificate.
    Fetch(Ask),
    /// Two votes of one member that contradict each other. It is returned once of a member, kind and view, as long as
    /// the view's votes are stored.
    Equivocated(Vote<D, S::Signature>, Vote<D, S::Signature>),
    /// The leader of the view, by its key, signed two proposals, which certificates show.
    ProposedTwice(View, S::PublicKey),
    /// Drop what the host stores of the views below this one.
    Forget(View),
}
