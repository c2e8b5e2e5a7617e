//! Views, terms, messages and the traits that the protocol requires of its host.

pub mod assembly;
pub mod encoding;
pub mod fault;
pub mod messages;
pub mod numbers;
pub mod plain;
pub mod scheme;
pub mod viewable;
pub mod window;

pub use fault::{AllocFailed, Fault};
pub use messages::{
    Artifact, Certificate, Context, Finalization, Finalize, Notarization, Notarize, Nullification,
    Nullify, Proposal, Subject,
};
pub use numbers::{Epoch, LARGEST_VIEW, Participant, Round, TermLength, View, ViewDelta};
pub use scheme::{CertificateScheme, Digest, Elector, PublicKey, Scheme};
pub use viewable::Viewable;
pub use window::{Lookahead, Terms, Viewport};
