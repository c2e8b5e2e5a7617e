//! The types of the library at this crate's digest and scheme.

use crate::digest::BlockDigest;
use crate::scheme::SealScheme;
use simplex_types::types::{Artifact, Certificate, Proposal};

/// A proposal, whose payload is a block.
pub type Block = Proposal<BlockDigest>;

/// An entry of a record.
pub type Entry = Artifact<SealScheme, BlockDigest>;

/// A certificate of any kind.
pub type Proof = Certificate<SealScheme, BlockDigest>;
