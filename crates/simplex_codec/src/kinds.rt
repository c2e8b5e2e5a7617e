//! The first bytes of encodings, which mark their kinds.

/// A notarization.
pub(crate) const NOTARIZATION: u8 = 0;
/// A nullification.
pub(crate) const NULLIFICATION: u8 = 1;
/// A finalization.
pub(crate) const FINALIZATION: u8 = 2;
/// A vote to notarize.
pub(crate) const NOTARIZE: u8 = 3;
/// A vote to nullify.
pub(crate) const NULLIFY: u8 = 4;
/// A vote to finalize.
pub(crate) const FINALIZE: u8 = 5;
/// A verdict.
pub(crate) const VERDICT: u8 = 6;
