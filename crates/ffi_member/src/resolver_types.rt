//! The inputs and results of a resolver as plain structs of fixed width.

use crate::flat::FlatProposal;

/// An input of a resolver.
#[repr(C)]
#[derive(Clone, Copy)]
pub struct FlatResolverReply {
    /// 1 for a notarization that was newly accepted, 2 for a nullification, 3 for a finalization; 4 for the verdict on
    /// a notarization.
    pub kind: u32,
    /// A verdict: 1 if the proposal is certified, else 0. It is checked for each kind.
    pub success: u32,
    /// The certificate's proposal; of a nullification only the round.
    pub proposal: FlatProposal,
}

/// The result of a resolver's input: effects, which wait behind the handle.
#[repr(C)]
#[derive(Clone, Copy, Debug)]
pub struct FlatEffects {
    /// 0; 1 to 3 for a fault, 5 if the view is 0, 6 if one of the numbers is not valid, and 7 if there was no memory
    /// for the certificate: after 5 to 7 nothing was passed to the resolver.
    pub status: u32,
    /// Unused.
    pub reserved: u32,
    /// How many effects there are.
    pub count: u64,
    /// How many fetches are open after that.
    pub fetches: u64,
}

/// An effect.
#[repr(C)]
#[derive(Clone, Copy, Debug)]
pub struct FlatEffect {
    /// 0.
    pub status: u32,
    /// 1: a nullification that covers `view` is to be fetched; 2: nothing is left to ask for at the views `view` to
    /// `end`; 3: each request at or below `view` is settled; 4: each fetch at or below `view` ends. 0 if there is no
    /// such effect.
    pub kind: u32,
    /// For 1 the reason: 0 for a missing nullification, 1 for a failed certification. For 2 what is settled: 0 for
    /// nullifications, 1 for notarizations.
    pub reason: u32,
    /// Unused.
    pub reserved: u32,
    pub view: u64,
    /// For 1 the view of the certificate or verdict that called for it.
    pub cause: u64,
    pub end: u64,
}

/// A resolver's knowledge of a view.
#[repr(C)]
#[derive(Clone, Copy, Debug)]
pub struct FlatSettled {
    /// 0.
    pub status: u32,
    /// 1 if the resolver has failed.
    pub is_failed: u32,
    /// 1 if the view's fetch is open.
    pub is_open: u32,
    /// 1 if no nullification of the view is left to ask for.
    pub nullification: u32,
    /// 1 if no notarization of the view is left to ask for.
    pub notarization: u32,
    /// 1 if the view's certification failed.
    pub uncertifiable: u32,
    /// How many fetches are open.
    pub fetches: u64,
}

/// The views with an open fetch, which wait behind the handle: eight bytes each, big-endian.
#[repr(C)]
#[derive(Clone, Copy, Debug)]
pub struct FlatOutstanding {
    /// 0; 1 if there was no memory for them.
    pub status: u32,
    /// Unused.
    pub reserved: u32,
    /// How many there are.
    pub count: u64,
    /// How many bytes they are.
    pub bytes: u64,
}

/// The bytes that a peer is served for a view, which wait behind the handle.
#[repr(C)]
#[derive(Clone, Copy, Debug)]
pub struct FlatServed {
    /// 0; 1 if there was no memory for it, and 2 if the resolver has failed.
    pub status: u32,
    /// 1 if there is something.
    pub has: u32,
    /// How many bytes it has.
    pub bytes: u64,
    /// The view.
    pub view: u64,
}
