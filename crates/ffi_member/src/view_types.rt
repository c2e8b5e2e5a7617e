//! The data that the host can read of a member beside its replies, as plain structs of fixed width.

use crate::flat::{FlatFetch, FlatProposal, FlatSettings};

/// The data stored beside a journal.
#[repr(C)]
#[derive(Clone, Copy, Debug)]
pub struct FlatStored {
    /// How many entries the record had.
    pub entries: u64,
    /// No drop takes any of the first `closed` entries.
    pub closed: u64,
    /// How many views below the last finalized one the last lifetime retained.
    pub retention: u64,
    /// The least that a lifetime retained.
    pub least_retention: u64,
    /// 1 if the record was ever pruned, else 0.
    pub is_pruned: u32,
    /// Unused.
    pub reserved: u32,
}

/// The input of a restart.
#[repr(C)]
#[derive(Clone, Copy)]
pub struct FlatRestart {
    /// How many of the record's last entries are dropped at most, but never a vote nor anything before one.
    pub drop: u64,
    /// The moment in milliseconds.
    pub moment: u64,
    /// 1 to prune the record then, else 0.
    pub prune: u32,
    /// Unused.
    pub reserved: u32,
    pub settings: FlatSettings,
}

/// The entries of a record for a journal, which wait behind the handle.
#[repr(C)]
#[derive(Clone, Copy, Debug)]
pub struct FlatEntries {
    /// 0; 1 if there was no memory for them, and 14 if one of them is too long for a frame.
    pub status: u32,
    /// Unused.
    pub reserved: u32,
    /// How many bytes the entries are as frames, one after the other.
    pub bytes: u64,
    /// The data stored beside the record, with the number of its entries.
    pub stored: FlatStored,
}

/// A member's knowledge, in general and of one view.
#[repr(C)]
#[derive(Clone, Copy)]
pub struct FlatView {
    /// 0, or 2 if the member has failed: then no other field has a meaning.
    pub status: u32,
    /// The index of the view's leader, if the view is tracked and its leader known; else the greatest number of 32
    /// bits.
    pub leader: u32,
    /// 1 if the view is tracked.
    pub is_tracked: u32,
    /// 1 if a vote of the view is taken.
    pub admits_vote: u32,
    /// 1 if a certificate of the view is taken.
    pub admits_certificate: u32,
    /// 1 if this member has voted to nullify the view.
    pub voted_nullify: u32,
    /// 1 if the view has a notarization.
    pub has_notarization: u32,
    /// 1 if the view has a nullification.
    pub has_nullification: u32,
    /// 1 if the view has a finalization.
    pub has_finalization: u32,
    /// 1 if there is a proposal of the view that may be forwarded.
    pub has_forwardable: u32,
    pub epoch: u64,
    /// The current view.
    pub current: u64,
    /// The last finalized view.
    pub last_finalized: u64,
    /// The lowest retained view.
    pub min_active: u64,
    /// The proposal that may be forwarded.
    pub forwardable: FlatProposal,
}

/// A certificate of a view, whose bytes wait behind the handle.
#[repr(C)]
#[derive(Clone, Copy)]
pub struct FlatFound {
    /// 0; 1 if there was no memory for its bytes, 2 if the member has failed, and 6 if no certificate has this kind.
    pub status: u32,
    /// 1 for a notarization, 2 for a nullification, 3 for a finalization; 0 if there is none.
    pub has: u32,
    /// How many bytes it has.
    pub bytes: u64,
    /// Its proposal; of a nullification only the round.
    pub proposal: FlatProposal,
}

/// Why a member withholds a vote.
#[repr(C)]
#[derive(Clone, Copy, Debug)]
pub struct FlatWithheld {
    /// 0; 2 if the member has failed, and 6 if no vote has this kind: then the reason has no meaning.
    pub status: u32,
    /// The first part of the vote's rule that is false; 0 if the vote is not withheld.
    pub reason: u32,
}

/// An item of the last reply's lists.
#[repr(C)]
#[derive(Clone, Copy)]
pub struct FlatItem {
    /// 0.
    pub status: u32,
    /// 1 if there is such an item.
    pub has: u32,
    /// A view that was dropped.
    pub view: u64,
    /// A certificate to fetch.
    pub fetch: FlatFetch,
    /// A proposal to certify.
    pub proposal: FlatProposal,
}

/// How many bytes a chunk has room for.
pub const CHUNK: usize = 1024;

/// A part of bytes that wait behind a handle: only the first `count` bytes count.
#[repr(C)]
#[derive(Clone, Copy)]
pub struct FlatChunk {
    /// 0.
    pub status: u32,
    /// Unused.
    pub reserved: u32,
    pub count: u64,
    pub bytes: [u8; 1024],
}

/// The text that a vote signs, which begins with the namespace: the first `count` bytes count.
#[repr(C)]
#[derive(Clone, Copy)]
pub struct FlatText {
    /// 0; 1 if there was no memory, and 6 if no vote has this kind.
    pub status: u32,
    pub count: u32,
    pub bytes: [u8; 96],
}

/// The result of scanning a journal's bytes.
#[repr(C)]
#[derive(Clone, Copy, Debug)]
pub struct FlatScan {
    /// How many whole frames are at their front.
    pub entries: u64,
    /// How many bytes these are.
    pub bytes: u64,
    /// 0 if these are all; 1 if the bytes after them end within a frame, as after a cut; 2 if no frame begins so.
    pub ending: u32,
    /// Unused.
    pub reserved: u32,
}
