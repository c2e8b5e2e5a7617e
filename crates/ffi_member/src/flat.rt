//! The data that another language exchanges: plain structs of fixed width, with no space between their fields.

/// An epoch and a view.
#[repr(C)]
#[derive(Clone, Copy, Debug)]
pub struct FlatRound {
    pub epoch: u64,
    pub view: u64,
}

/// A proposal, with a round of its own.
#[repr(C)]
#[derive(Clone, Copy)]
pub struct FlatProposal {
    pub round: FlatRound,
    /// The parent's view.
    pub parent: u64,
    pub payload: [u8; 32],
}

/// A call. `IsAskedBy` says which fields each kind reads. The others may be anything, except `reason` and `success`,
/// which are checked in each call.
#[repr(C)]
#[derive(Clone, Copy)]
pub struct FlatCall {
    /// The number of a `CallKind`.
    pub kind: u32,
    /// The number of a reason for a timeout; 0 if the call takes none.
    pub reason: u32,
    /// A verdict: 1 if the view's proposal is certified, else 0.
    pub success: u32,
    /// Unused; it keeps the fields after it at multiples of eight bytes.
    pub reserved: u32,
    /// The view that the call is about.
    pub view: u64,
    /// A moment, in milliseconds.
    pub moment: u64,
    /// The token under which a certification continues.
    pub token: u64,
    /// The round of a nullification.
    pub round: FlatRound,
    /// The proposal that is passed, the proposal of a certificate, or the proposal of a built payload.
    pub proposal: FlatProposal,
}

/// The context in which a proposal is built or verified: its round, and the parent with its payload. `member` has the
/// leader.
#[repr(C)]
#[derive(Clone, Copy)]
pub struct FlatContext {
    pub round: FlatRound,
    /// The parent's view.
    pub parent: u64,
    /// The parent's payload.
    pub payload: [u8; 32],
}

/// The reply to a call. `RepresentsReply` says which fields each kind has; the others have no meaning. A certificate,
/// the text to sign, and lists stay behind the handle until the next call.
#[repr(C)]
#[derive(Clone, Copy)]
pub struct FlatReply {
    /// 0 if the call was made; 1 to 4 for a fault, and 5 if the call is not allowed. 6 if one of its numbers is not
    /// valid for a call, and 7 if there was no memory for its certificate: then no call was made.
    pub status: u32,
    /// The kind of the reply.
    pub kind: u32,
    /// 0 if there is no vote, certificate, request, work or reason; else 1, or which of several kinds there is.
    pub has: u32,
    /// 1 for true.
    pub flag: u32,
    /// A leader or a signer; the greatest number of 32 bits if there is none.
    pub member: u32,
    /// The reason of a view's timeout, or of an abandoned handoff.
    pub reason: u32,
    /// The moment at which the current view times out, in milliseconds.
    pub moment: u64,
    /// The view of the proposal that waits for a certificate, and the view of that certificate.
    pub waiting: u64,
    pub lacking: u64,
    /// How many proposals are offered, or how many views were dropped.
    pub count: u64,
    /// How many certificates are to be fetched.
    pub fetches: u64,
    /// The proposal of a vote or a certificate, or the one to verify. Of a nullification only the round.
    pub proposal: FlatProposal,
    /// The context of what is built or verified.
    pub context: FlatContext,
}

/// A certificate to fetch: the view of the proposal that waits for it, and its own.
#[repr(C)]
#[derive(Clone, Copy, Debug)]
pub struct FlatFetch {
    pub proposal: u64,
    pub view: u64,
}

/// The settings of a member. Times are milliseconds.
#[repr(C)]
#[derive(Clone, Copy)]
pub struct FlatSettings {
    /// How many members there are.
    pub members: u32,
    /// The index of the member that signs; the greatest number of 32 bits if none does.
    pub signer: u32,
    /// How many views one leader leads.
    pub term_length: u32,
    /// 1 if certificates name leaders, 0 if only the table does.
    pub draws: u32,
    /// 1 if terms stall after `stall_timeout`, else 0.
    pub stalls: u32,
    /// 1 if the floor is a finalized proposal, 0 if it is genesis.
    pub is_finalized: u32,
    pub stall_timeout: u64,
    pub optimistic_views: u64,
    pub epoch: u64,
    pub view_retention: u64,
    pub leader_timeout: u64,
    pub certification_timeout: u64,
    pub timeout_retry: u64,
    /// How long until a leader counts as inactive; 0 if no view is skipped for it.
    pub skip_timeout: u64,
    /// How many unfinalized terms may be skipped; 0 for as many as there are members.
    pub skip_budget: u64,
    /// The finalized proposal; of genesis only the payload.
    pub floor: FlatProposal,
    /// The bytes that distinguish the network: each text to sign begins with them.
    pub namespace: [u8; 32],
}
