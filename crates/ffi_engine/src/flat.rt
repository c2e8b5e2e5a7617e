//! The inputs and outputs of an engine as plain structs of fixed width, with no space between their fields.

use ffi_member::flat::{FlatContext, FlatProposal};
use ffi_member::view_types::FlatStored;

/// The subject of a vote or a certificate.
#[repr(C)]
#[derive(Clone, Copy)]
pub struct FlatSubject {
    /// 1 to notarize, 2 to nullify, 3 to finalize.
    pub kind: u32,
    /// The signer of a vote, the sender of a proposal, or the leader of a context; the greatest number of 32 bits if
    /// there is none.
    pub member: u32,
    /// Only the round, if it is the subject of a nullification.
    pub proposal: FlatProposal,
}

/// Intervals, in milliseconds, and the length of a long record.
#[repr(C)]
#[derive(Clone, Copy, Debug)]
pub struct FlatOptions {
    /// The interval after which a fetch is asked again, of the next peer: at least one millisecond.
    pub retry: u64,
    /// How long a missing certificate may be on its way before the engine asks for it.
    pub on_its_way: u64,
    /// The engine prunes the record once it has more entries than this, if that drops more of its views than it
    /// retains.
    pub long_record: u64,
}

/// An input of an engine. `IsPassedAs` says which fields each kind reads. The others may be anything, except `reason`
/// and
/// `success`, which are checked for each kind.
#[repr(C)]
#[derive(Clone, Copy)]
pub struct FlatInput {
    /// 1 a proposal, 2 a vote, 3 a certificate, 4 that a proposal was verified, 5 that a block was built, 6 that a
    /// proposal was certified, 7 that a view times out.
    pub kind: u32,
    /// The number of a reason for a timeout; 0 if there is none.
    pub reason: u32,
    /// A verdict: 1 if the proposal is valid, or is certified, else 0.
    pub success: u32,
    /// Unused; it keeps the fields after it at multiples of eight bytes.
    pub reserved: u32,
    /// The view of a verdict, or the view that times out.
    pub view: u64,
    /// The subject and the signer of a vote; the subject of a certificate; a proposal and its sender; the payload that
    /// was built, and the leader.
    pub subject: FlatSubject,
    /// The context of a built block.
    pub context: FlatContext,
}

/// The result of an input.
#[repr(C)]
#[derive(Clone, Copy, Debug)]
pub struct FlatTaken {
    /// 0; 1 to 4 for a fault, after which the engine has failed. 6 if one of the input's numbers is not valid, and 7 if
    /// there was no memory for its bytes: then nothing was passed to the engine.
    pub status: u32,
    /// 0 if the input was ignored, else 1.
    pub is_of_use: u32,
}

/// An output. `HasOutputOf` says which fields each kind has; the others have no meaning. Its bytes stay behind the
/// handle until the next output is asked for.
#[repr(C)]
#[derive(Clone, Copy)]
pub struct FlatOutput {
    /// 0; 1 to 4 for a fault, and 14 if an entry is too long for a frame: then the engine has failed.
    pub status: u32,
    /// 0 if there is no output now. 1 append to what is stored, 2 store in its place, 3 a vote to sign and to send, 4 a
    /// certificate to send, 5 verify, 6 build, 7 stop building, 8 certify, 9 fetch, 10 finalized, 11 two votes that
    /// contradict each other, 12 two proposals of one leader, 13 forget.
    pub kind: u32,
    /// The certificate to fetch: 1 a notarization, 2 a nullification, 4 any one that decides the view.
    pub fetch: u32,
    /// The peer to fetch it from, or the leader that proposed twice; the greatest number of 32 bits if there is none.
    pub member: u32,
    /// The view to fetch, to stop building, or of two proposals; or the view below which everything is forgotten.
    pub view: u64,
    /// How many bytes wait: the entries as frames, the text to sign, a certificate, or the first signature of two.
    pub bytes: u64,
    /// How many bytes the second signature has.
    pub other_bytes: u64,
    /// The data stored beside the journal, once this is stored, with the number of its entries then.
    pub stored: FlatStored,
    /// The subject of a vote or certificate; the proposal to verify, to certify, or that is final.
    pub subject: FlatSubject,
    /// The subject of the second of two votes.
    pub other: FlatSubject,
    /// The context of what is verified or built. `subject` has the leader.
    pub context: FlatContext,
}

/// The status of an engine.
#[repr(C)]
#[derive(Clone, Copy, Debug)]
pub struct FlatStatus {
    /// 0, or 2 if it has failed.
    pub status: u32,
    /// Unused.
    pub reserved: u32,
    /// The moment in milliseconds at which to poll it if no input comes before.
    pub wake: u64,
    /// How many inputs were ignored.
    pub ignored: u64,
    /// How many fetches are open.
    pub fetches: u64,
}

/// A fetch that is open.
#[repr(C)]
#[derive(Clone, Copy, Debug)]
pub struct FlatOpen {
    /// 0.
    pub status: u32,
    /// As of an output; 0 if there is no such fetch.
    pub fetch: u32,
    pub view: u64,
    /// How often it was asked for.
    pub count: u64,
    /// When it is to be asked for next, in milliseconds.
    pub moment: u64,
}
