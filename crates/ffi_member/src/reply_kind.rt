//! The kinds of replies, and their numbers.

ghost use Rattle.std.specs.Prelude.{◌≡◌};
ghost use Rattle.ffi_member.specs.Numbers.{reply_number};

/// The kind of a member's reply: one for each variant of `Reply` but a fault and a call that is not allowed, which have
/// a status.
#[derive(Clone, Copy, PartialEq, Eq, Debug)]
pub enum ReplyKind {
    Unit,
    Flag,
    Added,
    AddedNullification,
    Request,
    Work,
    Candidates,
    Certified,
    Notarize,
    Nullify,
    Finalize,
    Certificate,
    Timeout,
    Views,
    Released,
    Triggered,
    Abandoned,
    Restarted,
}

/// Returns the number of a reply's kind.
pub fn number_of_reply(kind: ReplyKind) -> u32
    ensures { result ≡ reply_number kind }
{
    match kind {
        ReplyKind::Unit => 0,
        ReplyKind::Flag => 1,
        ReplyKind::Added => 2,
        ReplyKind::AddedNullification => 3,
        ReplyKind::Request => 4,
        ReplyKind::Work => 5,
        ReplyKind::Candidates => 6,
        ReplyKind::Certified => 7,
        ReplyKind::Notarize => 8,
        ReplyKind::Nullify => 9,
        ReplyKind::Finalize => 10,
        ReplyKind::Certificate => 11,
        ReplyKind::Timeout => 12,
        ReplyKind::Views => 13,
        ReplyKind::Released => 14,
        ReplyKind::Triggered => 15,
        ReplyKind::Abandoned => 16,
        ReplyKind::Restarted => 17,
    }
}
