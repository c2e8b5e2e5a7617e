//! The kinds of lists of a reply, and their numbers.

ghost use Rattle.std.specs.Prelude.{◌≡◌, MatchOption};
ghost use Rattle.ffi_member.specs.Numbers.{IsListKind, IsNoListKind, list_number};

/// The kind of a reply's list: proposals to certify, certificates to fetch, and views that were dropped.
#[derive(Clone, Copy, PartialEq, Eq, Debug)]
pub enum ListKind {
    Proposals,
    Fetches,
    Dropped,
}

/// Returns the list's kind of a number, if it is one's.
pub fn list_kind_of(number: u32) -> Option<ListKind>
    ensures { MatchOption result (IsNoListKind number) (λ kind. (list_number kind ≡ number) × IsListKind number) }
{
    match number {
        1 => Some(ListKind::Proposals),
        2 => Some(ListKind::Fetches),
        3 => Some(ListKind::Dropped),
        _ => None,
    }
}
