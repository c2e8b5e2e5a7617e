//! The kinds of outputs, and their numbers.

ghost use Rattle.std.specs.Prelude.{◌≡◌};
ghost use Rattle.ffi_engine.specs.Outputs.{output_number};

/// The kind of an output: one for each variant of `Output` and of `Work`, and `Nothing` if no output is ready.
#[derive(Clone, Copy, PartialEq, Eq, Debug)]
pub enum OutputKind {
    Nothing,
    Store,
    Replace,
    Vote,
    Broadcast,
    Verify,
    Build,
    StopBuilding,
    Certify,
    Fetch,
    Finalized,
    Equivocated,
    ProposedTwice,
    Forget,
}

/// Returns the number of an output's kind.
pub fn number_of_output(kind: OutputKind) -> u32
    ensures { result ≡ output_number kind }
{
    match kind {
        OutputKind::Nothing => 0,
        OutputKind::Store => 1,
        OutputKind::Replace => 2,
        OutputKind::Vote => 3,
        OutputKind::Broadcast => 4,
        OutputKind::Verify => 5,
        OutputKind::Build => 6,
        OutputKind::StopBuilding => 7,
        OutputKind::Certify => 8,
        OutputKind::Fetch => 9,
        OutputKind::Finalized => 10,
        OutputKind::Equivocated => 11,
        OutputKind::ProposedTwice => 12,
        OutputKind::Forget => 13,
    }
}
