//! How a member that resumes from its journal relates to the run before.

ghost use Rattle.laws_safety.specs.Resumes.{OfEachLeft, ResumesByRestart, IsRefusedAsRestart, IsPrunedAsAtRestart, LosesNothing};

use simplex_types::types::{Digest, Elector, Scheme};

/// A member that resumes from its journal continues its run. The function does nothing: its contract is the law.
///
/// Take any member that a run of calls and restarts leads to, whatever its settings, and a journal with its entries and
/// what `Member::stored` returns:
/// - `resumed`: `Member::resume` makes of that exactly what a restart makes of the member that drops and prunes
///   nothing, and the restart is the next step of the run. So all laws of runs hold for the continued run, as
///   `agreement`.
/// - `refused`: it is refused exactly if that restart is, by the same error.
/// - `whole`: it is never refused for lost entries.
/// - `pruned`: a restart that drops nothing and prunes makes of a record that was pruned within the lifetime exactly
///   what it makes of the whole one.
pub fn resumes_are_restarts<S: Scheme<D>, L: Elector<S>, D: Digest>()
    ensures resumed { OfEachLeft S.PublicKey D.eq L.elect (ResumesByRestart D.eq L.elect) }
    ensures refused { OfEachLeft S.PublicKey D.eq L.elect (IsRefusedAsRestart D.eq L.elect) }
    ensures whole { OfEachLeft S.PublicKey D.eq L.elect LosesNothing }
    ensures pruned { OfEachLeft S.PublicKey D.eq L.elect IsPrunedAsAtRestart }
{}
