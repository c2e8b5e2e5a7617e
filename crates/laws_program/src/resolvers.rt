//! A resolver's transcript, and its fetches.

ghost use Rattle.laws_program.specs.ResolverFetches.{ResolverTranscriptsKeepFetches};

/// Does nothing: its contract is the law. The state of a resolver that lines call follows from the lines whose replies
/// are effects.
///
/// For all lines that `serve` has replied to, by its `Transcribes`, the resolver received exactly the calls of the
/// lines whose replies are effects, and:
/// - `wanted`: once `replayed` is among them, the open fetches are exactly the views that are wanted by these calls, in
///   whatever order they came;
/// - `none`: before that none is open;
/// - `again`: a certificate of a kind and view that was received before opens no fetch;
/// - `answers`: the next reply follows from these calls.
pub fn resolver_transcripts_keep_fetches()
    ensures { ResolverTranscriptsKeepFetches }
{}
