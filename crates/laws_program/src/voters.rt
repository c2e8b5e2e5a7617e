//! A voter's transcript, and its member.

ghost use Rattle.laws_program.specs.VoterExecutions.{VoterTranscriptsAreLawful};

/// Does nothing: its contract is the law. The lines that a voter has replied to, from its start on, are an execution of
/// its member.
///
/// For all lines that `serve` has replied to, by its `Transcribes`, there are a start at genesis of the network that
/// the arguments name, and steps with their replies, so that:
/// - each line that asks for a call or a restart is one step, and no other line is a step; the reply of each step is
///   the one of its line, and the bytes written are the texts of exactly these replies, in order;
/// - `ran`: this is an execution of a member of a network that signs as the program's member or not at all, so
///   `agreement` is about it;
/// - `lawful`: what it accepted and signed keeps the voting rules, over all its lifetimes.
pub fn voter_transcripts_are_lawful()
    ensures { VoterTranscriptsAreLawful }
{}
