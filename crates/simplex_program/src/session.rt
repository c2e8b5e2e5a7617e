//! The voter or resolver that lines call, and the replies that it writes.

ghost use Rattle.std.specs.Prelude.{◌≡◌, ◌++◌, ◌∷◌, [], IfOk, OnOk, IfErr, IfSome, string_bytes};
ghost use Rattle.simplex_program.specs.Mode.{IsServed};
ghost use Rattle.simplex_program.specs.Session.{asked_of, IsNotReplied};
ghost use Rattle.simplex_program.specs.Transcript.{Begins, Replies, reply_line};
ghost use Rattle.simplex_program.specs.declared.serve_error.ServeError.TheVariants.{OutOfMemory};

use crate::mode::Mode;
use crate::network::Network;
use crate::resolver::Resolver;
use crate::resolver_line::ResolverLine;
use crate::serve_error::ServeError;
use crate::voter::Voter;
use crate::voter_line::VoterLine;
use std::alloc::{AllocError, Global};
use std::fmt::{Display, Write as _};

/// The voter or resolver that lines call.
#[derive(Drop)]
pub(crate) enum Session {
    Voter(Voter),
    Resolver(Resolver),
}

impl Session {
    /// Starts the session that a mode asks for.
    pub(crate) fn start(alloc: Global, mode: Mode) -> Result<Session, AllocError>
        requires { IsServed mode }
        ensures { IfOk result (λ session. Begins mode (asked_of session)) }
    {
        match mode {
            Mode::Voter {
                members,
                me,
                term_length,
                optimistic,
            } => {
                let network = Network {
                    members,
                    me,
                    term_length,
                    optimistic,
                };
                Ok(Session::Voter(Voter::start(alloc, network)?))
            }
            Mode::Resolver(term_length) => Ok(Session::Resolver(Resolver::new(alloc, term_length))),
        }
    }

    /// Writes the reply to the text of a line, with a line feed, in place of the contents of `reply`. The line has this
    /// number.
    pub(crate) fn reply_to(
        &mut self,
        alloc: Global,
        number: u64,
        text: &str,
        reply: &mut String,
    ) -> Result<(), ServeError>
        ensures replied { OnOk result
            (Replies (asked_of self.old) text.now (string_bytes reply.new) (asked_of self.new)) }
        ensures refused { IfErr result (IsNotReplied number (asked_of self.old) text.now) }
    {
        match self {
            Session::Voter(voter) => {
                let Some(line) = VoterLine::parse(text) else {
                    return Err(ServeError::NotACall(number));
                };
                match voter.answer(alloc, line) {
                    Ok(answer) => write_reply(reply, answer),
                    Err(AllocError) => Err(ServeError::OutOfMemory),
                }
            }
            Session::Resolver(resolver) => {
                let Some(line) = ResolverLine::parse(text) else {
                    return Err(ServeError::NotACall(number));
                };
                match resolver.answer(alloc, line) {
                    Ok(answer) => write_reply(reply, answer),
                    Err(AllocError) => Err(ServeError::OutOfMemory),
                }
            }
        }
    }
}

/// Writes an answer and a line feed in place of the contents of `reply`.
fn write_reply<D: Display + Drop>(reply: &mut String, answer: D) -> Result<(), ServeError>
    ensures text { OnOk result (IfSome (D.output answer) (λ text. string_bytes reply.new ≡ reply_line text)) }
    ensures refused { IfErr result (λ error. error ≡ OutOfMemory) }
{
    reply.clear();
    match writeln!(reply, "{answer}") {
        Ok(()) => Ok(()),
        Err(_) => Err(ServeError::OutOfMemory),
    }
}
