//! Runs of a member: calls, prunings of its record and restarts, one after another.

ghost use Rattle.std.specs.Prelude.{◌≡◌, ◌⊎◌, ◌<◌, ◌++◌, ◌∷◌, [], IfOk, IfErr, length, map, vec_len, vec_capacity};
ghost use Rattle.simplex_member.specs.Calls.{reply_facts};
ghost use Rattle.simplex_member.specs.Runs.{IsSetUp, AreSetUp, step_facts, steps_of, IsStep, IsRefused, IsRun, EndsRun, IsRunFrom, EndsRunFrom};
ghost use Rattle.simplex_record.specs.Start.{start_facts};
ghost use Rattle.simplex_record.specs.declared.record.error.RecoverError.TheVariants.{OutOfMemory};

use super::calls::{Call, Reply};
use super::life::Member;
use super::restart::Restart;
use simplex_record::record::{RecoverError, Start};
use simplex_types::types::{CertificateScheme, Digest, Elector, Scheme};
use std::alloc::Global;

/// A step of a run.
#[derive(Drop)]
pub enum Step<S: CertificateScheme, L: Elector<S>, D> {
    Call(Call<S, D>),
    /// `Member::prune_record`, whose reply is `Reply::Unit`.
    PruneRecord,
    Restart(Restart<S, L, D>),
}

/// Starts a member and takes the steps in order, with one reply a step.
///
/// The elector's members must be the scheme's participants, for the start and for each restart. It ends early with the
/// error of a refused start or restart, and with `OutOfMemory` if there is no memory for the replies.
#[tactic(auto, unfolding(crate::specs::Runs::IsRunFrom, crate::specs::Runs::EndsRunFrom))]
pub fn run<S: Scheme<D>, L: Elector<S>, D: Digest>(
    alloc: Global,
    start: Start<S, L, D>,
    steps: Vec<Step<S, L, D>>,
) -> Result<Vec<Reply<S, D>>, RecoverError>
    requires started { L.members start.settings.elector ≡ length (S.participants start.settings.scheme) }
    requires restarted { AreSetUp S.participants L.members steps.items }
    ensures whole { IfOk result
        (λ replies. IsRunFrom D.eq L.elect
        (start_facts S.me S.participants L.terms L.elects_early S.certificate_bytes start)
        (steps_of S.me S.participants L.terms L.elects_early S.certificate_bytes steps.items)
        (map (reply_facts S.certificate_bytes) replies.items)) }
    ensures ended { IfErr result
        (EndsRunFrom D.eq L.elect (start_facts S.me S.participants L.terms L.elects_early S.certificate_bytes start)
        (steps_of S.me S.participants L.terms L.elects_early S.certificate_bytes steps.items)) }
{
    let mut member = Member::start(alloc, start)?;
    take_steps(alloc, &mut member, steps)
}

/// Takes the steps in order, with one reply a step.
fn take_steps<S: Scheme<D>, L: Elector<S>, D: Digest>(
    alloc: Global,
    member: &mut Member<S, L, D>,
    steps: Vec<Step<S, L, D>>,
) -> Result<Vec<Reply<S, D>>, RecoverError>
    requires { AreSetUp S.participants L.members steps.items }
    ensures whole { IfOk result (λ replies. IsRun D.eq L.elect member.old.facts
        (steps_of S.me S.participants L.terms L.elects_early S.certificate_bytes steps.items)
        (map (reply_facts S.certificate_bytes) replies.items) member.new.facts) }
    ensures ended { IfErr result (λ error. (error ≡ OutOfMemory)
        ⊎ EndsRun D.eq L.elect member.old.facts
        (steps_of S.me S.participants L.terms L.elects_early S.certificate_bytes steps.items) error) }
{
    let mut replies = Vec::new(alloc);
    for step in steps {
        replies.reserve(1)?;
        let reply = take_step(member, step)?;
        push_reserved(&mut replies, reply);
    }
    Ok(replies)
}

/// Appends an item for which there is room.
fn push_reserved<T: Drop>(items: &mut Vec<T>, item: T)
    requires { vec_len items.old < vec_capacity items.old }
    ensures { items.new.items ≡ items.old.items ++ item ∷ [] }
{
    match items.push(item) {
        Ok(()) => {}
        Err(_) => unreachable!(),
    }
}

/// Takes a step, and returns its reply.
fn take_step<S: Scheme<D>, L: Elector<S>, D: Digest>(
    member: &mut Member<S, L, D>,
    step: Step<S, L, D>,
) -> Result<Reply<S, D>, RecoverError>
    requires { IsSetUp S.participants L.members step }
    ensures taken { IfOk result (λ reply. IsStep D.eq L.elect member.old.facts
        (step_facts S.me S.participants L.terms L.elects_early S.certificate_bytes step)
        (reply_facts S.certificate_bytes reply) member.new.facts) }
    ensures refused { IfErr result (λ error. IsRefused D.eq L.elect member.old.facts
        (step_facts S.me S.participants L.terms L.elects_early S.certificate_bytes step) error) }
{
    match step {
        Step::Call(call) => Ok(member.call(call)),
        Step::PruneRecord => {
            member.prune_record();
            Ok(Reply::Unit)
        }
        Step::Restart(restart) => {
            member.restart(restart)?;
            Ok(Reply::Restarted)
        }
    }
}
