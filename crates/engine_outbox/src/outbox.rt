//! The outbox: the outputs that the host must carry out, in order. No vote leaves before it is stored.
//!
//! It guarantees that in the list of all returned and queued outputs, each vote comes after a `Store` or a `Replace`
//! that holds its entry, with exactly its signature. It reads votes from the entries to be stored, not from what the
//! core returned: `store` receives the new entries of a record, and each vote in them is queued right after them. It
//! also guarantees that the views of the proposals that it reports as final rise.

ghost use Rattle.std.specs.Prelude.{◌≡◌, ◌++◌, ◌∷◌, [], ◌↔◌, true, nat_lt, None, Some, IsTrue, IsNone, IfOk, OnOk, OnErr, option_to_list};
ghost use Rattle.std.specs.Option.{option_map_or};
ghost use Rattle.engine_outbox.specs.declared.output.Output.TheVariants as output;
ghost use Rattle.engine_outbox.specs.Outputs.{storing};

mod votes;

use crate::output::{Output, Work};
use engine_votes::votes::Vote;
use simplex_types::types::{Artifact, CertificateScheme, Digest, Proposal, View, Viewable};
use std::alloc::{AllocError, Global};
use std::collections::VecDeque;
use votes::{copies, copy_of, newest_nullify, votes_of};

/// The outputs to carry out, oldest first. `J` is what a journal stores beside its entries.
#[derive(Drop)]
pub struct Outbox<S: CertificateScheme, D, J> {
    alloc: Global,
    queue: VecDeque<Output<S, D, J>>,
    /// The newest vote to nullify among the stored entries.
    repeat: Option<Vote<D, S::Signature>>,
    /// The highest view whose proposal was reported as final, or the one up to which none is.
    reported: View,
}

impl<S: CertificateScheme, D: Digest, J: Drop> Outbox<S, D, J> {
    ghost use Rattle.engine_outbox.specs.Outputs.{AreBehind};
    ghost use Rattle.engine_outbox.specs.Finalizations.{finals_in, RiseByView};
    ghost use Rattle.engine_outbox.specs.Outboxes.{IsLawfulOutbox, HasBecome, HasStayed, IsStored, IsReplaced, IsRepeated, HasRoom, IsPassedIf, IsReported, QueuesMore};

    /// Returns an empty outbox. It never reports a proposal of this view or below as final.
    ///
    /// - `begins`: nothing was returned.
    pub fn new(alloc: Global, reported: View) -> Outbox<S, D, J>
        ensures empty { (result.queue.items ≡ []) × (result.repeat ≡ None) × (result.reported ≡ reported) }
        ensures begins { IsLawfulOutbox [] result }
    {
        Outbox {
            alloc,
            queue: VecDeque::new(alloc),
            repeat: None,
            reported,
        }
    }

    /// Queues the new entries of a record, to be stored after all others, and then each vote among them. Without memory
    /// nothing has changed.
    pub fn store(&mut self, fresh: &[Artifact<S, D>]) -> Result<(), AllocError>
        ensures queued { OnOk result (IsStored S.certificate_bytes fresh.now self.old self.new) }
        ensures kept { OnErr result (HasStayed self.old self.new) }
        ensures grown { QueuesMore self.old self.new }
        ensures continues { (given : _) → IsLawfulOutbox given self.old → IsLawfulOutbox given self.new }
    {
        self.queue_entries(fresh)
    }

    /// Queues a whole record, to be stored in place of all entries, in one step with what is stored beside it: at the
    /// start of a lifetime, and once the record was pruned. Its votes are not sent again. Without memory nothing has
    /// changed.
    pub fn replace(&mut self, all: &[Artifact<S, D>], beside: J) -> Result<(), AllocError>
        ensures queued { OnOk result (IsReplaced S.certificate_bytes all.now beside self.old self.new) }
        ensures kept { OnErr result (HasStayed self.old self.new) }
        ensures grown { QueuesMore self.old self.new }
        ensures continues { (given : _) → IsLawfulOutbox given self.old → IsLawfulOutbox given self.new }
    {
        self.queue_record(all, beside)
    }

    /// Queues the newest stored vote to nullify once more, if it is one of the view. Returns whether it is. Without
    /// memory nothing has changed.
    pub fn repeat(&mut self, view: View) -> Result<bool, AllocError>
        ensures queued { IfOk result (λ sent. IsRepeated view self.old.repeat sent self.old self.new) }
        ensures kept { OnErr result (HasStayed self.old self.new) }
        ensures grown { QueuesMore self.old self.new }
        ensures continues { (given : _) → IsLawfulOutbox given self.old → IsLawfulOutbox given self.new }
    {
        self.queue_repeat(view)
    }

    /// Queues other work. Without memory nothing has changed.
    pub fn push(&mut self, work: Work<S, D>) -> Result<(), AllocError>
        ensures queued { OnOk result (HasBecome (output.Work work ∷ []) self.old.repeat self.old self.new) }
        ensures kept { OnErr result (HasStayed self.old self.new) }
        ensures grown { QueuesMore self.old self.new }
        ensures continues { (given : _) → IsLawfulOutbox given self.old → IsLawfulOutbox given self.new }
    {
        self.queue_work(work)
    }

    /// Makes room for what `tell` queues. Without memory there is none.
    pub fn make_room(&mut self) -> Result<(), AllocError>
        ensures room { OnOk result (HasRoom self.new) }
        ensures kept { HasStayed self.old self.new }
        ensures grown { QueuesMore self.old self.new }
        ensures continues { (given : _) → IsLawfulOutbox given self.old → IsLawfulOutbox given self.new }
    {
        self.queue.reserve(1)
    }

    /// Reports a proposal as final, if there is one, and none of its view or above was reported.
    pub fn tell(&mut self, finalized: Option<Proposal<D>>)
        requires { HasRoom self.old }
        ensures reported { IsReported finalized self.old self.new }
        ensures grown { QueuesMore self.old self.new }
        ensures continues { (given : _) → IsLawfulOutbox given self.old → IsLawfulOutbox given self.new }
    {
        self.queue_final(finalized)
    }

    /// Returns the next output to carry out.
    ///
    /// - `continues`: the output is appended to all that was returned before.
    pub fn next(&mut self) -> Option<Output<S, D, J>>
        ensures front { self.old.queue.items ≡ option_to_list result ++ self.new.queue.items }
        ensures none { IsNone result → self.new.queue.items ≡ [] }
        ensures repeat { self.new.repeat ≡ self.old.repeat }
        ensures reported { self.new.reported ≡ self.old.reported }
        ensures continues { (given : _) → IsLawfulOutbox given self.old
            → IsLawfulOutbox (given ++ option_to_list result) self.new }
    {
        self.queue.pop_front()
    }

    /// Returns whether nothing is queued.
    pub fn is_empty(&self) -> bool
        ensures { IsTrue result ↔ (self.now.queue.items ≡ []) }
    {
        self.queue.is_empty()
    }

    /// Does nothing: its contract is the law of all outputs that it returned. Each vote comes after an output that
    /// stores it, and the views of the proposals that are reported as final rise.
    pub fn keeps_the_law(&self)
        ensures behind { (given : _) → IsLawfulOutbox given self.now → AreBehind [] given }
        ensures rising { (given : _) → IsLawfulOutbox given self.now → RiseByView (finals_in given) }
    {}

    /// Queues entries, and after them the votes among them.
    fn queue_entries(&mut self, fresh: &[Artifact<S, D>]) -> Result<(), AllocError>
        ensures queued { OnOk result (IsStored S.certificate_bytes fresh.now self.old self.new) }
        ensures kept { OnErr result (HasStayed self.old self.new) }
    {
        let entries = copies(self.alloc, fresh)?;
        let newest = newest_nullify(self.alloc, &entries)?;
        let batch = batch_of(self.alloc, entries)?;
        match self.queue_batch(batch, newest) {
            Ok(()) => Ok(()),
            Err(refused) => Err(refused),
        }
    }

    /// Queues a record in place of all entries.
    fn queue_record(&mut self, all: &[Artifact<S, D>], beside: J) -> Result<(), AllocError>
        ensures queued { OnOk result (IsReplaced S.certificate_bytes all.now beside self.old self.new) }
        ensures kept { OnErr result (HasStayed self.old self.new) }
    {
        let entries = copies(self.alloc, all)?;
        let newest = newest_nullify(self.alloc, &entries)?;
        let batch = whole_batch(self.alloc, entries, beside)?;
        match self.queue_batch(batch, newest) {
            Ok(()) => Ok(()),
            Err(refused) => Err(refused),
        }
    }

    /// Queues the vote that may be repeated, if it is one of the view.
    fn queue_repeat(&mut self, view: View) -> Result<bool, AllocError>
        ensures queued { IfOk result (λ sent. IsRepeated view self.old.repeat sent self.old self.new) }
        ensures kept { OnErr result (HasStayed self.old self.new) }
    {
        let Some(vote) = &self.repeat else {
            return Ok(false);
        };
        if vote.subject.view() != view {
            return Ok(false);
        }
        let copy = copy_of::<S, D>(self.alloc, vote)?;
        self.queue.push_back(Output::Vote(copy))?;
        Ok(true)
    }

    /// Queues one output.
    fn queue_work(&mut self, work: Work<S, D>) -> Result<(), AllocError>
        ensures queued { OnOk result (HasBecome (output.Work work ∷ []) self.old.repeat self.old self.new) }
        ensures kept { OnErr result (HasStayed self.old self.new) }
    {
        self.queue.push_back(Output::Work(work))?;
        Ok(())
    }

    /// Queues a proposal that is final, if there is one.
    fn queue_final(&mut self, finalized: Option<Proposal<D>>)
        requires { HasRoom self.old }
        ensures { IsReported finalized self.old self.new }
    {
        if let Some(proposal) = &finalized {
            self.queue_above(proposal)
        }
    }

    /// Queues a proposal that is final, if none of its view or above was reported.
    fn queue_above(&mut self, proposal: &Proposal<D>)
        requires { HasRoom self.old }
        ensures { IsPassedIf (nat_lt self.old.reported proposal.now.round.view) proposal.now self.old self.new }
    {
        if self.reported < proposal.round.view {
            self.reported = proposal.round.view;
            self.queue.push_back_reserved(Output::Finalized(*proposal));
        }
    }

    /// Queues a batch, and notes the newest vote to nullify in it, if there is one.
    fn queue_batch(
        &mut self,
        mut batch: VecDeque<Output<S, D, J>>,
        newest: Option<Vote<D, S::Signature>>,
    ) -> Result<(), AllocError>
        ensures queued { OnOk result
            (HasBecome batch.items (option_map_or Some newest self.old.repeat) self.old self.new) }
        ensures kept { OnErr result (HasStayed self.old self.new) }
    {
        match self.queue.append(&mut batch) {
            Ok(()) => {
                self.note(newest);
                Ok(())
            }
            Err(refused) => Err(refused),
        }
    }

    /// Notes a vote to nullify, if there is one.
    fn note(&mut self, newest: Option<Vote<D, S::Signature>>)
        ensures queue { self.new.queue ≡ self.old.queue }
        ensures reported { self.new.reported ≡ self.old.reported }
        ensures noted { self.new.repeat ≡ option_map_or Some newest self.old.repeat }
    {
        if let Some(vote) = newest {
            self.repeat = Some(vote);
        }
    }
}

/// Returns the entries as they are to be stored, and after them the votes among them.
fn batch_of<S: CertificateScheme, D: Digest, J: Drop>(
    alloc: Global,
    entries: Vec<Artifact<S, D>>,
) -> Result<VecDeque<Output<S, D, J>>, AllocError>
    ensures { IfOk result (λ batch. batch.items ≡ storing entries) }
{
    let mut batch = VecDeque::new(alloc);
    let mut votes = votes_of(alloc, &entries)?;
    batch.push_back(Output::Store(entries))?;
    match batch.append(&mut votes) {
        Ok(()) => Ok(batch),
        Err(refused) => Err(refused),
    }
}

/// Returns the entries as they are to be stored in place of all.
fn whole_batch<S: CertificateScheme, D: Digest, J: Drop>(
    alloc: Global,
    entries: Vec<Artifact<S, D>>,
    beside: J,
) -> Result<VecDeque<Output<S, D, J>>, AllocError>
    ensures { IfOk result (λ batch. batch.items ≡ output.Replace entries beside ∷ []) }
{
    let mut batch = VecDeque::new(alloc);
    batch.push_back(Output::Replace(entries, beside))?;
    Ok(batch)
}
