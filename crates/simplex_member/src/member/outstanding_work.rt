//! The requests of a member's state that are still open.

ghost use Rattle.std.specs.Prelude.{◌≡◌, true, OnOk, IfErr, is_some};
ghost use Rattle.std.specs.Option.{option_copied};
ghost use Rattle.std.specs.FinMap as map;
ghost use Rattle.simplex_types.specs.declared.types.fault.Fault.TheVariants.{OutOfMemory};

use super::pending::Pending;
use simplex_types::types::{Context, Digest, Fault, Proposal, View, Viewable};
use simplex_view_maps::tracked::Tracked;
use simplex_voter::voter::{ProposalRequest, Verify};
use std::alloc::Global;
use std::marker::Model;

/// The requests, verifications and offers of a lifetime that wait for their answer, by view.
#[derive(Drop)]
pub struct OutstandingWork<D, P: Copy> {
    contexts: Pending<Context<D, P>>,
    verifying: Pending<()>,
    offered: Tracked<()>,
}

impl<D, P: Copy> Model for OutstandingWork<D, P> {
    ghost use Rattle.std.specs.Prelude.{◌&&◌};
    ghost use Rattle.std.specs.FinMap as map;
    ghost use Rattle.simplex_member.specs.OutstandingWork.{KeptWork, views_of};

    ghost Value = { KeptWork P D };

    ghost view = { λ o. record {
      open_now = record {
        contexts = o.contexts.entries;
        verifying = views_of o.verifying.entries;
        offered = map.keys o.offered;
      };
      has_room = o.contexts.has_room && o.verifying.has_room;
    } };
}

impl<D: Digest, P: Copy> OutstandingWork<D, P> {
    ghost use Rattle.simplex_member.specs.OutstandingWork.{no_outstanding_work, context_at, without_context, with_open_request, with_context};
    ghost use Rattle.simplex_member.specs.OutstandingWork.{is_verifying, without_verification, with_verification};
    ghost use Rattle.simplex_member.specs.OutstandingWork.{is_offered, without_offer, with_offers};

    pub(super) fn new(alloc: Global) -> Self
        ensures { result.open_now ≡ no_outstanding_work }
    {
        OutstandingWork {
            contexts: Pending::new(alloc),
            verifying: Pending::new(alloc),
            offered: Tracked::new(alloc),
        }
    }

    /// Makes room for one more request and verification. If there is no memory, what is open stays as it is.
    pub(super) fn make_room(&mut self) -> Result<(), Fault>
        ensures same { self.new.open_now ≡ self.old.open_now }
        ensures room { OnOk result (self.new.has_room ≡ true) }
        ensures refused { IfErr result (λ fault. fault ≡ OutOfMemory) }
    {
        self.contexts.make_room()?;
        self.verifying.make_room()
    }

    /// The context of the request to build in a view.
    pub(super) fn context(&self, view: View) -> Option<&Context<D, P>>
        ensures { option_copied result ≡ context_at self.now.open_now view }
    {
        self.contexts.get(view)
    }

    pub(super) fn has_context(&self, view: View) -> bool
        ensures { result ≡ is_some (context_at self.now.open_now view) }
    {
        self.context(view).is_some()
    }

    /// Opens a request to build, in place of an earlier one in its view.
    pub(super) fn open_request(&mut self, request: &Option<ProposalRequest<D, P>>)
        requires { self.old.has_room ≡ true }
        ensures { self.new.open_now ≡ with_open_request self.old.open_now request.now }
    {
        if let Some(request) = request {
            self.open_context(*request.context());
        }
    }

    fn open_context(&mut self, context: Context<D, P>)
        requires { self.old.has_room ≡ true }
        ensures { self.new.open_now ≡ with_context self.old.open_now context }
    {
        let view = context.view();
        self.contexts.put(view, context);
    }

    pub(super) fn close_context(&mut self, view: View)
        ensures closed { self.new.open_now ≡ without_context self.old.open_now view }
        ensures room { self.old.has_room ≡ true → self.new.has_room ≡ true }
    {
        self.contexts.remove(view);
    }

    pub(super) fn is_verifying(&self, view: View) -> bool
        ensures { result ≡ is_verifying self.now.open_now view }
    {
        self.verifying.get(view).is_some()
    }

    /// Opens a verification, if a proposal is returned for one.
    pub(super) fn open_verification(&mut self, verify: &Verify<D, P>)
        requires { self.old.has_room ≡ true }
        ensures { self.new.open_now ≡ with_verification self.old.open_now verify.now }
    {
        if let Verify::Ready(_, proposal) = verify {
            self.verifying.put(proposal.round.view, ());
        }
    }

    pub(super) fn close_verification(&mut self, view: View)
        ensures closed { self.new.open_now ≡ without_verification self.old.open_now view }
        ensures room { self.old.has_room ≡ true → self.new.has_room ≡ true }
    {
        self.verifying.remove(view);
    }

    pub(super) fn is_offered(&self, view: View) -> bool
        ensures { result ≡ is_offered self.now.open_now view }
    {
        self.offered.get(view).is_some()
    }

    /// Opens each proposal that is offered, until its verdict.
    pub(super) fn open_offers(&mut self, proposals: &[Proposal<D>]) -> Result<(), Fault>
        ensures opened { OnOk result (self.new.open_now ≡ with_offers self.old.open_now proposals.now) }
        ensures refused { IfErr result (λ fault. fault ≡ OutOfMemory) }
    {
        for proposal in proposals {
            self.offered.insert(proposal.round.view, ())?;
        }
        Ok(())
    }

    pub(super) fn close_offer(&mut self, view: View)
        ensures closed { self.new.open_now ≡ without_offer self.old.open_now view }
        ensures room { self.old.has_room ≡ true → self.new.has_room ≡ true }
    {
        self.offered.remove(view);
    }
}
