//! A state or a resolver that ran out of memory in the midst of a call. Its host may still make each later call, and
//! receives `Failed`. These functions prove that no other result is possible.

ghost use Rattle.std.specs.Prelude.{◌≡◌, ◌≤◌, true, Err};
ghost use Rattle.simplex_types.specs.Certificates.{notarization_facts};
ghost use Rattle.simplex_types.specs.declared.types.fault.Fault.TheVariants.{OutOfMemory};
ghost use Rattle.simplex_types.specs.MessageViews.{certificate_view};
ghost use Rattle.simplex_voter.specs.Acceptance.{takes_proposal_certificate};

use simplex_resolver::resolver;
use simplex_types::config::Floor;
use simplex_types::reasons::TimeoutReason;
use simplex_types::types::{
    Artifact, Certificate, Context, Digest, Elector, Fault, Finalization, Notarization,
    Nullification, Proposal, Scheme, View,
};
use simplex_voter::voter::State;

/// Passes a notarization, and continues whatever the result is: if no memory was found, no vote is returned any more,
/// and nothing times out.
pub fn goes_on_without_memory<S: Scheme<D>, L: Elector<S>, D: Digest>(
    state: &mut State<S, L, D>,
    notarization: Notarization<S, D>,
    view: View,
    now: u64,
) -> Result<bool, Fault>
    requires { takes_proposal_certificate state.old (notarization_facts S.certificate_bytes notarization) ≡ true }
    ensures { result ≡ Err OutOfMemory → state.new.failed ≡ true }
{
    match state.add_notarization(notarization) {
        Ok(added) => Ok(added.0),
        Err(Fault::OutOfMemory) => {
            votes_fail(state, view);
            timeouts_fail(state, view, now);
            Err(Fault::OutOfMemory)
        }
        Err(fault) => Err(fault),
    }
}

/// Proves that a state that has failed returns no vote.
pub fn votes_fail<S: Scheme<D>, L: Elector<S>, D: Digest>(state: &mut State<S, L, D>, view: View)
    requires { state.old.failed ≡ true }
    ensures { state.new ≡ state.old }
{
    let Err(Fault::Failed) = state.construct_notarize(view) else {
        unreachable!()
    };
    let Err(Fault::Failed) = state.construct_nullify(view, TimeoutReason::LeaderTimeout) else {
        unreachable!()
    };
    let Err(Fault::Failed) = state.construct_finalize(view) else {
        unreachable!()
    };
}

/// Proves that it returns no timeout, and that no timeout counts.
pub fn timeouts_fail<S: Scheme<D>, L: Elector<S>, D: Digest>(
    state: &mut State<S, L, D>,
    view: View,
    now: u64,
)
    requires { state.old.failed ≡ true }
    ensures { state.new ≡ state.old }
{
    let Err(Fault::Failed) = state.trigger_timeout(view, TimeoutReason::LeaderTimeout, now) else {
        unreachable!()
    };
    let Err(Fault::Failed) = state.next_timeout(now) else {
        unreachable!()
    };
}

/// Proves that it takes no certificate, and starts at no floor.
pub fn certificates_fail<S: Scheme<D>, L: Elector<S>, D: Digest>(
    state: &mut State<S, L, D>,
    notarization: Notarization<S, D>,
    nullification: Nullification<S>,
    finalization: Finalization<S, D>,
    floor: Floor<S, D>,
    now: u64,
)
    requires { state.old.failed ≡ true }
    ensures { state.new ≡ state.old }
{
    let Err(Fault::Failed) = state.add_notarization(notarization) else {
        unreachable!()
    };
    let Err(Fault::Failed) = state.add_nullification(nullification, now) else {
        unreachable!()
    };
    let Err(Fault::Failed) = state.add_finalization(finalization, now) else {
        unreachable!()
    };
    let Err(Fault::Failed) = state.set_floor(floor, now) else {
        unreachable!()
    };
}

/// Proves that it asks for no block to be built, and takes no built block.
pub fn proposals_fail<S: Scheme<D>, L: Elector<S>, D: Digest>(
    state: &mut State<S, L, D>,
    context: &Context<D, S::PublicKey>,
    payload: D,
    now: u64,
)
    requires { state.old.failed ≡ true }
    ensures { state.new ≡ state.old }
{
    let Err(Fault::Failed) = state.try_propose() else {
        unreachable!()
    };
    let Err(Fault::Failed) = state.proposed(context, payload, now) else {
        unreachable!()
    };
    let Err(Fault::Failed) = state.supersede_proposal_request(context) else {
        unreachable!()
    };
    let Err(Fault::Failed) = state.pending_handoff_abandonment(context) else {
        unreachable!()
    };
    let Err(Fault::Failed) = state.release_proposal_request(context.round.view) else {
        unreachable!()
    };
}

/// Proves that it takes no proposal of a leader, and no verification of one.
pub fn verifications_fail<S: Scheme<D>, L: Elector<S>, D: Digest>(
    state: &mut State<S, L, D>,
    view: View,
    proposal: &Proposal<D>,
    now: u64,
)
    requires { state.old.failed ≡ true }
    ensures { state.new ≡ state.old }
{
    let Err(Fault::Failed) = state.set_proposal(view, proposal) else {
        unreachable!()
    };
    let Err(Fault::Failed) = state.try_verify() else {
        unreachable!()
    };
    let Err(Fault::Failed) = state.verified(view) else {
        unreachable!()
    };
    let reason = TimeoutReason::InvalidProposal;
    let Err(Fault::Failed) = state.verification_failed(view, reason, now) else {
        unreachable!()
    };
}

/// Proves that it offers nothing to certify, and takes no token, verdict or entry of a record.
pub fn certifications_fail<S: Scheme<D>, L: Elector<S>, D: Digest>(
    state: &mut State<S, L, D>,
    view: View,
    entry: &Artifact<S, D>,
    now: u64,
)
    requires { state.old.failed ≡ true }
    ensures { state.new ≡ state.old }
{
    let Err(Fault::Failed) = state.certify_candidates() else {
        unreachable!()
    };
    let Err(Fault::Failed) = state.set_certify_handle(view, 1) else {
        unreachable!()
    };
    let Err(Fault::Failed) = state.certified(view, true, now) else {
        unreachable!()
    };
    let Err(Fault::Failed) = state.replay(entry) else {
        unreachable!()
    };
}

/// Proves that it returns no certificate, and drops no view.
pub fn servings_fail<S: Scheme<D>, L: Elector<S>, D: Digest>(state: &mut State<S, L, D>, view: View)
    requires { state.old.failed ≡ true }
    ensures { state.new ≡ state.old }
{
    let Err(Fault::Failed) = state.broadcast_notarization(view) else {
        unreachable!()
    };
    let Err(Fault::Failed) = state.broadcast_nullification(view) else {
        unreachable!()
    };
    let Err(Fault::Failed) = state.broadcast_finalization(view) else {
        unreachable!()
    };
    let Err(Fault::Failed) = state.get_best_certificate() else {
        unreachable!()
    };
    let Err(Fault::Failed) = state.prune() else {
        unreachable!()
    };
}

/// Records a certificate in a resolver, and continues whatever the result is: if no memory was found, the resolver
/// takes nothing more, fetches nothing and serves nothing.
pub fn resolver_goes_on_without_memory<S: Scheme<D>, D: Digest>(
    state: &mut resolver::State,
    certificate: &Certificate<S, D>,
    notarization: Notarization<S, D>,
    view: View,
) -> Result<(), Fault>
    requires recorded { 1 ≤ certificate_view certificate.now }
    requires judged { 1 ≤ notarization.proposal.round.view }
    ensures { result ≡ Err OutOfMemory → state.new.is_failed ≡ true }
{
    match state.updated(certificate) {
        Ok(_) => Ok(()),
        Err(Fault::OutOfMemory) => {
            let Err(Fault::Failed) = state.updated(certificate) else {
                unreachable!()
            };
            let Err(Fault::Failed) = state.certified(notarization, true) else {
                unreachable!()
            };
            let Err(Fault::Failed) = state.replayed() else {
                unreachable!()
            };
            let Err(Fault::Failed) = state.produce(view) else {
                unreachable!()
            };
            Err(Fault::OutOfMemory)
        }
        Err(fault) => Err(fault),
    }
}
