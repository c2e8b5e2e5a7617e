//! The laws of the definitions that an engine's contracts cite. Each function does nothing: its contract is the law.
//! `S` are the schemes, `L` the elector, `D` the payloads, `K` the members' keys, `G` signatures and `C` certificates.

ghost use Rattle.laws_engine.specs.Laws.{CallsWereReceivedBefore, NullifiesOnceDue, WorkWasGiven};
ghost use Rattle.laws_engine.specs.Offers.{EnginesRunOnOffers, LifetimesRunOnOffers, RunsOnOffersJoin};
ghost use Rattle.laws_engine.specs.Polls.{EnginesRest, PollsSettle, SettledPollsEnd};

/// An engine that changes as `provenance` says passes its member no verdict, block, proposal or certificate, and
/// abandons no leader, except for what came in or was there before.
pub fn calls_were_received_before<S, L, D, K, G, C>()
    ensures { CallsWereReceivedBefore S L D K G C }
{}

/// All work that it returns, queues or plans came in, was there before, or was in a reply of its member. The exception
/// is what it asks of peers, for which `provenance` itself gives the reason.
pub fn work_was_given<S, L, D, K, G, C>()
    ensures { WorkWasGiven S L D K G C }
{}

/// It votes to nullify no view, unless the moment of a timeout had come, by a reply, or by what was planned before.
pub fn nullifies_once_due<S, L, D, K, G, C>()
    ensures { NullifiesOnceDue S L D K G C }
{}

/// Each verdict that it passes to its member is on a proposal that the member offered and that has no verdict.
///
/// - `runs`: the steps of a call that returns `Ok`, as `provenance` says them, are a run on offers.
/// - `lifetimes`: the same for the steps of all calls of a lifetime that return `Ok`, one after another.
/// - `join`: after one such run another may follow, as after a restart. `verdicts_on_offers_await_parents` of
///   `laws_chains` says what follows for a network.
pub fn engines_run_on_offers<S, L, D, K, G, C>()
    ensures runs { EnginesRunOnOffers S L D K G C }
    ensures lifetimes { LifetimesRunOnOffers S L D K G C }
    ensures join { RunsOnOffersJoin L D K }
{}

/// With no input in between, an engine's polls come to `None`, and return nothing more before its wake. `poll` of
/// `polls` is such a poll.
///
/// - `settles`: after as many polls as outputs were queued, one more does all that is due at its moment, unless that
///   was done before and nothing is due since.
/// - `ends`: from then on polls return what is queued, in order, and then `None` each time. So there are at most as
///   many further outputs as the engine has queued by then.
/// - `rests`: once a poll has returned `None`, each poll at its moment, or at a later one before `Engine::wake`,
///   returns `None`, and nothing changes.
pub fn polls_end<S, L, D, K, G, C>()
    ensures settles { PollsSettle S L D K G C }
    ensures ends { SettledPollsEnd S L D K G C }
    ensures rests { EnginesRest S L D K G C }
{}
