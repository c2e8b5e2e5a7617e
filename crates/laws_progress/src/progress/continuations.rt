//! The continuations of a network.

ghost use Rattle.laws_progress.specs.Continuation.{
  ExchangesBringWhatWas,
  ExchangesContinue,
  FinalizationsAreNew,
  MembersContinue,
  NothingIsForged,
  OneExchangeIsTooFew,
  TooManyAreFaulty,
};

use simplex_types::types::{Digest, Elector, Scheme};

/// Does nothing: its contract is the law. It says what it means that a network can finalize a proposal
/// (`ContinuesToFinalize`), and that exchanges of messages lead to a later network (`Exchanges`), in words that a host
/// can check.
///
/// - `members`: the later network keeps the premises of `agreement`. The same members are faulty, and each honest one
///   did what it had done, and more.
/// - `new`: no proposal of that view or above could be finalized before. Each honest member has signed the vote to
///   finalize the proposal and accepted its finalization, which the honest members' votes alone make.
/// - `nothing_forged`: no honest member accepted a certificate that none had accepted and that they don't make alone.
///   None received a proposal that none had received and that none of them built.
/// - `too_many`: so if more than f members are faulty, no network can do this, whatever else is true: the first premise
///   of `no_network_is_stuck` is needed.
/// - `exchanged`: a network can finalize what exchanges lead to.
/// - `brought`: within one exchange the same is true of what they had signed and built before it.
/// - `too_few`: so within one exchange no view is finalized.
pub fn continuations_are_honest<S: Scheme<D>, L: Elector<S>, D: Digest>()
    ensures members { MembersContinue S.PublicKey D.eq L.elect }
    ensures new { FinalizationsAreNew S.PublicKey D.eq L.elect }
    ensures nothing_forged { NothingIsForged S.PublicKey D.eq L.elect }
    ensures too_many { TooManyAreFaulty S.PublicKey D.eq L.elect }
    ensures exchanged { ExchangesContinue S.PublicKey D.eq L.elect }
    ensures brought { ExchangesBringWhatWas S.PublicKey D.eq L.elect }
    ensures too_few { OneExchangeIsTooFew S.PublicKey D.eq L.elect }
{}
