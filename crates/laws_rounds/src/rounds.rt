//! The laws of rounds. A function does nothing: its contract is the law.

ghost use Rattle.laws_rounds.specs.Rounds.{RoundsKeepNetworks};
ghost use Rattle.laws_rounds.specs.Finality.{HasFinalized, HasLeft, HasNotarization, SpreadsInRounds};

use laws_host_steps::steps::host_steps_keep_networks;
use simplex_types::types::{Digest, Elector, Scheme};

/// Hosts that take rounds keep the premises of `hosts_agree`.
///
/// In a round the hosts take steps as `host_steps_keep_networks` says, and no honest host begins another process. After
/// it (`IsRound`):
///
/// - Each vote that an honest host had carried out before it is delivered to the last process of each honest host, and
///   each certificate to that of each other honest host.
/// - An input is delivered if a call of the process has passed it, in this round or before (`deliver`). The member does
///   not decline it: there was memory, and its views and the moment were not too large.
/// - The last call of each such process is a poll that returned nothing, and its host has carried out all that was
///   returned.
pub fn rounds_keep_networks<S: Scheme<D>, L: Elector<S>, D: Digest>()
    ensures { RoundsKeepNetworks D.eq L.elect S.certificate_bytes S.IsSignature S.participants S.me L.terms }
{
    host_steps_keep_networks::<S, L, D>();
}

/// Finality spreads within a round.
///
/// If an honest host has carried out the broadcast of a finalization before a round, then after it the last finalized
/// view of each other honest host (`State::last_finalized` of its last engine) is the finalization's view or a higher
/// one, unless that engine has failed or is of another epoch. The same holds after any number of rounds more.
pub fn finality_spreads<S: Scheme<D>, L: Elector<S>, D: Digest>()
    ensures { SpreadsInRounds D.eq L.elect S.certificate_bytes S.IsSignature S.participants S.me L.terms HasFinalized }
{
    rounds_keep_networks::<S, L, D>();
}

/// Nullifications spread within a round.
///
/// As `finality_spreads`: the current view of each other honest host (`State::current_view`) lies above the view of a
/// nullification that an honest host had sent before the round; and above its term, unless its view or a higher one is
/// final.
pub fn nullifications_spread<S: Scheme<D>, L: Elector<S>, D: Digest>()
    ensures { SpreadsInRounds D.eq L.elect S.certificate_bytes S.IsSignature S.participants S.me L.terms HasLeft }
{
    rounds_keep_networks::<S, L, D>();
}

/// Notarizations spread within a round.
///
/// As `finality_spreads`: each other honest host's state tracks a notarization of the view (`State::notarization`),
/// unless the view is genesis or lies below the retained ones.
pub fn notarizations_spread<S: Scheme<D>, L: Elector<S>, D: Digest>()
    ensures { SpreadsInRounds D.eq L.elect S.certificate_bytes S.IsSignature S.participants S.me L.terms
        HasNotarization }
{
    rounds_keep_networks::<S, L, D>();
}
