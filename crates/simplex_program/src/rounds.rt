//! The rounds of the certificates that lines name.

ghost use Rattle.std.specs.Prelude.{◌≡◌, true};
ghost use Rattle.simplex_program.specs.Plain.{round_in_epoch};

use simplex_types::types::plain::{PlainCertificate, PlainScheme};
use simplex_types::types::{Epoch, Nullification, Round, View};

/// The epoch of every certificate and proposal that a line names.
pub(crate) const EPOCH: u64 = 1;

/// Returns the round of a view.
pub(crate) fn round_of(view: View) -> Round
    ensures { result ≡ round_in_epoch view }
{
    Round {
        epoch: Epoch::new(EPOCH),
        view,
    }
}

/// Returns the nullification of a view, which is valid.
pub(crate) fn nullification_of(view: View) -> Nullification<PlainScheme>
    ensures round { result.round ≡ round_in_epoch view }
    ensures good { result.certificate.good ≡ true }
{
    Nullification {
        round: round_of(view),
        certificate: PlainCertificate { good: true },
    }
}
