//! Dropping of views below the retention.

ghost use Rattle.std.specs.Prelude.{◌≡◌, ◌||◌, IfSome, IfOk, IfErr, OnOk, Err, None, true};
ghost use Rattle.simplex_types.specs.declared.types.fault.Fault.TheVariants.{OutOfMemory};

use super::state::State;
use simplex_types::types::{CertificateScheme, Digest, Elector, Fault, View};

impl<S: CertificateScheme, L: Elector<S>, D: Digest> State<S, L, D> {
    ghost use Rattle.simplex_voter.specs.Refusals.{HasFailed, plain_refusal, is_started};
    ghost use Rattle.simplex_voter.specs.Windows.{min_active};
    ghost use Rattle.simplex_voter.specs.StateAnswers.{prune_answer, after_prune};

    /// Drops the rounds, nullified views and nullify votes below the lowest retained view. Returns the views of the
    /// dropped rounds, rising.
    ///
    /// The state must have a floor.
    pub fn prune(&mut self) -> Result<Vec<View>, Fault>
        requires { (self.old.failed || is_started self.old) ≡ true }
        ensures refused { IfSome (plain_refusal self.old) (λ fault. (result ≡ Err fault) × (self.new ≡ self.old)) }
        ensures views { IfOk result (λ views. views.items ≡ prune_answer self.old) }
        ensures after { OnOk result (self.new ≡ after_prune self.old) }
        ensures out_of_memory { plain_refusal self.old ≡ None
            → IfErr result (λ fault. (fault ≡ OutOfMemory) × HasFailed self.old self.new) }
    {
        if self.is_failed() {
            return Err(Fault::Failed);
        }
        // what still binds a vote is above: votes to nullify above the last finalized view, and nullifications of its
        // term
        let floor = self.min_active();
        match self.views_below(floor) {
            Ok(views) => {
                self.drop_below(floor);
                Ok(views)
            }
            Err(fault) => {
                self.fail();
                Err(fault)
            }
        }
    }

    /// The tracked views below a view, rising.
    fn views_below(&self, view: View) -> Result<Vec<View>, Fault>
        requires { view ≡ min_active self.now }
        ensures views { IfOk result (λ views. views.items ≡ prune_answer self.now) }
        ensures refused { IfErr result (λ fault. fault ≡ OutOfMemory) }
    {
        self.rounds.views_below(view)
    }

    fn drop_below(&mut self, view: View)
        requires { view ≡ min_active self.old }
        ensures { self.new ≡ after_prune self.old }
    {
        self.rounds.drop_below(view);
        self.nullified.drop_below(view);
        self.nullify_votes.drop_below(view);
    }
}
