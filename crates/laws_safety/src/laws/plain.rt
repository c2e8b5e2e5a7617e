//! A network over the very types that the program runs.

ghost use Rattle.std.specs.Prelude.{◌≡◌, ℕ, [], ◌∷◌};
ghost use Rattle.simplex_types.specs.Plain.{members_of};
ghost use Rattle.simplex_types.specs.declared.types.messages.Subject.TheVariants.{Notarize, Finalize};
ghost use Rattle.simplex_types.specs.declared.types.plain.PlainDigest.{PlainDigest};
ghost use Rattle.simplex_types.specs.declared.types.plain.PlainElector.{PlainElector};
ghost use Rattle.laws_safety.specs.Traces.{Accepts, Signs};
ghost use Rattle.laws_safety.specs.Replicas.{IsNetworkOf, Backed};
ghost use Rattle.laws_safety.specs.PlainNetwork.{plain_first, plain_proposer, plain_follower, plain_four};
ghost use Rattle.laws_safety.specs.Executions.{trace_of};

use simplex_types::types::Elector;
use simplex_types::types::plain::{PlainDigest as Payload, PlainElector as InTurn, PlainScheme};

/// A network of four members of plain parts, the digest, the keys and the elector that the program runs, of which one
/// is faulty. The first view is finalized. The function does nothing: its contract is the law.
///
/// - `network`: with an elector of four members it keeps the premises of `agreement`, and the finalization has enough
///   votes.
/// - `leads`, `follows`: what each honest member accepts and signs, whatever the payload.
pub fn plain_members_agree()
    ensures network { (elector : PlainElector) × (payload : PlainDigest) × (members_of elector ≡ 4)
        × IsNetworkOf ⟦<Payload as PartialEq>⟧.eq ⟦<InTurn as Elector<PlainScheme>>⟧.elect 5
        (plain_four elector payload)
        × Backed (plain_four elector payload) (Finalize (plain_first payload)) }
    ensures leads { (elector : PlainElector) (payload : PlainDigest) → trace_of (plain_proposer elector payload) ≡
        Signs 0 (Notarize (plain_first payload)) ∷ Accepts (Notarize (plain_first payload))
        ∷ Signs 0 (Finalize (plain_first payload)) ∷ Accepts (Finalize (plain_first payload)) ∷ [] }
    ensures follows { (elector : PlainElector) (payload : PlainDigest) (me : ℕ)
        → trace_of (plain_follower elector payload me) ≡
        Signs me (Notarize (plain_first payload)) ∷ Accepts (Notarize (plain_first payload))
        ∷ Signs me (Finalize (plain_first payload)) ∷ Accepts (Finalize (plain_first payload)) ∷ [] }
{}
