//! What follows from the definitions alone. No function here does anything.
ghost use Rattle.std.specs.Prelude.{◌≡◌, Bool, List, ℕ, ◌∷◌, []};
ghost use Rattle.wire.specs.declared.proposal.Proposal.{Proposal};
ghost use Rattle.suite.specs.Choice.{ChoosesNumbers, HasSpi, IsAcceptableProposal, IsChosenProposal};
ghost use Rattle.suite.specs.Keys.{ike_keys, initiator_keys, responder_keys};
ghost use Rattle.suite.specs.Offers.{answer_of, offer_of, AcceptsAnswer, IsAcceptableAnswer, IsTakenFrom};
ghost use Rattle.suite.specs.Sealing.{AreKeys};
ghost use Rattle.suite.specs.declared.choice.Chosen.{Chosen};
ghost use Rattle.suite.specs.declared.choice.Wanted.{Wanted};
ghost use Rattle.suite.specs.declared.choice.Wanted.TheVariants.{Esp};

use mac::laws::key_material_is_octets;

/// The keys under which both ends of an IKE SA seal (RFC 7296, section 2.14) have 32 octets each, as the laws
/// of a [`Sealer`](crate::Sealer) ask for.
pub fn derived_keys_are_keys()
    ensures initiator { (shared ni nr : List ℕ) (spi_i spi_r : ℕ)
        → AreKeys (initiator_keys (ike_keys shared ni nr spi_i spi_r)) }
    ensures responder { (shared ni nr : List ℕ) (spi_i spi_r : ℕ)
        → AreKeys (responder_keys (ike_keys shared ni nr spi_i spi_r)) }
{
    key_material_is_octets();
}

/// Of a list of proposals one at most is chosen, with one number and one answer on sequence numbers (RFC
/// 7296, section 2.7).
pub fn choices_are_determined()
    ensures { (wanted : Wanted) (proposals : List Proposal) (one other : Chosen)
        → IsChosenProposal wanted proposals one → IsChosenProposal wanted proposals other → one ≡ other }
{}

/// What is offered is acceptable to an end that wants the same. What answers a proposal of number 1 is an
/// answer to the one who wanted the same, with the sequence numbers that were chosen.
pub fn offers_are_answered()
    ensures offers { (wanted : Wanted) (spi : List ℕ) → HasSpi wanted spi
        → IsAcceptableProposal wanted (offer_of wanted spi) }
    ensures answers { (wanted : Wanted) (proposals : List Proposal) (chosen : Chosen) (spi : List ℕ)
        → HasSpi wanted spi
        → IsChosenProposal wanted proposals chosen → chosen.number ≡ 1
        → IsAcceptableAnswer wanted (answer_of wanted chosen spi) }
    ensures numbers { (wanted : Wanted) (proposals : List Proposal) (chosen : Chosen) (spi : List ℕ)
        → IsChosenProposal wanted proposals chosen
        → ChoosesNumbers wanted (answer_of wanted chosen spi).transforms chosen.extended }
{}

/// What one end offers for a Child SA is acceptable to the other, also where only one of them allows extended
/// sequence numbers. What an end chooses of an offer is answered by what the one who offered takes for that
/// choice, whatever the chooser allows.
pub fn ends_agree()
    ensures offers { (ours theirs : Bool) (spi : List ℕ) → HasSpi (Esp ours) spi
        → IsAcceptableProposal (Esp theirs) (offer_of (Esp ours) spi) }
    ensures answers { (ours theirs : Wanted) (spi answer : List ℕ) (chosen : Chosen) → HasSpi ours answer
        → IsChosenProposal theirs (offer_of ours spi ∷ []) chosen
        → IsAcceptableAnswer ours (answer_of theirs chosen answer) }
    ensures numbers { (ours theirs : Wanted) (spi answer : List ℕ) (chosen : Chosen)
        → IsChosenProposal theirs (offer_of ours spi ∷ []) chosen
        → ChoosesNumbers ours (answer_of theirs chosen answer).transforms chosen.extended }
    ensures accepted { (ours theirs : Wanted) (spi answer : List ℕ) (chosen : Chosen) → HasSpi ours answer
        → IsChosenProposal theirs (offer_of ours spi ∷ []) chosen
        → AcceptsAnswer ours (answer_of theirs chosen answer ∷ []) chosen }
    ensures taken { (wanted : Wanted) (proposals : List Proposal) (chosen : Chosen) (spi : List ℕ)
        → IsChosenProposal wanted proposals chosen
        → IsTakenFrom proposals chosen.place (answer_of wanted chosen spi) }
{}
