//! What follows from the definitions alone.
ghost use Rattle.std.specs.Prelude.{◌≡◌, ◌≢◌, ◌≤◌, ◌<◌, ◌∷◌, [], ℕ, List, Option, Some, slice_get};
ghost use Rattle.base.specs.Octets.{Octets};
ghost use Rattle.wire.specs.Messages.{Spells};
ghost use Rattle.wire.specs.declared.message.Message.{Message};
ghost use Rattle.wire.specs.declared.payload.Payload.{Payload};
ghost use Rattle.wire.specs.declared.proposal.Proposal.{Proposal};
ghost use Rattle.suite.specs.Callers.{IsSecret};
ghost use Rattle.suite.specs.Choice.{IsChosenProposal};
ghost use Rattle.suite.specs.Offers.{offer_of};
ghost use Rattle.sa_init.specs.Messages.{ike_wanted};
ghost use Rattle.suite.specs.Nonces.{IsNonce};
ghost use Rattle.suite.specs.declared.fresh.Fresh.{Fresh};
ghost use Rattle.suite.specs.declared.key_record.KeyRecord.{KeyRecord};
ghost use Rattle.suite.specs.declared.sealer.Cipher.{Cipher};
ghost use Rattle.sa_init.specs.Agreement.{IsAnswer};
ghost use Rattle.sa_init.specs.Cookies.{CookieSecrets};
ghost use Rattle.sa_init.specs.Fitting.{FitsOffer, IsSpelled};
ghost use Rattle.sa_init.specs.Judging.{Accepted, ASSOCIATION_LIMIT, BringsRightCookie, COOKIE_THRESHOLD, HALF_OPEN_LIMIT, IsJudgement, JudgementView, OfferView};
ghost use Rattle.sa_init.specs.Parts.{HasParts, PartsView};
ghost use Rattle.sa_init.specs.Reading.{GivesKeys, IsResponse, IsSameResponse, WaitingView};
ghost use Rattle.sa_init.specs.declared.answers.Agreed.{Agreed};
ghost use Rattle.sa_init.specs.declared.judging.Sender.{Sender};
ghost use Rattle.sa_init.specs.declared.response.Response.{Response};

use suite::Agreement;
use suite::laws::{choices_are_determined, ends_agree};
use wire::laws::{
    octets_spell_one_message, plain_spellings_are_determined, plain_spellings_are_spellings,
};

/// The nonce of a message that was decoded has 16 to 256 octets, and its proposals are numbered from 1.
/// Does nothing.
pub fn spelled_parts_fit()
    ensures nonce { (m : Message) (parts : PartsView) → IsSpelled m → HasParts m.payloads parts
        → IsNonce parts.nonce }
    ensures numbers { (m : Message) (parts : PartsView) (place : ℕ) (proposal : Proposal) → IsSpelled m
        → HasParts m.payloads parts → slice_get parts.proposals place ≡ Some proposal → 1 ≤ proposal.number }
{}

/// What is accepted of a message that was decoded can be answered. Does nothing.
pub fn accepted_offers_fit()
    ensures { (cipher : Cipher) (group : ℕ) (secrets : CookieSecrets) (sender : Sender) (half_open held : ℕ)
        (m : Message) (offer : OfferView) → IsSpelled m
        → IsJudgement cipher group secrets sender half_open held m.payloads (Accepted offer)
        → FitsOffer offer }
{
    spelled_parts_fit();
}

/// A request is judged in one way. Does nothing.
pub fn judgements_are_determined()
    ensures { (cipher : Cipher) (group : ℕ) (secrets : CookieSecrets) (sender : Sender) (half_open held : ℕ)
        (payloads : List Payload) (one other : JudgementView)
        → IsJudgement cipher group secrets sender half_open held payloads one
        → IsJudgement cipher group secrets sender half_open held payloads other → one ≡ other }
{
    choices_are_determined();
}

/// While many IKE SAs are half open, nothing is accepted but with a right cookie; and nothing where there is
/// no room. Does nothing.
pub fn acceptance_is_limited()
    ensures cookie { (cipher : Cipher) (group : ℕ) (secrets : CookieSecrets) (sender : Sender)
        (half_open held : ℕ) (payloads : List Payload) (offer : OfferView) → COOKIE_THRESHOLD ≤ half_open
        → IsJudgement cipher group secrets sender half_open held payloads (Accepted offer)
        → BringsRightCookie secrets sender payloads offer.nonce }
    ensures room { (cipher : Cipher) (group : ℕ) (secrets : CookieSecrets) (sender : Sender)
        (half_open held : ℕ) (payloads : List Payload) (offer : OfferView)
        → IsJudgement cipher group secrets sender half_open held payloads (Accepted offer)
        → (half_open < HALF_OPEN_LIMIT) × (held < ASSOCIATION_LIMIT) }
{}

/// Where an initiator reads the very answer that a responder gave to its offer, both have one record of
/// keys: it has no other, and it does have that one, where the answer was chosen of its own offer and the
/// fresh SPI is not zero. Does nothing.
pub fn both_ends_have_one_record<C: Agreement>(caller: &C)
    ensures one { (cipher : Cipher) (group : ℕ) (sent : WaitingView) (offer : OfferView) (fresh : Fresh)
        (agreed : Agreed) (m : Message) (keys : KeyRecord) → IsSecret sent.secret → IsSecret fresh.secret
        → offer.public ≡ C.public_value sent.secret → offer.nonce ≡ sent.nonce
        → IsAnswer cipher group C.public_value C.shared_secret offer sent.spi_i fresh agreed
        → Spells m agreed.octets
        → GivesKeys cipher group C.shared_secret sent m keys → keys ≡ agreed.record }
    ensures read { (cipher : Cipher) (group : ℕ) (sent : WaitingView) (offer : OfferView) (fresh : Fresh)
        (agreed : Agreed) (m : Message) → IsSecret sent.secret → IsSecret fresh.secret
        → offer.public ≡ C.public_value sent.secret → offer.nonce ≡ sent.nonce
        → IsChosenProposal (ike_wanted cipher group) (offer_of (ike_wanted cipher group) [] ∷ []) offer.chosen
        → fresh.spi ≢ 0
        → IsAnswer cipher group C.public_value C.shared_secret offer sent.spi_i fresh agreed
        → Spells m agreed.octets
        → GivesKeys cipher group C.shared_secret sent m agreed.record }
{
    let _ = caller;
    octets_spell_one_message();
    plain_spellings_are_spellings();
    ends_agree();
}

/// A response means one thing, a cookie told by its octets; and an offer has one answer and one record of
/// keys. Does nothing.
pub fn answers_are_determined()
    ensures response { (cipher : Cipher) (group : ℕ) (shared_secret : Octets → Octets → Option Octets)
        (sent : WaitingView)
        (m : Message) (one other : Response) → IsResponse cipher group shared_secret sent m one
        → IsResponse cipher group shared_secret sent m other → IsSameResponse one other }
    ensures answer { (cipher : Cipher) (group : ℕ) (public_value : Octets → Octets)
        (shared_secret : Octets → Octets → Option Octets) (offer : OfferView) (spi_i : ℕ) (fresh : Fresh)
        (a b : Agreed)
        → IsAnswer cipher group public_value shared_secret offer spi_i fresh a
        → IsAnswer cipher group public_value shared_secret offer spi_i fresh b → a ≡ b }
{
    plain_spellings_are_determined();
}
