//! What follows from the definitions alone. No function here does anything.
ghost use Rattle.std.specs.Prelude.{◌≡◌, ◌≢◌, ℕ, false, None, Some};
ghost use Rattle.base.specs.Octets.{Octets};
ghost use Rattle.wire.specs.Messages.{SpellsPlainly};
ghost use Rattle.policy.specs.declared.entry.Entry.{Entry};
ghost use Rattle.suite.specs.declared.fresh.Fresh.{Fresh};
ghost use Rattle.sa_init.specs.Cookies.{IsRightCookie};
ghost use Rattle.association.specs.AskedChildren.{AskedChildView};
ghost use Rattle.effects.specs.Taking.{meaning_of, Meaning};
ghost use Rattle.ike.specs.Starting.{protecting_entry};
ghost use Rattle.gateway.specs.Histories.{IsPassage, Passage};
ghost use Rattle.gateway.specs.Inputs.{Ike, Start};
ghost use Rattle.gateway.specs.Outputs.{wants_memory};
ghost use Rattle.laws_opening.specs.Beside.{AnswersBeside, AsksBeside, CanAnswer, CanBegin};
ghost use Rattle.laws_opening.specs.Beside.{IsExchangeBeside, OpensBeside};
ghost use Rattle.laws_opening.specs.Beside.{next_child, StillWaits, TakesUpBeside};
ghost use Rattle.laws_opening.specs.Exchanged.{answering_message, asking_message, keys_from, IsDrawn};
ghost use Rattle.laws_opening.specs.Opened.{Opening, Side};
ghost use Rattle.laws_opening.specs.Opening.{Answers, Asks, IsAnswered, IsAsked, IsToldToBegin, TakesUp};
ghost use Rattle.laws_opening.specs.Opening.{CanOpen, HasOpened, IsExchange};
ghost use Rattle.laws_opening.specs.UnderLoad.{asking_with, cookie_message, AsksForCookie};
ghost use Rattle.laws_opening.specs.UnderLoad.{BringsBeside, CanAnswerUnderLoad, CanBring};
ghost use Rattle.laws_opening.specs.UnderLoad.{HasCookieLength, IsExchangeUnderLoad, IsUnderLoad};
ghost use Rattle.laws_opening.specs.UnderLoad.{OpensUnderLoad};
ghost use Rattle.laws_opening.specs.Worked.{IsWorkedOpening};

use laws_two_ends::laws::the_premises_are_met_from_new_gateways_on;
use sa_init::laws::{answers_are_determined, both_ends_have_one_record, judgements_are_determined};
use suite::laws::offers_are_answered;
use suite::{Agreement, Proof, Sealer};
use wire::laws::{
    octets_spell_one_message, plain_spellings_are_spellings, what_is_spelled_has_no_fault,
};

/// A gateway that is told to begin, and can, sends its request of IKE_SA_INIT, whatever else it holds.
///
/// - `asks`: so it is; what else could come of it is only that memory runs out.
/// - `waits`: it waits for the response then.
pub fn a_gateway_that_can_begin_asks<C>()
    ensures asks { (meaning_of : C → Meaning) (place : ℕ) (entry : Entry) (asking : Fresh) (p : Passage C)
        → IsPassage meaning_of p → p.given ≡ Start None place asking → wants_memory p.said ≡ false
        → CanBegin place entry asking p.before
        → AsksBeside (meaning_of p.before.caller) entry asking p }
    ensures waits { (meaning : Meaning) (entry : Entry) (asking : Fresh) (p : Passage C)
        → (asks : AsksBeside meaning entry asking p)
        → StillWaits asking asks.request (next_child entry p.before) p.after.machine.held }
{}

/// A new gateway that is told to begin by an entry which protects sends its request of IKE_SA_INIT: what else
/// could come of it is only that memory runs out.
pub fn a_new_gateway_asks<C>()
    ensures { (meaning_of : C → Meaning) (side : Side) (caller : C) (place : ℕ) (entry : Entry)
        (asking : Fresh) (p : Passage C)
        → IsPassage meaning_of p → IsToldToBegin side caller place asking p
        → protecting_entry side.entries place ≡ Some entry → asking.spi ≢ 0
        → Asks (meaning_of caller) side caller asking entry p }
{}

/// A gateway to which such a request comes answers it, if it has room for one more IKE SA, wants the same
/// cipher and group, and comes to a shared secret. Whatever else it holds stays as it is.
pub fn a_gateway_with_room_answers<C>()
    ensures { (meaning_of : C → Meaning) (asking answering : Fresh) (shared address request : Octets)
        (q : Passage C)
        → IsPassage meaning_of q → q.given ≡ Ike address request answering → wants_memory q.said ≡ false
        → CanAnswer request answering.spi q.before.machine.held
        → SpellsPlainly (asking_message (meaning_of q.before.caller) asking) request → asking.spi ≢ 0
        → (meaning_of q.before.caller).shared_secret
        answering.secret ((meaning_of q.before.caller).public_value asking.secret)
        ≡ Some shared
        → AnswersBeside (meaning_of q.before.caller) asking answering shared request q }
{
    judgements_are_determined();
    octets_spell_one_message();
    offers_are_answered();
    plain_spellings_are_spellings();
    what_is_spelled_has_no_fault();
}

/// So does a new gateway. It holds nothing that is half open, so no cookie is asked for (RFC 7296, section
/// 2.6).
pub fn a_new_gateway_answers<C>()
    ensures { (meaning_of : C → Meaning) (side : Side) (caller : C) (asking answering : Fresh)
        (shared request : Octets) (q : Passage C)
        → IsPassage meaning_of q → IsAsked side caller request answering q
        → SpellsPlainly (asking_message (meaning_of caller) asking) request
        → asking.spi ≢ 0 → answering.spi ≢ 0
        → (meaning_of caller).shared_secret answering.secret ((meaning_of caller).public_value asking.secret)
        ≡ Some shared
        → Answers (meaning_of caller) side caller asking answering shared request q }
{
    judgements_are_determined();
    octets_spell_one_message();
    offers_are_answered();
    plain_spellings_are_spellings();
    what_is_spelled_has_no_fault();
}

/// A gateway that still waits for that answer takes it up: it comes to the same keys, and sends its
/// request of IKE_AUTH, sealed under them. Its first request may have been sent again. Its other IKE SAs
/// stay as they are.
pub fn a_gateway_that_waits_takes_the_answer_up<C: Sealer + Agreement + Proof>(caller: &C)
    ensures { (asking answering reading : Fresh) (shared address request response : Octets)
        (child : AskedChildView) (r : Passage C)
        → IsPassage (meaning_of C.Sealer C.Agreement C.Proof) r
        → r.given ≡ Ike address response reading → wants_memory r.said ≡ false
        → (waits : StillWaits asking request child r.before.machine.held)
        → SpellsPlainly
        (answering_message (meaning_of C.Sealer C.Agreement C.Proof r.before.caller) asking answering)
        response
        → IsDrawn asking → IsDrawn answering
        → C.shared_secret answering.secret (C.public_value asking.secret) ≡ Some shared
        → TakesUpBeside
        (meaning_of C.Sealer C.Agreement C.Proof r.before.caller)
        asking answering reading (keys_from shared asking answering) request response child r waits }
{
    let _ = caller;
    answers_are_determined();
    both_ends_have_one_record(caller);
    octets_spell_one_message();
    offers_are_answered();
    plain_spellings_are_spellings();
    what_is_spelled_has_no_fault();
}

/// So does a gateway that was new when it asked. Its request of IKE_AUTH has its identity, and the proof
/// of that.
pub fn the_answer_is_taken_up<C: Sealer + Agreement + Proof>(caller: &C)
    ensures { (side : Side) (a : C) (o : Opening) (shared : Octets) (room : ℕ) (reading : Fresh)
        (r : Passage C)
        → IsPassage (meaning_of C.Sealer C.Agreement C.Proof) r → IsAnswered side a o room reading r
        → SpellsPlainly
        (answering_message (meaning_of C.Sealer C.Agreement C.Proof a) o.asking o.answering) o.response
        → IsDrawn o.asking → IsDrawn o.answering
        → C.shared_secret o.answering.secret (C.public_value o.asking.secret) ≡ Some shared
        → o.keys ≡ keys_from shared o.asking o.answering
        → TakesUp (meaning_of C.Sealer C.Agreement C.Proof a) side a o room reading r }
{
    let _ = caller;
    answers_are_determined();
    both_ends_have_one_record(caller);
    octets_spell_one_message();
    offers_are_answered();
    plain_spellings_are_spellings();
    what_is_spelled_has_no_fault();
}

/// Two new gateways come to keys. The one is told to begin by an entry which protects; what it sends comes to
/// the other, and what that sends comes back. Unless memory runs out, both have one record of keys then: the
/// other holds a half-open IKE SA, and the first has sent its request of IKE_AUTH under these keys.
///
/// So it is whatever both are set to, whatever else their policies hold, and whichever addresses the
/// datagrams come from. Of what is fresh it is asked that an SPI isn't 0, and of the agreement that the
/// responder comes to a secret by the value that it is sent. No time above 0 is told to either meanwhile:
/// [`two_gateways_come_to_keys`] lifts that.
pub fn two_new_gateways_come_to_keys<C: Sealer + Agreement + Proof>(caller: &C)
    ensures { (one other : Side) (a b : C) (place : ℕ) (entry : Entry) (asking answering reading : Fresh)
        (shared : Octets) (p q r : Passage C)
        → CanOpen (meaning_of C.Sealer C.Agreement C.Proof a) one place entry asking answering shared
        → IsExchange
        (meaning_of C.Sealer C.Agreement C.Proof)
        one other a b place asking answering reading p q r
        → HasOpened
        (meaning_of C.Sealer C.Agreement C.Proof a)
        one other a b entry asking answering reading shared p q r }
{
    a_new_gateway_asks::<C>();
    a_new_gateway_answers::<C>();
    the_answer_is_taken_up(caller);
}

/// Two gateways come to keys, whatever other IKE SAs they hold, as after a loss: the one can begin, the other
/// has room for one more IKE SA, and the answer comes while the one still waits. Unless memory runs out, both
/// have one record of keys then, whatever came to either in between. All else that they hold stays.
pub fn two_gateways_come_to_keys<C: Sealer + Agreement + Proof>(caller: &C)
    ensures { (place : ℕ) (entry : Entry) (asking answering reading : Fresh) (shared : Octets)
        (p q r : Passage C)
        → (is : IsExchangeBeside
        (meaning_of C.Sealer C.Agreement C.Proof) place entry asking answering reading p q r)
        → IsDrawn asking → IsDrawn answering
        → C.shared_secret answering.secret (C.public_value asking.secret) ≡ Some shared
        → OpensBeside
        (meaning_of C.Sealer C.Agreement C.Proof) place entry asking answering reading shared p q r is }
{
    a_gateway_that_can_begin_asks::<C>();
    a_gateway_with_room_answers::<C>();
    a_gateway_that_waits_takes_the_answer_up(caller);
}

/// A gateway under load answers a request by asking for a cookie, and keeps nothing of it (RFC 7296,
/// section 2.6). So it does whether it has room or not.
///
/// - `none`: so it is of a request that brings no cookie.
/// - `wrong`: and of one that brings a cookie which isn't right, as after its secret has changed twice.
pub fn a_gateway_under_load_asks_for_a_cookie<C>()
    ensures none { (meaning_of : C → Meaning) (asking delaying : Fresh) (address request : Octets)
        (q : Passage C)
        → IsPassage meaning_of q → q.given ≡ Ike address request delaying → wants_memory q.said ≡ false
        → IsUnderLoad request q.before.machine.held
        → SpellsPlainly (asking_message (meaning_of q.before.caller) asking) request → asking.spi ≢ 0
        → AsksForCookie asking address q }
    ensures wrong { (meaning_of : C → Meaning) (asking delaying : Fresh) (cookie address request : Octets)
        (q : Passage C)
        → IsPassage meaning_of q → q.given ≡ Ike address request delaying → wants_memory q.said ≡ false
        → IsUnderLoad request q.before.machine.held
        → ¬ IsRightCookie q.before.machine.cookies asking.nonce address asking.spi cookie
        → SpellsPlainly (asking_with (meaning_of q.before.caller) asking (Some cookie)) request
        → asking.spi ≢ 0
        → AsksForCookie asking address q }
{
    judgements_are_determined();
    octets_spell_one_message();
    plain_spellings_are_spellings();
    what_is_spelled_has_no_fault();
}

/// A gateway that waits for the response, to which such a notification comes, sends its request again with
/// the cookie as its first payload, and waits on.
///
/// - `brings`: so it is, if its request doesn't carry that cookie already, and few were brought so far. Its
///   other IKE SAs stay as they are.
/// - `waits`: it waits for the response to the new request then.
pub fn the_cookie_is_brought<C>()
    ensures brings { (meaning_of : C → Meaning) (asking bringing : Fresh)
        (address request notice cookie : Octets) (child : AskedChildView) (r : Passage C)
        → IsPassage meaning_of r → r.given ≡ Ike address notice bringing → wants_memory r.said ≡ false
        → (waits : StillWaits asking request child r.before.machine.held)
        → SpellsPlainly (cookie_message asking cookie) notice → HasCookieLength cookie
        → CanBring waits.sent cookie
        → BringsBeside (meaning_of r.before.caller) asking request cookie child r waits }
    ensures waits { (meaning : Meaning) (asking : Fresh) (request cookie : Octets) (child : AskedChildView)
        (r : Passage C)
        → (waits : StillWaits asking request child r.before.machine.held)
        → (brings : BringsBeside meaning asking request cookie child r waits)
        → StillWaits asking brings.again child r.after.machine.held }
{
    octets_spell_one_message();
    plain_spellings_are_spellings();
    what_is_spelled_has_no_fault();
}

/// A request that brings a right cookie is answered under load as well, if there is room for one more IKE SA.
/// A cookie is right that was made for its nonce, its SPI and the address that it comes from, under the
/// current secret or the one before.
pub fn a_right_cookie_is_accepted<C>()
    ensures { (meaning_of : C → Meaning) (asking answering : Fresh)
        (cookie shared address request : Octets) (q : Passage C)
        → IsPassage meaning_of q → q.given ≡ Ike address request answering → wants_memory q.said ≡ false
        → CanAnswerUnderLoad request answering.spi q.before.machine.held
        → IsRightCookie q.before.machine.cookies asking.nonce address asking.spi cookie
        → SpellsPlainly (asking_with (meaning_of q.before.caller) asking (Some cookie)) request
        → asking.spi ≢ 0
        → (meaning_of q.before.caller).shared_secret
        answering.secret ((meaning_of q.before.caller).public_value asking.secret)
        ≡ Some shared
        → AnswersBeside (meaning_of q.before.caller) asking answering shared request q }
{
    judgements_are_determined();
    octets_spell_one_message();
    offers_are_answered();
    plain_spellings_are_spellings();
    what_is_spelled_has_no_fault();
}

/// Two gateways come to keys where the other is under load: a cookie takes one round more (RFC 7296, section
/// 2.6). The one sends its request; the other asks for a cookie; the one sends its request again with that;
/// and the other, if it has room, answers. It must still know the secret of the cookie, which may have
/// changed once since.
///
/// Unless memory runs out, both have one record of keys then, whatever came to either in between. All else
/// that they hold stays.
pub fn under_load_a_cookie_takes_one_round_more<C: Sealer + Agreement + Proof>(caller: &C)
    ensures { (place : ℕ) (entry : Entry) (asking delaying bringing answering reading : Fresh)
        (shared : Octets) (p l b q r : Passage C)
        → (is : IsExchangeUnderLoad
        (meaning_of C.Sealer C.Agreement C.Proof)
        place entry asking delaying bringing answering reading p l b q r)
        → IsDrawn asking → IsDrawn answering
        → C.shared_secret answering.secret (C.public_value asking.secret) ≡ Some shared
        → OpensUnderLoad
        (meaning_of C.Sealer C.Agreement C.Proof)
        place entry asking delaying bringing answering reading shared p l b q r is }
{
    a_gateway_that_can_begin_asks::<C>();
    a_gateway_under_load_asks_for_a_cookie::<C>();
    the_cookie_is_brought::<C>();
    a_right_cookie_is_accepted::<C>();
    a_gateway_that_waits_takes_the_answer_up(caller);
}

/// The premises of all this are met, by the first three steps of the worked run of `laws_two_ends`: whatever
/// the callers' values, where what they mean hides nothing, and keeps the laws of the traits.
pub fn the_premises_of_opening_are_met<C>()
    ensures { (a b : C) → IsWorkedOpening a b }
{
    the_premises_are_met_from_new_gateways_on::<C>();
}
