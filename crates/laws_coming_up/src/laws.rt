//! What follows from the definitions alone. No function here does anything.
ghost use Rattle.std.specs.Prelude.{◌≡◌, ◌≢◌, ◌↔◌, ℕ, List, Some};
ghost use Rattle.base.specs.Octets.{Octets};
ghost use Rattle.suite.specs.declared.fresh.Fresh.{Fresh};
ghost use Rattle.exchange.specs.Headers.{other_role};
ghost use Rattle.exchange.specs.declared.child.ChildAnswer.TheVariants as answer;
ghost use Rattle.exchange.specs.declared.headers.Role.{Role};
ghost use Rattle.exchange.specs.declared.headers.Role.TheVariants.{Initiator, Responder};
ghost use Rattle.exchange.specs.declared.notices.Notice.{Notice};
ghost use Rattle.exchange.specs.declared.notices.Notice.TheVariants.{NoAdditionalSas, TsUnacceptable};
ghost use Rattle.policy.specs.Decisions.{Covers, HoldsFlow};
ghost use Rattle.policy.specs.declared.entry.Entry.{Entry};
ghost use Rattle.policy.specs.declared.flow.Flow.{Flow};
ghost use Rattle.policy.specs.declared.policy.Direction.TheVariants.{Inward, Outward};
ghost use Rattle.association.specs.AskedChildren.{AskedChildView};
ghost use Rattle.children.specs.Responding.{TakesNoMore};
ghost use Rattle.children.specs.Terms.{Terms};
ghost use Rattle.children.specs.declared.responding.Response.TheVariants as response;
ghost use Rattle.setup.specs.Configs.{IsConfig};
ghost use Rattle.setup.specs.declared.config.Config.{Config};
ghost use Rattle.effects.specs.Taking.{meaning_of, Meaning};
ghost use Rattle.gateway.specs.Inputs as input;
ghost use Rattle.gateway.specs.Outputs.{Sealed};
ghost use Rattle.gateway.specs.Histories.{IsPassage, Passage};
ghost use Rattle.ike.specs.Starting.{protecting_entry};
ghost use Rattle.laws_opening.specs.Beside.{AnswersBeside, CanAnswer, CanBegin, StillWaits, TakesUpBeside};
ghost use Rattle.laws_opening.specs.Exchanged.{keys_from};
ghost use Rattle.laws_opening.specs.Opened.{auth_message, initiator_opened, responder_opened, Opening, Side};
ghost use Rattle.laws_opening.specs.Opening.{CanOpen};
ghost use Rattle.laws_coming_up.specs.ComingUp.{answer_message, answer_on, PoliciesMeet};
ghost use Rattle.laws_coming_up.specs.ComingUp.{AcceptsWithChild, AcceptsWithoutChild, AreAgreed, Brings, CanBeMade};
ghost use Rattle.laws_coming_up.specs.ComingUp.{AreInExchange, ComesUp, ComesUpWithoutChild};
ghost use Rattle.laws_coming_up.specs.ComingUp.{ConcludesWithChild, ConcludesWithoutChild, IsKnownTo, IsSentBy};
ghost use Rattle.laws_coming_up.specs.ComingUpBeside.{answer_in, identity_in, meeting_by, told_on, Meeting};
ghost use Rattle.laws_coming_up.specs.ComingUpBeside.{AcceptsWithChildBeside, AcceptsWithoutChildBeside};
ghost use Rattle.laws_coming_up.specs.ComingUpBeside.{AreInExchangeBeside, AreTermsIn};
ghost use Rattle.laws_coming_up.specs.ComingUpBeside.{AwaitsAnswer, AwaitsIdentity};
ghost use Rattle.laws_coming_up.specs.ComingUpBeside.{CanAskFor, ComesUpBeside, ComesUpWithoutChildBeside};
ghost use Rattle.laws_coming_up.specs.ComingUpBeside.{ConcludesWithChildBeside, ConcludesWithoutChildBeside};
ghost use Rattle.laws_coming_up.specs.ComingUpBeside.{HasPlace, IsKnownIn, IsSealedIn, PolicyMeetsChild};
ghost use Rattle.laws_coming_up.specs.BringingUpBeside.{AreSetUpBeside, HaveNoChildBeside, HaveTunnelBeside};
ghost use Rattle.laws_coming_up.specs.BringingUpUnderLoad.{AreSetUpUnderLoad, HaveNoChildUnderLoad};
ghost use Rattle.laws_coming_up.specs.BringingUpUnderLoad.{HaveTunnelUnderLoad};
ghost use Rattle.laws_coming_up.specs.Carrying.{CarriesTheFirst, GoesThrough, HoldsItsPair, IsToGoOut};
ghost use Rattle.laws_coming_up.specs.CarryingBeside.{Arrives, CarriesTheFirstBeside, GoesThroughBeside};
ghost use Rattle.laws_coming_up.specs.CarryingBeside.{HoldsNewPair, IsToGoOutBeside};
ghost use Rattle.laws_coming_up.specs.WorkedTunnel.{IsWorkedTunnel};
ghost use Rattle.laws_coming_up.specs.BringingUp.{AreSetUp, CanProveItself, HaveNoChild, HaveTunnel};

use exchange::laws::sealed_messages_open;
use gateway::laws::the_protected_never_goes_in_the_clear;
use laws_opening::laws::{
    a_gateway_that_can_begin_asks, a_new_gateway_answers, a_new_gateway_asks,
    two_gateways_come_to_keys, two_new_gateways_come_to_keys,
    under_load_a_cookie_takes_one_round_more,
};
use laws_two_ends::laws::the_premises_are_met_from_new_gateways_on;
use suite::{Agreement, Proof, Sealer};
use traffic::laws::what_one_end_seals_the_other_hands_up;
use wire::laws::{
    octets_spell_one_message, plain_spellings_are_spellings, what_is_spelled_has_no_fault,
};

/// A request of IKE_AUTH is accepted where it comes to the responder as the initiator sent it, and the
/// initiator is known there (RFC 7296, section 1.2). Then the IKE SA is established, and the response goes
/// out, unless memory runs out.
///
/// - `child`: where some entry of the responder's policy meets what is asked for, the responder makes its
///   pair of the Child SA, and the response tells the terms.
/// - `childless`: where none does, it makes no pair, and the response has TS_UNACCEPTABLE in place of the
///   terms (section 2.9).
pub fn an_identity_is_accepted<C: Sealer + Agreement + Proof>(caller: &C)
    ensures child { (one other : Side) (o : Opening) (a b : C) (auth : Octets) (q : Passage C)
        → CanBeMade one
        → IsKnownTo Initiator one other (meaning_of C.Sealer C.Agreement C.Proof a)
        (meaning_of C.Sealer C.Agreement C.Proof b) o
        → IsSentBy Initiator (meaning_of C.Sealer C.Agreement C.Proof a) o
        (auth_message (meaning_of C.Sealer C.Agreement C.Proof a) one o) auth
        → IsPassage (meaning_of C.Sealer C.Agreement C.Proof) q
        → q.before ≡ responder_opened other o b → Brings auth q
        → PoliciesMeet other.entries o.entry
        → AcceptsWithChild (meaning_of C.Sealer C.Agreement C.Proof b) one other b o q }
    ensures childless { (one other : Side) (o : Opening) (a b : C) (auth : Octets) (q : Passage C)
        → CanBeMade one
        → IsKnownTo Initiator one other (meaning_of C.Sealer C.Agreement C.Proof a)
        (meaning_of C.Sealer C.Agreement C.Proof b) o
        → IsSentBy Initiator (meaning_of C.Sealer C.Agreement C.Proof a) o
        (auth_message (meaning_of C.Sealer C.Agreement C.Proof a) one o) auth
        → IsPassage (meaning_of C.Sealer C.Agreement C.Proof) q
        → q.before ≡ responder_opened other o b → Brings auth q
        → ¬ PoliciesMeet other.entries o.entry
        → AcceptsWithoutChild (meaning_of C.Sealer C.Agreement C.Proof b) one other b o q }
{
    association::laws::receptions_are_determined();
    association::laws::what_is_due_is_received();
    auth::laws::judgements_are_determined();
    auth::laws::requests_are_accepted();
    octets_spell_one_message();
    sealed_messages_open::<C>(caller);
    suite::laws::choices_are_determined();
    suite::laws::ends_agree();
    what_is_spelled_has_no_fault();
}

/// A response to IKE_AUTH ends the exchange where it comes to the initiator as the responder sent it, and
/// the responder is known there (RFC 7296, section 1.2): the IKE SA is established, unless memory runs out.
///
/// - `child`: where the response tells the terms of the Child SA, the initiator makes its pair on them.
/// - `childless`: where it has a notification in place of them, the initiator makes no pair, and gives up
///   the SPI that it reserved (section 2.21.2).
pub fn the_response_concludes<C: Sealer + Agreement + Proof>(caller: &C)
    ensures child { (one other : Side) (o : Opening) (a b : C) (auth : Octets) (room : ℕ) (octets : Octets)
        (terms : Terms) (r : Passage C)
        → CanBeMade other
        → IsKnownTo Responder other one (meaning_of C.Sealer C.Agreement C.Proof b)
        (meaning_of C.Sealer C.Agreement C.Proof a) o
        → AreAgreed one other o terms
        → IsSentBy Responder (meaning_of C.Sealer C.Agreement C.Proof b) o
        (answer_message (meaning_of C.Sealer C.Agreement C.Proof b) other o (answer_on other o terms)) octets
        → IsPassage (meaning_of C.Sealer C.Agreement C.Proof) r
        → r.before ≡ initiator_opened one o auth room a → Brings octets r
        → ConcludesWithChild one other a o terms r }
    ensures childless { (one other : Side) (o : Opening) (a b : C) (auth : Octets) (room : ℕ)
        (octets : Octets) (notice : Notice) (r : Passage C)
        → CanBeMade other
        → IsKnownTo Responder other one (meaning_of C.Sealer C.Agreement C.Proof b)
        (meaning_of C.Sealer C.Agreement C.Proof a) o
        → IsSentBy Responder (meaning_of C.Sealer C.Agreement C.Proof b) o
        (answer_message (meaning_of C.Sealer C.Agreement C.Proof b) other o (response.Refused notice)) octets
        → IsPassage (meaning_of C.Sealer C.Agreement C.Proof) r
        → r.before ≡ initiator_opened one o auth room a → Brings octets r
        → ConcludesWithoutChild one other a o r }
{
    auth::laws::answers_are_accepted();
    auth::laws::windows_are_read_again();
    children::laws::answers_are_determined();
    children::laws::responses_are_acceptable();
    octets_spell_one_message();
    sealed_messages_open::<C>(caller);
    suite::laws::ends_agree();
    what_is_spelled_has_no_fault();
}

/// By IKE_AUTH the tunnel comes up (RFC 7296, section 1.2). The request comes to the responder as the
/// initiator sent it, the response comes to the initiator as the responder sent it, each is known to the
/// other, and memory runs out at neither. Then both hold the IKE SA, established under one record of keys.
///
/// - `child`: where some entry of the responder's policy meets what is asked for, both hold a pair of the
///   Child SA, and the pairs mirror each other. They are under the first SPIs of both, with extended sequence
///   numbers where both allow them, and with the selectors that the initiator's entry and the responder's
///   chosen entry have in common.
/// - `childless`: where none does, neither holds a pair, and the response had TS_UNACCEPTABLE.
pub fn it_comes_up<C: Sealer + Agreement + Proof>(caller: &C)
    ensures child { (one other : Side) (o : Opening) (a b : C) (auth : Octets) (room : ℕ) (q r : Passage C)
        → AreInExchange (meaning_of C.Sealer C.Agreement C.Proof) one other a b o auth room q r
        → PoliciesMeet other.entries o.entry
        → ComesUp (meaning_of C.Sealer C.Agreement C.Proof b) one other a b o q r }
    ensures childless { (one other : Side) (o : Opening) (a b : C) (auth : Octets) (room : ℕ)
        (q r : Passage C)
        → AreInExchange (meaning_of C.Sealer C.Agreement C.Proof) one other a b o auth room q r
        → ¬ PoliciesMeet other.entries o.entry
        → ComesUpWithoutChild (meaning_of C.Sealer C.Agreement C.Proof b) one other a b o q r }
{
    an_identity_is_accepted::<C>(caller);
    the_response_concludes::<C>(caller);
}

/// Two new gateways bring a tunnel up (RFC 7296, section 1.2). The one is told to begin by an entry of its
/// policy which protects. From then on what goes out of either comes to the other as it was sent, each can
/// prove to the other who it is, and memory runs out at neither. Then both hold one IKE SA, established under
/// one record of keys.
///
/// - `child`: where some entry of the other's policy meets that entry, both hold a pair of the Child SA, and
///   the pairs mirror each other.
/// - `childless`: where none does, neither holds a pair, and the response had TS_UNACCEPTABLE.
///
/// No time above 0 is told to either meanwhile. So it is whatever both are set to, whatever else their
/// policies hold, and whichever addresses the datagrams come from.
pub fn two_new_gateways_bring_a_tunnel_up<C: Sealer + Agreement + Proof>(caller: &C)
    ensures child { (one other : Side) (a b : C) (place : ℕ) (entry : Entry)
        (asking answering reading : Fresh) (shared : Octets) (p q r s t : Passage C)
        → CanOpen (meaning_of C.Sealer C.Agreement C.Proof a) one place entry asking answering shared
        → CanProveItself one other (meaning_of C.Sealer C.Agreement C.Proof a)
        (meaning_of C.Sealer C.Agreement C.Proof b)
        → CanProveItself other one (meaning_of C.Sealer C.Agreement C.Proof b)
        (meaning_of C.Sealer C.Agreement C.Proof a)
        → AreSetUp
        (meaning_of C.Sealer C.Agreement C.Proof)
        one other a b place asking answering reading p q r s t
        → PoliciesMeet other.entries entry
        → HaveTunnel
        (meaning_of C.Sealer C.Agreement C.Proof)
        one other a b entry asking answering reading shared p q r s t }
    ensures childless { (one other : Side) (a b : C) (place : ℕ) (entry : Entry)
        (asking answering reading : Fresh) (shared : Octets) (p q r s t : Passage C)
        → CanOpen (meaning_of C.Sealer C.Agreement C.Proof a) one place entry asking answering shared
        → CanProveItself one other (meaning_of C.Sealer C.Agreement C.Proof a)
        (meaning_of C.Sealer C.Agreement C.Proof b)
        → CanProveItself other one (meaning_of C.Sealer C.Agreement C.Proof b)
        (meaning_of C.Sealer C.Agreement C.Proof a)
        → AreSetUp
        (meaning_of C.Sealer C.Agreement C.Proof)
        one other a b place asking answering reading p q r s t
        → ¬ PoliciesMeet other.entries entry
        → HaveNoChild
        (meaning_of C.Sealer C.Agreement C.Proof)
        one other a b entry asking answering reading shared p q r s t }
{
    it_comes_up::<C>(caller);
    two_new_gateways_come_to_keys::<C>(caller);
}

/// A gateway that holds a half-open IKE SA accepts the request of IKE_AUTH, whatever else it holds. The
/// request comes as the initiator sent it, and the initiator is known there (RFC 7296, section 1.2). Then
/// that IKE SA is established, and the response goes out, unless memory runs out. All else that it holds
/// stays.
///
/// - `child`: where some entry of its policy meets what is asked for, and its table has a place and an SPI
///   left, it makes its pair under the next SPI and the next serial, and the response tells the terms.
/// - `childless`: where none does, it makes no pair, and the response has TS_UNACCEPTABLE in place of the
///   terms (section 2.9).
/// - `crowded`: where one does, but the table has no place or no SPI left, it makes no pair either, and the
///   response has NO_ADDITIONAL_SAS in place of the terms (section 1.3). The IKE SA stands (section 1.2).
pub fn a_half_open_gateway_accepts_an_identity<C: Sealer + Agreement + Proof>(caller: &C)
    ensures child { (one : Config) (d : Meeting) (a : C) (auth : Octets) (q : Passage C)
        → IsPassage (meaning_of C.Sealer C.Agreement C.Proof) q → Brings auth q
        → (waits : AwaitsIdentity d q.before.machine.held) → CanAskFor one d.child
        → IsKnownIn Initiator one q.before.machine.config (meaning_of C.Sealer C.Agreement C.Proof a)
        (meaning_of C.Sealer C.Agreement C.Proof q.before.caller) d
        → IsSealedIn Initiator (meaning_of C.Sealer C.Agreement C.Proof a) d
        (identity_in (meaning_of C.Sealer C.Agreement C.Proof a) one d) auth
        → PolicyMeetsChild q.before.entries d.child → HasPlace q.before.table
        → AcceptsWithChildBeside (meaning_of C.Sealer C.Agreement C.Proof q.before.caller) one d q waits }
    ensures childless { (one : Config) (d : Meeting) (a : C) (auth : Octets) (q : Passage C)
        → IsPassage (meaning_of C.Sealer C.Agreement C.Proof) q → Brings auth q
        → (waits : AwaitsIdentity d q.before.machine.held) → CanAskFor one d.child
        → IsKnownIn Initiator one q.before.machine.config (meaning_of C.Sealer C.Agreement C.Proof a)
        (meaning_of C.Sealer C.Agreement C.Proof q.before.caller) d
        → IsSealedIn Initiator (meaning_of C.Sealer C.Agreement C.Proof a) d
        (identity_in (meaning_of C.Sealer C.Agreement C.Proof a) one d) auth
        → ¬ PolicyMeetsChild q.before.entries d.child
        → AcceptsWithoutChildBeside
        (meaning_of C.Sealer C.Agreement C.Proof q.before.caller) one d TsUnacceptable q waits }
    ensures crowded { (one : Config) (d : Meeting) (a : C) (auth : Octets) (q : Passage C)
        → IsPassage (meaning_of C.Sealer C.Agreement C.Proof) q → Brings auth q
        → (waits : AwaitsIdentity d q.before.machine.held) → CanAskFor one d.child
        → IsKnownIn Initiator one q.before.machine.config (meaning_of C.Sealer C.Agreement C.Proof a)
        (meaning_of C.Sealer C.Agreement C.Proof q.before.caller) d
        → IsSealedIn Initiator (meaning_of C.Sealer C.Agreement C.Proof a) d
        (identity_in (meaning_of C.Sealer C.Agreement C.Proof a) one d) auth
        → PolicyMeetsChild q.before.entries d.child → TakesNoMore q.before.table
        → AcceptsWithoutChildBeside
        (meaning_of C.Sealer C.Agreement C.Proof q.before.caller) one d NoAdditionalSas q waits }
{
    association::laws::receptions_are_determined();
    association::laws::what_is_due_is_received();
    auth::laws::judgements_are_determined();
    auth::laws::requests_are_accepted();
    octets_spell_one_message();
    sealed_messages_open::<C>(caller);
    suite::laws::choices_are_determined();
    suite::laws::ends_agree();
    what_is_spelled_has_no_fault();
}

/// A gateway that waits for the response to IKE_AUTH ends the exchange where that comes as the responder
/// sent it, and the responder is known there (RFC 7296, section 1.2). Then the IKE SA is established, unless
/// memory runs out. This step changes nothing else that it holds, whatever that is.
///
/// - `child`: where the response tells the terms of the Child SA, it makes its pair on them, under the SPI
///   that it reserved and the next serial.
/// - `childless`: where it has a notification in place of them, it makes no pair, and gives up that SPI
///   (section 2.21.2).
pub fn a_gateway_that_waits_concludes<C: Sealer + Agreement + Proof>(caller: &C)
    ensures child { (other : Config) (d : Meeting) (b : C) (octets : Octets) (entries : List Entry) (spi : ℕ)
        (terms : Terms) (r : Passage C)
        → IsPassage (meaning_of C.Sealer C.Agreement C.Proof) r → Brings octets r
        → (waits : AwaitsAnswer d r.before.machine.held) → IsConfig other
        → IsKnownIn Responder other r.before.machine.config (meaning_of C.Sealer C.Agreement C.Proof b)
        (meaning_of C.Sealer C.Agreement C.Proof r.before.caller) d
        → AreTermsIn d other.extended entries spi terms
        → IsSealedIn Responder (meaning_of C.Sealer C.Agreement C.Proof b) d
        (answer_in (meaning_of C.Sealer C.Agreement C.Proof b) other d (told_on other.extended terms)) octets
        → ConcludesWithChildBeside other d terms r waits }
    ensures childless { (other : Config) (d : Meeting) (b : C) (octets : Octets) (notice : Notice)
        (r : Passage C)
        → IsPassage (meaning_of C.Sealer C.Agreement C.Proof) r → Brings octets r
        → (waits : AwaitsAnswer d r.before.machine.held) → IsConfig other
        → IsKnownIn Responder other r.before.machine.config (meaning_of C.Sealer C.Agreement C.Proof b)
        (meaning_of C.Sealer C.Agreement C.Proof r.before.caller) d
        → IsSealedIn Responder (meaning_of C.Sealer C.Agreement C.Proof b) d
        (answer_in (meaning_of C.Sealer C.Agreement C.Proof b) other d (answer.Notice notice)) octets
        → ConcludesWithoutChildBeside other d r waits }
{
    auth::laws::answers_are_accepted();
    auth::laws::windows_are_read_again();
    children::laws::answers_are_determined();
    children::laws::responses_are_acceptable();
    octets_spell_one_message();
    sealed_messages_open::<C>(caller);
    suite::laws::ends_agree();
    what_is_spelled_has_no_fault();
}

/// By IKE_AUTH the tunnel comes up, whatever else both gateways hold, as after a loss (RFC 7296, section
/// 1.2). The responder's IKE SA is half open, the initiator's waits for the response, and both have the keys
/// of one IKE_SA_INIT. The request comes to the responder as the initiator sent it, and the response comes
/// to the initiator as the responder sent it. Each is known to the other, and memory runs out at neither.
/// Then each end establishes its IKE SA under these keys. Neither step changes anything else that it holds.
///
/// - `child`: where some entry of the responder's policy meets what is asked for, and its table has a place
///   and an SPI left, both hold a new pair, and the pairs mirror each other.
/// - `childless`: where none does, neither holds a new pair, and the response had TS_UNACCEPTABLE.
/// - `crowded`: where one does, but the table has no place or no SPI left, neither holds a new pair, and the
///   response had NO_ADDITIONAL_SAS.
pub fn it_comes_up_beside_all_else<C: Sealer + Agreement + Proof>(caller: &C)
    ensures child { (d : Meeting) (auth : Octets) (q r : Passage C)
        → (are : AreInExchangeBeside (meaning_of C.Sealer C.Agreement C.Proof) d auth q r)
        → PolicyMeetsChild q.before.entries d.child → HasPlace q.before.table
        → ComesUpBeside (meaning_of C.Sealer C.Agreement C.Proof q.before.caller) d q r
        are.half_open are.waits }
    ensures childless { (d : Meeting) (auth : Octets) (q r : Passage C)
        → (are : AreInExchangeBeside (meaning_of C.Sealer C.Agreement C.Proof) d auth q r)
        → ¬ PolicyMeetsChild q.before.entries d.child
        → ComesUpWithoutChildBeside (meaning_of C.Sealer C.Agreement C.Proof q.before.caller) d TsUnacceptable
        q r are.half_open are.waits }
    ensures crowded { (d : Meeting) (auth : Octets) (q r : Passage C)
        → (are : AreInExchangeBeside (meaning_of C.Sealer C.Agreement C.Proof) d auth q r)
        → PolicyMeetsChild q.before.entries d.child → TakesNoMore q.before.table
        → ComesUpWithoutChildBeside
        (meaning_of C.Sealer C.Agreement C.Proof q.before.caller) d NoAdditionalSas
        q r are.half_open are.waits }
{
    a_half_open_gateway_accepts_an_identity::<C>(caller);
    a_gateway_that_waits_concludes::<C>(caller);
}

/// IKE_SA_INIT leaves both gateways as IKE_AUTH needs them, whatever else they hold.
///
/// - `half_open`: a gateway that answered the request waits for that of IKE_AUTH.
/// - `waits`: a gateway that took the answer up waits for the response to its request of IKE_AUTH.
pub fn ike_sa_init_leaves_both_waiting<C>()
    ensures half_open { (meaning : Meaning) (asking answering : Fresh) (shared request : Octets)
        (child : AskedChildView) (q : Passage C)
        → (answers : AnswersBeside meaning asking answering shared request q)
        → AwaitsIdentity (meeting_by asking answering shared request answers.response child)
        q.after.machine.held }
    ensures waits { (meaning : Meaning) (asking answering reading : Fresh) (shared request response : Octets)
        (child : AskedChildView) (r : Passage C)
        → (waits : StillWaits asking request child r.before.machine.held)
        → TakesUpBeside meaning asking answering reading (keys_from shared asking answering) request response
        child r waits
        → AwaitsAnswer (meeting_by asking answering shared request response child) r.after.machine.held }
{}

/// Two gateways bring a tunnel up, whatever other IKE SAs and pairs they hold, as after a loss (RFC 7296,
/// section 1.2). The one is told to begin by an entry of its policy which protects. Both have room for one
/// more IKE SA, the one's table can give an SPI, and the other asks for no cookie. What goes out of either
/// comes to the other as it was sent, and finds the IKE SA that waits for it there, with its keys. The other
/// comes to a shared secret. Each can prove to the other who it is, and memory runs out at neither. Then each
/// establishes a new IKE SA by its last step, under one record of keys.
///
/// - `child`: where some entry of the other's policy meets that entry, and the other's table has a place and
///   an SPI left, both hold a pair of the Child SA, and the pairs mirror each other.
/// - `childless`: where none does, neither holds a new pair, and the response had TS_UNACCEPTABLE.
/// - `crowded`: where one does, but the other's table has no place or no SPI left, neither holds a new pair,
///   and the response had NO_ADDITIONAL_SAS.
///
/// Anything may come to either in between. It is presumed, and not promised, that the new IKE SA still waits
/// after it: [`ike_sa_init_leaves_both_waiting`] has it where nothing came. What came in between may change
/// other things that they hold; of these five steps none does.
pub fn two_gateways_bring_a_tunnel_up<C: Sealer + Agreement + Proof>(caller: &C)
    ensures child { (place : ℕ) (entry : Entry) (asking answering reading : Fresh) (shared : Octets)
        (p q r s t : Passage C)
        → (are : AreSetUpBeside
        (meaning_of C.Sealer C.Agreement C.Proof) place entry asking answering reading shared p q r s t)
        → PoliciesMeet s.before.entries entry → HasPlace s.before.table
        → HaveTunnelBeside
        (meaning_of C.Sealer C.Agreement C.Proof) place entry asking answering reading shared p q r s t are }
    ensures childless { (place : ℕ) (entry : Entry) (asking answering reading : Fresh) (shared : Octets)
        (p q r s t : Passage C)
        → (are : AreSetUpBeside
        (meaning_of C.Sealer C.Agreement C.Proof) place entry asking answering reading shared p q r s t)
        → ¬ PoliciesMeet s.before.entries entry
        → HaveNoChildBeside
        (meaning_of C.Sealer C.Agreement C.Proof)
        place entry asking answering reading shared TsUnacceptable p q r s t are }
    ensures crowded { (place : ℕ) (entry : Entry) (asking answering reading : Fresh) (shared : Octets)
        (p q r s t : Passage C)
        → (are : AreSetUpBeside
        (meaning_of C.Sealer C.Agreement C.Proof) place entry asking answering reading shared p q r s t)
        → PoliciesMeet s.before.entries entry → TakesNoMore s.before.table
        → HaveNoChildBeside
        (meaning_of C.Sealer C.Agreement C.Proof)
        place entry asking answering reading shared NoAdditionalSas p q r s t are }
{
    it_comes_up_beside_all_else::<C>(caller);
    two_gateways_come_to_keys::<C>(caller);
}

/// Two gateways bring a tunnel up where the other is under load, whatever other IKE SAs and pairs they hold
/// (RFC 7296, sections 1.2 and 2.6). The other asks for a cookie first, and the one brings it, which takes
/// one round more.
///
/// The one is told to begin by an entry of its policy which protects. It has room for one more IKE SA, and
/// its table can give an SPI. The cookie comes to it while its request doesn't carry that one already, and
/// few cookies were brought so far. Both its requests come to the other from one address. As the second
/// comes, the other still knows the secret of the cookie, which may have changed once since. It has room for
/// one more IKE SA then, and fewer are half open than there can be at most.
///
/// What goes out of either comes to the other as it was sent, and finds the IKE SA that waits for it there,
/// with its keys. The other comes to a shared secret. Each can prove to the other who it is: the one over the
/// request with the cookie, the other over its response (section 2.15). Memory runs out at neither. Then each
/// establishes a new IKE SA by its last step, under one record of keys.
///
/// - `child`: where some entry of the other's policy meets that entry, and the other's table has a place and
///   an SPI left, both hold a pair of the Child SA, and the pairs mirror each other.
/// - `childless`: where none does, neither holds a new pair, and the response had TS_UNACCEPTABLE.
/// - `crowded`: where one does, but the other's table has no place or no SPI left, neither holds a new pair,
///   and the response had NO_ADDITIONAL_SAS.
///
/// Anything may come to either in between. It is presumed, and not promised, that the new IKE SA still waits
/// after it: at the one as the cookie and both responses come, at the other as the request of IKE_AUTH does.
/// What came in between may change other things that they hold; of these seven steps none does.
pub fn under_load_two_gateways_bring_a_tunnel_up<C: Sealer + Agreement + Proof>(caller: &C)
    ensures child { (place : ℕ) (entry : Entry) (asking delaying bringing answering reading : Fresh)
        (shared : Octets) (p l b q r s t : Passage C)
        → (are : AreSetUpUnderLoad
        (meaning_of C.Sealer C.Agreement C.Proof)
        place entry asking delaying bringing answering reading shared p l b q r s t)
        → PoliciesMeet s.before.entries entry → HasPlace s.before.table
        → HaveTunnelUnderLoad
        (meaning_of C.Sealer C.Agreement C.Proof)
        place entry asking delaying bringing answering reading shared p l b q r s t are }
    ensures childless { (place : ℕ) (entry : Entry) (asking delaying bringing answering reading : Fresh)
        (shared : Octets) (p l b q r s t : Passage C)
        → (are : AreSetUpUnderLoad
        (meaning_of C.Sealer C.Agreement C.Proof)
        place entry asking delaying bringing answering reading shared p l b q r s t)
        → ¬ PoliciesMeet s.before.entries entry
        → HaveNoChildUnderLoad
        (meaning_of C.Sealer C.Agreement C.Proof)
        place entry asking delaying bringing answering reading shared TsUnacceptable p l b q r s t are }
    ensures crowded { (place : ℕ) (entry : Entry) (asking delaying bringing answering reading : Fresh)
        (shared : Octets) (p l b q r s t : Passage C)
        → (are : AreSetUpUnderLoad
        (meaning_of C.Sealer C.Agreement C.Proof)
        place entry asking delaying bringing answering reading shared p l b q r s t)
        → PoliciesMeet s.before.entries entry → TakesNoMore s.before.table
        → HaveNoChildUnderLoad
        (meaning_of C.Sealer C.Agreement C.Proof)
        place entry asking delaying bringing answering reading shared NoAdditionalSas p l b q r s t are }
{
    it_comes_up_beside_all_else::<C>(caller);
    under_load_a_cookie_takes_one_round_more::<C>(caller);
}

/// Where the premises of [`two_new_gateways_bring_a_tunnel_up`] hold, those of
/// [`two_gateways_bring_a_tunnel_up`] do: new gateways are a case of gateways that may hold more.
///
/// - `set_up`: the five steps are as they have to be.
/// - `place`: the other's table has a place and an SPI left.
pub fn new_gateways_meet_these_premises<C: Sealer + Agreement + Proof>(caller: &C)
    ensures set_up { (one other : Side) (a b : C) (place : ℕ) (entry : Entry)
        (asking answering reading : Fresh) (shared : Octets) (p q r s t : Passage C)
        → CanOpen (meaning_of C.Sealer C.Agreement C.Proof a) one place entry asking answering shared
        → CanProveItself one other (meaning_of C.Sealer C.Agreement C.Proof a)
        (meaning_of C.Sealer C.Agreement C.Proof b)
        → CanProveItself other one (meaning_of C.Sealer C.Agreement C.Proof b)
        (meaning_of C.Sealer C.Agreement C.Proof a)
        → AreSetUp
        (meaning_of C.Sealer C.Agreement C.Proof)
        one other a b place asking answering reading p q r s t
        → AreSetUpBeside
        (meaning_of C.Sealer C.Agreement C.Proof) place entry asking answering reading shared p q r s t }
    ensures place { (one other : Side) (a b : C) (place : ℕ) (entry : Entry)
        (asking answering reading : Fresh) (shared : Octets) (p q r s t : Passage C)
        → CanOpen (meaning_of C.Sealer C.Agreement C.Proof a) one place entry asking answering shared
        → CanProveItself one other (meaning_of C.Sealer C.Agreement C.Proof a)
        (meaning_of C.Sealer C.Agreement C.Proof b)
        → CanProveItself other one (meaning_of C.Sealer C.Agreement C.Proof b)
        (meaning_of C.Sealer C.Agreement C.Proof a)
        → AreSetUp
        (meaning_of C.Sealer C.Agreement C.Proof)
        one other a b place asking answering reading p q r s t
        → HasPlace s.before.table }
{
    a_gateway_that_can_begin_asks::<C>();
    two_gateways_come_to_keys::<C>(caller);
    two_new_gateways_come_to_keys::<C>(caller);
}

/// Two new gateways that brought a tunnel up have room for another beside it, in the same roles. So what is
/// presumed of room can be met by gateways that hold an IKE SA and a pair. Five more steps from there aren't
/// shown.
///
/// - `begins`: the one has room to begin another IKE SA, by any entry of its policy which protects, with a
///   fresh SPI that is neither 0 nor that of the IKE SA that it holds.
/// - `answers`: the other has room to answer a request of IKE_SA_INIT, with such an SPI of its own.
/// - `place`: and its table has a place and an SPI left.
pub fn a_tunnel_leaves_room_for_another<C>()
    ensures begins { (meaning_of : C → Meaning) (one other : Side) (a b : C) (entry : Entry)
        (asking answering reading : Fresh) (shared : Octets) (p q r s t : Passage C)
        → HaveTunnel meaning_of one other a b entry asking answering reading shared p q r s t
        → (place : ℕ) (again : Entry) (fresh : Fresh) → protecting_entry one.entries place ≡ Some again
        → fresh.spi ≢ 0 → fresh.spi ≢ asking.spi
        → CanBegin place again fresh t.after }
    ensures answers { (meaning_of : C → Meaning) (one other : Side) (a b : C) (entry : Entry)
        (asking answering reading : Fresh) (shared : Octets) (p q r s t : Passage C)
        → HaveTunnel meaning_of one other a b entry asking answering reading shared p q r s t
        → (request : Octets) (fresh : Fresh) → fresh.spi ≢ 0 → fresh.spi ≢ answering.spi
        → CanAnswer request fresh.spi s.after.machine.held }
    ensures place { (meaning_of : C → Meaning) (one other : Side) (a b : C) (entry : Entry)
        (asking answering reading : Fresh) (shared : Octets) (p q r s t : Passage C)
        → HaveTunnel meaning_of one other a b entry asking answering reading shared p q r s t
        → HasPlace s.after.table }
{}

/// What the terms of the Child SA cover: the flows that the initiator's entry holds, and that the entry of
/// the responder's policy which was chosen holds the other way round. So it is of flows from the
/// initiator's side (`there`), and of those from the responder's (`back`).
pub fn the_terms_cover_what_both_entries_hold()
    ensures there { (one other : Side) (o : Opening) (terms : Terms) (agreed : AreAgreed one other o terms)
        (f : Flow)
        → Covers terms.ts_i terms.ts_r f
        ↔ (HoldsFlow Outward f o.entry × HoldsFlow Inward f agreed.narrowed.entry) }
    ensures back { (one other : Side) (o : Opening) (terms : Terms) (agreed : AreAgreed one other o terms)
        (f : Flow)
        → Covers terms.ts_r terms.ts_i f
        ↔ (HoldsFlow Outward f agreed.narrowed.entry × HoldsFlow Inward f o.entry) }
{}

/// Two ends of a Child SA, as IKE_AUTH left them, carry packets (RFC 4301, sections 5.1 and 5.2). The first
/// packet that is given to go out at one end, where the policy protects it and the terms of the Child SA
/// cover it, goes out sealed, unless memory runs out. Its octets, where they come to the other end, make it
/// go up there, whole and unchanged. Of all later packets `laws_progress` says more.
pub fn the_first_packet_goes_through<C>()
    ensures { (meaning_of : C → Meaning) (role : Role) (own other : Side) (a b : C) (o : Opening)
        (terms : Terms) (packet : Octets) (u v : Passage C)
        → IsPassage meaning_of u → HoldsItsPair role own other a o terms u.before
        → IsToGoOut role own terms packet u
        → IsPassage meaning_of v → HoldsItsPair (other_role role) other own b o terms v.before
        → ((octets : Octets) → u.said ≡ Sealed 1 1 octets → v.given ≡ input.Esp octets)
        → GoesThrough packet u v }
{
    the_protected_never_goes_in_the_clear::<C>();
    sadb::laws::answers_are_determined();
    what_one_end_seals_the_other_hands_up();
}

/// So it is in both directions between two new gateways that brought a tunnel up.
pub fn a_tunnel_carries_packets<C>()
    ensures there { (meaning_of : C → Meaning) (one other : Side) (a b : C) (entry : Entry)
        (asking answering reading : Fresh) (shared : Octets) (p q r s t : Passage C)
        → (tunnel : HaveTunnel meaning_of one other a b entry asking answering reading shared p q r s t)
        → CarriesTheFirst meaning_of Initiator one tunnel.up.responder.terms t.after s.after }
    ensures back { (meaning_of : C → Meaning) (one other : Side) (a b : C) (entry : Entry)
        (asking answering reading : Fresh) (shared : Octets) (p q r s t : Passage C)
        → (tunnel : HaveTunnel meaning_of one other a b entry asking answering reading shared p q r s t)
        → CarriesTheFirst meaning_of Responder other tunnel.up.responder.terms s.after t.after }
{
    the_first_packet_goes_through::<C>();
}

/// The first packet that is given to go out at one end of a Child SA which just came up goes through by its
/// new pair (RFC 4301, sections 5.1 and 5.2). The policy has to protect the packet's flow, and the terms of
/// the Child SA have to cover it. So it is whatever other pairs both ends hold, as those of a tunnel that was
/// lost. It goes out sealed by the new pair, unless memory runs out. Its octets, where they come to the other
/// end, make it go up there, whole and unchanged. Of later packets nothing is said here.
pub fn the_first_packet_goes_by_the_new_pair<C>()
    ensures { (meaning_of : C → Meaning) (role : Role) (d : Meeting) (ike serial far_ike far_serial : ℕ)
        (terms : Terms) (packet : Octets) (u v : Passage C)
        → IsPassage meaning_of u → HoldsNewPair role d ike serial terms u.before
        → IsToGoOutBeside role terms packet u
        → IsPassage meaning_of v → HoldsNewPair (other_role role) d far_ike far_serial terms v.before
        → Arrives serial u v
        → GoesThroughBeside packet serial far_serial u v }
{
    the_protected_never_goes_in_the_clear::<C>();
    sadb::laws::answers_are_determined();
    what_one_end_seals_the_other_hands_up();
}

/// So it is in both directions between two gateways that brought a tunnel up, whatever else they hold. Each
/// end is as its last step of IKE_AUTH left it. A packet that the terms cover goes by the new pair then, even
/// where a pair of a lost tunnel covers it too.
pub fn a_new_tunnel_carries_packets<C>()
    ensures there { (meaning_of : C → Meaning) (place : ℕ) (entry : Entry)
        (asking answering reading : Fresh) (shared : Octets) (p q r s t : Passage C)
        (are : AreSetUpBeside meaning_of place entry asking answering reading shared p q r s t)
        → (tunnel : HaveTunnelBeside
        meaning_of place entry asking answering reading shared p q r s t are)
        → CarriesTheFirstBeside meaning_of Initiator tunnel.up.responder.terms
        t.before.table.next s.before.table.next t.after s.after }
    ensures back { (meaning_of : C → Meaning) (place : ℕ) (entry : Entry)
        (asking answering reading : Fresh) (shared : Octets) (p q r s t : Passage C)
        (are : AreSetUpBeside meaning_of place entry asking answering reading shared p q r s t)
        → (tunnel : HaveTunnelBeside
        meaning_of place entry asking answering reading shared p q r s t are)
        → CarriesTheFirstBeside meaning_of Responder tunnel.up.responder.terms
        s.before.table.next t.before.table.next s.after t.after }
{
    the_first_packet_goes_by_the_new_pair::<C>();
}

/// The premises of such a tunnel are met, by the first five steps of the worked run of `laws_two_ends`:
/// whatever the callers' values, where what they mean hides nothing, and keeps the laws of the traits. So are
/// those on gateways that may hold more.
pub fn the_premises_of_a_tunnel_are_met<C>()
    ensures { (a b : C) → IsWorkedTunnel a b }
{
    a_new_gateway_answers::<C>();
    a_new_gateway_asks::<C>();
    octets_spell_one_message();
    plain_spellings_are_spellings();
    the_premises_are_met_from_new_gateways_on::<C>();
    what_is_spelled_has_no_fault();
}
