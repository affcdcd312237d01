//! Facts about the definitions, each the contract of a function that does nothing: the two ends' SA pairs
//! mirror each other, what a responder answers is acceptable, keeps to its offer and can be sent, and answers
//! are determined.
ghost use Rattle.std.specs.Prelude.{◌≡◌, ◌<◌, ◌≤◌, ◌^◌, ◌∷◌, [], ℕ, Bool, true, List, Some, length};
ghost use Rattle.std.specs.List.{AllByRecursion};
ghost use Rattle.base.specs.declared.selector.Selector.{Selector};
ghost use Rattle.wire.specs.Numbers.{SELECTOR_LIMIT};
ghost use Rattle.wire.specs.Sizes.{FitsFields};
ghost use Rattle.wire.specs.declared.payload.Payload.{Payload};
ghost use Rattle.wire.specs.declared.payload.Payload.TheVariants.{Sa};
ghost use Rattle.wire.specs.declared.proposal.Proposal.{Proposal};
ghost use Rattle.exchange.specs.Counting.{only_sa};
ghost use Rattle.exchange.specs.declared.child.ChildPayloads.{ChildPayloads};
ghost use Rattle.exchange.specs.declared.headers.Role.TheVariants.{Initiator, Responder};
ghost use Rattle.policy.specs.Narrowing.{AnswersOffer, IsNarrowing, IsSendableSelector, LieInsidePolicy};
ghost use Rattle.policy.specs.declared.entry.Entry.{Entry};
ghost use Rattle.sadb.specs.Contents.{table_content};
ghost use Rattle.sadb.specs.Database.{Database};
ghost use Rattle.sadb.specs.Mirrors.{Mirrors};
ghost use Rattle.sadb.specs.declared.pair.Pair.{Pair};
ghost use Rattle.children.specs.Accepting.{AreAcceptedTerms, IsAcceptedChild, KeepsToRequest, IsUnacceptable};
ghost use Rattle.children.specs.Asking.{asked_proposal, child_request, FitMessages, HasChildPayloads};
ghost use Rattle.children.specs.Pairs.{HasFewSelectors, IsChild};
ghost use Rattle.children.specs.Responding.{IsChildResponse, IsMadeChild, TakesProposal, AddsNext};
ghost use Rattle.children.specs.declared.asking.Asked.{Asked};
ghost use Rattle.children.specs.declared.responding.Made.{Made};
ghost use Rattle.children.specs.declared.responding.Response.{Response};
ghost use Rattle.children.specs.declared.setting.Setting.{Setting};

use exchange::laws::what_counts_fits;
use policy::laws::{answers_can_be_sent, answers_lie_inside, narrowing_is_determined};
use sadb::laws::later_tables_are_determined;
use suite::laws::{choices_are_determined, ends_agree};

/// The SA pairs that the two ends have of the Child SA of one request, which offered one proposal, and its
/// reply mirror each other: what one sends the other receives, under one SPI and one key, and what is local
/// to one is remote to the other. Does nothing.
pub fn children_mirror()
    ensures { (keys : List (List ℕ)) (request reply : List Payload) (proposal : Proposal) (a b : Pair)
        → only_sa request ≡ Some (proposal ∷ [])
        → IsChild Initiator keys request reply a → IsChild Responder keys request reply b → Mirrors a b }
{}

/// The SA pair that a responder makes is its pair of the Child SA of the request and of any reply that has
/// the payloads which were made; the pair of an accepted answer is the initiator's, where the request has its
/// offer. Does nothing.
pub fn pairs_are_children()
    ensures made { (setting : Setting) (extended : Bool) (entries : List Entry) (table : Database)
        (offer : ChildPayloads) (made : Made) (request reply : List Payload)
        → IsMadeChild setting extended entries table offer made
        → only_sa request ≡ Some offer.proposals → HasChildPayloads reply made.payloads
        → IsChild Responder setting.keys request reply made.pair }
    ensures accepted { (setting : Setting) (asked : Asked) (request answer : List Payload) (pair : Pair)
        → IsAcceptedChild setting asked answer pair → asked.spi < 2 ^ 32
        → only_sa request ≡ Some (asked_proposal asked ∷ [])
        → IsChild Initiator setting.keys request answer pair }
{}

/// What a responder makes of what an initiator asked is acceptable to that initiator, on the same terms,
/// also where the responder doesn't allow extended sequence numbers and the initiator does, or the other
/// way round. Does nothing.
pub fn responses_are_acceptable()
    ensures { (asked : Asked) (setting : Setting) (extended : Bool) (entries : List Entry)
        (table : Database) (made : Made) (reply : List Payload) → asked.spi < 2 ^ 32
        → (m : IsMadeChild setting extended entries table (child_request asked) made)
        → HasChildPayloads reply made.payloads
        → AreAcceptedTerms asked reply m.terms }
{
    ends_agree();
    answers_lie_inside();
}

/// What is made keeps to its offer and to the policy (RFC 7296, sections 2.7 and 2.9): the selectors lie
/// inside those offered, and inside one entry that protects, and are what the offer is narrowed to; ESN is
/// used only where that is allowed; the answer's proposal has number and protocol of one that was offered,
/// and takes its transforms from it. Does nothing.
pub fn responses_keep_to_their_offers()
    ensures offer { (setting : Setting) (extended : Bool) (entries : List Entry) (table : Database)
        (offer : ChildPayloads) (made : Made)
        → IsMadeChild setting extended entries table offer made
        → AnswersOffer made.pair.remote offer.ts_i × AnswersOffer made.pair.local offer.ts_r }
    ensures policy { (setting : Setting) (extended : Bool) (entries : List Entry) (table : Database)
        (offer : ChildPayloads) (made : Made)
        → IsMadeChild setting extended entries table offer made
        → LieInsidePolicy entries made.pair.remote made.pair.local }
    ensures narrowed { (setting : Setting) (extended : Bool) (entries : List Entry) (table : Database)
        (offer : ChildPayloads) (made : Made)
        → IsMadeChild setting extended entries table offer made
        → IsNarrowing entries offer.ts_i offer.ts_r made.pair.remote made.pair.local }
    ensures extension { (setting : Setting) (extended : Bool) (entries : List Entry) (table : Database)
        (offer : ChildPayloads) (made : Made)
        → IsMadeChild setting extended entries table offer made
        → made.pair.inbound.association.extended ≡ true → extended ≡ true }
    ensures proposal { (setting : Setting) (extended : Bool) (entries : List Entry) (table : Database)
        (offer : ChildPayloads) (made : Made)
        → IsMadeChild setting extended entries table offer made
        → TakesProposal offer.proposals made.payloads.proposals }
{
    ends_agree();
    answers_lie_inside();
}

/// An accepted SA pair keeps to what was asked (RFC 7296, sections 2.7 and 2.9): it receives under the SPI
/// that was given, its selectors lie inside those asked for, and ESN is used only where that was allowed.
/// Does nothing.
pub fn what_is_accepted_was_asked()
    ensures { (setting : Setting) (asked : Asked) (answer : List Payload) (pair : Pair)
        → IsAcceptedChild setting asked answer pair → KeepsToRequest asked pair }
{}

/// An SA pair has at most 16 selectors on either side, as the payloads that it is made of: one that is made,
/// where the offer has no more, and one that is accepted. Does nothing.
pub fn pairs_have_few_selectors()
    ensures made { (setting : Setting) (extended : Bool) (entries : List Entry) (table : Database)
        (offer : ChildPayloads) (made : Made) → length offer.ts_i ≤ SELECTOR_LIMIT
        → length offer.ts_r ≤ SELECTOR_LIMIT
        → IsMadeChild setting extended entries table offer made → HasFewSelectors made.pair }
    ensures accepted { (setting : Setting) (asked : Asked) (answer : List Payload) (pair : Pair)
        → AllByRecursion FitsFields answer → IsAcceptedChild setting asked answer pair
        → HasFewSelectors pair }
{
    answers_can_be_sent();
    what_counts_fits();
}

/// What [`respond`](crate::respond) and [`accept`](crate::accept) answer is determined. Does nothing.
pub fn answers_are_determined()
    ensures response { (setting : Setting) (extended : Bool) (entries : List Entry) (table : Database)
        (offer : ChildPayloads) (a b : Response)
        → IsChildResponse setting extended entries table offer a
        → IsChildResponse setting extended entries table offer b → a ≡ b }
    ensures accepted { (setting : Setting) (asked : Asked) (answer : List Payload) (a b : Pair)
        → IsAcceptedChild setting asked answer a → IsAcceptedChild setting asked answer b → a ≡ b }
{
    choices_are_determined();
    narrowing_is_determined();
}

/// The payloads that are asked and answered have what their fields allow, and at most 1400 octets together.
/// Does nothing.
pub fn payloads_fit()
    ensures asked { (asked : Asked) → IsSendableSelector asked.local → IsSendableSelector asked.remote
        → FitMessages (child_request asked) }
    ensures answered { (setting : Setting) (extended : Bool) (entries : List Entry) (table : Database)
        (offer : ChildPayloads) (made : Made)
        → FitsFields (Sa offer.proposals) → length offer.ts_i ≤ SELECTOR_LIMIT
        → length offer.ts_r ≤ SELECTOR_LIMIT
        → IsMadeChild setting extended entries table offer made → FitMessages made.payloads }
{
    answers_can_be_sent();
}

/// An answer is acceptable or it isn't. What is answered goes by what the table holds, whatever room there
/// is, and so do the table and the serial of an SA pair after [`install`](crate::install). Does nothing.
pub fn children_are_determined()
    ensures acceptable { (setting : Setting) (asked : Asked) (answer : List Payload) (pair : Pair)
        → IsAcceptedChild setting asked answer pair → ¬ IsUnacceptable asked answer }
    ensures answered { (setting : Setting) (extended : Bool) (entries : List Entry) (table other : Database)
        (offer : ChildPayloads) (answer : Response) → table_content table ≡ table_content other
        → IsChildResponse setting extended entries table offer answer
        → IsChildResponse setting extended entries other offer answer }
    ensures added { (old other a b : Database) (pair : Pair) (serial number : ℕ)
        → table_content old ≡ table_content other
        → AddsNext old pair serial a → AddsNext other pair number b
        → (serial ≡ number) × (table_content a ≡ table_content b) }
{
    later_tables_are_determined();
}
