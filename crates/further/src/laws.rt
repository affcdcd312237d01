//! What follows from the definitions alone. No function here does anything.
ghost use Rattle.std.specs.Prelude.{◌≡◌, ◌<◌, ◌^◌, ◌∷◌, [], ℕ, Bool, true, false, List, Some};
ghost use Rattle.base.specs.Octets.{Octets};
ghost use Rattle.base.specs.declared.selector.Selector.{Selector};
ghost use Rattle.wire.specs.Payloads.{SpellsChain};
ghost use Rattle.wire.specs.Sizes.{FitsFields};
ghost use Rattle.wire.specs.declared.payload.Payload.{Payload};
ghost use Rattle.wire.specs.declared.payload.Payload.TheVariants.{Nonce};
ghost use Rattle.wire.specs.declared.proposal.Proposal.{Proposal};
ghost use Rattle.suite.specs.declared.key_record.KeyRecord.{KeyRecord};
ghost use Rattle.exchange.specs.Counting.{only_sa, only_ts_i, only_ts_r};
ghost use Rattle.exchange.specs.declared.headers.Role.TheVariants.{Initiator, Responder};
ghost use Rattle.exchange.specs.declared.notices.Notice.{Notice};
ghost use Rattle.exchange.specs.declared.sealed.Plain.{Plain};
ghost use Rattle.exchange.specs.Sealed.{PAYLOADS_LIMIT};
ghost use Rattle.policy.specs.Narrowing.{AnswersOffer, IsNarrowing, IsSendableSelector, LieInsidePolicy};
ghost use Rattle.sadb.specs.Contents.{table_content};
ghost use Rattle.sadb.specs.Database.{Database};
ghost use Rattle.sadb.specs.Mirrors.{Mirrors};
ghost use Rattle.sadb.specs.declared.pair.Pair.{Pair};
ghost use Rattle.auth.specs.Fitting.{FitWithin};
ghost use Rattle.exchange.specs.declared.child.ChildAnswer.{ChildAnswer};
ghost use Rattle.children.specs.Accepting.{KeepsToRequest};
ghost use Rattle.children.specs.Asking.{child_request};
ghost use Rattle.children.specs.Pairs.{HasFewSelectors};
ghost use Rattle.children.specs.Responding.{TakesProposal};
ghost use Rattle.children.specs.declared.asking.Asked.{Asked};
ghost use Rattle.children.specs.declared.responding.Made.{Made};
ghost use Rattle.setup.specs.Configs.{Setup};
ghost use Rattle.further.specs.Answering.{answer_to_further, further_answer, FitsAnswer};
ghost use Rattle.further.specs.Concluding.{Concludes};
ghost use Rattle.further.specs.Deciding.{is_closing_decision, DecidesFurther};
ghost use Rattle.further.specs.Judging.{FurtherJudgement, IsFurtherJudgement};
ghost use Rattle.further.specs.Pairs.{IsFurtherChild};
ghost use Rattle.further.specs.Payloads.{further_payloads};
ghost use Rattle.further.specs.declared.concluding.Conclusion.{Conclusion};
ghost use Rattle.further.specs.declared.concluding.Conclusion.TheVariants as conclusion;
ghost use Rattle.further.specs.declared.deciding.Decision.{Decision};
ghost use Rattle.further.specs.declared.deciding.Decision.TheVariants as decision;

use children::laws::{
    answers_are_determined, children_are_determined, children_mirror, pairs_are_children,
    pairs_have_few_selectors, payloads_fit, responses_are_acceptable,
    responses_keep_to_their_offers, what_is_accepted_was_asked,
};
use exchange::laws::{notices_fit, what_counts_fits};
use wire::laws::{octets_spell_one_message, what_is_read_fits};

/// A request is judged in one way. What is decided about it goes by what the table holds, whatever spare
/// capacity there is, and in one way, and so does what is made of an answer. Does nothing.
pub fn further_children_are_determined()
    ensures judged { (payloads : List Payload) (deleting : Bool) (one other : FurtherJudgement)
        → IsFurtherJudgement payloads deleting one → IsFurtherJudgement payloads deleting other
        → one ≡ other }
    ensures decided { (setup : Setup) (ike : ℕ) (keys : KeyRecord) (table other_table : Database)
        (deleting : Bool) (plain : Plain)
        (one other : Decision) → table_content table ≡ table_content other_table
        → DecidesFurther setup ike keys table deleting plain one
        → DecidesFurther setup ike keys other_table deleting plain other → one ≡ other }
    ensures concluded { (blocks ike : ℕ) (keys : KeyRecord) (asked : Asked) (own_nonce : Octets)
        (plain : Plain) (one other : Conclusion)
        → Concludes blocks ike keys asked own_nonce plain one
        → Concludes blocks ike keys asked own_nonce plain other → one ≡ other }
{
    answers_are_determined();
    children_are_determined();
    octets_spell_one_message();
}

/// The nonces that are sent are those of which the keys come (RFC 7296, section 2.17). The SA pair that a
/// responder makes is its pair of the Child SA of the request and of the answer that it sends. The pair of an
/// accepted answer is the exchange's initiator's, where the request was asked by its nonce. Does nothing.
pub fn further_pairs_are_children()
    ensures made { (setup : Setup) (ike : ℕ) (keys : KeyRecord) (table : Database) (deleting : Bool)
        (plain : Plain) (made : Made)
        (request : List Payload) → DecidesFurther setup ike keys table deleting plain (decision.Made made)
        → SpellsChain plain.first request plain.octets
        → IsFurtherChild Responder keys request
        (further_answer (answer_to_further (decision.Made made)) setup.fresh.nonce) made.pair }
    ensures accepted { (blocks ike : ℕ) (keys : KeyRecord) (asked : Asked) (own_nonce : Octets)
        (plain : Plain) (pair : Pair)
        (answer : List Payload) → asked.spi < 2 ^ 32
        → Concludes blocks ike keys asked own_nonce plain (conclusion.Made pair)
        → SpellsChain plain.first answer plain.octets
        → IsFurtherChild Initiator keys (further_payloads (child_request asked) own_nonce) answer pair }
{
    pairs_are_children();
    octets_spell_one_message();
}

/// The SA pairs that the two ends of an exchange have of its Child SA mirror each other, under equal key
/// records. What one sends the other receives, under one SPI and one key, and what is local to one is remote
/// to the other. So it is of the child of a request that offered one proposal, and of its reply; and of every
/// request by [`ask`](crate::ask) that was decided about as it was sent, where its answer came as it was
/// sent. Does nothing.
pub fn further_children_mirror()
    ensures children { (keys : KeyRecord) (request reply : List Payload) (proposal : Proposal) (a b : Pair)
        → only_sa request ≡ Some (proposal ∷ [])
        → IsFurtherChild Initiator keys request reply a → IsFurtherChild Responder keys request reply b
        → Mirrors a b }
    ensures ends { (asked : Asked) (own_nonce : Octets) (keys : KeyRecord) (setup : Setup)
        (blocks ike other_ike : ℕ) (table : Database)
        (deleting : Bool) (request answer : Plain) (made : Made) (pair : Pair) → asked.spi < 2 ^ 32
        → SpellsChain request.first (further_payloads (child_request asked) own_nonce) request.octets
        → DecidesFurther setup other_ike keys table deleting request (decision.Made made)
        → SpellsChain answer.first
        (further_answer (answer_to_further (decision.Made made)) setup.fresh.nonce) answer.octets
        → Concludes blocks ike keys asked own_nonce answer (conclusion.Made pair) → Mirrors pair made.pair }
{
    children_mirror();
    pairs_are_children();
    octets_spell_one_message();
}

/// What is made keeps to its offer and to the policy (RFC 7296, sections 2.7 and 2.9), as a first Child SA
/// does. The selectors lie inside those offered, and inside one entry that protects, and are what the offer
/// is narrowed to. ESN is used only where that is allowed. The answer's proposal has number and protocol of
/// one that was offered, and takes its transforms from it. What is accepted keeps to what was asked. Does
/// nothing.
pub fn further_children_keep_to_their_offers()
    ensures offer { (setup : Setup) (ike : ℕ) (keys : KeyRecord) (table : Database) (deleting : Bool)
        (plain : Plain) (made : Made)
        (request : List Payload) (ts_i ts_r : List Selector)
        → DecidesFurther setup ike keys table deleting plain (decision.Made made)
        → SpellsChain plain.first request plain.octets
        → only_ts_i request ≡ Some ts_i → only_ts_r request ≡ Some ts_r
        → AnswersOffer made.pair.remote ts_i × AnswersOffer made.pair.local ts_r }
    ensures policy { (setup : Setup) (ike : ℕ) (keys : KeyRecord) (table : Database) (deleting : Bool)
        (plain : Plain) (made : Made)
        → DecidesFurther setup ike keys table deleting plain (decision.Made made)
        → LieInsidePolicy setup.entries made.pair.remote made.pair.local }
    ensures narrowed { (setup : Setup) (ike : ℕ) (keys : KeyRecord) (table : Database) (deleting : Bool)
        (plain : Plain) (made : Made)
        (request : List Payload) (ts_i ts_r : List Selector)
        → DecidesFurther setup ike keys table deleting plain (decision.Made made)
        → SpellsChain plain.first request plain.octets
        → only_ts_i request ≡ Some ts_i → only_ts_r request ≡ Some ts_r
        → IsNarrowing setup.entries ts_i ts_r made.pair.remote made.pair.local }
    ensures extension { (setup : Setup) (ike : ℕ) (keys : KeyRecord) (table : Database) (deleting : Bool)
        (plain : Plain) (made : Made)
        → DecidesFurther setup ike keys table deleting plain (decision.Made made)
        → made.pair.inbound.association.extended ≡ true → setup.config.extended ≡ true }
    ensures proposal { (setup : Setup) (ike : ℕ) (keys : KeyRecord) (table : Database) (deleting : Bool)
        (plain : Plain) (made : Made)
        (request : List Payload) (proposals : List Proposal)
        → DecidesFurther setup ike keys table deleting plain (decision.Made made)
        → SpellsChain plain.first request plain.octets
        → only_sa request ≡ Some proposals → TakesProposal proposals made.payloads.proposals }
    ensures accepted { (blocks ike : ℕ) (keys : KeyRecord) (asked : Asked) (own_nonce : Octets)
        (plain : Plain) (pair : Pair)
        → Concludes blocks ike keys asked own_nonce plain (conclusion.Made pair) → KeepsToRequest asked pair }
{
    responses_keep_to_their_offers();
    what_is_accepted_was_asked();
    octets_spell_one_message();
}

/// An SA pair has at most 16 selectors on either side, as the payloads that were read. Does nothing.
pub fn further_pairs_have_few_selectors()
    ensures made { (setup : Setup) (ike : ℕ) (keys : KeyRecord) (table : Database) (deleting : Bool)
        (plain : Plain) (made : Made)
        → DecidesFurther setup ike keys table deleting plain (decision.Made made)
        → HasFewSelectors made.pair }
    ensures accepted { (blocks ike : ℕ) (keys : KeyRecord) (asked : Asked) (own_nonce : Octets)
        (plain : Plain) (pair : Pair)
        → Concludes blocks ike keys asked own_nonce plain (conclusion.Made pair) → HasFewSelectors pair }
{
    pairs_have_few_selectors();
    what_counts_fits();
    what_is_read_fits();
}

/// What an initiator asked, and a responder made a Child SA of, is accepted by the initiator, where request
/// and answer came as they were sent. Does nothing.
pub fn further_answers_are_accepted()
    ensures { (asked : Asked) (own_nonce : Octets) (keys : KeyRecord) (setup : Setup)
        (blocks ike other_ike : ℕ) (table : Database)
        (deleting : Bool) (request answer : Plain) (made : Made) (concluded : Conclusion) → asked.spi < 2 ^ 32
        → SpellsChain request.first (further_payloads (child_request asked) own_nonce) request.octets
        → DecidesFurther setup other_ike keys table deleting request (decision.Made made)
        → SpellsChain answer.first
        (further_answer (answer_to_further (decision.Made made)) setup.fresh.nonce) answer.octets
        → Concludes blocks ike keys asked own_nonce answer concluded
        → (pair : Pair) × (concluded ≡ conclusion.Made pair) }
{
    responses_are_acceptable();
    octets_spell_one_message();
}

/// What a refusal brings about at the exchange's initiator, where it came as it was sent: both ends take the
/// IKE SA for over, or both go on without the Child SA. Does nothing.
pub fn further_refusals_are_told()
    ensures closing { (notice : Notice) (nonce : Octets) (blocks ike : ℕ) (keys : KeyRecord) (asked : Asked)
        (own_nonce : Octets)
        (answer : Plain) (concluded : Conclusion) → is_closing_decision (decision.Refused notice) ≡ true
        → SpellsChain answer.first
        (further_answer (answer_to_further (decision.Refused notice)) nonce) answer.octets
        → Concludes blocks ike keys asked own_nonce answer concluded → concluded ≡ conclusion.Closes }
    ensures others { (notice : Notice) (nonce : Octets) (blocks ike : ℕ) (keys : KeyRecord) (asked : Asked)
        (own_nonce : Octets)
        (answer : Plain) (concluded : Conclusion) → is_closing_decision (decision.Refused notice) ≡ false
        → SpellsChain answer.first
        (further_answer (answer_to_further (decision.Refused notice)) nonce) answer.octets
        → Concludes blocks ike keys asked own_nonce answer concluded → concluded ≡ conclusion.NoChild }
{
    octets_spell_one_message();
}

/// All that is sent of an additional Child SA has what its fields allow, and is short enough to be sealed.
/// Does nothing.
pub fn what_is_sent_fits()
    ensures request { (asked : Asked) (nonce : Octets) → IsSendableSelector asked.local
        → IsSendableSelector asked.remote
        → FitsFields (Nonce nonce) → FitWithin PAYLOADS_LIMIT (further_payloads (child_request asked) nonce) }
    ensures answer { (answer : ChildAnswer) (nonce : Octets) → FitsAnswer answer
        → FitsFields (Nonce nonce) → FitWithin PAYLOADS_LIMIT (further_answer answer nonce) }
{
    notices_fit();
    payloads_fit();
}
