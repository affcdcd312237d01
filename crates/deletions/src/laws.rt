//! What follows from the definitions alone. No function here does anything.
ghost use Rattle.std.specs.Prelude.{◌≡◌, ◌≢◌, ◌↔◌, ◌<◌, ◌≤◌, ℕ, List, [], ◌∷◌, ◌++◌, true, false, Some, None, All, Any, Contains, length};
ghost use Rattle.std.specs.List.{AllZip};
ghost use Rattle.wire.specs.declared.payload.Payload.{Payload};
ghost use Rattle.exchange.specs.Counting.{unknown_critical};
ghost use Rattle.exchange.specs.Deletions.{count_of_spis, deletes_association, esp_spis};
ghost use Rattle.exchange.specs.declared.sealed.Plain.{Plain};
ghost use Rattle.sadb.specs.Contents.{table_content};
ghost use Rattle.sadb.specs.Database.{pair_at, Database, HasInbound, IsLive, IsReady, IsSenderUnder, IsSoundTable, IsThere, PairMap, SendsUnder};
ghost use Rattle.sadb.specs.Following.{Follows};
ghost use Rattle.sadb.specs.Mirrors.{Mirrors};
ghost use Rattle.sadb.specs.declared.pair.Pair.{Pair};
ghost use Rattle.sadb.specs.declared.pair.State.TheVariants.{Live, Deleting};
ghost use Rattle.deletions.specs.Answering.{payloads_of_verdict};
ghost use Rattle.deletions.specs.Asking.{association_deletion, child_deletion};
ghost use Rattle.deletions.specs.Deciding.{verdict_of, AreLivePairs, IsVerdictOn};
ghost use Rattle.deletions.specs.Naming.{deleted_by, deleted_for, named_limit, without};
ghost use Rattle.deletions.specs.Removing.{AreDistinct, RemovesNamed};
ghost use Rattle.deletions.specs.declared.deciding.Verdict.{Verdict};
ghost use Rattle.deletions.specs.declared.deciding.Verdict.TheVariants.{BadSyntax, Unsupported, Closes, Deletes};
ghost use Rattle.deletions.specs.declared.naming.DeletedPairs.{DeletedPairs};

use wire::laws::octets_spell_one_message;

/// An SA pair goes for one SPI exactly if it is Live and sends under it for this IKE SA, and no pair of a
/// lesser serial does.
pub fn live_senders_go()
    ensures { (pairs : PairMap) (ike spi serial : ℕ) (pair : Pair)
        → (deleted_for pairs ike spi ≡ Some (serial, pair))
        ↔ (IsSenderUnder pairs ike spi serial × (pair_at pairs serial ≡ Some pair) × (pair.state ≡ Live)) }
{}

/// Each SA pair that goes is Live and sends under one of the SPIs that are named, for this IKE SA, and none
/// goes twice; the first that sends under a named SPI goes, if it is Live. With each goes the SPI under which
/// this end receives by it. No more go than SPIs are named.
pub fn what_is_named_goes()
    ensures meant { (pairs : PairMap) (ike : ℕ) (spis : List ℕ)
        → All (λ serial. Any (λ spi. SendsUnder pairs ike spi serial) spis)
        (deleted_by pairs ike spis).serials }
    ensures live { (pairs : PairMap) (ike : ℕ) (spis : List ℕ)
        → All (IsLive pairs) (deleted_by pairs ike spis).serials }
    ensures each { (pairs : PairMap) (ike : ℕ) (spis : List ℕ) (spi serial : ℕ) → Contains spis spi
        → IsSenderUnder pairs ike spi serial → IsLive pairs serial
        → Contains (deleted_by pairs ike spis).serials serial }
    ensures once { (pairs : PairMap) (ike : ℕ) (spis : List ℕ)
        → AreDistinct (deleted_by pairs ike spis).serials }
    ensures inbound { (pairs : PairMap) (ike : ℕ) (spis : List ℕ)
        → AllZip (λ serial spi. HasInbound pairs spi serial) (deleted_by pairs ike spis).serials
        (deleted_by pairs ike spis).inbound_spis }
    ensures as_many { (pairs : PairMap) (ike : ℕ) (spis : List ℕ)
        → length (deleted_by pairs ike spis).inbound_spis ≡ length (deleted_by pairs ike spis).serials }
    ensures few { (pairs : PairMap) (ike : ℕ) (spis : List ℕ)
        → length (deleted_by pairs ike spis).serials ≤ length spis }
{}

/// What one more SPI adds to those that a Delete names before it (RFC 7296, section 3.11). It is judged by
/// the SA pairs that are left: the first of them that sends under it goes, behind the others, if it is Live;
/// else none goes. So of two Live pairs that send under one SPI both go where it is named twice, the older
/// first. What is named later changes nothing of what goes before it.
pub fn names_are_worked_in_order()
    ensures left { (pairs : PairMap) (gone : List ℕ) (serial : ℕ) (pair : Pair)
        → (pair_at (without pairs gone) serial ≡ Some pair)
        ↔ ((pair_at pairs serial ≡ Some pair) × (¬ Contains gone serial)) }
    ensures goes { (pairs : PairMap) (ike : ℕ) (spis : List ℕ) (spi serial : ℕ)
        → IsSenderUnder (without pairs (deleted_by pairs ike spis).serials) ike spi serial
        → IsLive pairs serial
        → (deleted_by pairs ike (spis ++ spi ∷ [])).serials
        ≡ (deleted_by pairs ike spis).serials ++ serial ∷ [] }
    ensures stays { (pairs : PairMap) (ike : ℕ) (spis : List ℕ) (spi : ℕ)
        → ((serial : ℕ) → IsSenderUnder (without pairs (deleted_by pairs ike spis).serials) ike spi serial
        → ¬ IsLive pairs serial)
        → deleted_by pairs ike (spis ++ spi ∷ []) ≡ deleted_by pairs ike spis }
    ensures twice { (pairs : PairMap) (ike spi first next : ℕ) → IsSenderUnder pairs ike spi first
        → IsLive pairs first
        → IsSenderUnder (without pairs (first ∷ [])) ike spi next → IsLive pairs next
        → (deleted_by pairs ike (spi ∷ spi ∷ [])).serials ≡ first ∷ next ∷ [] }
    ensures later { (pairs : PairMap) (ike : ℕ) (spis more : List ℕ)
        → (later : List ℕ)
        × ((deleted_by pairs ike (spis ++ more)).serials ≡ (deleted_by pairs ike spis).serials ++ later) }
{}

/// What is judged of a request that is in the grammar, each where nothing before it applies. It is a payload
/// that is not known and marked as critical (RFC 7296, section 2.5), more SPIs than a message may name, a
/// Delete of IKE, and else the SA pairs that are named.
pub fn requests_are_judged_in_order()
    ensures unsupported { (pairs : PairMap) (ike kind : ℕ) (payloads : List Payload)
        → (verdict_of pairs ike payloads ≡ Unsupported kind) ↔ (unknown_critical payloads ≡ Some kind) }
    ensures bad_syntax { (pairs : PairMap) (ike : ℕ) (payloads : List Payload)
        → (verdict_of pairs ike payloads ≡ BadSyntax)
        ↔ ((unknown_critical payloads ≡ None) × (named_limit < count_of_spis payloads)) }
    ensures closes { (pairs : PairMap) (ike : ℕ) (payloads : List Payload)
        → (verdict_of pairs ike payloads ≡ Closes)
        ↔ ((unknown_critical payloads ≡ None) × (count_of_spis payloads ≤ named_limit)
        × (deletes_association payloads ≡ true)) }
    ensures deletes { (pairs : PairMap) (ike : ℕ) (payloads : List Payload) (found : DeletedPairs)
        → (verdict_of pairs ike payloads ≡ Deletes found)
        ↔ ((unknown_critical payloads ≡ None) × (count_of_spis payloads ≤ named_limit)
        × (deletes_association payloads ≡ false)
        × (found ≡ deleted_by pairs ike (esp_spis payloads))) }
{}

/// What is made of a request is determined by the table's SA pairs, the IKE SA and what the request opened
/// to. Does nothing.
pub fn verdicts_are_determined()
    ensures { (pairs : PairMap) (ike : ℕ) (plain : Plain) (a b : Verdict)
        → IsVerdictOn pairs ike plain a → IsVerdictOn pairs ike plain b → a ≡ b }
{
    octets_spell_one_message();
}

/// The SA pairs that are to go can be taken out of the table in which they were found, and no pair of another
/// IKE SA goes with them.
pub fn what_is_decided_can_be_removed()
    ensures there { (pairs : PairMap) (ike : ℕ) (found : DeletedPairs) → AreLivePairs pairs ike found
        → All (IsThere pairs) found.serials }
    ensures distinct { (pairs : PairMap) (ike : ℕ) (found : DeletedPairs) → AreLivePairs pairs ike found
        → AreDistinct found.serials }
    ensures others { (old new : Database) (ike : ℕ) (found : DeletedPairs) (serial : ℕ) (pair : Pair)
        → AreLivePairs old.pairs ike found
        → RemovesNamed old found.serials new → pair.ike ≢ ike
        → (pair_at new.pairs serial ≡ Some pair) ↔ (pair_at old.pairs serial ≡ Some pair) }
{}

/// What a table holds once SA pairs were taken out goes by what it held before, whatever spare capacity there
/// is.
pub fn removals_are_determined()
    ensures { (old other a b : Database) (serials : List ℕ) → table_content old ≡ table_content other
        → RemovesNamed old serials a → RemovesNamed other serials b → table_content a ≡ table_content b }
{}

/// A table that SA pairs were taken out of follows from the one that held them.
pub fn removals_follow()
    ensures { (old new : Database) (serials : List ℕ) → IsSoundTable old → RemovesNamed old serials new
        → Follows old new }
{}

/// Room that was made stays: a table that is ready to give an SPI without memory is so once SA pairs were
/// taken out.
pub fn room_stays()
    ensures { (old new : Database) (serials : List ℕ) → IsReady old → RemovesNamed old serials new
        → IsReady new }
{}

/// The two ends of a Child SA may hold SA pairs that mirror each other, and the peer's may be Live and the
/// first of its IKE SA that sends under the SPI. Then what one end asks for names the other's pair, and the
/// answer is what the other end would have asked for itself. Where both ask at once (RFC 7296, section
/// 1.4.1), so that the peer's is Deleting, nothing goes and the answer names nothing. A deletion of the IKE
/// SA closes it.
pub fn peers_understand_deletions()
    ensures child { (pairs : PairMap) (ike serial : ℕ) (ours theirs : Pair) → Mirrors ours theirs
        → IsSenderUnder pairs ike ours.inbound.association.spi serial → pair_at pairs serial ≡ Some theirs
        → theirs.state ≡ Live
        → verdict_of pairs ike (child_deletion ours.inbound.association.spi)
        ≡ Deletes (record { serials = serial ∷ []; inbound_spis = ours.outbound.association.spi ∷ [] }) }
    ensures answer { (pairs : PairMap) (ike serial : ℕ) (ours theirs : Pair) → Mirrors ours theirs
        → IsSenderUnder pairs ike ours.inbound.association.spi serial → pair_at pairs serial ≡ Some theirs
        → theirs.state ≡ Live
        → payloads_of_verdict (verdict_of pairs ike (child_deletion ours.inbound.association.spi))
        ≡ child_deletion theirs.inbound.association.spi }
    ensures crossing { (pairs : PairMap) (ike serial : ℕ) (ours theirs : Pair)
        → IsSenderUnder pairs ike ours.inbound.association.spi serial → pair_at pairs serial ≡ Some theirs
        → theirs.state ≡ Deleting
        → verdict_of pairs ike (child_deletion ours.inbound.association.spi)
        ≡ Deletes (record { serials = []; inbound_spis = [] }) }
    ensures crossing_answer { (pairs : PairMap) (ike serial : ℕ) (ours theirs : Pair)
        → IsSenderUnder pairs ike ours.inbound.association.spi serial → pair_at pairs serial ≡ Some theirs
        → theirs.state ≡ Deleting
        → payloads_of_verdict (verdict_of pairs ike (child_deletion ours.inbound.association.spi)) ≡ [] }
    ensures association { (pairs : PairMap) (ike : ℕ) → verdict_of pairs ike association_deletion ≡ Closes }
{}
