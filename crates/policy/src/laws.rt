//! Facts about the definitions, each the contract of a function that does nothing: what is answered or
//! refused is determined, what is narrowed lies inside its offer and can be sent, first choices are kept,
//! and families of addresses are apart.
ghost use Rattle.std.specs.Prelude.{◌≡◌, ◌≢◌, ◌≤◌, ◌∷◌, ℕ, List, Some, length, slice_get};
ghost use Rattle.base.specs.Addresses.{family_of, family_of_range};
ghost use Rattle.base.specs.Octets.{Octets};
ghost use Rattle.base.specs.declared.selector.Selector.{Selector};
ghost use Rattle.policy.specs.declared.entry.Action.{Action};
ghost use Rattle.policy.specs.declared.entry.Action.TheVariants.{Discard};
ghost use Rattle.policy.specs.declared.entry.Entry.{Entry};
ghost use Rattle.policy.specs.declared.fault.InnerFault.{InnerFault};
ghost use Rattle.policy.specs.declared.fault.NarrowFault.TheVariants.{Unacceptable};
ghost use Rattle.policy.specs.declared.flow.Flow.{Flow};
ghost use Rattle.policy.specs.declared.policy.Direction.{Direction};
ghost use Rattle.policy.specs.Decisions.{IsDecision};
ghost use Rattle.policy.specs.Entries.{IsFirstEntryAtFault, IsSoundPolicy};
ghost use Rattle.policy.specs.Narrowing.{SELECTOR_LIMIT, AnswersOffer, AreSendable, FitsFirst, IsNarrowing, IsNarrowRefusal, LieInsidePolicy};
ghost use Rattle.policy.specs.Packets.{IsFlowOf, IsInnerRefusal};
ghost use Rattle.policy.specs.Points.{FitsSelectorFields, HoldsPoint, Meets};

/// A selector of IPv4 addresses and one of IPv6 addresses have no common point.
pub fn families_are_apart()
    ensures { (one other : Selector) → family_of_range one.addresses ≢ family_of_range other.addresses
        → ¬ Meets (HoldsPoint one) (HoldsPoint other) }
{}

/// What [`Policy::new`](crate::Policy::new) and [`Policy::decide`](crate::Policy::decide) answer is
/// determined: entries are a policy or have one first fault, and a flow has one decision.
pub fn policies_are_determined()
    ensures sound { (entries : List Entry) (place : ℕ)
        → IsSoundPolicy entries → ¬ IsFirstEntryAtFault entries place }
    ensures fault { (entries : List Entry) (k l : ℕ)
        → IsFirstEntryAtFault entries k → IsFirstEntryAtFault entries l → k ≡ l }
    ensures decision { (entries : List Entry) (f : Flow) (d : Direction) (a b : Action)
        → IsDecision entries f d a → IsDecision entries f d b → a ≡ b }
{}

/// A flow between addresses of two families, which no packet has, is discarded.
pub fn flows_between_families_are_discarded()
    ensures { (entries : List Entry) (f : Flow) (d : Direction) (a : Action) → IsSoundPolicy entries
        → family_of f.source ≢ family_of f.target → IsDecision entries f d a → a ≡ Discard }
{}

/// What [`inner`](crate::inner) answers is determined: octets have one flow, between addresses of one
/// family, or one refusal.
pub fn flows_are_determined()
    ensures flow { (b : Octets) (f g : Flow) → IsFlowOf b f → IsFlowOf b g → f ≡ g }
    ensures one_family { (b : Octets) (f : Flow) → IsFlowOf b f → family_of f.source ≡ family_of f.target }
    ensures refusal { (b : Octets) (one other : InnerFault)
        → IsInnerRefusal b one → IsInnerRefusal b other → one ≡ other }
    ensures apart { (b : Octets) (f : Flow) (fault : InnerFault)
        → IsFlowOf b f → ¬ IsInnerRefusal b fault }
{}

/// What [`narrow`](crate::narrow) answers is determined, and where it may answer it may not refuse but
/// because of an allocation failure.
pub fn narrowing_is_determined()
    ensures narrowed { (entries : List Entry) (i r answer_i answer_r other_i other_r : List Selector)
        → IsNarrowing entries i r answer_i answer_r → IsNarrowing entries i r other_i other_r
        → (answer_i ≡ other_i) × (answer_r ≡ other_r) }
    ensures apart { (entries : List Entry) (i r answer_i answer_r : List Selector)
        → IsNarrowing entries i r answer_i answer_r → ¬ IsNarrowRefusal entries i r Unacceptable }
{}

/// What [`narrow`](crate::narrow) answers can be sent: of an offer of at most 16 selectors in a list, each
/// answered list is one that a message can carry.
pub fn answers_can_be_sent()
    ensures { (entries : List Entry) (i r answer_i answer_r : List Selector)
        → length i ≤ SELECTOR_LIMIT → length r ≤ SELECTOR_LIMIT → IsNarrowing entries i r answer_i answer_r
        → AreSendable answer_i × AreSendable answer_r }
{}

/// What [`narrow`](crate::narrow) answers lies inside what was offered, as the initiator asks by
/// [`are_inside`](crate::are_inside), and inside the policy: each answered selector has points, all of them
/// in one offered selector and on its side of one entry that protects, the same for both lists.
pub fn answers_lie_inside()
    ensures offer { (entries : List Entry) (i r answer_i answer_r : List Selector)
        → IsNarrowing entries i r answer_i answer_r → AnswersOffer answer_i i × AnswersOffer answer_r r }
    ensures policy { (entries : List Entry) (i r answer_i answer_r : List Selector)
        → IsNarrowing entries i r answer_i answer_r → LieInsidePolicy entries answer_i answer_r }
{}

/// Where an entry protects the whole of the first selector of each list, both come first in the answer,
/// unchanged (RFC 7296 section 2.9: a responder that can accept the first selectors narrows to a set that
/// has them).
pub fn first_choices_are_kept()
    ensures { (entries : List Entry) (place : ℕ) (e : Entry) (first_i first_r : Selector)
        (i r answer_i answer_r : List Selector)
        → slice_get entries place ≡ Some e → FitsFirst (first_i ∷ i) (first_r ∷ r) e
        → FitsSelectorFields first_i → FitsSelectorFields first_r
        → IsNarrowing entries (first_i ∷ i) (first_r ∷ r) answer_i answer_r
        → (slice_get answer_i 0 ≡ Some first_i) × (slice_get answer_r 0 ≡ Some first_r) }
{}
