//! Facts about the definitions, each the contract of a function that does nothing: what octets spell and
//! what is wrong with them is determined, and they have one of both; sizes are lengths, and a message whose
//! fields and size fit has a spelling.
ghost use Rattle.std.specs.Prelude.{◌≡◌, ◌≤◌, ◌+◌, ◌⊎◌, ℕ, List, length, false};
ghost use Rattle.std.specs.List.{AllByRecursion, sum_by};
ghost use Rattle.base.specs.Octets.{IsOctet, AreOctets, Octets};
ghost use Rattle.wire.specs.Parts.{IsZero};
ghost use Rattle.wire.specs.Messages.{Spells, SpellsPlainly};
ghost use Rattle.wire.specs.Numbers.{HEADER_LENGTH, MESSAGE_LIMIT};
ghost use Rattle.wire.specs.Payloads.{SpellsChain, SpellsPayload, SpellsPayloads};
ghost use Rattle.wire.specs.Refusals.{IsChainFault, IsEncodingFaultOf, IsFaultOf};
ghost use Rattle.wire.specs.Sizes.{FitsFields, FitsHeaderFields, HasSpelling, size_of};
ghost use Rattle.wire.specs.declared.fault.WireFault.{WireFault};
ghost use Rattle.wire.specs.declared.message.Message.{Message};
ghost use Rattle.wire.specs.declared.payload.Payload.{Payload};

/// Octets spell one message at most, and one chain of payloads at most: also where one of two spellings has
/// zeros in all that is reserved, and nothing is said of whether its payloads are encrypted.
pub fn octets_spell_one_message()
    ensures message { (m n : Message) (b : Octets) → Spells m b → Spells n b → m ≡ n }
    ensures chain { (first : ℕ) (ps qs : List Payload) (b : Octets)
        → SpellsChain first ps b → SpellsChain first qs b → ps ≡ qs }
    ensures plain_chain { (first : ℕ) (ps qs : List Payload) (b : Octets)
        → SpellsPayloads IsZero first ps b → SpellsChain first qs b → ps ≡ qs }
{}

/// The first fault of a datagram, of a chain of payloads, and of a message to be encoded is one fault.
pub fn first_faults_are_determined()
    ensures message { (b : Octets) (f g : WireFault) → AreOctets b → IsFaultOf b f → IsFaultOf b g → f ≡ g }
    ensures chain { (first : ℕ) (b : Octets) (f g : WireFault) → IsOctet first → AreOctets b
        → IsChainFault false 0 first b f → IsChainFault false 0 first b g → f ≡ g }
    ensures encoding { (m : Message) (f g : WireFault) → FitsHeaderFields m.header
        → IsEncodingFaultOf m f → IsEncodingFaultOf m g → f ≡ g }
{}

/// What is spelled with zeros in reserved octets and bits is spelled.
pub fn plain_spellings_are_spellings()
    ensures message { (m : Message) (b : Octets) → SpellsPlainly m b → Spells m b }
    ensures payloads { (first : ℕ) (ps : List Payload) (x : Octets)
        → SpellsPayloads IsZero first ps x → SpellsPayloads IsOctet first ps x }
{}

/// Whatever stands in reserved octets and bits, each spelling of a payload has its size, and each of a
/// message 28 octets and the sizes of its payloads.
pub fn spellings_have_their_size()
    ensures payload { (p : Payload) (next : ℕ) (x : Octets)
        → SpellsPayload IsOctet p next x → length x ≡ size_of p }
    ensures payloads { (first : ℕ) (ps : List Payload) (x : Octets)
        → SpellsPayloads IsOctet first ps x → length x ≡ sum_by size_of ps }
    ensures message { (m : Message) (b : Octets)
        → Spells m b → length b ≡ HEADER_LENGTH + sum_by size_of m.payloads }
{}

/// A message whose header and payloads have what their fields allow, and which has at most 3000 octets, has
/// a spelling.
pub fn messages_that_fit_are_spelled()
    ensures { (m : Message) → FitsHeaderFields m.header → AllByRecursion FitsFields m.payloads
        → HEADER_LENGTH + sum_by size_of m.payloads ≤ MESSAGE_LIMIT
        → HasSpelling m (HEADER_LENGTH + sum_by size_of m.payloads) }
{}

/// What octets spell has what its fields allow.
pub fn what_is_read_fits()
    ensures { (first : ℕ) (ps : List Payload) (b : Octets)
        → SpellsChain first ps b → AllByRecursion FitsFields ps }
{}

/// With zeros in all that is reserved a message has one spelling at most, and a chain of payloads one, of
/// one first type.
pub fn plain_spellings_are_determined()
    ensures message { (m : Message) (a b : Octets) → SpellsPlainly m a → SpellsPlainly m b → a ≡ b }
    ensures payloads { (first other : ℕ) (ps : List Payload) (a b : Octets)
        → SpellsPayloads IsZero first ps a → SpellsPayloads IsZero other ps b → (first ≡ other) × (a ≡ b) }
{}

/// Octets that spell no message have a fault, and so have those that spell no chain of payloads. A chain that
/// is spelled has none.
pub fn what_has_no_fault_is_spelled()
    ensures message { (b : Octets) → AreOctets b → ((m : Message) × Spells m b) ⊎ ((f : WireFault) × IsFaultOf b f) }
    ensures chain { (first : ℕ) (b : Octets) → IsOctet first → AreOctets b
        → ((ps : List Payload) × SpellsChain first ps b) ⊎ ((f : WireFault) × IsChainFault false 0 first b f) }
    ensures spelled_chain { (first : ℕ) (ps : List Payload) (b : Octets) (f : WireFault) → IsOctet first
        → SpellsChain first ps b → ¬ IsChainFault false 0 first b f }
{}

/// A datagram that spells a message has no fault.
pub fn what_is_spelled_has_no_fault()
    ensures { (m : Message) (b : Octets) (f : WireFault) → Spells m b → ¬ IsFaultOf b f }
{}
