//! What follows from the definitions alone. No function here does anything.
ghost use Rattle.std.specs.Prelude.{◌≡◌, ◌↔◌, ◌*◌, ◌%◌, ◌^◌, ℕ, List, Some, false, true};
ghost use Rattle.base.specs.Octets.{AreOctets};
ghost use Rattle.modp.specs.Group.{is_trivial, prime};
ghost use Rattle.modp.specs.Number.{number_octets, octets_number};
ghost use Rattle.suite.specs.Sealing.{AreKeys, AreSealable};
ghost use Rattle.suite.specs.declared.keys.Keys.{Keys};
ghost use Rattle.caller_peer.specs.Bodies.{opened_body, sealed_body};
ghost use Rattle.caller_peer.specs.BodyParts.{IsBodyOf, IsSealedBody};
ghost use Rattle.caller_peer.specs.Groups.{IsSharedBy, public_of, shared_of};
ghost use Rattle.caller_peer.specs.SharedKeys.{IsProved, is_accepted};
ghost use Rattle.caller_peer.specs.declared.shared_key.Peer.{Peer};

/// A body opens to a plain text exactly if it is a vector of 16 octets, the plain text encrypted behind it
/// with a padding of fewer than 256 octets and an octet that tells how many, and the ICV over head,
/// vector and blocks (RFC 7296, section 3.14).
pub fn bodies_open_as_made()
    ensures { (keys : Keys) (head plain body : List ℕ) → AreKeys keys → AreOctets body
        → (opened_body keys head body ≡ Some plain) ↔ IsBodyOf keys head plain body }
{}

/// A proof is accepted exactly if its method is 2 and it is what section 2.15 of RFC 7296 has the first
/// peer with that identity give, by that peer's secret, which is not empty.
pub fn proofs_are_of_the_first_peer()
    ensures { (peers : List Peer) (kind : ℕ) (id : List ℕ) (method : ℕ) (octets given : List ℕ)
        → (is_accepted peers kind id method octets given
        ≡ true) ↔ IsProved peers kind id method octets given }
{}

/// A secret is shared exactly if the public value is 256 octets that spell a number below the prime, whose
/// power by the own secret is from 2 to the prime less 2, and it is the 256 octets that spell that power
/// (RFC 7296, sections 2.14 and 3.4; RFC 6989, section 2.1).
pub fn shared_secrets_are_powers()
    ensures { (secret other shared : List ℕ)
        → (shared_of secret other ≡ Some shared) ↔ IsSharedBy secret other shared }
{}

/// With the public value of the other's secret an end comes to the generator's power by both, where that is
/// not refused.
pub fn both_ends_come_to_one_power()
    ensures { (a b : List ℕ) → is_trivial (2 ^ (octets_number a * octets_number b) % prime) ≡ false
        → shared_of a (public_of b)
        ≡ Some (number_octets 256 (2 ^ (octets_number a * octets_number b) % prime)) }
{}

/// What is made of a plain text is what section 3.14 of RFC 7296 has a body be, with zeros for padding, as
/// few as fill a block: the fresh octets, the blocks chained behind them (RFC 3602), and the ICV
/// over head, fresh octets and blocks.
pub fn bodies_are_sealed_as_said()
    ensures { (keys : Keys) (head plain fresh body : List ℕ) → AreSealable keys head plain fresh
        → (body ≡ sealed_body keys head plain fresh) ↔ IsSealedBody keys head plain fresh body }
{}
