//! What follows from the definitions alone. No function here does anything.
ghost use Rattle.std.specs.Prelude.{◌≡◌, ◌≤◌, ◌<◌, ◌+◌, ◌^◌, ◌↔◌, ℕ, List, Some, length, false, true};
ghost use Rattle.modp.specs.Group.{element_of, is_trivial, power, prime};
ghost use Rattle.modp.specs.Laws.{AreOctets};
ghost use Rattle.modp.specs.Number.{number_octets, octets_number};

/// A power of a power is the same in either order, on which the agreement rests (RFC 7296, section 2.14).
pub fn powers_of_powers_agree()
    ensures { (base a b : ℕ) → power (power base a) b ≡ power (power base b) a }
{}

/// A power is below the prime.
pub fn powers_are_elements()
    ensures { (base exponent : ℕ) → power base exponent < prime }
{}

/// Octets and the numbers that they spell tell each other, and an element's octets give it again.
pub fn octets_tell_numbers()
    ensures number { (n m : ℕ) → m < 256 ^ n → octets_number (number_octets n m) ≡ m }
    ensures octets { (octets : List ℕ) → AreOctets octets
        → number_octets (length octets) (octets_number octets) ≡ octets }
    ensures length { (n m : ℕ) → length (number_octets n m) ≡ n }
    ensures element { (m : ℕ) → m < prime → element_of (number_octets 256 m) ≡ Some m }
{}

/// Powers of 0, 1 and the prime less 1 are among these: who refuses a shared secret that is one of them has
/// refused a public value that is (RFC 6989, section 2.1).
pub fn powers_of_trivial_are_trivial()
    ensures { (n exponent : ℕ) → is_trivial n ≡ true → is_trivial (power n exponent) ≡ true }
{}

/// The elements that are not refused are those from 2 to the prime less 2 (RFC 6989, section 2.1).
pub fn others_are_from_2_to_the_prime_less_2()
    ensures { (n : ℕ) → n < prime → (is_trivial n ≡ false) ↔ ((2 ≤ n) × (n + 2 ≤ prime)) }
{}
