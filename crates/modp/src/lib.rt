//! The 2048-bit MODP group of RFC 3526, section 3 (group 14 of IKE): its elements, products and powers, and
//! the 256 octets that carry an element (RFC 7296, section 3.4).
//!
//! An [`Element`] is a number below the prime. Nothing here takes memory. That powers of powers are the
//! same in either order, on which a key agreement rests, is a law: [`laws`].
//!
//! A power reads a table at the places that its exponent's bits choose, four bits a time, and a product
//! branches on its sum. So the time that they take may tell of secrets: nothing is claimed of it.
//!
//! ```rust
//! use modp::Element;
//!
//! let public = Element::generator().power(&[0x17; 32]);
//! assert_eq!(rt; public.to_octets().len(), 256);
//! ```
//!
//! # How it is proved
//!
//! Numbers stand in 32 limbs of 64 bits, and each function is proved on the number that the limbs spell
//! (`number`, `proofs/NumberLemmas`). A product is Montgomery's: its loop has one pass a limb, with the
//! product by the limbs so far, divided by as many limbs but for multiples of the prime, as its invariant
//! (`PassLemmas`). A square is twice the products of two limbs and the squares of each (`SquareLemmas`).
//! It is made whole, and then divided by two limbs a pass, but for multiples of the prime
//! (`DivisionLemmas`). `FormLemmas` says what a product of forms stands for, and `ReductionLemmas` takes
//! remainders by what the prime lacks to 2^2048. The loop of a power has the power by the octets so far as
//! its invariant (`PowerLemmas`). That powers commute, `powers_of_powers_agree`, is then arithmetic of
//! plain numbers.
#![tactic(auto)]

mod element;
pub mod laws;
mod limbs;
mod montgomery;
mod octets;
mod power;
mod reduction;
mod square;
#[cfg(test)]
mod tests;

pub use element::Element;
