//! Addresses of both families, and ranges of them. How addresses are compared is known here alone.
ghost use Rattle.std.specs.Prelude.{◌≡◌, ◌≢◌, ◌↔◌, ◌≤◌, ◌+◌, ◌-◌, ◌%◌, ◌^◌, IsTrue, IfErr, IfOk, MatchOption};
ghost use Rattle.std.specs.Int.{from_be_bytes, w32, w128};
ghost use Rattle.base.specs.declared.address.Address.TheVariants.{V4 as OfV4, V6 as OfV6};
ghost use Rattle.base.specs.Addresses.{IsOrdered, HoldsAddress, LiesWithin, IsCommonRange, AreApart, family_of, family_of_range, IsPrefix, IsPrefixFault, IsWellFormedPrefix, only_range, whole_range};

use thiserror::Error;

/// The families of IP addresses.
#[derive(Clone, Copy, Debug, PartialEq, Eq)]
pub enum Family {
    /// IP version 4, whose addresses have 32 bits.
    V4,
    /// IP version 6, whose addresses have 128 bits (RFC 4291).
    V6,
}

/// An IP address, as the number that its octets spell, most significant first.
#[derive(Clone, Copy, Debug, PartialEq, Eq)]
pub enum Address {
    V4(u32),
    V6(u128),
}

/// Why an address and a length are no prefix.
#[derive(Clone, Copy, Debug, PartialEq, Eq, Error)]
pub enum PrefixFault {
    /// The length is over the bits of an address of this family: 32 for version 4, 128 for version 6.
    #[error("a prefix that is longer than its address")]
    Length,
    /// A bit of the address behind the prefix is set.
    #[error("an address with a bit set behind its prefix")]
    Host,
}

impl Address {
    /// The address of version 4 with these octets, in the order in which a packet has them.
    pub fn v4(octets: [u8; 4]) -> Address
        ensures { result ≡ OfV4 (from_be_bytes w32 octets) }
    {
        Address::V4(u32::from_be_bytes(octets))
    }

    /// The address of version 6 with these octets, in the order in which a packet has them.
    pub fn v6(octets: [u8; 16]) -> Address
        ensures { result ≡ OfV6 (from_be_bytes w128 octets) }
    {
        Address::V6(u128::from_be_bytes(octets))
    }

    /// Which family the address is of.
    pub fn family(self) -> Family
        ensures { result ≡ family_of self }
    {
        match self {
            Address::V4(_) => Family::V4,
            Address::V6(_) => Family::V6,
        }
    }
}

/// A range of addresses of one family, from a start to an end, both included. A range whose end is
/// below its start is empty.
#[derive(Clone, Copy, Debug, PartialEq, Eq)]
pub enum Range {
    V4(u32, u32),
    V6(u128, u128),
}

impl Range {
    /// The addresses that begin with the first `length` bits of an address (RFC 4632 section 3.1; RFC 4291
    /// section 2.3). Refused are, in this order, a length over the family's 32 or 128 bits, and an address
    /// with a bit set behind its first `length`.
    pub fn prefix(address: Address, length: u8) -> Result<Range, PrefixFault>
        ensures prefix { IfOk result (IsPrefix address length) }
        ensures well_formed { IfOk result (λ _. IsWellFormedPrefix address length) }
        ensures refused { IfErr result (IsPrefixFault address length) }
    {
        match address {
            Address::V4(start) => v4_prefix(start, length),
            Address::V6(start) => v6_prefix(start, length),
        }
    }

    /// The range that holds this address alone.
    pub fn only(address: Address) -> Range
        ensures { result ≡ only_range address }
    {
        match address {
            Address::V4(number) => Range::V4(number, number),
            Address::V6(number) => Range::V6(number, number),
        }
    }

    /// All addresses of a family.
    pub fn whole(family: Family) -> Range
        ensures { result ≡ whole_range family }
    {
        match family {
            Family::V4 => Range::V4(0, u32::MAX),
            Family::V6 => Range::V6(0, u128::MAX),
        }
    }

    /// Which family its addresses are of.
    pub fn family(self) -> Family
        ensures { result ≡ family_of_range self }
    {
        match self {
            Range::V4(_, _) => Family::V4,
            Range::V6(_, _) => Family::V6,
        }
    }

    /// Whether its end is not below its start.
    pub fn is_ordered(self) -> bool
        ensures { IsTrue result ↔ IsOrdered self }
    {
        match self {
            Range::V4(start, end) => start <= end,
            Range::V6(start, end) => start <= end,
        }
    }

    /// Whether an address lies in it, which one of the other family never does.
    pub fn holds(self, address: Address) -> bool
        ensures { IsTrue result ↔ HoldsAddress self address }
    {
        match (self, address) {
            (Range::V4(start, end), Address::V4(number)) => start <= number && number <= end,
            (Range::V6(start, end), Address::V6(number)) => start <= number && number <= end,
            _ => false,
        }
    }

    /// Whether both its ends lie between those of another range of its family. So where it is not empty
    /// it has no address outside of the other one.
    pub fn lies_in(self, other: Range) -> bool
        ensures { IsTrue result ↔ LiesWithin self other }
    {
        match (self, other) {
            (Range::V4(start, end), Range::V4(from, to)) => from <= start && end <= to,
            (Range::V6(start, end), Range::V6(from, to)) => from <= start && end <= to,
            _ => false,
        }
    }

    /// The addresses that lie in both, where there are any.
    pub fn common(self, other: Range) -> Option<Range>
        ensures { MatchOption result (AreApart self other) (IsCommonRange self other) }
    {
        let common = match (self, other) {
            (Range::V4(start, end), Range::V4(from, to)) => Range::V4(start.max(from), end.min(to)),
            (Range::V6(start, end), Range::V6(from, to)) => Range::V6(start.max(from), end.min(to)),
            _ => return None,
        };
        common.is_ordered().then_some(common)
    }
}

// The bits of an address of each family.
const V4_WIDTH: u8 = 32;

const V6_WIDTH: u8 = 128;

#[tactic(auto, using(crate::proofs::PrefixLemmas::block, crate::proofs::PrefixLemmas::block_ends))]
fn v4_prefix(start: u32, length: u8) -> Result<Range, PrefixFault>
    ensures prefix { IfOk result (IsPrefix (OfV4 start) length) }
    ensures well_formed { IfOk result (λ _. IsWellFormedPrefix (OfV4 start) length) }
    ensures refused { IfErr result (IsPrefixFault (OfV4 start) length) }
{
    if length > V4_WIDTH {
        return Err(PrefixFault::Length);
    }
    match last_of_block(u128::from(start), V4_WIDTH - length) {
        Some(last) => Ok(Range::V4(start, last as u32)),
        None => Err(PrefixFault::Host),
    }
}

#[tactic(auto, using(crate::proofs::PrefixLemmas::block, crate::proofs::PrefixLemmas::block_ends))]
fn v6_prefix(start: u128, length: u8) -> Result<Range, PrefixFault>
    ensures prefix { IfOk result (IsPrefix (OfV6 start) length) }
    ensures well_formed { IfOk result (λ _. IsWellFormedPrefix (OfV6 start) length) }
    ensures refused { IfErr result (IsPrefixFault (OfV6 start) length) }
{
    if length > V6_WIDTH {
        return Err(PrefixFault::Length);
    }
    match last_of_block(start, V6_WIDTH - length) {
        Some(last) => Ok(Range::V6(start, last)),
        None => Err(PrefixFault::Host),
    }
}

// The last of the numbers that differ from the start in the lowest `free` bits alone, where the start has
// none of these set.
#[tactic(auto, using(crate::proofs::PrefixLemmas::block_ends))]
fn last_of_block(start: u128, free: u8) -> Option<u128>
    requires { free ≤ 128 }
    ensures { MatchOption result (start % 2 ^ free ≢ 0)
        (λ last. (start % 2 ^ free ≡ 0) × (last ≡ start + (2 ^ free - 1))) }
{
    if free == V6_WIDTH {
        return if start == 0 { Some(u128::MAX) } else { None };
    }
    let size = 1u128 << free;
    if start % size != 0 {
        return None;
    }
    Some(start + (size - 1))
}
