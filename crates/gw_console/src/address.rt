//! Addresses as text: of IPv4 four decimal numbers with dots, of IPv6 all 32 hexadecimal digits, by fours
//! between colons.
ghost use Rattle.std.specs.Prelude.{◌≡◌, IfOk, string_bytes};
ghost use Rattle.gw_console.specs.Addresses.{address_text, groups_text};

use base::Address;
use std::alloc::{AllocError, Global};
use std::net::{Ipv4Addr, Ipv6Addr};

// The groups of an IPv6 address, of 16 bits each.
const GROUPS: usize = 8;

// The digits of a group.
const GROUP_DIGITS: usize = 4;

/// An address as text, its hexadecimal digits in lower case.
#[tactic(auto, unfolding(std::specs::Net::Addr::IsIpv4OfBits, std::specs::Net::Addr::IsIpv6OfBits))]
pub fn address_text(alloc: Global, address: Address) -> Result<String, AllocError>
    ensures { IfOk result (λ text. string_bytes text ≡ address_text address) }
{
    match address {
        Address::V4(number) => {
            let dotted = Ipv4Addr::from(number);
            format!(in alloc; "{dotted}")
        }
        Address::V6(number) => groups_text(alloc, Ipv6Addr::from(number).segments()),
    }
}

fn groups_text(alloc: Global, groups: [u16; GROUPS]) -> Result<String, AllocError>
    ensures { IfOk result (λ text. string_bytes text ≡ groups_text groups) }
{
    let mut text = format!(in alloc; "{:04x}", groups[0])?;
    for group in &groups[1..] {
        write!(text, ":{group:04x}")?;
    }
    Ok(text)
}

/// The address that a text spells in one of the two forms, hexadecimal digits in either case; `None`
/// where it spells none.
pub fn read_address(text: &str) -> Option<Address> {
    match text.parse::<Ipv4Addr>() {
        Ok(dotted) => Some(Address::V4(u32::from(dotted))),
        Err(_) => Some(Address::V6(read_groups(text)?)),
    }
}

fn read_groups(text: &str) -> Option<u128> {
    let mut number: u128 = 0;
    let mut count = 0;
    for group in text.split(':') {
        if count >= GROUPS {
            return None;
        }
        number = (number << 16) | u128::from(read_group(group)?);
        count += 1;
    }
    (count == GROUPS).then_some(number)
}

// A group has four digits and no sign.
fn read_group(group: &str) -> Option<u16> {
    let digits = group.as_bytes();
    if digits.len() != GROUP_DIGITS || !digits.iter().all(|digit| digit.is_ascii_hexdigit()) {
        return None;
    }
    u16::from_str_radix(group, 16).ok()
}
