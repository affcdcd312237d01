//! IPv6 packets (RFC 8200 section 3).
ghost use Rattle.std.specs.Prelude.{◌≡◌, ◌≤◌, IsTrue, ◌↔◌, OnOk, IfErr, MatchOption, ◌+◌, length, drop};
ghost use Rattle.byteorder.specs.Endian.{big_number};
ghost use Rattle.policy.specs.Packets.{IsExtensionHeader, IsIpv6Flow, IsIpv6Packet, IsIpv6Refusal, ipv6_content, version_of};

use crate::fault::InnerFault;
use crate::flow::Flow;
use crate::packet::{INNER_LIMIT, ports_of};
use base::Address;
use byteorder::{BigEndian, ByteOrder};

// The version in the first four bits.
pub(crate) const VERSION: u8 = 6;

// The header, in octets.
const HEADER: usize = 40;

// Next headers that are extension headers and no protocol (RFC 8200 section 4).
const HOP_BY_HOP_OPTIONS: u8 = 0;

const ROUTING: u8 = 43;

const FRAGMENT: u8 = 44;

const AUTHENTICATION: u8 = 51;

const DESTINATION_OPTIONS: u8 = 60;

// Reads the flow of a packet that says it is of version 6.
#[inline(always)]
pub(crate) fn read_flow(octets: &[u8], flow: &mut Flow) -> Result<(), InnerFault>
    requires { version_of octets.now ≡ 6 }
    ensures flow { OnOk result (IsIpv6Flow octets.now flow.new) }
    ensures refused { IfErr result (IsIpv6Refusal octets.now) }
{
    let Some(content) = content_of(octets) else {
        return Err(InnerFault::BadInner);
    };
    let next_header = octets[6];
    if is_extension_header(next_header) {
        return Err(InnerFault::ExtensionHeader);
    }
    flow.ports = ports_of(next_header, content)?;
    flow.protocol = next_header;
    flow.source = Address::V6(address_at(octets, 8));
    flow.target = Address::V6(address_at(octets, 24));
    Ok(())
}

// What follows the header of a packet.
fn content_of(octets: &[u8]) -> Option<&[u8]>
    requires { version_of octets.now ≡ 6 }
    ensures { MatchOption result (¬ IsIpv6Packet octets.now)
        (λ rest. IsIpv6Packet octets.now × (rest.now ≡ ipv6_content octets.now)) }
{
    if octets.len() < HEADER || octets.len() > INNER_LIMIT {
        return None;
    }
    let payload = usize::from(BigEndian::read_u16(&octets[4..]));
    if payload + HEADER == octets.len() {
        Some(&octets[HEADER..])
    } else {
        None
    }
}

fn is_extension_header(next_header: u8) -> bool
    ensures { IsTrue result ↔ IsExtensionHeader next_header }
{
    matches!(
        next_header,
        HOP_BY_HOP_OPTIONS | ROUTING | FRAGMENT | AUTHENTICATION | DESTINATION_OPTIONS
    )
}

// The number that stands in sixteen octets from this one on.
fn address_at(octets: &[u8], place: usize) -> u128
    requires { place + 16 ≤ length octets.now }
    ensures { result ≡ big_number 16 (drop place octets.now) }
{
    BigEndian::read_u128(&octets[place..])
}
