//! IPv4 packets (RFC 791 section 3.1).
ghost use Rattle.std.specs.Prelude.{◌≡◌, ◌≤◌, IsTrue, ◌↔◌, OnOk, IfErr, MatchOption, ◌+◌, length, drop};
ghost use Rattle.byteorder.specs.Endian.{big_number};
ghost use Rattle.policy.specs.Packets.{IsFragment, IsIpv4Flow, IsIpv4Packet, IsIpv4Refusal, ipv4_content, version_of};

use crate::fault::InnerFault;
use crate::flow::Flow;
use crate::packet::{INNER_LIMIT, ports_of};
use base::Address;
use byteorder::{BigEndian, ByteOrder};

// The version in the first four bits.
pub(crate) const VERSION: u8 = 4;

// A header without options, in octets.
const HEADER_LEAST: usize = 20;

// The bit in octets 6 and 7 that tells of more fragments; below it stands the fragment offset.
const MORE_FRAGMENTS: u16 = 1 << 13;

// Reads the flow of a packet that says it is of version 4.
#[inline(always)]
pub(crate) fn read_flow(octets: &[u8], flow: &mut Flow) -> Result<(), InnerFault>
    requires { version_of octets.now ≡ 4 }
    ensures flow { OnOk result (IsIpv4Flow octets.now flow.new) }
    ensures refused { IfErr result (IsIpv4Refusal octets.now) }
{
    let Some(content) = content_of(octets) else {
        return Err(InnerFault::BadInner);
    };
    if is_fragment(octets) {
        return Err(InnerFault::Fragment);
    }
    let protocol = octets[9];
    flow.ports = ports_of(protocol, content)?;
    flow.protocol = protocol;
    flow.source = Address::V4(address_at(octets, 12));
    flow.target = Address::V4(address_at(octets, 16));
    Ok(())
}

// What follows the header of a packet.
fn content_of(octets: &[u8]) -> Option<&[u8]>
    requires { version_of octets.now ≡ 4 }
    ensures { MatchOption result (¬ IsIpv4Packet octets.now)
        (λ rest. IsIpv4Packet octets.now × (rest.now ≡ ipv4_content octets.now)) }
{
    if octets.len() < HEADER_LEAST || octets.len() > INNER_LIMIT {
        return None;
    }
    let header = usize::from(octets[0] % 16) * 4;
    let total = usize::from(BigEndian::read_u16(&octets[2..]));
    if header >= HEADER_LEAST && header <= octets.len() && total == octets.len() {
        Some(&octets[header..])
    } else {
        None
    }
}

// Whether a packet is a fragment.
fn is_fragment(octets: &[u8]) -> bool
    requires { 20 ≤ length octets.now }
    ensures { IsTrue result ↔ IsFragment octets.now }
{
    let field = BigEndian::read_u16(&octets[6..]);
    field / MORE_FRAGMENTS % 2 == 1 || field % MORE_FRAGMENTS != 0
}

// The number that stands in four octets from this one on.
fn address_at(octets: &[u8], place: usize) -> u32
    requires { place + 4 ≤ length octets.now }
    ensures { result ≡ big_number 4 (drop place octets.now) }
{
    BigEndian::read_u32(&octets[place..])
}
