//! The flow of a packet: the rules of either version of IP, and the ports that both have in common.
ghost use Rattle.std.specs.Prelude.{◌≡◌, ◌≤◌, IfOk, IfErr, OnOk, length};
ghost use Rattle.base.specs.Addresses.{family_of};
ghost use Rattle.policy.specs.declared.fault.InnerFault.TheVariants.{BadInner};
ghost use Rattle.policy.specs.Packets.{family_of_packet, ArePorts, IsFlowOf, IsInnerRefusal, LacksPorts};

use crate::fault::InnerFault;
use crate::flow::{Flow, Ports};
use crate::point::has_ports;
use crate::{ipv4, ipv6};
use base::{Address, Family};
use byteorder::{BigEndian, ByteOrder};

// The longest packet, in octets, a limit of this implementation.
pub(crate) const INNER_LIMIT: usize = 16_384;

// The two ports that TCP and UDP begin with, in octets.
const PORTS: usize = 4;

/// The flow of a packet of IP version 4 or 6, whose addresses are both of the packet's version. The
/// checksum of an IPv4 header is not looked at.
///
/// Refused, in this order: [`InnerFault::BadInner`] (E21) for another version, more than 16,384 octets, a
/// header that is shorter than its version's (20 or 40 octets) or doesn't fit, or a length in it that is
/// not that of the octets; [`InnerFault::Fragment`] (E22) for a fragment of IPv4;
/// [`InnerFault::ExtensionHeader`] (E39) for IPv6 with an extension header; E21 for TCP and UDP with fewer
/// than four octets behind the IP header.
pub fn inner(octets: &[u8]) -> Result<Flow, InnerFault>
    ensures flow { IfOk result (IsFlowOf octets.now) }
    ensures one_family { IfOk result (λ f. family_of f.source ≡ family_of f.target) }
    ensures refused { IfErr result (IsInnerRefusal octets.now) }
{
    let mut flow = no_flow();
    read_inner(octets, &mut flow)?;
    Ok(flow)
}

/// A flow between no addresses, for [`read_inner`] to write into.
#[inline(always)]
pub fn no_flow() -> Flow {
    Flow {
        protocol: 0,
        source: Address::V4(0),
        target: Address::V4(0),
        ports: None,
    }
}

/// Reads the flow of a packet as [`inner`] does, into a place of the caller's. Refused as that is; what stands
/// in the place then is no flow of the packet.
///
/// So a flow is written once, where it is read. An answer of so many octets would be copied by wide loads
/// right behind narrow stores, which takes longer than all the reading.
#[inline(always)]
pub fn read_inner(octets: &[u8], flow: &mut Flow) -> Result<(), InnerFault>
    ensures flow { OnOk result (IsFlowOf octets.now flow.new) }
    ensures one_family { OnOk result (family_of flow.new.source ≡ family_of flow.new.target) }
    ensures refused { IfErr result (IsInnerRefusal octets.now) }
{
    if octets.is_empty() {
        return Err(InnerFault::BadInner);
    }
    match octets[0] / 16 {
        ipv4::VERSION => ipv4::read_flow(octets, flow),
        ipv6::VERSION => ipv6::read_flow(octets, flow),
        _ => Err(InnerFault::BadInner),
    }
}

/// The family that a packet's version names, `None` where it is neither 4 nor 6 or there is no octet.
/// Nothing else of the packet is looked at: so the next header of ESP is compared with the packet that it
/// came with before anything else of it is judged (RFC 4303 section 2.6). Takes no memory.
pub fn family_of_packet(packet: &[u8]) -> Option<Family>
    ensures { result ≡ family_of_packet packet.now }
{
    match packet.first()? / 16 {
        ipv4::VERSION => Some(Family::V4),
        ipv6::VERSION => Some(Family::V6),
        _ => None,
    }
}

// The ports that a packet's content begins with, where its protocol has ports.
pub(crate) fn ports_of(protocol: u8, content: &[u8]) -> Result<Option<Ports>, InnerFault>
    ensures ports { IfOk result (ArePorts protocol content.now) }
    ensures short { IfErr result (λ fault. (fault ≡ BadInner) × LacksPorts protocol content.now) }
{
    if !has_ports(protocol) {
        return Ok(None);
    }
    if content.len() < PORTS {
        return Err(InnerFault::BadInner);
    }
    Ok(Some(Ports {
        source: BigEndian::read_u16(content),
        target: BigEndian::read_u16(&content[2..]),
    }))
}
