//! Packets that come protected (RFC 4301, section 5.2).
ghost use Rattle.std.specs.Prelude.{IfErr, IfOk, IfSome};
ghost use Rattle.esp.specs.Precomputed.{IsPrecomputed, IsQuestion};
ghost use Rattle.sadb.specs.Database.{IsForPair};
ghost use Rattle.traffic.specs.Outcomes.{outcome_of_arrival};
ghost use Rattle.traffic.specs.Receiving.{IsAddressedTo, IsAddressedToNone, Receives, reception_of};

use crate::PacketFault;
use crate::verdict::judge;
use byteorder::{BigEndian, ByteOrder};
use esp::{EspFault, Precomputed, Question};
use sadb::{Pair, Table};

/// What came of an ESP packet. A Child SA is told by the serial of its SA pair.
#[derive(Clone, Copy, Debug, PartialEq, Eq)]
pub enum Arrival<'a> {
    /// An inner packet goes up.
    Up {
        /// The serial of the SA pair that carried it.
        child: u32,
        /// Its sequence number there.
        number: u64,
        /// Its octets, in the packet that came.
        packet: &'a [u8],
    },
    /// A dummy packet, which carries nothing (RFC 4303, section 2.6).
    Dummy {
        /// The serial of the SA pair that carried it.
        child: u32,
        /// Its sequence number there.
        number: u64,
    },
    /// It is dropped.
    Dropped(PacketFault),
}

// The octets of an SPI, with which a packet begins (RFC 4303, section 2.1).
const SPI: usize = 4;

/// Takes an ESP packet that came: finds the SA pair that it is addressed to, opens the packet by its inbound
/// SA, and delivers what it carried. Takes no memory.
///
/// Dropped, in this order: [`EspFault::BadLength`] (E14) with fewer than 4 octets;
/// [`PacketFault::UnknownAssociation`] (E28) where no pair, Live or Deleting, has the SPI; the refusals of
/// [`Table::open`]; and, with the sequence number taken, E21 for a next header other than 4, 41 and 59 and
/// for a packet of another family than 4 (IPv4) or 41 (IPv6) names, the refusals of [`policy::inner`], and
/// [`PacketFault::OutsideSelectors`] (E23) where the pair's remote selectors don't hold the source or its
/// local ones the target.
pub fn receive<'a>(table: &mut Table, packet: &'a [u8]) -> Arrival<'a>
    ensures { Receives table.old packet.now (outcome_of_arrival result) table.new }
{
    receive_ahead(table, packet, None)
}

/// Takes an ESP packet that came as [`receive`] does, with its ICV where that was computed before
/// ([`question`]). However the table changed meanwhile: the value is used where it was computed with the key
/// of the SA pair that the packet is addressed to now, and for the sequence number that it has there now.
pub fn receive_ahead<'a>(
    table: &mut Table,
    packet: &'a [u8],
    ahead: Option<Precomputed>,
) -> Arrival<'a>
    requires { IfSome ahead (IsPrecomputed packet.now) }
    ensures { Receives table.old packet.now (outcome_of_arrival result) table.new }
{
    match open(table, packet, ahead) {
        Ok(arrival) => arrival,
        Err(fault) => Arrival::Dropped(fault),
    }
}

/// What the ICV of an ESP packet is computed from, where the packet is addressed to an SA pair and has a
/// sequence number there that was not taken. For [`esp::precompute`].
pub fn question<'a>(table: &'a Table, packet: &'a [u8]) -> Option<Question<'a>>
    ensures { IfSome result (IsQuestion packet.now) }
{
    match addressee(table, packet) {
        Ok(pair) => pair.inbound.question(packet),
        Err(_) => None,
    }
}

fn open<'a>(
    table: &mut Table,
    packet: &'a [u8],
    ahead: Option<Precomputed>,
) -> Result<Arrival<'a>, PacketFault>
    requires { IfSome ahead (IsPrecomputed packet.now) }
    ensures { Receives table.old packet.now (reception_of result) table.new }
{
    let child = addressee(table, packet)?.serial;
    let opened = table.open_ahead(child, packet, ahead)?;
    let number = opened.number;
    // Opening takes no SA pair out.
    let pair = table.get(child).unwrap();
    match judge(pair, opened)? {
        Some(packet) => Ok(Arrival::Up {
            child,
            number,
            packet,
        }),
        None => Ok(Arrival::Dummy { child, number }),
    }
}

// The SA pair that a packet is addressed to.
fn addressee<'a>(table: &'a Table, packet: &[u8]) -> Result<&'a Pair, PacketFault>
    ensures found { IfOk result (λ pair. IsAddressedTo table.now packet.now pair.now) }
    ensures may_open { IfOk result (λ pair. IsForPair table.now.pairs pair.now.serial packet.now) }
    ensures none { IfErr result (IsAddressedToNone table.now packet.now) }
{
    if packet.len() < SPI {
        return Err(PacketFault::Esp(EspFault::BadLength));
    }
    match table.inbound(BigEndian::read_u32(packet)) {
        Some(pair) => Ok(pair),
        None => Err(PacketFault::UnknownAssociation),
    }
}
