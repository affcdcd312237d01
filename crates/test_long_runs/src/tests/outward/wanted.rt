//! What is to come of a packet on its way out at a gateway that remembers nothing.
use esp::Outbound;
use flows::Treatment;
use gateway::Output;
use sadb::{Pair, Table};
use std::alloc::{AllocError, Global};

/// The next header of an IPv4 packet in a tunnel (RFC 4303, section 2.6).
const IPV4: u8 = 4;

/// What is to come of a packet.
#[derive(Drop)]
pub enum Wanted {
    /// It goes out by this child, under this number, in these octets.
    Sealed(u32, u64, Vec<u8>),
    /// It is dropped, since no child carries it.
    Uncarried,
    /// It goes out as it is.
    Clear,
    Discarded,
    /// It is no packet that a flow can be told of.
    Nothing,
}

impl Wanted {
    /// Whether this is what came of it, octet for octet.
    pub fn is(&self, output: &Output<'_>, packet: &[u8]) -> bool {
        match (self, output) {
            (
                Wanted::Sealed(by, under, wanted),
                Output::Sealed {
                    child,
                    number,
                    octets,
                },
            ) => { child == by && number == under && octets.as_slice() == wanted.as_slice() }
            (Wanted::Uncarried, Output::Dropped { reason }) => reason.code() == 28,
            (Wanted::Clear, Output::Clear { packet: sent }) => *sent == packet,
            (Wanted::Discarded, Output::Discarded) => true,
            _ => false,
        }
    }
}

/// What is to come of a packet that is treated so; where a child carries it, as its packet of this number.
pub fn wanted_of(
    alloc: Global,
    table: &Table,
    treatment: Treatment,
    number: u64,
    packet: &[u8],
) -> Result<Wanted, AllocError> {
    match treatment {
        Treatment::Carried(child) => {
            let octets = sealed(alloc, table.get(child), number, packet)?;
            Ok(Wanted::Sealed(child, number, octets))
        }
        Treatment::Uncarried => Ok(Wanted::Uncarried),
        Treatment::Bypassed => Ok(Wanted::Clear),
        Treatment::Discarded => Ok(Wanted::Discarded),
    }
}

/// The octets of a pair's packet of this number, by a sender that is made anew for it.
fn sealed(
    alloc: Global,
    pair: Option<&Pair>,
    number: u64,
    packet: &[u8],
) -> Result<Vec<u8>, AllocError> {
    let mut octets = Vec::new(alloc);
    let Some(pair) = pair else {
        return Ok(octets);
    };
    let own = &pair.outbound;
    let last = number.saturating_sub(1);
    let mut sender = Outbound::new(own.spi(), &own.key(), own.is_extended(), last);
    match sender.seal(IPV4, packet, &mut octets) {
        Ok(_) => Ok(octets),
        Err(_) => Err(AllocError),
    }
}
