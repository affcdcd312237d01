//! What comes to a gateway.
use crate::OwnedInput;
use base::Items;
use std::alloc::{AllocError, Global};
use suite::Fresh;

/// The order to begin an IKE SA, with fresh octets of this SPI.
pub fn order(spi: u64) -> OwnedInput {
    OwnedInput::Start {
        ike: None,
        entry: 0,
        fresh: fresh(spi),
    }
}

/// The order for an additional Child SA of an IKE SA.
pub fn further(ike: u32) -> OwnedInput {
    OwnedInput::Start {
        ike: Some(ike),
        entry: 0,
        fresh: fresh(9),
    }
}

/// A datagram of IKE, with fresh octets of this SPI.
pub fn message(alloc: Global, octets: &[u8], spi: u64) -> Result<OwnedInput, AllocError> {
    Ok(OwnedInput::Ike {
        from: [192, 0, 2, 9],
        octets: Items::from_slice(alloc, octets)?,
        fresh: fresh(spi),
    })
}

/// Fresh octets of this SPI.
pub fn fresh(spi: u64) -> Fresh {
    Fresh {
        spi,
        nonce: [9; 32],
        secret: [7; 32],
        seal: [0; 16],
    }
}

/// The order to ask whether the peer of an IKE SA is there.
pub fn probe(ike: u32) -> OwnedInput {
    OwnedInput::Probe {
        ike,
        fresh: fresh(9),
    }
}

/// The IPv4 packet from 10.0.0.0/24 to 10.1.0.1 that is a header alone and tells its number by its
/// identification and its source.
pub fn inner(number: u64) -> [u8; 20] {
    let [_, _, _, _, _, high, middle, low] = number.to_be_bytes();
    [
        0x45, 0, 0, 20, middle, low, 0, 0, 0x40, 1, 0, 0, 10, 0, 0, high, 10, 1, 0, 1,
    ]
}

/// That packet on its way out.
pub fn packet_out(alloc: Global, number: u64) -> Result<OwnedInput, AllocError> {
    let packet = Items::from_slice(alloc, &inner(number))?;
    Ok(OwnedInput::Outward { packet })
}
