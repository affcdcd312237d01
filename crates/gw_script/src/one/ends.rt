//! The two ends of one SA.
ghost use Rattle.std.specs.Prelude.{◌≡◌};

use super::directive::Terms;
use super::report::Report;
use crate::LineFault;
use esp::{Inbound, Outbound};
use replay::{BlockWindow, is_block_count};
use std::alloc::{AllocError, Global};

/// The two ends of one SA, and the packets that its sender sealed.
#[derive(Drop)]
pub struct Ends {
    alloc: Global,
    terms: Terms,
    sender: Outbound,
    receiver: Inbound<BlockWindow>,
    packets: Vec<Vec<u8>>,
    ghost same_index: { receiver.association.spi ≡ terms.spi },
}

impl Ends {
    /// Two ends that agree on these terms, before the first packet. Refused where no window has so many
    /// blocks.
    pub fn new(alloc: Global, terms: Terms) -> Result<Ends, LineFault> {
        if !is_block_count(terms.blocks) {
            return Err(LineFault::Refused);
        }
        let window = BlockWindow::new(alloc, terms.blocks)?;
        Ok(Ends {
            alloc,
            terms,
            sender: Outbound::new(terms.spi, &terms.key, terms.extended, 0),
            receiver: Inbound::new(terms.spi, &terms.key, terms.extended, window),
            packets: Vec::new(alloc),
        })
    }

    /// Gives the sender this last number. Refused where numbers have 32 bits and it has more.
    pub fn set_last(&mut self, last: u64) -> Result<Report, LineFault> {
        if !self.terms.extended && last > u64::from(u32::MAX) {
            return Err(LineFault::Refused);
        }
        self.sender = Outbound::new(self.terms.spi, &self.terms.key, self.terms.extended, last);
        Ok(Report::Done)
    }

    /// Seals a payload, and keeps the packet.
    pub fn seal(&mut self, next: u8, payload: &[u8]) -> Result<Report, LineFault> {
        let mut packet = Vec::new(self.alloc);
        let number = match self.sender.seal(next, payload, &mut packet) {
            Ok(number) => number,
            Err(fault) => return Ok(Report::Refused(fault)),
        };
        let length = packet.len();
        self.packets.push(packet).map_err(AllocError::from)?;
        Ok(Report::Sealed {
            packet: self.packets.len(),
            number,
            length,
        })
    }

    /// Gives the receiver the packet at this place.
    pub fn deliver(&mut self, place: u64) -> Result<Report, LineFault> {
        let packet = self.packet(place)?.clone()?;
        self.receive(&packet)
    }

    /// Gives the receiver the packet at this place with one octet changed.
    pub fn deliver_damaged(
        &mut self,
        place: u64,
        offset: u64,
        change: u8,
    ) -> Result<Report, LineFault> {
        let mut packet = self.packet(place)?.clone()?;
        let octet = packet.get_mut(offset as usize).ok_or(LineFault::Refused)?;
        *octet ^= change;
        self.receive(&packet)
    }

    /// Prints the packet at this place.
    pub fn print(&self, place: u64) -> Result<Report, LineFault> {
        Ok(Report::Packet(self.packet(place)?.clone()?))
    }

    // The packet at this place, from 1. Refused where there is none.
    fn packet(&self, place: u64) -> Result<&Vec<u8>, LineFault> {
        let index = place.checked_sub(1).ok_or(LineFault::Refused)?;
        self.packets.get(index as usize).ok_or(LineFault::Refused)
    }

    // Gives the receiver a packet, but only if it has the SA's index.
    fn receive(&mut self, packet: &[u8]) -> Result<Report, LineFault> {
        if !packet.starts_with(&self.terms.spi.to_be_bytes()) {
            return Ok(Report::UnknownAssociation);
        }
        let mut answers = Vec::with_capacity(self.alloc, 1)?;
        if self.receiver.open_all(&[packet], &mut answers).is_err() {
            return Err(LineFault::Memory);
        }
        match answers[0] {
            Ok(opened) => Ok(Report::Up {
                number: opened.number,
                next: opened.next,
                payload: opened.payload.to_vec(self.alloc)?,
            }),
            Err(fault) => Ok(Report::Refused(fault)),
        }
    }
}
