//! The two gateways, and the datagrams between them.
use super::directive::{Act, Delivery, Protocol, Way};
use super::fresh::fresh;
use super::preset::Preset;
use super::report;
use super::side::{Side, address};
use crate::LineFault;
use base::Items;
use caller_script::ScriptCaller;
use gateway::{Datagram, Event, Input, Protection, World, run_world};
use std::alloc::Global;

/// The two gateways, and all datagrams that they sent.
#[derive(Drop)]
pub struct Ends {
    alloc: Global,
    world: World<ScriptCaller>,
    // The number of the next input, from 1, over both ends.
    input: u64,
}

impl Ends {
    /// Two gateways that hold nothing.
    pub fn new(alloc: Global, preset: &Preset) -> Result<Ends, LineFault> {
        let a = preset.gateway(alloc, Side::A)?;
        let b = preset.gateway(alloc, Side::B)?;
        Ok(Ends {
            alloc,
            world: World::new(alloc, a, b),
            input: 1,
        })
    }

    /// Does what is asked, and answers what that prints.
    pub fn follow(&mut self, act: Act) -> Result<String, LineFault> {
        match act {
            Act::Start { side, entry } => self.start(side, None, entry),
            Act::Child { side, ike, entry } => self.start(side, Some(ike), entry),
            Act::Probe { side, ike } => self.probe(side, ike),
            Act::Delete { side, child } => self.delete(side, child),
            Act::Close { side, ike } => self.close(side, ike),
            Act::Tick { side, moment } => self.give(side, Input::Tick { moment }),
            Act::Secret { side, secret } => self.give(side, Input::Secret { secret: &secret }),
            Act::Deliver(delivery) => self.deliver(delivery),
            Act::Raw {
                side,
                protocol,
                octets,
            } => self.bring(side, protocol, octets.as_slice()),
            Act::Out { side, packet } => {
                let packet = packet.as_slice();
                self.give(side, Input::Outward { packet })
            }
            Act::In { side, packet } => {
                let packet = packet.as_slice();
                self.give(side, Input::Inward { packet })
            }
            Act::Table { side } => self.table(side),
            Act::Same { one, other } => self.compare(one, other),
        }
    }

    // Asks for a child with a new IKE SA, or for a further one of the IKE SA with this serial.
    fn start(&mut self, side: Side, ike: Option<u32>, entry: u32) -> Result<String, LineFault> {
        let fresh = &fresh(self.alloc, self.input)?;
        self.give(side, Input::Start { ike, entry, fresh })
    }

    fn probe(&mut self, side: Side, ike: u32) -> Result<String, LineFault> {
        let fresh = &fresh(self.alloc, self.input)?;
        self.give(side, Input::Probe { ike, fresh })
    }

    fn delete(&mut self, side: Side, child: u32) -> Result<String, LineFault> {
        let fresh = &fresh(self.alloc, self.input)?;
        self.give(side, Input::DeleteChild { child, fresh })
    }

    fn close(&mut self, side: Side, ike: u32) -> Result<String, LineFault> {
        let fresh = &fresh(self.alloc, self.input)?;
        self.give(side, Input::DeleteIke { ike, fresh })
    }

    fn deliver(&mut self, delivery: Delivery) -> Result<String, LineFault> {
        let datagram = self.datagram(delivery.datagram)?;
        let receiver = match delivery.way {
            Way::Back => datagram.end,
            Way::Straight | Way::Damaged { .. } | Way::Cut { .. } => datagram.end.other(),
        };
        let protocol = protocol_of(&datagram.mark);
        let octets = travelled(self.alloc, datagram.octets.as_slice(), delivery.way)?;
        self.bring(receiver, protocol, octets.as_slice())
    }

    // Octets come to an end, from the other's address.
    fn bring(
        &mut self,
        side: Side,
        protocol: Protocol,
        octets: &[u8],
    ) -> Result<String, LineFault> {
        match protocol {
            Protocol::Esp => self.give(side, Input::Esp { octets }),
            Protocol::Ike => {
                let from = address(side.other());
                let fresh = &fresh(self.alloc, self.input)?;
                let input = Input::Ike {
                    from,
                    octets,
                    fresh,
                };
                self.give(side, input)
            }
        }
    }

    // Gives an end an input.
    fn give(&mut self, side: Side, input: Input<'_>) -> Result<String, LineFault> {
        self.input = self.input.saturating_add(1);
        let alloc = self.alloc;
        let place = self.world.datagrams().len() + 1;
        let events = [Event { end: side, input }];
        let mut outputs = Vec::new(alloc);
        run_world(alloc, &mut self.world, &events, &mut outputs)?;
        let mut text = String::new(alloc);
        for output in &outputs {
            let lines = report::of_output(alloc, output, place)?;
            text.push_str(lines.as_str())?;
        }
        Ok(text)
    }

    fn table(&self, side: Side) -> Result<String, LineFault> {
        let table = self.world.gateway(side).table();
        Ok(report::of_table(self.alloc, table)?)
    }

    fn compare(&self, one: u64, other: u64) -> Result<String, LineFault> {
        let one = self.world.datagram(one).ok_or(LineFault::Refused)?;
        let other = self.world.datagram(other).ok_or(LineFault::Refused)?;
        Ok(report::of_comparison(self.alloc, one == other)?)
    }

    // The datagram at this place, from 1. Refused where there is none.
    fn datagram(&self, place: u64) -> Result<&Datagram, LineFault> {
        let index = place.checked_sub(1).ok_or(LineFault::Refused)?;
        let datagrams = self.world.datagrams();
        datagrams.get(index as usize).ok_or(LineFault::Refused)
    }
}

// What a datagram that was sent belongs to.
fn protocol_of(mark: &Protection) -> Protocol {
    match mark {
        Protection::Esp { .. } => Protocol::Esp,
        Protection::Plain | Protection::Ike { .. } => Protocol::Ike,
    }
}

// What comes of a datagram's octets. Refused where they have no such octet, or are fewer.
fn travelled(alloc: Global, octets: &[u8], way: Way) -> Result<Items<u8>, LineFault> {
    match way {
        Way::Straight | Way::Back => Ok(Items::from_slice(alloc, octets)?),
        Way::Cut { length } => {
            let beginning = octets.get(..length as usize).ok_or(LineFault::Refused)?;
            Ok(Items::from_slice(alloc, beginning)?)
        }
        Way::Damaged { offset, change } => {
            let mut damaged = octets.to_vec(alloc)?;
            let octet = damaged.get_mut(offset as usize).ok_or(LineFault::Refused)?;
            *octet ^= change;
            Ok(Items::from_vec(damaged))
        }
    }
}
