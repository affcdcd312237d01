//! What is due to each ESP packet that comes, by a rule that never forgets a number (RFC 4303, section
//! 3.4.3 and appendix A2).
use std::alloc::Global;
use std::collections::BTreeSet;
use std::process::Abort;

/// What is wanted of an input.
#[derive(Clone, Copy, Debug, PartialEq, Eq)]
pub enum Wanted {
    /// What the packet with this number carried goes up.
    Up(u64),
    /// What came is dropped, with this refusal.
    Dropped(u8),
    /// A request is answered by the octets that answered it before.
    Repeat,
}

/// All numbers that were ever judged, and the greatest of them.
#[derive(Drop)]
pub struct Judged {
    numbers: BTreeSet<u64>,
    greatest: u64,
    extended: bool,
}

/// The numbers of a window that ends at the greatest one: two blocks of 64, of which one is being filled.
const WINDOW: u64 = 64;

/// How many numbers have low halves that differ.
const CYCLE: u64 = 1 << 32;

/// The SPI under which A sends.
const SPI: u32 = 8192;

/// The word at a place.
fn word(packet: &[u8], place: usize) -> Option<u32> {
    let rest = packet.get(place..)?;
    Some(u32::from_be_bytes(*rest.first_chunk::<4>()?))
}

impl Judged {
    pub fn new(alloc: Global, extended: bool) -> Judged {
        Judged {
            numbers: BTreeSet::new(alloc),
            greatest: 0,
            extended,
        }
    }

    /// What is due to a packet, which A sent with this number, where it did.
    pub fn answer(&mut self, rt: &impl Abort, packet: &[u8], sent: Option<u64>) -> Wanted {
        match word(packet, 0) {
            None => return Wanted::Dropped(14),
            Some(SPI) => {}
            Some(_) => return Wanted::Dropped(28),
        }
        if packet.len() < 28 || packet.len() % 4 != 0 {
            return Wanted::Dropped(14);
        }
        let low = word(packet, 4).unwrap_or(0);
        match self.number(u64::from(low)) {
            Some(number) => self.due(rt, number, sent == Some(number)),
            None => Wanted::Dropped(17),
        }
    }

    /// What is due to a packet with this number.
    fn due(&mut self, rt: &impl Abort, number: u64, is_intact: bool) -> Wanted {
        if number.saturating_add(WINDOW) <= self.greatest {
            Wanted::Dropped(15)
        } else if self.numbers.contains(&number) {
            Wanted::Dropped(16)
        } else if !is_intact {
            Wanted::Dropped(18)
        } else {
            self.numbers.insert(number).expect(rt, "memory");
            self.greatest = self.greatest.max(number);
            Wanted::Up(number)
        }
    }

    /// The number that a packet with this low half has.
    fn number(&self, low: u64) -> Option<u64> {
        let next = low.saturating_add(CYCLE);
        if !self.extended {
            (low != 0).then_some(low)
        } else if self.may_be(low) {
            Some(low)
        } else if self.may_be(next) {
            Some(next)
        } else {
            None
        }
    }

    /// Whether it lies in the cycle of numbers that begins at the window's lower edge.
    fn may_be(&self, number: u64) -> bool {
        let end = number.saturating_add(WINDOW);
        number != 0 && self.greatest < end && end <= self.greatest.saturating_add(CYCLE)
    }
}
