//! What the two ends of a one-way SA agree on.
ghost use Rattle.std.specs.Prelude.{◌≡◌, ◌+◌, ◌<◌, ◌≤◌, ◌++◌, [], length, if◌then◌else◌, IfSome, IfNone};
ghost use Rattle.lanes.specs.Task.{icv_of};
ghost use Rattle.mac.specs.Hmac.{icv_sha256};
ghost use Rattle.esp.specs.Ahead.{IsAhead, value_of};
ghost use Rattle.esp.specs.Packet.{check_value, number_limit};

use crate::ahead::Ahead;
use crate::packet::{CHECK, high_half, unsent_of};
use lanes::{LaneKey, Task};

/// What the two ends of a one-way SA agree on (RFC 4301 section 4.1).
#[derive(Drop)]
pub struct Sa {
    /// The security parameters index, which each of its packets begins with.
    pub spi: u32,
    /// The integrity key of 32 octets, prepared once.
    pub key: LaneKey,
    /// Whether sequence numbers have 64 bits, of which 32 are sent (RFC 4303 section 2.2.1), or 32.
    pub extended: bool,
}

impl Sa {
    /// The sequence number after `last`, if there is one.
    pub fn number_after(&self, last: u64) -> Option<u64>
        ensures some { IfSome result (λ n. (n ≡ last + 1) × (n < number_limit self.now.extended)) }
        ensures none { IfNone result (¬ (last + 1 < number_limit self.now.extended)) }
    {
        let most = if self.extended {
            u64::MAX
        } else {
            u64::from(u32::MAX)
        };
        (last < most).then(|| last + 1)
    }

    /// The ICV of the packet with this sequence number over its octets from SPI to next header, and over the
    /// high half of the number where ESN is used (RFC 4303 sections 2.2.1 and 2.8).
    ///
    /// Over n octets in all it costs ceil((n + 9) / 64) + 1 compressions of SHA-256.
    pub fn check_value(&self, number: u64, covered: &[u8]) -> [u8; CHECK]
        ensures { result ≡ check_value self.now number covered.now }
    {
        self.task(covered, &high_half(number)).icv()
    }

    /// The ICV of a packet under this sequence number, over all but its last 16 octets. A value that was
    /// computed ahead for another number is of no use.
    pub fn value_with(&self, number: u64, packet: &[u8], ahead: Option<Ahead>) -> [u8; CHECK]
        requires long { CHECK ≤ length packet.now }
        requires ahead { IfSome ahead (IsAhead self.now packet.now) }
        ensures { result ≡ value_of self.now number packet.now }
    {
        match ahead {
            Some(ahead) if ahead.number == number => ahead.value,
            _ => self.check_value(number, &packet[..packet.len() - CHECK]),
        }
    }

    /// What its ICV is computed from: the octets of a packet from SPI to next header, and the high half of
    /// its sequence number where ESN is used.
    pub fn task<'a>(&'a self, covered: &'a [u8], half: &'a [u8; 4]) -> Task<'a>
        ensures { icv_of result ≡ icv_sha256 self.now.key
            (covered.now ++ (if self.now.extended then half.now else [])) }
    {
        Task {
            key: &self.key,
            octets: covered,
            more: unsent_of(self.extended, half),
        }
    }
}
