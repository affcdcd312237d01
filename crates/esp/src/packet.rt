//! The layout of a packet (RFC 4303 section 2): the SPI in four octets, the low half of the sequence number
//! in four, the payload, padding, its length in one octet, the next header in one, and the ICV in sixteen.
ghost use Rattle.std.specs.Prelude.{◌≡◌, ℕ, ◌+◌, ◌/◌, ◌%◌, ◌^◌, ◌<◌, ◌≤◌, ◌↔◌, List, [], ◌++◌, length, take, drop};
ghost use Rattle.std.specs.Prelude.{IsTrue, if◌then◌else◌, IfSome, IfNone};
ghost use Rattle.byteorder.specs.Endian.{big_bytes};
ghost use Rattle.esp.specs.Packet.{IsContents, padding};
ghost use Rattle.esp.specs.Judging.{IsJudgedLength, low_half};
ghost use Rattle.esp.specs.Laying.{covered_size, packet_size, pad_of};

use byteorder::{BigEndian, ByteOrder};

/// The octets before the payload: SPI and low half of the sequence number.
pub const HEAD: usize = 8;

/// The octets of the ICV.
pub const CHECK: usize = 16;

/// The octets of pad length and next header.
pub const TAIL: usize = 2;

/// The longest payload that is sealed, in octets.
pub const PAYLOAD_LIMIT: usize = 16_384;

/// The shortest packet that is opened, in octets: one of no payload, with two octets of padding.
pub const PACKET_LEAST: usize = HEAD + 2 + TAIL + CHECK;

/// The longest packet that is opened, in octets: [`PAYLOAD_LIMIT`] and the longest padding, which is 254
/// octets there.
pub const PACKET_LIMIT: usize = 16_664;

/// The least padding with which payload, padding, pad length and next header fill whole words of four octets.
pub fn least_padding(payload: usize) -> usize
    requires { payload + 29 < 2 ^ 64 }
    ensures value { result ≡ pad_of payload }
    ensures aligned { (payload + result + 2) % 4 ≡ 0 }
    ensures least { result < 4 }
{
    (4 - (payload + TAIL) % 4) % 4
}

/// The octets that an ICV covers in the packet of a payload of so many.
pub fn covered_size(payload: usize) -> usize
    requires { payload ≤ PAYLOAD_LIMIT }
    ensures { result ≡ covered_size payload }
{
    HEAD + payload + least_padding(payload) + TAIL
}

/// The octets of the packet of a payload of so many: from 26 to 29 more, with the least padding.
pub fn packet_size(payload: usize) -> usize
    requires { payload + 29 < 2 ^ 64 }
    ensures { result ≡ packet_size payload }
{
    HEAD + payload + least_padding(payload) + TAIL + CHECK
}

/// Whether a packet of so many octets is judged at all.
pub fn is_judged_length(octets: usize) -> bool
    ensures { IsTrue result ↔ IsJudgedLength octets }
{
    octets % 4 == 0 && octets >= PACKET_LEAST && octets <= PACKET_LIMIT
}

/// SPI and low half of the sequence number, as a packet begins.
pub fn head_of(spi: u32, number: u64) -> [u8; 8]
    ensures { result ≡ big_bytes 4 spi ++ big_bytes 4 (number % 2 ^ 32) }
{
    let mut head = [0; HEAD];
    BigEndian::write_u32(&mut head[..4], spi);
    BigEndian::write_u32(&mut head[4..], (number % (1 << 32)) as u32);
    head
}

/// The high half of a sequence number, which is covered by the ICV where ESN is used and is never sent.
pub fn high_half(number: u64) -> [u8; 4]
    ensures { result ≡ big_bytes 4 (number / 2 ^ 32) }
{
    let mut half = [0; 4];
    BigEndian::write_u32(&mut half, (number >> 32) as u32);
    half
}

/// What of a sequence number's high half the ICV covers.
pub fn unsent_of(extended: bool, half: &[u8; 4]) -> &[u8]
    ensures { result.now ≡ (if extended then half.now else []) }
{
    if extended { half } else { &[] }
}

/// The low half of a packet's sequence number.
pub fn low_half_of(packet: &[u8]) -> u32
    requires { HEAD ≤ length packet.now }
    ensures { result ≡ low_half packet.now }
{
    BigEndian::read_u32(&packet[4..])
}

/// The next header and the payload's length in octets; `None` where the padding doesn't fit or is not 1, 2,
/// .. .
pub fn contents(packet: &[u8]) -> Option<(u8, usize)>
    requires { IsJudgedLength (length packet.now) }
    ensures found { IfSome result (λ found. (HEAD + found.1 ≤ length packet.now)
        × IsContents packet.now found.0 (take found.1 (drop HEAD packet.now))) }
    ensures none { IfNone result ((next : ℕ) (payload : List ℕ) → ¬ IsContents packet.now next payload) }
{
    let end = packet.len() - CHECK - TAIL;
    let pad = usize::from(packet[end]);
    let next = packet[end + 1];
    if pad <= end - HEAD && is_padding(&packet[end - pad..end]) {
        Some((next, end - pad - HEAD))
    } else {
        None
    }
}

/// Whether these octets are this ICV. They are compared as one number, which takes less time than octet by
/// octet.
pub fn is_check_value(octets: &[u8], value: &[u8; CHECK]) -> bool
    requires { length octets.now ≡ CHECK }
    ensures { IsTrue result ↔ (octets.now ≡ value.now) }
{
    let mut found = [0; CHECK];
    found.copy_from_slice(octets);
    u128::from_le_bytes(found) == u128::from_le_bytes(*value)
}

// Whether the octets are 1, 2, .. .
fn is_padding(octets: &[u8]) -> bool
    ensures { IsTrue result ↔ (octets.now ≡ padding (length octets.now)) }
{
    for (place, octet) in octets.iter().enumerate() {
        if usize::from(*octet) != place + 1 {
            return false;
        }
    }
    true
}
