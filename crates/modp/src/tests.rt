//! Values that python's `pow` gives, and octets that spell no element.
use crate::Element;
use crate::limbs::{LIMBS, Limbs};
use crate::montgomery::{divided_product, divided_square};
use crate::octets::limbs_of;
use byteorder::{BigEndian, ByteOrder};
use std::process::Abort;

const FIRST: [u8; 32] =
    *b"\x10\x11\x12\x13\x14\x15\x16\x17\x18\x19\x1a\x1b\x1c\x1d\x1e\x1f\x20\x21\x22\x23\x24\x25\x26\x27\x28\x29\x2a\x2b\x2c\x2d\x2e\x2f";

const SECOND: [u8; 32] =
    *b"\xc8\xcf\xd6\xdd\xe4\xeb\xf2\xf9\x00\x07\x0e\x15\x1c\x23\x2a\x31\x38\x3f\x46\x4d\x54\x5b\x62\x69\x70\x77\x7e\x85\x8c\x93\x9a\xa1";

/// The prime of RFC 3526, section 3, by words, highest first.
const PRIME: [u64; 32] = [
    0xffffffffffffffff,
    0xc90fdaa22168c234,
    0xc4c6628b80dc1cd1,
    0x29024e088a67cc74,
    0x020bbea63b139b22,
    0x514a08798e3404dd,
    0xef9519b3cd3a431b,
    0x302b0a6df25f1437,
    0x4fe1356d6d51c245,
    0xe485b576625e7ec6,
    0xf44c42e9a637ed6b,
    0x0bff5cb6f406b7ed,
    0xee386bfb5a899fa5,
    0xae9f24117c4b1fe6,
    0x49286651ece45b3d,
    0xc2007cb8a163bf05,
    0x98da48361c55d39a,
    0x69163fa8fd24cf5f,
    0x83655d23dca3ad96,
    0x1c62f356208552bb,
    0x9ed529077096966d,
    0x670c354e4abc9804,
    0xf1746c08ca18217c,
    0x32905e462e36ce3b,
    0xe39e772c180e8603,
    0x9b2783a2ec07a28f,
    0xb5c55df06f4c52c9,
    0xde2bcbf695581718,
    0x3995497cea956ae5,
    0x15d2261898fa0510,
    0x15728e5a8aacaa68,
    0xffffffffffffffff,
];

/// The prime with another last octet.
fn prime_ending(last: u8) -> [u8; 256] {
    let mut octets = [0; 256];
    for i in 0..32 {
        BigEndian::write_u64(&mut octets[8 * i..8 * i + 8], PRIME[i]);
    }
    octets[255] = last;
    octets
}

/// The prime and 1: its last 64 bits are all set.
fn after_the_prime() -> [u8; 256] {
    let mut octets = prime_ending(0xff);
    for k in 248..256 {
        octets[k] = 0;
    }
    octets[247] = 0x69;
    octets
}

/// Zeros and a last octet.
fn small(last: u8) -> [u8; 256] {
    let mut octets = [0; 256];
    octets[255] = last;
    octets
}

/// The first and the last octets of an element.
fn ends_with(rt: &impl Abort, element: &Element, first: &[u8; 16], last: &[u8; 16]) {
    let octets = element.to_octets();
    assert!(rt; &octets[..16] == first.as_slice());
    assert!(rt; &octets[240..] == last.as_slice());
}

/// An element that octets spell: it spells them again, and is trivial or not.
fn spells(rt: &impl Abort, octets: &[u8; 256], trivial: bool) {
    match Element::from_octets(octets) {
        Some(element) => {
            assert!(rt; element.is_trivial() == trivial);
            assert!(rt; element.to_octets() == *octets);
        }
        None => panic!(rt; "no element"),
    }
}

/// A square that is divided: it is the divided product of the number with itself, with these limbs at its
/// ends.
fn squares(rt: &impl Abort, number: &Limbs, lowest: u64, highest: u64) {
    let square = divided_square(number);
    assert!(rt; square == divided_product(number, number));
    assert!(rt; square[0] == lowest);
    assert!(rt; square[LIMBS - 1] == highest);
}

fn refused(rt: &impl Abort, octets: &[u8]) {
    assert!(rt; Element::from_octets(octets).is_none());
}

#[test]
fn public_values(rt: HostRuntime) {
    let generator = Element::generator();
    ends_with(
        &rt,
        &generator.power(&FIRST),
        b"\x14\x23\xf8\xdf\xaa\x8c\x0d\x02\x8a\xa3\xfa\xa2\xc2\xc1\x02\x55",
        b"\x9f\x5a\x38\x6f\x62\x25\x55\xd7\x55\x48\x85\x28\x64\x94\x0d\x17",
    );
    ends_with(
        &rt,
        &generator.power(&SECOND),
        b"\xce\x9a\x7a\x3e\xcd\x68\x3a\xfc\xe6\x04\x57\x7c\x72\xb8\xcb\x58",
        b"\x0d\xed\xfe\x84\xf1\xdf\xd2\xc4\x9d\xb2\x2c\xf6\xbd\x35\xa5\x46",
    );
}

#[test]
fn shared_values(rt: HostRuntime) {
    let generator = Element::generator();
    let one = generator.power(&FIRST).power(&SECOND);
    let other = generator.power(&SECOND).power(&FIRST);
    let first = b"\xa1\x23\xfa\x34\x84\x6b\x2b\x3d\x52\x5d\x72\x89\x4f\x15\xf3\xde";
    let last = b"\x95\xae\xd1\x06\x8b\x8e\x0b\x6c\x58\x00\x8e\xc8\x88\xc0\xa6\x34";
    ends_with(&rt, &one, first, last);
    ends_with(&rt, &other, first, last);
}

#[test]
fn products(rt: HostRuntime) {
    let generator = Element::generator();
    ends_with(
        &rt,
        &generator.power(&FIRST).product(&generator.power(&SECOND)),
        b"\x72\x9f\x47\x55\x2c\x94\xe7\x8f\xb0\x1a\xee\x65\x71\x0f\xb7\x8a",
        b"\xd3\xe0\xf0\x60\xda\xb7\x54\x97\x31\x4d\xc2\xad\xa4\x3f\x97\x32",
    );
}

#[test]
fn elements(rt: HostRuntime) {
    spells(&rt, &small(0), true);
    spells(&rt, &small(1), true);
    spells(&rt, &small(2), false);
    spells(&rt, &prime_ending(0xfd), false);
    spells(&rt, &prime_ending(0xfe), true);
}

#[test]
fn no_elements(rt: HostRuntime) {
    refused(&rt, &prime_ending(0xff));
    refused(&rt, &after_the_prime());
    refused(&rt, &[0xff; 256]);
    refused(&rt, &[]);
    refused(&rt, &[0; 255]);
    refused(&rt, &[0; 257]);
}

#[test]
fn squares_of_numbers(rt: HostRuntime) {
    squares(&rt, &[0; LIMBS], 0, 0);
    squares(
        &rt,
        &limbs_of(&small(1)),
        0xf5a04400c911dbc3,
        0xf1d8005ff5b8c411,
    );
    squares(
        &rt,
        &limbs_of(&prime_ending(0xfe)),
        0xf5a04400c911dbc3,
        0xf1d8005ff5b8c411,
    );
    let mut ones = [u64::MAX; LIMBS];
    ones[LIMBS - 1] = 0;
    squares(&rt, &ones, 0xcabb274bb3b886f1, 0xf1d8005ff5b8c40f);
    ones[LIMBS - 1] = 0x7fffffffffffffff;
    squares(&rt, &ones, 0xf5a04400c911dbc3, 0x31d8005ff5b8c411);
}
