// The expected octets are those of Python's module `hmac`.
use super::counted;
use crate::tests::asserts::{granted, holds, same};
use suite::{SuiteFault, proof_octets};

const APPENDED: [u8; 77] = [
    0x66, 0x69, 0x72, 0x73, 0x74, 0x20, 0x6d, 0x65, 0x73, 0x73, 0x61, 0x67, 0x65, 0x22, 0x22, 0x22,
    0x22, 0x22, 0x22, 0x22, 0x22, 0x22, 0x22, 0x22, 0x22, 0x22, 0x22, 0x22, 0x22, 0x22, 0x22, 0x22,
    0x22, 0x22, 0x22, 0x22, 0x22, 0x22, 0x22, 0x22, 0x22, 0x22, 0x22, 0x22, 0x22, 0x88, 0x75, 0x42,
    0x90, 0x2b, 0x2c, 0x54, 0x23, 0x0c, 0x8b, 0x83, 0x48, 0xd9, 0x19, 0x7f, 0xb2, 0xb8, 0xa2, 0x8e,
    0x1c, 0xcf, 0x67, 0xa0, 0x2b, 0xe6, 0xcb, 0x36, 0x31, 0xe0, 0x61, 0x03, 0x91,
];

// hmac.digest(bytes([0x33] * 32), bytes([2, 0, 0, 0, *range(100)]), "sha256")
const LONG_IDENTITY: [u8; 32] = [
    0x63, 0x93, 0x76, 0x75, 0x9b, 0x1a, 0x28, 0x6f, 0xa6, 0x91, 0x1e, 0x2c, 0xc1, 0x05, 0xee, 0xf0,
    0x2e, 0xed, 0x77, 0x53, 0xdc, 0xf9, 0xf3, 0x93, 0x2a, 0x96, 0x69, 0x3d, 0x9c, 0x82, 0x36, 0xe3,
];

#[test]
fn appends_what_is_proved(rt: HostRuntime) {
    let mut out = Vec::new(rt.alloc());
    granted(&rt, out.push(0xee));
    proof_octets(
        b"first message",
        &[0x22; 32],
        &[0x33; 32],
        2,
        b"a.example",
        &mut out,
    )
    .expect(&rt, "memory");
    let (before, appended) = out.as_slice().split_first().expect(&rt, "octets");
    same(&rt, *before, 0xee);
    same(&rt, appended, APPENDED.as_slice());
}

#[test]
fn appends_a_long_message_the_longest_nonce_and_a_long_identity(rt: HostRuntime) {
    let message: [u8; 1500] = counted();
    let nonce: [u8; 256] = counted();
    let identity: [u8; 100] = counted();
    let mut out = Vec::new(rt.alloc());
    proof_octets(&message, &nonce, &[0x33; 32], 2, &identity, &mut out).expect(&rt, "memory");
    let mut expected = Vec::new(rt.alloc());
    for part in [message.as_slice(), &nonce, &LONG_IDENTITY] {
        granted(&rt, expected.extend_from_slice(part));
    }
    same(&rt, out, expected);
}

// Passes whether an allocation fails or not.
#[test]
fn a_refusal_leaves_out_as_it_was(rt: HostRuntime) {
    let mut out = Vec::new(rt.alloc());
    match proof_octets(b"first", &[0x22; 32], &[0x33; 32], 2, b"a", &mut out) {
        Ok(()) => same(&rt, out.len(), 69),
        Err(SuiteFault::Memory) => holds(&rt, out.is_empty()),
    }
}

#[test]
fn names_the_fault(rt: HostRuntime) {
    same(&rt, SuiteFault::Memory.code(), 10);
    let text = format!(in rt.alloc(); "{}", SuiteFault::Memory).expect(&rt, "memory");
    same(&rt, text.as_str(), "E10: no memory");
}
