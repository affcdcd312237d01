//! Bodies as openssl makes them, values of the group and proofs as python does.
mod memory;

use crate::chaining::{decrypt, encrypt};
use crate::{Peer, PeerCaller};
use aes::Aes256;
use base::Items;
use std::alloc::{AllocError, Global};
use std::process::Abort;
use std::test::Fail;
use suite::{Agreement, Cipher, Keys, Proof, Sealer};

fn holds(rt: &impl Abort, fact: bool) {
    assert!(rt; fact);
}

// SP 800-38A, sections F.2.5 and F.2.6.
const MODE_KEY: [u8; 32] =
    *b"\x60\x3d\xeb\x10\x15\xca\x71\xbe\x2b\x73\xae\xf0\x85\x7d\x77\x81\x1f\x35\x2c\x07\x3b\x61\x08\xd7\x2d\x98\x10\xa3\x09\x14\xdf\xf4";

const MODE_VECTOR: [u8; 16] = *b"\x00\x01\x02\x03\x04\x05\x06\x07\x08\x09\x0a\x0b\x0c\x0d\x0e\x0f";

fn mode_text() -> &'static [u8; 64] {
    b"\x6b\xc1\xbe\xe2\x2e\x40\x9f\x96\xe9\x3d\x7e\x11\x73\x93\x17\x2a\xae\x2d\x8a\x57\x1e\x03\xac\x9c\x9e\xb7\x6f\xac\x45\xaf\x8e\x51\x30\xc8\x1c\x46\xa3\x5c\xe4\x11\xe5\xfb\xc1\x19\x1a\x0a\x52\xef\xf6\x9f\x24\x45\xdf\x4f\x9b\x17\xad\x2b\x41\x7b\xe6\x6c\x37\x10"
}

fn mode_blocks() -> &'static [u8; 64] {
    b"\xf5\x8c\x4c\x04\xd6\xe5\xf1\xba\x77\x9e\xab\xfb\x5f\x7b\xfb\xd6\x9c\xfc\x4e\x96\x7e\xdb\x80\x8d\x67\x9f\x77\x7b\xc6\x70\x2c\x7d\x39\xf2\x33\x69\xa9\xd9\xba\xcf\xa5\x30\xe2\x63\x04\x23\x14\x61\xb2\xeb\x05\xe2\xc3\x9b\xe9\xfc\xda\x6c\x19\x07\x8c\x6a\x9d\x1b"
}

/// Encrypts a text of whole blocks.
fn encrypt_mode(cipher: &Aes256, text: &mut [u8]) {
    if text.len() % 16 == 0 {
        encrypt(cipher, &MODE_VECTOR, text);
    }
}

/// Decrypts a text of whole blocks.
fn decrypt_mode(cipher: &Aes256, text: &mut [u8]) {
    if text.len() % 16 == 0 {
        decrypt(cipher, &MODE_VECTOR, text);
    }
}

#[test]
fn mode_of_sp_800_38a(rt: HostRuntime) -> Result<(), Fail> {
    let cipher = Aes256::new(&MODE_KEY);
    let mut text = Vec::from_slice(rt.alloc(), mode_text())?;
    encrypt_mode(&cipher, text.as_mut_slice());
    holds(&rt, text.as_slice() == mode_blocks().as_slice());
    decrypt_mode(&cipher, text.as_mut_slice());
    holds(&rt, text.as_slice() == mode_text().as_slice());
    Ok(())
}

const KEYS: Keys = Keys {
    encryption: *b"\x00\x01\x02\x03\x04\x05\x06\x07\x08\x09\x0a\x0b\x0c\x0d\x0e\x0f\x10\x11\x12\x13\x14\x15\x16\x17\x18\x19\x1a\x1b\x1c\x1d\x1e\x1f",
    integrity: *b"\x80\x81\x82\x83\x84\x85\x86\x87\x88\x89\x8a\x8b\x8c\x8d\x8e\x8f\x90\x91\x92\x93\x94\x95\x96\x97\x98\x99\x9a\x9b\x9c\x9d\x9e\x9f",
};

const HEAD: [u8; 32] =
    *b"\x40\x41\x42\x43\x44\x45\x46\x47\x48\x49\x4a\x4b\x4c\x4d\x4e\x4f\x50\x51\x52\x53\x54\x55\x56\x57\x58\x59\x5a\x5b\x5c\x5d\x5e\x5f";

const VECTOR: [u8; 16] = *b"\xf0\xf1\xf2\xf3\xf4\xf5\xf6\xf7\xf8\xf9\xfa\xfb\xfc\xfd\xfe\xff";

/// A caller with the secret `ours`, two peers, and one of them twice.
fn caller(alloc: Global) -> Result<PeerCaller, AllocError> {
    let mut peers = Items::new(alloc);
    for (id, secret) in [("west", "theirs"), ("east", "other"), ("west", "later")] {
        let peer = Peer {
            kind: 2,
            id: Items::from_slice(alloc, id.as_bytes())?,
            secret: Items::from_slice(alloc, secret.as_bytes())?,
        };
        if peers.push(peer).is_err() {
            return Err(AllocError);
        }
    }
    Ok(PeerCaller {
        own: Items::from_slice(alloc, b"ours")?,
        peers,
    })
}

// ENCR_AES_CBC with the key length 256, the 2048-bit group, and Shared Key Message Integrity Code (RFC
// 7296, sections 3.3.2, 3.3.5 and 3.8; RFC 3526, section 3).
#[test]
fn names_of_the_suite(rt: HostRuntime) -> Result<(), Fail> {
    let caller = caller(rt.alloc())?;
    let cipher = Cipher {
        id: 12,
        key_length: Some(256),
    };
    holds(&rt, caller.transform() == cipher);
    holds(&rt, caller.group() == 14);
    holds(&rt, caller.method() == 2);
    Ok(())
}

/// Whether a body opens, behind what stood there, to a plain text.
fn opens(rt: &impl Abort, alloc: Global, body: &[u8], plain: &[u8]) -> Result<(), Fail> {
    let mut out = Vec::from_slice(alloc, b"before")?;
    holds(rt, caller(alloc)?.open(&KEYS, &HEAD, body, &mut out)?);
    holds(rt, &out[..6] == b"before".as_slice());
    holds(rt, &out[6..] == plain);
    Ok(())
}

/// A body that opens to nothing, and leaves what stood there.
fn refused(rt: &impl Abort, alloc: Global, head: &[u8], body: &[u8]) -> Result<(), Fail> {
    let mut out = Vec::from_slice(alloc, b"before")?;
    let opened = caller(alloc)?.open(&KEYS, head, body, &mut out)?;
    holds(rt, !opened);
    holds(rt, out.as_slice() == b"before".as_slice());
    Ok(())
}

/// A plain text becomes the body that openssl makes, and the other way round.
fn seals(rt: &impl Abort, alloc: Global, plain: &[u8], body: &[u8]) -> Result<(), Fail> {
    let mut out = Vec::from_slice(alloc, b"before")?;
    let caller = caller(alloc)?;
    holds(
        rt,
        plain.len() < 100 && caller.sealed_len(plain.len()) == body.len(),
    );
    caller.seal(&KEYS, &HEAD, plain, &VECTOR, &mut out)?;
    holds(rt, &out[..6] == b"before".as_slice());
    holds(rt, &out[6..] == body);
    opens(rt, alloc, body, plain)
}

fn body_of_21() -> &'static [u8] {
    b"\xf0\xf1\xf2\xf3\xf4\xf5\xf6\xf7\xf8\xf9\xfa\xfb\xfc\xfd\xfe\xff\x51\x55\x45\x85\x2d\x70\x6f\x11\xf5\x27\x80\x26\xf8\xcf\xf1\x31\x47\xe6\xec\x14\x33\x5e\x33\x7e\x67\xff\x54\xdb\x11\x2d\x62\x9a\x61\xd9\x3d\x65\x01\xd1\xd1\x19\xac\xd2\xf7\xbc\x77\xb8\xc4\xef"
}

#[test]
fn bodies(rt: HostRuntime) -> Result<(), Fail> {
    let alloc = rt.alloc();
    seals(
        &rt,
        alloc,
        b"",
        b"\xf0\xf1\xf2\xf3\xf4\xf5\xf6\xf7\xf8\xf9\xfa\xfb\xfc\xfd\xfe\xff\xc7\xaa\x56\x7f\xfc\x60\x9f\x49\xb2\x03\xf1\xb8\x5d\x17\x7e\xaf\x00\x50\x12\x32\xcf\x78\x3a\x3f\x13\xe5\x7a\x0c\x53\x75\x86\x99",
    )?;
    seals(
        &rt,
        alloc,
        b"fifteen octets.",
        b"\xf0\xf1\xf2\xf3\xf4\xf5\xf6\xf7\xf8\xf9\xfa\xfb\xfc\xfd\xfe\xff\x0b\x0f\xd3\xbf\x4a\x96\xcd\x15\x15\xc2\x10\xf0\x9f\x0d\xad\x7d\x88\x31\x60\xa7\x94\x06\xf4\x78\x4f\x44\xca\x8a\x11\x56\xda\xd5",
    )?;
    seals(
        &rt,
        alloc,
        b"sixteen octets..",
        b"\xf0\xf1\xf2\xf3\xf4\xf5\xf6\xf7\xf8\xf9\xfa\xfb\xfc\xfd\xfe\xff\x1c\x80\x0e\xe8\x7c\x0c\x47\x85\xe4\x8d\x0b\x8b\xaa\x57\xe0\xe8\xd3\xbd\x4b\x2c\xe5\xb5\x4d\x31\x25\x7e\xf0\xfd\x04\x3e\xab\xbb\xd8\x3c\x2b\xd7\xe7\xfa\x84\x30\xa5\xe2\x80\x0e\x13\x27\x73\x27",
    )?;
    seals(&rt, alloc, b"twenty octets of text", body_of_21())
}

/// More padding than is needed, with other octets in it.
fn padded_by_26() -> &'static [u8] {
    b"\xf0\xf1\xf2\xf3\xf4\xf5\xf6\xf7\xf8\xf9\xfa\xfb\xfc\xfd\xfe\xff\x8a\x03\x46\x15\xc3\x54\x38\x34\x41\xf4\x18\xa8\x09\x10\x92\x61\xf4\x1c\x46\xe0\x2b\x29\xfb\x64\xc9\xdb\xba\xfe\xac\x97\xbb\xf1\xa6\x3c\x86\xb0\x9b\x30\xac\x6b\x68\x7a\xe0\xae\x4d\xf3\xfc\x7c"
}

/// A pad length of 15 in a block: it has no plain text.
fn padding_alone() -> &'static [u8] {
    b"\xf0\xf1\xf2\xf3\xf4\xf5\xf6\xf7\xf8\xf9\xfa\xfb\xfc\xfd\xfe\xff\xc7\xaa\x56\x7f\xfc\x60\x9f\x49\xb2\x03\xf1\xb8\x5d\x17\x7e\xaf\x00\x50\x12\x32\xcf\x78\x3a\x3f\x13\xe5\x7a\x0c\x53\x75\x86\x99"
}

/// A pad length of 16 in a block.
fn padding_too_long() -> &'static [u8] {
    b"\xf0\xf1\xf2\xf3\xf4\xf5\xf6\xf7\xf8\xf9\xfa\xfb\xfc\xfd\xfe\xff\xf7\x28\xea\xc4\xb7\x36\x9a\xee\xfb\x87\xd8\xce\x4f\x44\xca\x8d\x2c\xd5\x48\x26\x1f\xaf\x9e\x4a\xa2\x08\x3c\x42\xfd\xfe\xb6\x16"
}

#[test]
fn paddings(rt: HostRuntime) -> Result<(), Fail> {
    let alloc = rt.alloc();
    opens(&rt, alloc, padded_by_26(), b"hello")?;
    opens(&rt, alloc, padding_alone(), b"")?;
    refused(&rt, alloc, &HEAD, padding_too_long())
}

#[test]
fn changed_bodies(rt: HostRuntime) -> Result<(), Fail> {
    let alloc = rt.alloc();
    let body = body_of_21();
    for place in [0, 15, 16, 40, 47, 48, 63] {
        let mut changed = Vec::from_slice(alloc, body)?;
        if place < changed.len() {
            changed[place] ^= 0x40;
        }
        refused(&rt, alloc, &HEAD, changed.as_slice())?;
    }
    refused(&rt, alloc, &HEAD[..31], body)?;
    refused(&rt, alloc, &[0; 32], body)?;
    for len in [0, 16, 32, 47, 48, 63] {
        refused(&rt, alloc, &HEAD, &body[..usize::min(len, body.len())])?;
    }
    Ok(())
}

const FIRST: [u8; 32] =
    *b"\x10\x11\x12\x13\x14\x15\x16\x17\x18\x19\x1a\x1b\x1c\x1d\x1e\x1f\x20\x21\x22\x23\x24\x25\x26\x27\x28\x29\x2a\x2b\x2c\x2d\x2e\x2f";

const SECOND: [u8; 32] =
    *b"\xc8\xcf\xd6\xdd\xe4\xeb\xf2\xf9\x00\x07\x0e\x15\x1c\x23\x2a\x31\x38\x3f\x46\x4d\x54\x5b\x62\x69\x70\x77\x7e\x85\x8c\x93\x9a\xa1";

/// The first and the last octets of a value.
fn ends_with(rt: &impl Abort, value: &[u8], first: &[u8; 16], last: &[u8; 16]) {
    holds(rt, value.len() == 256);
    if value.len() == 256 {
        holds(rt, &value[..16] == first.as_slice());
        holds(rt, &value[240..] == last.as_slice());
    }
}

#[test]
fn agreed(rt: HostRuntime) -> Result<(), Fail> {
    let alloc = rt.alloc();
    let caller = caller(alloc)?;
    let public = caller.public(alloc, &FIRST)?;
    ends_with(
        &rt,
        public.as_slice(),
        b"\x14\x23\xf8\xdf\xaa\x8c\x0d\x02\x8a\xa3\xfa\xa2\xc2\xc1\x02\x55",
        b"\x9f\x5a\x38\x6f\x62\x25\x55\xd7\x55\x48\x85\x28\x64\x94\x0d\x17",
    );
    let other = caller.public(alloc, &SECOND)?;
    let Some(shared) = caller.shared(alloc, &FIRST, other.as_slice())? else {
        panic!(&rt; "no secret");
    };
    ends_with(
        &rt,
        shared.as_slice(),
        b"\xa1\x23\xfa\x34\x84\x6b\x2b\x3d\x52\x5d\x72\x89\x4f\x15\xf3\xde",
        b"\x95\xae\xd1\x06\x8b\x8e\x0b\x6c\x58\x00\x8e\xc8\x88\xc0\xa6\x34",
    );
    Ok(())
}

/// The prime of RFC 3526, section 3, by words, highest first.
const PRIME: [u64; 32] = [
    0xffffffffffffffff,
    0xc90fdaa22168c234,
    0xc4c6628b80dc1cd1,
    0x29024e088a67cc74,
    0x020bbea63b139b22,
    0x514a08798e3404dd,
    0xef9519b3cd3a431b,
    0x302b0a6df25f1437,
    0x4fe1356d6d51c245,
    0xe485b576625e7ec6,
    0xf44c42e9a637ed6b,
    0x0bff5cb6f406b7ed,
    0xee386bfb5a899fa5,
    0xae9f24117c4b1fe6,
    0x49286651ece45b3d,
    0xc2007cb8a163bf05,
    0x98da48361c55d39a,
    0x69163fa8fd24cf5f,
    0x83655d23dca3ad96,
    0x1c62f356208552bb,
    0x9ed529077096966d,
    0x670c354e4abc9804,
    0xf1746c08ca18217c,
    0x32905e462e36ce3b,
    0xe39e772c180e8603,
    0x9b2783a2ec07a28f,
    0xb5c55df06f4c52c9,
    0xde2bcbf695581718,
    0x3995497cea956ae5,
    0x15d2261898fa0510,
    0x15728e5a8aacaa68,
    0xffffffffffffffff,
];

/// The prime with another last octet.
fn prime_ending(last: u8) -> [u8; 256] {
    let mut octets = [0; 256];
    for i in 0..32 {
        octets[8 * i..8 * i + 8].copy_from_slice(&PRIME[i].to_be_bytes());
    }
    octets[255] = last;
    octets
}

/// Zeros and a last octet.
fn small(last: u8) -> [u8; 256] {
    let mut octets = [0; 256];
    octets[255] = last;
    octets
}

fn no_secret(rt: &impl Abort, alloc: Global, other: &[u8]) -> Result<(), Fail> {
    let shared = caller(alloc)?.shared(alloc, &FIRST, other)?;
    holds(rt, shared.is_none());
    Ok(())
}

#[test]
fn no_secrets(rt: HostRuntime) -> Result<(), Fail> {
    let alloc = rt.alloc();
    no_secret(&rt, alloc, &small(0))?;
    no_secret(&rt, alloc, &small(1))?;
    no_secret(&rt, alloc, &prime_ending(0xfe))?;
    no_secret(&rt, alloc, &prime_ending(0xff))?;
    no_secret(&rt, alloc, &[0xff; 256])?;
    no_secret(&rt, alloc, &[2; 255])?;
    no_secret(&rt, alloc, &[2; 257])?;
    no_secret(&rt, alloc, b"")
}

const OCTETS: [u8; 29] = *b"the octets that an end proves";

/// By the secret `theirs`.
const THEIR_PROOF: [u8; 32] =
    *b"\xe1\x33\x4a\xbb\x6a\xce\xf6\x76\x9b\xfe\xfb\x27\xd0\x4e\x90\xde\x1c\x35\x68\x5b\x2d\x40\x2a\xbe\x10\xbf\x65\xd9\x99\xf8\x0f\x7a";

/// By the secret `other`.
const OTHER_PROOF: [u8; 32] =
    *b"\xac\x37\x6f\x70\xf4\x42\x6f\xbc\xcf\x59\x8b\x8a\xed\xe9\x6a\x62\x73\x45\x45\x33\xeb\xdc\xdf\x2f\xf8\x1c\x59\x58\x55\x70\x5e\xec";

/// By the secret `later`, which no peer has first.
const LATER_PROOF: [u8; 32] =
    *b"\xb3\x14\x51\xb4\x24\x72\x1b\x4f\xa4\xa4\x7d\xfd\x62\x97\xe8\x29\x12\x9d\xdb\x22\x36\x4b\x6c\x00\xad\x3e\x4a\x42\x7e\xbe\x1c\xac";

#[test]
fn proofs(rt: HostRuntime) -> Result<(), Fail> {
    let alloc = rt.alloc();
    let caller = caller(alloc)?;
    let own = caller.prove(alloc, &OCTETS)?;
    holds(
        &rt,
        own.as_slice()
            == b"\x92\x1a\x09\x43\x3a\x7d\x0e\xa2\x9a\xc0\x4a\xcd\x02\x22\xa7\xdb\x82\x94\x56\x4c\x3e\x2d\xb5\x02\x05\xf1\x4e\x54\xff\x60\xe3\x8e".as_slice(),
    );
    holds(
        &rt,
        caller.check(alloc, 2, b"west", 2, &OCTETS, &THEIR_PROOF)?,
    );
    holds(
        &rt,
        caller.check(alloc, 2, b"east", 2, &OCTETS, &OTHER_PROOF)?,
    );
    Ok(())
}

/// By the empty secret, which anybody has.
const NOBODYS_PROOF: [u8; 32] =
    *b"\x1b\x12\x85\x81\xa7\x78\xfa\xf9\xf2\x55\xa1\x6e\xec\xbb\xbd\x64\xfd\x75\x00\xd5\xb1\xba\xa9\x8d\x73\x38\x69\x6c\xf1\xda\x9c\x1a";

#[test]
fn no_proof_by_an_empty_secret(rt: HostRuntime) -> Result<(), Fail> {
    let alloc = rt.alloc();
    let mut caller = caller(alloc)?;
    let peer = Peer {
        kind: 2,
        id: Items::from_slice(alloc, b"north")?,
        secret: Items::new(alloc),
    };
    holds(&rt, caller.peers.push(peer).is_ok());
    let accepted = caller.check(alloc, 2, b"north", 2, &OCTETS, &NOBODYS_PROOF)?;
    holds(&rt, !accepted);
    Ok(())
}

fn not_accepted(
    rt: &impl Abort,
    alloc: Global,
    kind: u8,
    id: &[u8],
    method: u8,
    proof: &[u8],
) -> Result<(), Fail> {
    let accepted = caller(alloc)?.check(alloc, kind, id, method, &OCTETS, proof)?;
    holds(rt, !accepted);
    Ok(())
}

#[test]
fn no_proofs(rt: HostRuntime) -> Result<(), Fail> {
    let alloc = rt.alloc();
    not_accepted(&rt, alloc, 2, b"west", 1, &THEIR_PROOF)?;
    not_accepted(&rt, alloc, 3, b"west", 2, &THEIR_PROOF)?;
    not_accepted(&rt, alloc, 2, b"east", 2, &THEIR_PROOF)?;
    not_accepted(&rt, alloc, 2, b"west", 2, &OTHER_PROOF)?;
    not_accepted(&rt, alloc, 2, b"west", 2, &LATER_PROOF)?;
    not_accepted(&rt, alloc, 2, b"north", 2, &THEIR_PROOF)?;
    not_accepted(&rt, alloc, 2, b"west", 2, &THEIR_PROOF[..31])?;
    not_accepted(&rt, alloc, 2, b"west", 2, b"")
}
