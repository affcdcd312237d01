//! The caller through the bounds of the traits, and its octets beside those of another program.
ghost use Rattle.std.specs.Prelude.{◌≡◌, ◌≤◌, ◌+◌, ◌++◌, [], length, IfOk};
ghost use Rattle.suite.specs.Callers.{FitsPayload};

use crate::tests::asserts::{holds, same};
use base::Items;
use caller_script::ScriptCaller;
use std::alloc::{AllocError, Global};
use std::process::Abort;
use suite::{Agreement, Cipher, Keys, Proof, Sealer};

// Any sealer opens what it sealed, and told the body's length: its laws promise it to code that knows
// no more of it.
fn sealed_and_opened<S: Sealer>(
    sealer: &S,
    keys: &Keys,
    head: &[u8],
    plain: &[u8],
    fresh: &[u8; 16],
    body: &mut Vec<u8>,
    opened: &mut Vec<u8>,
) -> Result<usize, AllocError>
    requires empty { body.old.items ≡ [] }
    requires short { length plain.now ≤ 3000 }
    ensures { IfOk result (λ told. (opened.new.items ≡ opened.old.items ++ plain.now)
        × (length body.new.items ≡ told)
        × (told ≤ length plain.now + 128)) }
{
    let _ = keys.as_slices();
    let told = sealer.sealed_len(plain.len());
    sealer.seal(keys, head, plain, fresh, body)?;
    sealer.open(keys, head, body.as_slice(), opened)?;
    Ok(told)
}

// Both ends of any agreement come to the same, by public values that fit.
fn agreed<A: Agreement>(
    agreement: &A,
    alloc: Global,
    a: &[u8; 32],
    b: &[u8; 32],
) -> Result<(Option<Items<u8>>, Option<Items<u8>>), AllocError>
    ensures { IfOk result (λ both. both.0 ≡ both.1) }
{
    let public_a = public_value(agreement, alloc, a)?;
    let public_b = public_value(agreement, alloc, b)?;
    let at_a = agreement.shared(alloc, a, public_b.as_slice())?;
    let at_b = agreement.shared(alloc, b, public_a.as_slice())?;
    Ok((at_a, at_b))
}

fn public_value<A: Agreement>(
    agreement: &A,
    alloc: Global,
    secret: &[u8; 32],
) -> Result<Items<u8>, AllocError>
    ensures { IfOk result (λ value. (value ≡ A.public_value secret.now) × FitsPayload value) }
{
    agreement.public(alloc, secret)
}

fn proved<P: Proof>(caller: &P, alloc: Global, octets: &[u8]) -> Result<Items<u8>, AllocError>
    ensures { IfOk result (λ proof. (proof ≡ P.proof_of caller.now octets.now) × FitsPayload proof) }
{
    caller.prove(alloc, octets)
}

// What peers name a caller's parts by, told through the bounds.
fn names<C: Sealer + Agreement + Proof>(caller: &C) -> (Cipher, u16, u8)
    ensures { (result.0 ≡ C.cipher) × (result.1 ≡ C.group_number) × (result.2 ≡ C.own_method caller.now) }
{
    (caller.transform(), caller.group(), caller.method())
}

fn checks<P: Proof>(
    caller: &P,
    alloc: Global,
    octets: &[u8],
    proof: &[u8],
) -> Result<bool, AllocError>
    ensures { IfOk result
        (λ accepted. accepted ≡ P.accepts caller.now 2 [] (P.own_method caller.now) octets.now proof.now) }
{
    caller.check(alloc, 2, &[], caller.method(), octets, proof)
}

const KEYS: Keys = Keys {
    encryption: [1; 32],
    integrity: [2; 32],
};

#[test]
fn seals_and_opens(rt: HostRuntime) {
    let alloc = rt.alloc();
    let mut body = Vec::new(alloc);
    let mut opened = [0xee].to_vec(alloc).expect(&rt, "memory");
    let told = sealed_and_opened(
        &ScriptCaller,
        &KEYS,
        b"head",
        b"plain",
        &[0; 16],
        &mut body,
        &mut opened,
    )
    .expect(&rt, "memory");
    same(&rt, opened.as_slice(), b"\xeeplain".as_slice());
    same(&rt, told, 22);
    // As Python's module `hmac` computes it.
    let wanted: [u8; 22] = [
        0x70, 0x6c, 0x61, 0x69, 0x6e, 0x00, 0xf4, 0x01, 0x5b, 0x0f, 0x95, 0x30, 0x76, 0xfd, 0xeb,
        0xbd, 0x31, 0x8c, 0x4b, 0xa2, 0x33, 0x2b,
    ];
    same(&rt, body.as_slice(), wanted.as_slice());
}

// Finds that a body doesn't open so.
fn refuses(rt: &impl Abort, keys: &Keys, head: &[u8], body: &[u8], opened: &mut Vec<u8>) {
    let is_opened = ScriptCaller
        .open(keys, head, body, opened)
        .expect(rt, "memory");
    holds(rt, !is_opened);
}

// Finds that a body doesn't open with any octet damaged.
fn refuses_damaged(rt: &impl Abort, alloc: Global, body: &[u8], opened: &mut Vec<u8>) {
    for place in 0..body.len() {
        let mut damaged = body.to_vec(alloc).expect(rt, "memory");
        if let Some(octet) = damaged.get_mut(place) {
            *octet ^= 1;
        }
        refuses(rt, &KEYS, b"head", &damaged, opened);
    }
}

#[test]
fn opens_nothing_else(rt: HostRuntime) {
    let mut body = Vec::new(rt.alloc());
    let mut opened = Vec::new(rt.alloc());
    ScriptCaller
        .seal(&KEYS, b"head", b"plain", &[0; 16], &mut body)
        .expect(&rt, "memory");
    refuses(&rt, &KEYS, b"heap", &body, &mut opened);
    let other = Keys {
        encryption: [1; 32],
        integrity: [3; 32],
    };
    refuses(&rt, &other, b"head", &body, &mut opened);
    refuses_damaged(&rt, rt.alloc(), &body, &mut opened);
    refuses(&rt, &KEYS, b"head", &[0; 16], &mut opened);
    holds(&rt, opened.is_empty());
}

// Passes whether an allocation fails or not.
#[test]
fn a_refusal_leaves_out_as_it_was(rt: HostRuntime) {
    let mut out = Vec::new(rt.alloc());
    match ScriptCaller.seal(&KEYS, b"head", b"plain", &[0; 16], &mut out) {
        Ok(()) => same(&rt, out.len(), 22),
        Err(_) => holds(&rt, out.is_empty()),
    }
}

#[test]
fn agrees_on_a_secret(rt: HostRuntime) {
    let (at_a, at_b) = agreed(&ScriptCaller, rt.alloc(), &[0x0f; 32], &[0x33; 32]).expect(
        &rt, "memory",
    );
    same(
        &rt,
        at_a.expect(&rt, "a secret").as_slice(),
        [0x3c; 32].as_slice(),
    );
    same(
        &rt,
        at_b.expect(&rt, "a secret").as_slice(),
        [0x3c; 32].as_slice(),
    );
    holds(
        &rt,
        ScriptCaller
            .shared(rt.alloc(), &[1; 32], &[2; 31])
            .expect(&rt, "memory")
            .is_none(),
    );
}

// What proves "octets", as Python's module `hmac` computes it.
fn proof_of_octets() -> [u8; 32] {
    [
        0x3a, 0xba, 0x61, 0x0c, 0x27, 0xa4, 0x90, 0xcb, 0xac, 0xce, 0xc8, 0xad, 0xa7, 0xb1, 0x43,
        0xa2, 0x36, 0x90, 0x55, 0x64, 0x40, 0x93, 0x5a, 0x97, 0xe0, 0x88, 0xc0, 0xb4, 0x30, 0xd2,
        0x60, 0x58,
    ]
}

// Whether octets are proved so by the peer of type 2 and data "a".
fn accepts(rt: &impl Abort, alloc: Global, method: u8, octets: &[u8], proof: &[u8]) -> bool {
    ScriptCaller
        .check(alloc, 2, b"a", method, octets, proof)
        .expect(rt, "memory")
}

#[test]
fn proves_and_checks(rt: HostRuntime) {
    let alloc = rt.alloc();
    let proof = proved(&ScriptCaller, alloc, b"octets").expect(&rt, "memory");
    same(&rt, proof.as_slice(), proof_of_octets().as_slice());
    let proof = proof.as_slice();
    holds(
        &rt,
        checks(&ScriptCaller, alloc, b"octets", proof).expect(&rt, "memory"),
    );
    holds(&rt, accepts(&rt, alloc, 2, b"octets", proof));
    holds(&rt, !accepts(&rt, alloc, 1, b"octets", proof));
    holds(&rt, !accepts(&rt, alloc, 2, b"octet", proof));
}

#[test]
fn names_its_parts(rt: HostRuntime) {
    let (cipher, group, method) = names(&ScriptCaller);
    same(
        &rt,
        cipher,
        Cipher {
            id: 65001,
            key_length: None,
        },
    );
    same(&rt, (group, method), (65002, 2));
}
