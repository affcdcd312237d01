//! Requests of IKE_AUTH, made by hand, that close their IKE SA (RFC 7296, sections 2.21.2 and 3.10.1).
use super::asserts::{add, hex, same};
use caller_script::ScriptCaller;
use gateway::{End, Gateway, Output};
use mac::icv;
use sa_init::request;
use std::alloc::Global;
use std::panic::Expect;
use std::process::Abort;
use test_samples::{gateway, message};

/// A message as the caller of scripts seals it: with one octet 00 behind the payloads, under its
/// integrity key.
fn sealed(rt: &impl Abort, alloc: Global, digits: &str, key: &[u8; 32]) -> Vec<u8> {
    let mut octets = hex(rt, alloc, digits);
    add(rt, &mut octets, &[0]);
    let check = icv(key, &[&octets]);
    add(rt, &mut octets, &check);
    octets
}

/// B, which answered the request of an initiator of SPI 1 under the SPI 2.
fn half_open(rt: &impl Abort, alloc: Global) -> Gateway<ScriptCaller> {
    let mut gateway = gateway(alloc, End::B).expect(rt, "a gateway");
    let request = request(alloc, &ScriptCaller, 1, None, &[5; 32], &[6; 32]).expect(rt, "memory");
    let first = message(alloc, request.as_slice(), 2).expect(rt, "memory");
    gateway.step(alloc, &first.lend());
    gateway
}

/// The initiator's key.
fn key(rt: &impl Abort, gateway: &Gateway<ScriptCaller>) -> [u8; 32] {
    gateway.keys_of(1).expect(rt, "keys").sk_ai
}

/// What B answers to such a request of IKE_AUTH by which it closes the IKE SA.
fn closing(rt: &impl Abort, alloc: Global, digits: &str) -> Vec<u8> {
    let mut gateway = half_open(rt, alloc);
    let octets = sealed(rt, alloc, digits, &key(rt, &gateway));
    let second = message(alloc, &octets, 3).expect(rt, "memory");
    match gateway.step(alloc, &second.lend()) {
        Output::Reply {
            octets,
            closed: Some(1),
        } => octets.into_vec(),
        _ => panic!(rt; "not closed"),
    }
}

/// Finds that the answer is one notice alone, of this number.
fn is_notice(rt: &impl Abort, octets: &[u8], number: u8) {
    same(rt, octets.len(), 57);
    same(rt, octets.get(28), Some(&41));
    same(
        rt,
        octets.get(32..40),
        Some([0, 0, 0, 8, 0, 0, 0, number].as_slice()),
    );
}

/// No payload.
const EMPTY: &str = "0000000000000001 0000000000000002 2e202308 00000001 00000031 00000015";

/// The identity `c.example`, an AUTH of zeros, an offer of ESP, and all addresses of 10.0.0.0/24 and
/// 10.1.0.0/24.
const STRANGER: &str = "0000000000000001 0000000000000002 2e202308 00000001 000000c2 230000a6\
    27000011 02000000 632e6578616d706c65\
    21000028 02000000 0000000000000000000000000000000000000000000000000000000000000000\
    2c000028 00000024 01030403 00000100 0300000801 00000b 030000080300000c 0000000805000000\
    2d000018 01000000 07000010 0000ffff 0a000000 0a0000ff\
    00000018 01000000 07000010 0000ffff 0a010000 0a0100ff";

#[test]
fn invalid_syntax(rt: HostRuntime) {
    is_notice(&rt, &closing(&rt, rt.alloc(), EMPTY), 7);
}

#[test]
fn authentication_failed(rt: HostRuntime) {
    is_notice(&rt, &closing(&rt, rt.alloc(), STRANGER), 24);
}
