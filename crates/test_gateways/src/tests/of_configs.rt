//! What a gateway is set to, each call once (RFC 7296, section 3.5; RFC 4303, section 3.4.3).
use super::asserts::same;
use auth::Identity;
use gateway::End;
use setup::ConfigFault;
use std::panic::Expect;
use std::process::Abort;
use test_samples::config;

/// Finds the type and the octets of an identity.
fn is_identity(rt: &impl Abort, identity: &Identity, kind: u8, octets: &[u8]) {
    same(rt, identity.kind, kind);
    same(rt, identity.data.as_slice() == octets, true);
}

#[test]
fn an_address_of_mail_is_of_type_3(rt: HostRuntime) {
    let identity = Identity::email(rt.alloc(), "gate@left.example").expect(&rt, "an identity");
    is_identity(&rt, &identity, 3, b"gate@left.example");
}

#[test]
fn a_name_is_of_type_2(rt: HostRuntime) {
    let identity = Identity::fqdn(rt.alloc(), "left.example").expect(&rt, "an identity");
    is_identity(&rt, &identity, 2, b"left.example");
}

/// A name of 256 octets, the most that an identity has.
const LONG: &str = "aaaaaaaaaaaaaaaaaaaaaaaaaaaaaaaaaaaaaaaaaaaaaaaaaaaaaaaaaaaaaaaa\
    aaaaaaaaaaaaaaaaaaaaaaaaaaaaaaaaaaaaaaaaaaaaaaaaaaaaaaaaaaaaaaaa\
    aaaaaaaaaaaaaaaaaaaaaaaaaaaaaaaaaaaaaaaaaaaaaaaaaaaaaaaaaaaaaaaa\
    aaaaaaaaaaaaaaaaaaaaaaaaaaaaaaaaaaaaaaaaaaaaaaaaaaaaaaaaaaaaaaaa";

#[test]
fn the_longest_name_is_made(rt: HostRuntime) {
    let identity = Identity::fqdn(rt.alloc(), LONG).expect(&rt, "an identity");
    same(&rt, identity.data.len(), 256);
}

#[test]
fn an_address_is_of_type_1(rt: HostRuntime) {
    let identity = Identity::address(rt.alloc(), [192, 0, 2, 1]).expect(&rt, "an identity");
    is_identity(&rt, &identity, 1, &[192, 0, 2, 1]);
}

#[test]
fn blocks_are_those_that_were_set(rt: HostRuntime) {
    let plain = config(rt.alloc(), End::A, 4).expect(&rt, "a configuration");
    same(&rt, plain.blocks(), 2);
    let wide = plain.with_blocks(128).expect(&rt, "a configuration");
    same(&rt, (wide.blocks(), wide.window()), (128, 4));
}

#[test]
fn three_blocks_are_refused(rt: HostRuntime) {
    let plain = config(rt.alloc(), End::A, 1).expect(&rt, "a configuration");
    let fault = plain.with_blocks(3).err();
    same(&rt, fault, Some(ConfigFault::Blocks));
}
