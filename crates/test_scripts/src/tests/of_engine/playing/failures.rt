//! Reads, writes and growths that fail.
use crate::tests::asserts::same;
use crate::tests::streams::{Narrow, Slow};
use gw_engine::play;
use std::process::Abort;

const SCRIPT: &[u8] =
    b"one\nsa 256 0b0b0b0b0b0b0b0b0b0b0b0b0b0b0b0b0b0b0b0b0b0b0b0b0b0b0b0b0b0b0b0b 2 no\nseal 4 c0ffee\ndeliver 1\ndeliver 1\nprint 1\ndamage 1 8 80\n";

const PRINTED: &[u8] =
    b"sealed 1 number 1 length 32\nup number 1 next 4 c0ffee\nE16\npacket 0000010000000001c0ffee010203030474c505746d1ecc920ae2ebaa8b27793e\nE16\n";

/// Two gateways, an IKE SA and its first child.
const TWO: &[u8] =
    b"two\nentry A protect 0 10.0.0.0-10.0.0.255 0-65535 10.1.0.0-10.1.0.255 0-65535\nentry B protect 0 10.1.0.0-10.1.0.255 0-65535 10.0.0.0-10.0.0.255 0-65535\nstart A 0\ndeliver 1\ndeliver 2\ndeliver 3\ndeliver 4\n";

const TWO_PRINTED: &[u8] =
    b"request 1 ike 1 length 148\nreply 2 length 148\nrequest 3 ike 1 length 202\nreply 4 length 194\ncounted ike 1 child 1\n";

/// After so many octets each read fails.
fn expect_no_file<R: Abort + AllocGlobal>(rt: &R, script: &[u8]) {
    for left in 0..=script.len() {
        let mut reader = Slow::new(script, Some(left));
        let mut printed = Vec::new(rt.alloc());
        same(rt, play(rt.alloc(), &mut reader, &mut printed), 1);
        same(rt, printed.as_slice(), b"refused file\n".as_slice());
    }
}

/// After so many octets each write fails.
fn expect_a_beginning<R: Abort + AllocGlobal>(rt: &R, script: &[u8], wanted: &[u8]) {
    for room in 0..wanted.len() {
        for gives_up in [false, true] {
            let mut writer = Narrow::new(rt.alloc(), room, gives_up);
            same(rt, play(rt.alloc(), &mut &script[..], &mut writer), 1);
            same(rt, writer.written.as_slice(), &wanted[..room]);
        }
    }
    let mut writer = Narrow::new(rt.alloc(), wanted.len(), false);
    same(rt, play(rt.alloc(), &mut &script[..], &mut writer), 0);
    same(rt, writer.written.as_slice(), wanted);
}

#[test]
fn a_slow_reader_is_read_to_its_end(rt: HostRuntime) {
    let mut reader = Slow::new(SCRIPT, None);
    let mut printed = Vec::new(rt.alloc());
    same(&rt, play(rt.alloc(), &mut reader, &mut printed), 0);
    same(&rt, printed.as_slice(), PRINTED);
}

#[test]
fn a_failed_read_refuses_the_file(rt: HostRuntime) {
    expect_no_file(&rt, SCRIPT);
    expect_no_file(&rt, TWO);
}

#[test]
fn after_a_failed_write_nothing_is_printed(rt: HostRuntime) {
    expect_a_beginning(&rt, SCRIPT, PRINTED);
    expect_a_beginning(&rt, TWO, TWO_PRINTED);
}

#[test]
fn a_refusal_that_is_not_written(rt: HostRuntime) {
    for room in 0..14 {
        let mut writer = Narrow::new(rt.alloc(), room, false);
        same(&rt, play(rt.alloc(), &mut &b"three"[..], &mut writer), 1);
        same(&rt, writer.written.as_slice(), &b"line 1 refused\n"[..room]);
    }
}

/// Without memory the program says so, or an end refuses for it, and what is printed before is as ever.
/// The writer takes no memory, so that a run in which one growth fails tests the program alone.
#[test]
fn want_of_memory_is_named(rt: HostRuntime) {
    let mut room = [0; 256];
    let mut left = &mut room[..];
    let status = play(rt.alloc(), &mut &SCRIPT[..], &mut left);
    let count = 256usize.saturating_sub(left.len());
    let printed = &room[..count];
    let is_whole = printed == PRINTED && status == 0;
    let is_stopped = match printed.strip_suffix(b"no memory\n") {
        Some(before) => PRINTED.starts_with(before) && status == 1,
        None => false,
    };
    let is_refused = printed.starts_with(b"E20\nline 4 refused\n")
        || printed.starts_with(b"sealed 1 number 1 length 32\nE20\nup number 1 next 4 c0ffee\n");
    assert!(rt; is_whole || is_stopped || is_refused, "{printed:?}");
}
