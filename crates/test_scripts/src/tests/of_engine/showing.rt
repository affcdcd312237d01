//! Messages shown over readers and writers in memory. They and their lines were written by a Python
//! program of its own.
use crate::tests::asserts::same;
use crate::tests::streams::{Narrow, Slow};
use gw_console::FILE_LIMIT;
use gw_engine::show;
use std::alloc::Global;
use std::panic::Expect;
use std::process::Abort;

/// A message with a payload of every type, in either case and with blanks and line ends among its digits.
const EVERY_TYPE: &str = "\
    0102030405060708f1f2f3f4f5f6f7f821202438ffffffff000001412200003e0200002601010002030000160100fde9800e0080001400\
    02beef00150000000000080200000500000014020304010000010000000008050000002300000afdea00000a0b2400001102000000612e\
    6578616d706c652700000c01000000c00002012800000902000000ff29000014000102030405060708090a0b0c0d0e0f2a00000c030400\
    0bdeadbeef2a000008010000002c0000100304000200001000ffffffff2d00002802000000070000100000ffff0a0000000a0000ff0706\
    001001bb01bbc0000201c00002012500001801000000071100100000003500000000ffffffff2600000604cc2b0000042f00000a76656e\
    646f723000000501c8000006020301800005aa2e00000423000017a0a1a2a3a4a5a6a7a8a9aaabacadaeafb0b1b2";

const EVERY_TYPE_SHOWN: &str = "\
ike 0102030405060708 f1f2f3f4f5f6f7f8
exchange 36 flags IVR id 4294967295 length 321
payload 33 at 28 length 62
\x20 proposal 1 protocol 1 spi - transforms 2
\x20   transform 1 65001 attr 14 128 attr 20 beef attr 21 -
\x20   transform 2 5
\x20 proposal 2 protocol 3 spi 00000100 transforms 1
\x20   transform 5 0
payload 34 at 90 length 10
\x20 group 65002 data 0a0b
payload 35 at 100 length 17
\x20 id 2 data 612e6578616d706c65
payload 36 at 117 length 12
\x20 id 1 data c0000201
payload 39 at 129 length 9
\x20 method 2 data ff
payload 40 at 138 length 20
\x20 nonce 000102030405060708090a0b0c0d0e0f
payload 41 at 158 length 12
\x20 notify 11 protocol 3 spi deadbeef data -
payload 42 at 170 length 8
\x20 delete protocol 1 spis -
payload 42 at 178 length 16
\x20 delete protocol 3 spis 00001000 ffffffff
payload 44 at 194 length 40
\x20 selector protocol 0 ports 0-65535 addresses 10.0.0.0-10.0.0.255
\x20 selector protocol 6 ports 443-443 addresses 192.0.2.1-192.0.2.1
payload 45 at 234 length 24
\x20 selector protocol 17 ports 0-53 addresses 0.0.0.0-255.255.255.255
payload 37 at 258 length 6
\x20 data 04cc
payload 38 at 264 length 4
\x20 data -
payload 43 at 268 length 10
\x20 data 76656e646f72
payload 47 at 278 length 5
\x20 data 01
payload 48 at 283 length 6
\x20 data 0203
payload 200 at 289 length 5
\x20 data aa
payload 1 at 294 length 4
\x20 data -
payload 46 at 298 length 23
\x20 sealed first 35 octets 19
";

/// An answer with a cookie to an IKE_SA_INIT request, and a sealed request without payloads inside.
const COOKIE: &str = "010203040506070800000000000000002920222000000000000000260000000A00004006AABB";

const COOKIE_SHOWN: &str = "\
ike 0102030405060708 0000000000000000
exchange 34 flags R id 0 length 38
payload 41 at 28 length 10
\x20 notify 16390 protocol 0 spi - data aabb
";

const SEALED: &str =
    "0000000000000001\t0000000000000002 2e202508 00000002 00000031\r\n00000015 0000000000000000000000000000000000\n";

const SEALED_SHOWN: &str = "\
ike 0000000000000001 0000000000000002
exchange 37 flags I id 2 length 49
payload 46 at 28 length 21
\x20 sealed first 0 octets 17
";

/// A selector of each family.
const BOTH_FAMILIES: &str =
    "010203040506070800000000000000092c202408000000070000005c0000004002000000070000100000ffff0a0000000a0000ff\
    0806002801bb01bb20010db8000000000000000000000a0020010db8000000000000000000000aff";

const BOTH_FAMILIES_SHOWN: &str = "\
ike 0102030405060708 0000000000000009
exchange 36 flags I id 7 length 92
payload 44 at 28 length 64
\x20 selector protocol 0 ports 0-65535 addresses 10.0.0.0-10.0.0.255
\x20 selector protocol 6 ports 443-443 addresses 2001:0db8:0000:0000:0000:0000:0000:0a00-2001:0db8:0000:0000:0000:0000:0000:0aff
";

/// A header alone.
const BARE: &str = "0102030405060708 1112131415161718 00 20 ff c7 0000000a 0000001c";

const BARE_SHOWN: &str =
    "ike 0102030405060708 1112131415161718\nexchange 255 flags - id 10 length 28\n";

/// Shows the message of a text, and wants what is printed and the exit status.
fn expect<R: Abort + AllocGlobal>(rt: &R, text: &str, wanted: &str, status: u8) {
    let mut printed = Vec::new(rt.alloc());
    let ended = show(rt.alloc(), &mut text.as_bytes(), &mut printed);
    let printed = String::from_utf8(printed).expect(rt, "text");
    assert_eq!(rt; printed.as_str(), wanted, "of {text:?}");
    assert_eq!(rt; ended, status, "of {text:?}");
}

#[test]
fn messages(rt: HostRuntime) {
    expect(&rt, EVERY_TYPE, EVERY_TYPE_SHOWN, 0);
    expect(&rt, COOKIE, COOKIE_SHOWN, 0);
    expect(&rt, SEALED, SEALED_SHOWN, 0);
    expect(&rt, BOTH_FAMILIES, BOTH_FAMILIES_SHOWN, 0);
    expect(&rt, BARE, BARE_SHOWN, 0);
}

#[test]
fn letters_of_flags(rt: HostRuntime) {
    let flags = [
        ("00", "-"),
        ("08", "I"),
        ("10", "V"),
        ("20", "R"),
        ("18", "IV"),
        ("28", "IR"),
        ("30", "VR"),
        ("38", "IVR"),
    ];
    for (octet, letters) in flags {
        let text = format!(in rt.alloc();
            "0102030405060708 0000000000000000 00 20 22 {octet} 00000000 0000001c"
        ).expect(&rt, "memory");
        let wanted = format!(in rt.alloc();
            "ike 0102030405060708 0000000000000000\nexchange 34 flags {letters} id 0 length 28\n"
        ).expect(&rt, "memory");
        expect(&rt, text.as_str(), wanted.as_str(), 0);
    }
}

#[test]
fn no_messages(rt: HostRuntime) {
    let texts = [
        ("", "refused E1"),
        (
            "000000000000000000000000000000000000000000000000000000",
            "refused E1",
        ),
        (
            "0102030405060708000000000000000000202208000000000000001d",
            "refused E2",
        ),
        (
            "0102030405060708000000000000000021302208000000000000001c",
            "refused E3",
        ),
        (
            "0102030405060708000000000000000021202208000000000000001c",
            "refused E4 at 28",
        ),
        (
            "0102030405060708000000000000000021202208000000000000003400000018000000140003040100000100000000080100000b",
            "refused E5 at 28",
        ),
        (
            "010203040506070800000000000000002820220800000000000000482d000014000000000000000000000000000000000000001801000000070000100000ffff0a0000ff0a000000",
            "refused E6 at 48",
        ),
        (
            "01020304050607080000000000000000282022080000000000000043280000140000000000000000000000000000000000000013000000000000000000000000000000",
            "refused E7 at 48",
        ),
        (
            "0102030405060708000000000000000028202208000000000000003c2a000014000000000000000000000000000000000000000c0304000200001000",
            "refused E8 at 48",
        ),
    ];
    for (text, wanted) in texts {
        let wanted = format!(in rt.alloc(); "{wanted}\n").expect(&rt, "memory");
        expect(&rt, text, wanted.as_str(), 1);
    }
    let long = format!(in rt.alloc(); "{:0>1$}", "", 2 * 3001).expect(&rt, "memory");
    expect(&rt, long.as_str(), "refused E9\n", 1);
}

#[test]
fn no_digits(rt: HostRuntime) {
    for text in [
        "0",
        "0g",
        "-",
        "0x01",
        "01#",
        "0102 3",
        "01,02",
        "\u{e9}\u{e9}",
        "01\u{b}02",
    ] {
        expect(&rt, text, "refused hex\n", 1);
    }
}

/// A message behind which blanks stand, so many octets in all.
fn blanks_to(rt: &impl Abort, alloc: Global, octets: usize) -> Vec<u8> {
    let mut text = String::from_str(alloc, BARE)
        .expect(rt, "memory")
        .into_bytes();
    text.resize(octets, b' ').expect(rt, "memory");
    text
}

/// Shows the message of a text in octets.
fn expect_shown<R: Abort + AllocGlobal>(rt: &R, text: &[u8], wanted: &str, status: u8) {
    let mut printed = Vec::new(rt.alloc());
    let mut reader = text;
    same(rt, show(rt.alloc(), &mut reader, &mut printed), status);
    same(rt, printed.as_slice(), wanted.as_bytes());
}

#[test]
fn sizes_of_files(rt: HostRuntime) {
    let mut text = blanks_to(&rt, rt.alloc(), FILE_LIMIT);
    expect_shown(&rt, text.as_slice(), BARE_SHOWN, 0);
    text.push(b' ').expect(&rt, "memory");
    expect_shown(&rt, text.as_slice(), "refused file\n", 1);
}

#[test]
fn a_slow_reader_is_read_to_its_end(rt: HostRuntime) {
    let mut reader = Slow::new(COOKIE.as_bytes(), None);
    let mut printed = Vec::new(rt.alloc());
    same(&rt, show(rt.alloc(), &mut reader, &mut printed), 0);
    same(&rt, printed.as_slice(), COOKIE_SHOWN.as_bytes());
}

#[test]
fn a_failed_read_refuses_the_file(rt: HostRuntime) {
    for left in 0..=COOKIE.len() {
        let mut reader = Slow::new(COOKIE.as_bytes(), Some(left));
        let mut printed = Vec::new(rt.alloc());
        same(&rt, show(rt.alloc(), &mut reader, &mut printed), 1);
        same(&rt, printed.as_slice(), b"refused file\n".as_slice());
    }
}

#[test]
fn after_a_failed_write_nothing_is_printed(rt: HostRuntime) {
    let shown = COOKIE_SHOWN.as_bytes();
    for room in 0..shown.len() {
        for gives_up in [false, true] {
            let mut writer = Narrow::new(rt.alloc(), room, gives_up);
            same(
                &rt,
                show(rt.alloc(), &mut COOKIE.as_bytes(), &mut writer),
                1,
            );
            same(&rt, writer.written.as_slice(), &shown[..room]);
        }
    }
    let mut writer = Narrow::new(rt.alloc(), shown.len(), false);
    same(
        &rt,
        show(rt.alloc(), &mut COOKIE.as_bytes(), &mut writer),
        0,
    );
    same(&rt, writer.written.as_slice(), shown);
}

#[test]
fn a_refusal_that_is_not_written(rt: HostRuntime) {
    let refusal = b"refused E5 at 28\n";
    let text =
        "0102030405060708000000000000000021202208000000000000003400000018000000140003040100000100000000080100000b";
    for room in 0..refusal.len() {
        for gives_up in [false, true] {
            let mut writer = Narrow::new(rt.alloc(), room, gives_up);
            same(&rt, show(rt.alloc(), &mut text.as_bytes(), &mut writer), 1);
            same(&rt, writer.written.as_slice(), &refusal[..room]);
        }
    }
}
