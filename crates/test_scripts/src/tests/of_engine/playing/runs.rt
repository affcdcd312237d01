//! Scripts that are played to their end. Packets were computed with Python's `hmac`.
use super::{EXTENDED, PLAIN, expect};
use crate::tests::asserts::joined;
use std::panic::Expect;

/// The packet with number 1 that carries the 20 octets of a whole IPv4 header.
const PACKET: &str =
    "packet 00000100000000014500001400000000400100000a0000010a010001010202048c575ecd82b04c86d2e6c18115f2b52d\n";

/// The packet with number 2^32, whose ICV covers the high half.
const CROSSED: &str =
    "packet 00000100000000004500001400000000400100000a0000010a010001010202049fba5512a0d6030e4fda01d663374405\n";

#[test]
fn a_repeat_is_refused(rt: HostRuntime) {
    let rest = "sender 6\nseal 4 4500001400000000400100000a0000010a010001\ndeliver 1\ndeliver 1\n";
    let wanted =
        "done\nsealed 1 number 7 length 48\nup number 7 next 4 4500001400000000400100000a0000010a010001\nE16\n";
    expect(&rt, PLAIN, rest, wanted, 0);
}

#[test]
fn a_damaged_packet_takes_no_number(rt: HostRuntime) {
    let rest =
        "sender 8\nseal 4 4500001400000000400100000a0000010a010001\ndamage 1 47 01\ndeliver 1\n";
    let wanted =
        "done\nsealed 1 number 9 length 48\nE18\nup number 9 next 4 4500001400000000400100000a0000010a010001\n";
    expect(&rt, PLAIN, rest, wanted, 0);
}

#[test]
fn packets_are_printed(rt: HostRuntime) {
    let rest = "seal 4 4500001400000000400100000a0000010a010001\nprint 1";
    let wanted = joined(&rt, "sealed 1 number 1 length 48\n", PACKET);
    expect(&rt, PLAIN, rest, wanted.as_str(), 0);

    let rest = "sender 4294967295\nseal 4 4500001400000000400100000a0000010a010001\nprint 1\n";
    let wanted = joined(&rt, "done\nsealed 1 number 4294967296 length 48\n", CROSSED);
    expect(&rt, EXTENDED, rest, wanted.as_str(), 0);
}

#[test]
fn every_length_has_its_padding(rt: HostRuntime) {
    for (octets, length) in [(22, 48), (23, 52), (24, 52), (25, 52), (16_384, 16_412)] {
        let rest = format!(in rt.alloc(); "seal 4 {:0>1$}\n", "", 2 * octets).expect(&rt, "memory");
        let wanted = format!(in rt.alloc(); "sealed 1 number 1 length {length}\n").expect(
            &rt, "memory",
        );
        expect(&rt, PLAIN, rest.as_str(), wanted.as_str(), 0);
    }
    let rest = "seal 59 -\ndeliver 1\nprint 1\n";
    let wanted =
        "sealed 1 number 1 length 28\nup number 1 next 59 -\npacket 00000100000000010102023b507e7c8bc28f1cb8347204c1d615a20f\n";
    expect(&rt, PLAIN, rest, wanted, 0);
}

#[test]
fn an_end_refuses_and_the_script_goes_on(rt: HostRuntime) {
    let rest = "sender 4294967295\nseal 4 00\nsender 0\nseal 4 00\n";
    expect(
        &rt,
        PLAIN,
        rest,
        "done\nE12\ndone\nsealed 1 number 1 length 28\n",
        0,
    );
    let rest = format!(in rt.alloc(); "seal 4 {:0>1$}\nseal 4 00\n", "", 2 * 16_385).expect(
        &rt, "memory",
    );
    expect(
        &rt,
        PLAIN,
        rest.as_str(),
        "E13\nsealed 1 number 1 length 28\n",
        0,
    );

    // A number that the window passed, a packet whose low half is 0, another SA's packet.
    let rest =
        "sender 64\nseal 4 00\ndeliver 1\nsender 0\nseal 4 00\ndeliver 2\nseal 4 00\ndeliver 3\n";
    let wanted =
        "done\nsealed 1 number 65 length 28\nup number 65 next 4 00\ndone\nsealed 2 number 1 length 28\nE15\nsealed 3 number 2 length 28\nup number 2 next 4 00\n";
    expect(&rt, PLAIN, rest, wanted, 0);
    let rest = "seal 4 00\ndamage 1 7 01\ndamage 1 0 01\ndamage 1 3 FF\ndamage 1 27 00\n";
    expect(
        &rt,
        PLAIN,
        rest,
        "sealed 1 number 1 length 28\nE17\nE28\nE28\nup number 1 next 4 00\n",
        0,
    );
}

#[test]
fn numbers_with_a_high_half(rt: HostRuntime) {
    let rest = "sender 4294967295\nseal 4 00\ndeliver 1\n";
    expect(
        &rt,
        EXTENDED,
        rest,
        "done\nsealed 1 number 4294967296 length 28\nE17\n",
        0,
    );
    let rest =
        "sender 4294967231\nseal 4 4500001400000000400100000a0000010a010001\ndeliver 1\nsender 4294967295\nseal 4 4500001400000000400100000a0000010a010001\ndeliver 2\n";
    let wanted =
        "done\nsealed 1 number 4294967232 length 48\nup number 4294967232 next 4 4500001400000000400100000a0000010a010001\ndone\nsealed 2 number 4294967296 length 48\nup number 4294967296 next 4 4500001400000000400100000a0000010a010001\n";
    expect(&rt, EXTENDED, rest, wanted, 0);
    let rest =
        "sender 18446744073709551614\nseal 0 -\nseal 0 -\nsender 18446744073709551615\nseal 255 -\n";
    expect(
        &rt,
        EXTENDED,
        rest,
        "done\nsealed 1 number 18446744073709551615 length 28\nE12\ndone\nE12\n",
        0,
    );
}

#[test]
fn forms_of_lines(rt: HostRuntime) {
    expect(&rt, "one", "", "", 0);
    expect(&rt, "one\n\n\n# no association\n", "", "", 0);
    expect(
        &rt,
        "one\n#\n\n# \u{e9}\u{1f600}\nsa 0000000256 0B0b0b0b0b0b0b0b0b0b0b0b0b0b0b0b0b0b0b0b0b0b0b0b0b0b0b0b0b0b0b0b 128 no\n",
        "",
        "",
        0,
    );
    expect(
        &rt,
        "one\nsa 4294967295 0b0b0b0b0b0b0b0b0b0b0b0b0b0b0b0b0b0b0b0b0b0b0b0b0b0b0b0b0b0b0b0b 64 no\n",
        "sender 4\nseal 59 ABABababAB\n# \u{ff}\n\nprint 01\ndeliver 1",
        "done\nsealed 1 number 5 length 32\npacket ffffffff00000005ababababab01013b800f79bb6e5dd9a896cff9d464d37d3e\nup number 5 next 59 ababababab\n",
        0,
    );
}
