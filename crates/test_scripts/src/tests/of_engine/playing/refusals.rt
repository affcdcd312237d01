//! Lines that are refused.
use super::{EXTENDED, KEY, PLAIN, expect};
use crate::tests::asserts::{joined, same};
use gw_console::FILE_LIMIT;
use gw_engine::play;
use std::panic::Expect;
use std::process::Abort;

/// First lines that name no kind, parted by bars.
const KINDS: &str =
    "|\n|\none\n|# one\none\n|three\n|ONE\n|TWO\n| one\n|one \n|one\r\n|one two\n|two \n|two one\n|on\u{e9}\n|#";

/// Terms that no SA has, parted by bars. K stands for a key.
const TERMS: &str =
    "sa 255 K 2 no|sa 4294967296 K 2 no|sa -1 K 2 no|sa - K 2 no|sa 0x100 K 2 no|sa 256 00 2 no|sa 256 - 2 no|\
    sa K 2 no|sa 256 K 0 no|sa 256 K 1 no|sa 256 K 3 no|sa 256 K 127 no|sa 256 K 256 no|sa 256 K 4294967298 no|sa 256 K 2 maybe|\
    sa 256 K 2 No|sa 256 K 2|sa 256 K 2 |sa 256 K 2 no no|sa 256 K 2 no |sa 256 K  2 no|SA 256 K 2 no|sa 256 K0b 2 no|\
    sa 256 0b 2 no|sa 256 gK 2 no|sender 6|seal 4 -|deliver 1|damage 1 0 00|print 1|open 1";

/// Lines that can't be followed where one packet of 28 octets was sealed, parted by bars.
const DIRECTIVES: &str =
    "open 1|Seal 4 00|seal|seal 4|seal 4 |seal  4 00| seal 4 00|seal 4 00 |seal 4  00|seal 4 00\r|seal 4 0|\
    seal 4 0g|seal 4 --|seal 4 00 00|seal 256 00|seal -1 00|seal +4 00|seal 4. 00|seal 4\t00|seal 4 \u{e9}|\u{e9}|deliver|deliver 0|\
    deliver 2|deliver -|deliver 1 1|deliver 18446744073709551616|deliver 36893488147419103233|damage 1 28 01|\
    damage 1 18446744073709551615 01|damage 1 27|damage 1 27 1|damage 1 27 001|damage 1 27 0g|damage 1 27 -|damage 1 27 0101|\
    damage 0 27 01|damage 2 27 01|damage 1 27 01 01|print|print 0|print 2|print 1 1|sender|sender 4294967296|sender -|sender 6 6|-|\
    sa|one|sa 256 0b0b0b0b0b0b0b0b0b0b0b0b0b0b0b0b0b0b0b0b0b0b0b0b0b0b0b0b0b0b0b0b 2 no";

#[test]
fn first_lines(rt: HostRuntime) {
    for kind in KINDS.split('|') {
        expect(&rt, kind, "", "line 1 refused\n", 1);
    }
}

#[test]
fn terms(rt: HostRuntime) {
    for terms in TERMS.split('|') {
        let line = terms.replace(rt.alloc(), "K", KEY).expect(&rt, "memory");
        expect(&rt, "one\n\n", line.as_str(), "line 3 refused\n", 1);
    }
}

#[test]
fn directives(rt: HostRuntime) {
    for line in DIRECTIVES.split('|') {
        let rest = format!(in rt.alloc();
            "seal 4 00\n# the next one is refused\n{line}\nseal 4 00\n"
        ).expect(&rt, "memory");
        expect(
            &rt,
            PLAIN,
            rest.as_str(),
            "sealed 1 number 1 length 28\nline 5 refused\n",
            1,
        );
    }
    expect(
        &rt,
        EXTENDED,
        "sender 18446744073709551616",
        "line 3 refused\n",
        1,
    );
}

/// A script behind which a comment stands, so many octets in all.
fn comment_to<R: Abort + AllocGlobal>(rt: &R, octets: usize) -> Vec<u8> {
    let mut script = joined(rt, PLAIN, "sender 6\n").into_bytes();
    script.resize(octets, b'#').expect(rt, "memory");
    script
}

/// Plays a script in octets.
fn expect_played<R: Abort + AllocGlobal>(rt: &R, script: &[u8], wanted: &str, status: u8) {
    let mut printed = Vec::new(rt.alloc());
    let mut reader = script;
    same(rt, play(rt.alloc(), &mut reader, &mut printed), status);
    same(rt, printed.as_slice(), wanted.as_bytes());
}

#[test]
fn sizes_of_files(rt: HostRuntime) {
    let mut octets = comment_to(&rt, FILE_LIMIT);
    expect_played(&rt, octets.as_slice(), "done\n", 0);
    octets.push(b'#').expect(&rt, "memory");
    expect_played(&rt, octets.as_slice(), "refused file\n", 1);
}
