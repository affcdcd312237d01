//! Lines of scripts of kind `two` that are refused.
use super::expect;
use crate::tests::asserts::{joined, repeated};

/// First directives that set nothing up, parted by bars.
const TERMS: &str =
    "extended|extended yes|extended maybe|extended No|extended no no|window|window A|window A 0|window A 17|window A 257|window A -1|window a 1|\
    window C 1|window A 1 |window 1 A|two|one|entry|\
    entry C protect 0 10.0.0.0-10.0.0.255 0-65535 10.1.0.0-10.1.0.255 0-65535|\
    entry A pass 0 10.0.0.0-10.0.0.255 0-65535 10.1.0.0-10.1.0.255 0-65535|\
    entry A protect 256 10.0.0.0-10.0.0.255 0-65535 10.1.0.0-10.1.0.255 0-65535|\
    entry A protect 0 10.0.0.0 0-65535 10.1.0.0-10.1.0.255 0-65535|\
    entry A protect 0 10.0.0.0-10.0.0.255-10.0.0.255 0-65535 10.1.0.0-10.1.0.255 0-65535|\
    entry A protect 0 10.0.0.0-10.0.0.256 0-65535 10.1.0.0-10.1.0.255 0-65535|\
    entry A protect 0 10.0.0.0-10.0.0.255 0-65536 10.1.0.0-10.1.0.255 0-65535|\
    entry A protect 0 10.0.0.0-10.0.0.255 65535 10.1.0.0-10.1.0.255 0-65535|\
    entry A protect 0 10.0.0.0-10.0.0.255 -1-65535 10.1.0.0-10.1.0.255 0-65535|\
    entry A protect 0 10.0.0.0-10.0.0.255 0-65535 10.1.0.0-10.1.0.255|\
    entry A protect 0 10.0.0.0-10.0.0.255 0-65535 10.1.0.0-10.1.0.255 0-65535 0|\
    entry A protect 0 10.0.0.255-10.0.0.0 0-65535 10.1.0.0-10.1.0.255 0-65535|\
    entry A protect 0 10.0.0.0-10.0.0.255 0-65535 10.1.0.0-10.1.0.255 443-80|\
    entry A protect 0 10.0.0.0-2001:0db8:0000:0000:0000:0000:0000:0a00 0-65535 10.1.0.0-10.1.0.255 0-65535|\
    entry A protect 0 10.0.0.0-10.0.0.255 0-65535 2001:0db8:0000:0000:0000:0000:0000:0a00-2001:0db8:0000:0000:0000:0000:0000:0a00 0-65535|\
    entry A protect 0 2001:db8::a00-2001:db8::aff 0-65535 2001:db8::b00-2001:db8::bff 0-65535";

/// Lines that can't be followed where one datagram of 148 octets was sent, parted by bars.
const DIRECTIVES: &str =
    "extended no|extended yes|window A 1|entry A protect 0 10.0.0.0-10.0.0.255 0-65535 10.1.0.0-10.1.0.255 0-65535|\
    start|start A|start 0|start C 0|start A -1|start A 4294967296|start A 0 0|secret A|secret A -|secret A 00|\
    secret A 010101010101010101010101010101010101010101010101010101010101010101|deliver|deliver 0|deliver 2|deliver A 1|deliver 1 1|\
    reflect 0|reflect 2|reflect|damage 1 148 01|damage 1 0|damage 1 0 1|damage 2 0 01|damage 1 18446744073709551616 01|cut 1|cut 1 149|\
    cut 0 0|cut 1 18446744073709551615|raw A|raw A ike|raw A ah 00|raw C ike 00|raw A esp 0|raw A ike 00 00|out A|out A 0g|out C 00|out 00|\
    in A|in A 0|in C 00|table|table C|table A B|same 1|same 1 2|same 0 1|same 1 1 1|start A\t0|START A 0|sa|seal 4 00|sender 1|print 1|\
    child|child A|child A 1|child A -1 0|child A 1 -1|child C 1 0|child A 1 0 0|child A 4294967296 0|child A 1 4294967296|\
    delete|delete A|delete A -1|delete C 1|delete A 1 1|close|close A|close A -1|close C 1|close A 1 1|\
    probe|probe A|probe A -1|probe C 1|probe A 1 1|probe A 4294967296|tick|tick A|tick A -1|tick C 1|tick A 1 1|tick A 18446744073709551616";

#[test]
fn terms_of_gateways(rt: HostRuntime) {
    for line in TERMS.split('|') {
        expect(&rt, "two\n\n", line, "line 3 refused\n", 1);
    }
}

#[test]
fn directives_of_gateways(rt: HostRuntime) {
    let start =
        "two\nentry A protect 0 10.0.0.0-10.0.0.255 0-65535 10.1.0.0-10.1.0.255 0-65535\nstart A 0\n# the next one is refused\n";
    for line in DIRECTIVES.split('|') {
        expect(
            &rt,
            start,
            line,
            "request 1 ike 1 length 148\nline 5 refused\n",
            1,
        );
    }
}

#[test]
fn what_ends_the_opening_lines(rt: HostRuntime) {
    let rows = [
        ("window A 4\nextended no\n", "line 3 refused\n"),
        ("extended no\nextended no\n", "line 3 refused\n"),
        ("table A\nwindow A 4\n", "empty\nline 3 refused\n"),
        ("same 1 1\n", "line 2 refused\n"),
        ("table B\nextended no\n", "empty\nline 3 refused\n"),
    ];
    for (rest, wanted) in rows {
        expect(&rt, "two\n", rest, wanted, 1);
    }
    expect(
        &rt,
        "two\n# nothing\n\nextended no\nwindow B 016",
        "",
        "",
        0,
    );
}

/// An entry for one packet alone.
const ENTRY: &str =
    "entry B discard 6 0.0.0.0-0.0.0.0 1-1 255.255.255.255-255.255.255.255 65535-65535\n";

#[test]
fn an_end_has_256_entries(rt: HostRuntime) {
    let entries = repeated(&rt, ENTRY, 256);
    let script = joined(&rt, "two\n", entries.as_str());
    expect(&rt, script.as_str(), "table B\n", "empty\n", 0);
    expect(&rt, script.as_str(), ENTRY, "line 258 refused\n", 1);
}
