//! Scripts of kind `two` with requests under keys and with moments.
use super::two::{ESTABLISH, ESTABLISHED, OPENING, OPENING_APART, expect_two};
use super::{expect, lines};
use crate::tests::asserts::{add, joined, repeated};
use std::process::Abort;

/// What an IKE SA and its first child print where both ends have a window of four.
pub const ESTABLISHED_WIDE: &str =
    "request 1 ike 1 length 148\nreply 2 length 148\nrequest 3 ike 1 length 214\nreply 4 length 206\ncounted ike 1 child 1\n";

#[test]
fn repeats(rt: HostRuntime) {
    let rows = [
        (
            "probe A 1\ndeliver 5\ndeliver 5\nsame 6 7\ndeliver 6\ndeliver 6\nprobe A 1\ndeliver 8\ndeliver 5\n",
            "request 5 ike 1 length 49\nreply 6 length 49\nrepeat 7 length 49\nsame yes\ncounted ike 1\ndropped E31\n\
            request 8 ike 1 length 49\nreply 9 length 49\ndropped E30\n",
        ),
        // Reflected, cut and damaged, an order while one waits for an answer, and then the datagram as it is.
        (
            "probe A 1\nreflect 5\ncut 5 30\ncut 5 27\ndamage 5 48 01\nprobe A 1\ndeliver 5\n",
            "request 5 ike 1 length 49\ndropped E33\ndropped E2\ndropped E1\ndropped E29\nrefused E35\nreply 6 length 49\n",
        ),
        // One request of each end, which cross.
        (
            "probe A 1\nprobe B 1\ndeliver 6\ndeliver 5\ndeliver 8\ndeliver 7\ntable A\n",
            "request 5 ike 1 length 49\nrequest 6 ike 1 length 49\nreply 7 length 49\nreply 8 length 49\n\
            counted ike 1\ncounted ike 1\npair 1 ike 1 in 00001000 out 00002000 live\n",
        ),
        ("probe A 2\nprobe B 0\n", "refused E28\nrefused E28\n"),
    ];
    for (rest, wanted) in rows {
        expect_two(&rt, [OPENING, ESTABLISH, rest], [ESTABLISHED, wanted]);
    }
    // An IKE SA without its child asks as well.
    expect_two(
        &rt,
        [OPENING_APART, ESTABLISH, "probe A 1\n"],
        [
            "request 1 ike 1 length 148\nreply 2 length 148\nrequest 3 ike 1 length 202\nreply 4 length 114\ncounted ike 1\n",
            "request 5 ike 1 length 49\n",
        ],
    );
    // It does not before it is established.
    expect_two(
        &rt,
        [OPENING, "start A 0\nprobe A 1\ndeliver 1\nprobe B 1\n", ""],
        [
            "request 1 ike 1 length 148\nrefused E32\nreply 2 length 148\nrefused E32\n",
            "",
        ],
    );
}

#[test]
fn windows(rt: HostRuntime) {
    expect_two(
        &rt,
        [
            "window A 4\nwindow B 4\n",
            OPENING,
            "start A 0\ndeliver 1\ndeliver 2\ndeliver 3\ndeliver 4\n\
            probe A 1\nprobe A 1\nprobe A 1\nprobe A 1\nprobe A 1\n\
            deliver 7\ndeliver 9\nprobe A 1\ndeliver 5\ndeliver 7\nsame 9 11\ndeliver 10\nprobe A 1\ndeliver 12\n\
            deliver 5\ndeliver 6\ndeliver 9\n",
        ],
        [
            ESTABLISHED_WIDE,
            "request 5 ike 1 length 49\nrequest 6 ike 1 length 49\nrequest 7 ike 1 length 49\nrequest 8 ike 1 length 49\nrefused E35\n\
            reply 9 length 49\ncounted ike 1\nrefused E35\nreply 10 length 49\nrepeat 11 length 49\nsame yes\ncounted ike 1\n\
            request 12 ike 1 length 49\nreply 13 length 49\ndropped E30\nreply 14 length 49\ndropped E31\n",
        ],
    );
    // A keeps four replies: B may have four requests under way, and A one.
    expect_two(
        &rt,
        [
            "window A 4\n",
            OPENING,
            "start A 0\ndeliver 1\ndeliver 2\ndeliver 3\ndeliver 4\n\
            probe B 1\nprobe B 1\nprobe B 1\nprobe B 1\nprobe B 1\nprobe A 1\nprobe A 1\ndeliver 8\ndeliver 5\n",
        ],
        [
            "request 1 ike 1 length 148\nreply 2 length 148\nrequest 3 ike 1 length 214\nreply 4 length 194\ncounted ike 1 child 1\n",
            "request 5 ike 1 length 49\nrequest 6 ike 1 length 49\nrequest 7 ike 1 length 49\nrequest 8 ike 1 length 49\nrefused E35\n\
            request 9 ike 1 length 49\nrefused E35\nreply 10 length 49\nreply 11 length 49\n",
        ],
    );
}

#[test]
fn moments(rt: HostRuntime) {
    let rows = [
        (
            "start A 0\ntick A 999\ntick A 1000\ntick A 2999\ntick A 3000\ntick A 6999\ntick A 7000\ntick A 14999\ntick A 15000\n\
            tick A 30999\ntick A 31000\ntick A 46999\ntick A 47000\nsame 1 2\nsame 1 3\nsame 1 4\nsame 1 5\nsame 1 6\n",
            "request 1 ike 1 length 148\nticked\nrequest 2 ike 1 length 148\nticked\nrequest 3 ike 1 length 148\nticked\n\
            request 4 ike 1 length 148\nticked\nrequest 5 ike 1 length 148\nticked\nrequest 6 ike 1 length 148\nticked\nclosed ike 1\n\
            same yes\nsame yes\nsame yes\nsame yes\nsame yes\n",
        ),
        (
            "start A 0\ndeliver 1\ndeliver 1\nsame 2 3\ntick B 29999\ndeliver 1\ntick B 30000\ndeliver 1\nsame 2 5\n",
            "request 1 ike 1 length 148\nreply 2 length 148\nrepeat 3 length 148\nsame yes\nticked\nrepeat 4 length 148\n\
            ticked\nreply 5 length 148\nsame no\n",
        ),
        // Two requests are due at one moment, which comes late: each goes out once. An earlier moment
        // counts as that one.
        (
            "start A 0\nstart A 0\ntick A 5000\ntick A 10\ntick A 6999\ntick A 7000\n",
            "request 1 ike 1 length 148\nrequest 2 ike 2 length 148\nrequest 3 ike 1 length 148\nrequest 4 ike 2 length 148\n\
            ticked\nticked\nrequest 5 ike 1 length 148\nrequest 6 ike 2 length 148\n",
        ),
        // Requests go out again before an IKE SA is closed at the same moment, though that one was begun
        // first.
        (
            "start A 0\ntick A 1000\ntick A 3000\ntick A 7000\ntick A 15000\ntick A 31000\nstart A 0\ntick A 47000\n",
            "request 1 ike 1 length 148\nrequest 2 ike 1 length 148\nrequest 3 ike 1 length 148\nrequest 4 ike 1 length 148\n\
            request 5 ike 1 length 148\nrequest 6 ike 1 length 148\nrequest 7 ike 2 length 148\nrequest 8 ike 2 length 148\nclosed ike 1\n",
        ),
        // Once it is closed it is held for two minutes more, and answers nothing new.
        (
            "start A 0\ndeliver 1\ndeliver 2\ndeliver 3\ndeliver 4\nprobe A 1\nprobe B 1\n\
            tick A 1000\ntick A 3000\ntick A 7000\ntick A 15000\ntick A 31000\ntick A 47000\n\
            deliver 6\nprobe A 1\ntable A\ntick A 166999\ndeliver 6\ntick A 167000\ndeliver 6\n\
            same 5 7\nsame 5 8\nsame 5 9\nsame 5 10\nsame 5 11\n",
            "request 1 ike 1 length 148\nreply 2 length 148\nrequest 3 ike 1 length 202\nreply 4 length 194\ncounted ike 1 child 1\n\
            request 5 ike 1 length 49\nrequest 6 ike 1 length 49\nrequest 7 ike 1 length 49\nrequest 8 ike 1 length 49\n\
            request 9 ike 1 length 49\nrequest 10 ike 1 length 49\nrequest 11 ike 1 length 49\nclosed ike 1\n\
            dropped E32\nrefused E32\nempty\nticked\ndropped E32\nticked\ndropped E28\n\
            same yes\nsame yes\nsame yes\nsame yes\nsame yes\n",
        ),
    ];
    for (script, wanted) in rows {
        expect_two(&rt, [OPENING, script, ""], [wanted, ""]);
    }
}

/// A gateway whose peer asked whether it is there, and was answered.
fn asked<R: Abort + AllocGlobal>(rt: &R) -> String {
    let opened = joined(rt, "two\n", OPENING);
    let established = joined(rt, opened.as_str(), ESTABLISH);
    joined(rt, established.as_str(), "probe A 1\ndeliver 5\n")
}

/// What that prints, and a thousand answers more.
fn answered<R: Abort + AllocGlobal>(rt: &R) -> String {
    let mut printed = joined(
        rt,
        ESTABLISHED,
        "request 5 ike 1 length 49\nreply 6 length 49\n",
    );
    let repeats = lines(rt, "repeat ", 7..=1006, " length 49");
    add(rt, &mut printed, repeats.as_str());
    printed
}

/// A request that comes a thousand times after its reply is answered by the same octets each time, and
/// the table stays as it is.
#[test]
fn storms(rt: HostRuntime) {
    let mut script = repeated(&rt, "deliver 5\n", 1000);
    add(&rt, &mut script, "same 6 7\nsame 6 1006\ntable B\n");
    let mut wanted = answered(&rt);
    add(
        &rt,
        &mut wanted,
        "same yes\nsame yes\npair 1 ike 1 in 00002000 out 00001000 live\n",
    );
    expect(
        &rt,
        asked(&rt).as_str(),
        script.as_str(),
        wanted.as_str(),
        0,
    );
}
