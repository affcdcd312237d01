//! Scripts of kind `two`.
use super::expect;
use std::panic::Expect;
use std::process::Abort;

/// Each end protects all traffic between its own network and the other's.
pub const OPENING: &str =
    "entry A protect 0 10.0.0.0-10.0.0.255 0-65535 10.1.0.0-10.1.0.255 0-65535\n\
    entry B protect 0 10.1.0.0-10.1.0.255 0-65535 10.0.0.0-10.0.0.255 0-65535\n";

/// The same with networks of IPv6.
const OPENING_V6: &str =
    "entry A protect 0 2001:0db8:0000:0000:0000:0000:0000:0a00-2001:0db8:0000:0000:0000:0000:0000:0aff 0-65535 \
    2001:0db8:0000:0000:0000:0000:0000:0b00-2001:0db8:0000:0000:0000:0000:0000:0bff 0-65535\n\
    entry B protect 0 2001:0DB8:0000:0000:0000:0000:0000:0B00-2001:0DB8:0000:0000:0000:0000:0000:0BFF 0-65535 \
    2001:0db8:0000:0000:0000:0000:0000:0a00-2001:0db8:0000:0000:0000:0000:0000:0aff 0-65535\n";

/// What B protects begins at another network than what A asks for.
pub const OPENING_APART: &str =
    "entry A protect 0 10.0.0.0-10.0.0.255 0-65535 10.1.0.0-10.1.0.255 0-65535\n\
    entry B protect 0 10.2.0.0-10.2.0.255 0-65535 10.0.0.0-10.0.0.255 0-65535\n";

/// An IKE SA and its first child, from A to B.
pub const ESTABLISH: &str = "start A 0\ndeliver 1\ndeliver 2\ndeliver 3\ndeliver 4\n";

/// What that prints.
pub const ESTABLISHED: &str =
    "request 1 ike 1 length 148\nreply 2 length 148\nrequest 3 ike 1 length 202\nreply 4 length 194\ncounted ike 1 child 1\n";

/// Nine IKE SAs are begun at A, and eight of their requests come to B. The ninth is asked for a cookie.
const NINE: &str =
    "start A 0\nstart A 0\nstart A 0\nstart A 0\nstart A 0\nstart A 0\nstart A 0\nstart A 0\nstart A 0\n\
    deliver 1\ndeliver 2\ndeliver 3\ndeliver 4\ndeliver 5\ndeliver 6\ndeliver 7\ndeliver 8\ndeliver 9\ndeliver 18\n";

/// What that prints.
const NINE_BEGUN: &str =
    "request 1 ike 1 length 148\nrequest 2 ike 2 length 148\nrequest 3 ike 3 length 148\nrequest 4 ike 4 length 148\n\
    request 5 ike 5 length 148\nrequest 6 ike 6 length 148\nrequest 7 ike 7 length 148\nrequest 8 ike 8 length 148\n\
    request 9 ike 9 length 148\nreply 10 length 148\nreply 11 length 148\nreply 12 length 148\nreply 13 length 148\n\
    reply 14 length 148\nreply 15 length 148\nreply 16 length 148\nreply 17 length 148\nreply 18 length 72\n\
    request 19 ike 9 length 192\n";

/// Plays a script, in three parts behind its first line, and wants what it prints, in two parts.
pub fn expect_two<R: Abort + AllocGlobal>(rt: &R, script: [&str; 3], wanted: [&str; 2]) {
    let script = script.concat(rt.alloc()).expect(rt, "memory");
    let wanted = wanted.concat(rt.alloc()).expect(rt, "memory");
    expect(rt, "two\n", script.as_str(), wanted.as_str(), 0);
}

#[test]
fn establishments(rt: HostRuntime) {
    // What stands before it, the entries, the lengths of datagrams 3 and 4, and what is made at A.
    let rows = [
        ("", OPENING, (202, 194), "ike 1 child 1"),
        ("extended no\n", OPENING, (194, 194), "ike 1 child 1"),
        ("", OPENING_APART, (202, 114), "ike 1"),
        ("", OPENING_V6, (250, 242), "ike 1 child 1"),
        (
            "window A 4\nwindow B 4\n",
            OPENING,
            (214, 206),
            "ike 1 child 1",
        ),
        ("window A 4\n", OPENING, (214, 194), "ike 1 child 1"),
        (
            "window A 1\nwindow A 4\nwindow B 16\nwindow B 1\n",
            OPENING,
            (214, 194),
            "ike 1 child 1",
        ),
    ];
    for (terms, entries, (request, reply), made) in rows {
        let wanted = format!(in rt.alloc();
            "request 1 ike 1 length 148\nreply 2 length 148\nrequest 3 ike 1 length {request}\nreply 4 length {reply}\ncounted {made}\n"
        ).expect(&rt, "memory");
        expect_two(&rt, [terms, entries, ESTABLISH], [wanted.as_str(), ""]);
    }
}

#[test]
fn after_an_establishment(rt: HostRuntime) {
    let rows = [
        (
            "table A\ntable B\n",
            "pair 1 ike 1 in 00001000 out 00002000 live\npair 1 ike 1 in 00002000 out 00001000 live\n",
        ),
        (
            "out A 4500001400000000400100000a0000010a010001\ndeliver 5\ndeliver 5\n",
            "sealed 5 child 1 number 1 length 48\nup child 1 number 1 4500001400000000400100000a0000010a010001\ndropped E16\n",
        ),
        (
            "out A 4500001400000000400100000a0000010a010001\ndamage 5 0 01\ndamage 5 7 01\ndamage 5 4 01\ndamage 5 47 01\n\
            cut 5 28\ncut 5 27\ncut 5 0\ndamage 5 47 00\nreflect 5\n",
            "sealed 5 child 1 number 1 length 48\ndropped E28\ndropped E17\ndropped E18\ndropped E18\n\
            dropped E18\ndropped E14\ndropped E14\nup child 1 number 1 4500001400000000400100000a0000010a010001\ndropped E28\n",
        ),
        (
            "deliver 4\ndeliver 3\nsame 4 5\nsame 3 4\n",
            "dropped E31\nrepeat 5 length 194\nsame yes\nsame no\n",
        ),
        (
            "in A 4500001400000000400100000a0100010a000001\nout B 4500001400000000400100000a0000010a010001\nout A 45\nstart A 1\n\
            raw B ike 00\nraw A ike -\nraw B esp 000020\nraw B esp 00002001\n",
            "discarded\ndiscarded\ndropped E21\nrefused E23\ndropped E1\ndropped E1\ndropped E14\ndropped E28\n",
        ),
    ];
    for (rest, wanted) in rows {
        expect_two(&rt, [OPENING, ESTABLISH, rest], [ESTABLISHED, wanted]);
    }
}

#[test]
fn before_an_establishment(rt: HostRuntime) {
    let rows = [
        (
            "out A 4500001400000000400100000a0000010a010001\ntable A\n",
            "dropped E28\nempty\n",
        ),
        // The request of IKE_AUTH back to its sender, the answer to it cut and damaged, and then as it is.
        (
            "start A 0\ndeliver 1\ndeliver 2\ndeliver 3\nreflect 3\ncut 4 30\ncut 4 27\ndamage 4 193 01\ncut 4 194\n",
            "request 1 ike 1 length 148\nreply 2 length 148\nrequest 3 ike 1 length 202\nreply 4 length 194\n\
            dropped E33\ndropped E2\ndropped E1\ndropped E29\ncounted ike 1 child 1\n",
        ),
        (
            "secret A 0101010101010101010101010101010101010101010101010101010101010101\n",
            "done\n",
        ),
    ];
    for (script, wanted) in rows {
        expect_two(&rt, [OPENING, script, ""], [wanted, ""]);
    }
    let bypass = "entry A bypass 1 10.0.0.0-10.0.0.255 0-65535 10.1.0.0-10.1.0.255 0-65535\n";
    expect_two(
        &rt,
        [
            bypass,
            "out A 4500001400000000400100000a0000010a010001\n",
            "in A 4500001400000000400100000a0100010a000001\n",
        ],
        [
            "clear 4500001400000000400100000a0000010a010001\n",
            "clear 4500001400000000400100000a0100010a000001\n",
        ],
    );
}

#[test]
fn packets_of_ipv6(rt: HostRuntime) {
    let rest = "out A 6000000000003b4020010db800000000000000000000\
        0a0120010db8000000000000000000000b01\ndeliver 5\n\
        out A 6000000000002c4020010db8000000000000000000000a0120010db8000000000000000000000b01\n\
        out A 4500001400000000400100000a0000010a010001\n";
    expect_two(
        &rt,
        [OPENING_V6, ESTABLISH, rest],
        [
            "request 1 ike 1 length 148\nreply 2 length 148\nrequest 3 ike 1 length 250\nreply 4 length 242\ncounted ike 1 child 1\n",
            "sealed 5 child 1 number 1 length 68\n\
            up child 1 number 1 6000000000003b4020010db8000000000000000000000a0120010db8000000000000000000000b01\n\
            dropped E39\ndiscarded\n",
        ],
    );
}

#[test]
fn cookies(rt: HostRuntime) {
    let rows = [
        (
            "damage 19 71 01\ndeliver 19\n",
            "reply 20 length 72\nreply 21 length 148\n",
        ),
        (
            "secret B 0101010101010101010101010101010101010101010101010101010101010101\ndeliver 19\n",
            "done\nreply 20 length 148\n",
        ),
        (
            "secret B 0101010101010101010101010101010101010101010101010101010101010101\n\
            secret B 0101010101010101010101010101010101010101010101010101010101010101\ndeliver 19\ndeliver 20\ndeliver 21\n",
            "done\ndone\nreply 20 length 72\nrequest 21 ike 9 length 192\nreply 22 length 148\n",
        ),
    ];
    for (rest, wanted) in rows {
        expect_two(&rt, [OPENING, NINE, rest], [NINE_BEGUN, wanted]);
    }
}
