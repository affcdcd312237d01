//! Scripts of kind `two` in which an additional Child SA is asked for (RFC 7296, sections 1.3 and 1.3.1).
use super::two::{ESTABLISH, ESTABLISHED, OPENING, expect_two};

/// A protects a second network behind B, which B doesn't.
const OPENING_WIDER: &str =
    "entry A protect 0 10.0.0.0-10.0.0.255 0-65535 10.1.0.0-10.1.0.255 0-65535\n\
    entry A protect 0 10.0.0.0-10.0.0.255 0-65535 10.2.0.0-10.2.0.255 0-65535\n\
    entry A bypass 0 10.0.0.0-10.0.0.255 0-65535 10.3.0.0-10.3.0.255 0-65535\n\
    entry B protect 0 10.1.0.0-10.1.0.255 0-65535 10.0.0.0-10.0.0.255 0-65535\n";

#[test]
fn children(rt: HostRuntime) {
    let rows = [
        // The newer child carries what goes out; the request again is answered by the same octets.
        (
            "child A 1 0\ndeliver 5\ndeliver 6\ntable A\nout A 4500001400000000400100000a0000010a010001\ndeliver 7\ndeliver 5\n\
            same 6 8\ntable B\n",
            "request 5 ike 1 length 181\nreply 6 length 173\ncounted ike 1 child 2\npair 1 ike 1 in 00001000 out 00002000 live\n\
            pair 2 ike 1 in 00001001 out 00002001 live\nsealed 7 child 2 number 1 length 48\n\
            up child 2 number 1 4500001400000000400100000a0000010a010001\nrepeat 8 length 173\nsame yes\n\
            pair 1 ike 1 in 00002000 out 00001000 live\npair 2 ike 1 in 00002001 out 00001001 live\n",
        ),
        // Who answered IKE_SA_INIT asks.
        (
            "child B 1 0\ndeliver 5\ndeliver 6\nout B 4500001400000000400100000a0100010a000001\ndeliver 7\ntable A\n",
            "request 5 ike 1 length 181\nreply 6 length 173\ncounted ike 1 child 2\nsealed 7 child 2 number 1 length 48\n\
            up child 2 number 1 4500001400000000400100000a0100010a000001\npair 1 ike 1 in 00001000 out 00002000 live\n\
            pair 2 ike 1 in 00001001 out 00002001 live\n",
        ),
        // Both ask at once: each has two more.
        (
            "child A 1 0\nchild B 1 0\ndeliver 5\ndeliver 6\ndeliver 7\ndeliver 8\ntable A\ntable B\n",
            "request 5 ike 1 length 181\nrequest 6 ike 1 length 181\nreply 7 length 173\nreply 8 length 173\ncounted ike 1 child 3\n\
            counted ike 1 child 3\npair 1 ike 1 in 00001000 out 00002000 live\npair 2 ike 1 in 00001002 out 00002001 live\n\
            pair 3 ike 1 in 00001001 out 00002002 live\npair 1 ike 1 in 00002000 out 00001000 live\n\
            pair 2 ike 1 in 00002002 out 00001001 live\npair 3 ike 1 in 00002001 out 00001002 live\n",
        ),
        // While this end's deletion of the IKE SA waits for its answer, no child is made.
        (
            "close A 1\nchild B 1 0\ndeliver 6\ndeliver 7\ndeliver 5\n",
            "request 5 ike 1 length 57\nrequest 6 ike 1 length 181\nreply 7 length 57\ncounted ike 1\nreply 8 length 49\nclosed ike 1\n",
        ),
        // The request goes out again, five times, and then the IKE SA is closed with its children.
        (
            "child A 1 0\ntick A 1000\ntick A 3000\ntick A 7000\ntick A 15000\ntick A 31000\nsame 5 10\ntick A 47000\ntable A\n",
            "request 5 ike 1 length 181\nrequest 6 ike 1 length 181\nrequest 7 ike 1 length 181\nrequest 8 ike 1 length 181\n\
            request 9 ike 1 length 181\nrequest 10 ike 1 length 181\nsame yes\nclosed ike 1\nempty\n",
        ),
        // The child is made by an answer to any of them, once.
        (
            "child A 1 0\ntick A 1000\ndeliver 6\ndeliver 5\ndeliver 7\ndeliver 8\ntable A\n",
            "request 5 ike 1 length 181\nrequest 6 ike 1 length 181\nreply 7 length 173\nrepeat 8 length 173\ncounted ike 1 child 2\n\
            dropped E31\npair 1 ike 1 in 00001000 out 00002000 live\npair 2 ike 1 in 00001001 out 00002001 live\n",
        ),
        // One child is deleted, the other one stays.
        (
            "child A 1 0\ndeliver 5\ndeliver 6\ndelete A 1\ndeliver 7\ndeliver 8\ntable A\ntable B\n",
            "request 5 ike 1 length 181\nreply 6 length 173\ncounted ike 1 child 2\nrequest 7 ike 1 length 61\nreply 8 length 61\n\
            counted ike 1\npair 2 ike 1 in 00001001 out 00002001 live\npair 2 ike 1 in 00002001 out 00001001 live\n",
        ),
        // A request that is out of its window, and one that doesn't open.
        (
            "child A 1 0\ndamage 5 48 01\nreflect 5\ndeliver 5\nchild A 1 0\n",
            "request 5 ike 1 length 181\ndropped E29\ndropped E33\nreply 6 length 173\nrefused E35\n",
        ),
        // No such IKE SA, no such entry; one request at a time.
        (
            "child A 2 0\nchild A 0 0\nchild A 1 1\nprobe A 1\nchild A 1 1\nchild A 2 1\nchild A 1 0\n",
            "refused E28\nrefused E28\nrefused E23\nrequest 5 ike 1 length 49\nrefused E23\nrefused E23\nrefused E35\n",
        ),
    ];
    for (rest, wanted) in rows {
        expect_two(&rt, [OPENING, ESTABLISH, rest], [ESTABLISHED, wanted]);
    }
}

#[test]
fn refusals(rt: HostRuntime) {
    // What the peer doesn't protect is refused by it, what this end doesn't is not asked for.
    expect_two(
        &rt,
        [
            OPENING_WIDER,
            ESTABLISH,
            "child A 1 1\ndeliver 5\ndeliver 6\nchild A 1 2\nchild A 1 0\ndeliver 7\ndeliver 8\ntable A\n",
        ],
        [
            ESTABLISHED,
            "request 5 ike 1 length 181\nreply 6 length 57\ncounted ike 1\nrefused E23\nrequest 7 ike 1 length 181\n\
            reply 8 length 173\ncounted ike 1 child 2\npair 1 ike 1 in 00001000 out 00002000 live\n\
            pair 2 ike 1 in 00001002 out 00002001 live\n",
        ],
    );
    // None is asked for before the IKE SA is established, or once it is closed.
    expect_two(
        &rt,
        [
            OPENING,
            "start A 0\nchild A 1 0\ndeliver 1\nchild B 1 0\ndeliver 2\nchild A 1 0\ndeliver 3\ndeliver 4\n",
            "close A 1\ndeliver 5\nchild B 1 0\nchild A 1 0\n",
        ],
        [
            "request 1 ike 1 length 148\nrefused E32\nreply 2 length 148\nrefused E32\nrequest 3 ike 1 length 202\nrefused E32\n",
            "reply 4 length 194\ncounted ike 1 child 1\nrequest 5 ike 1 length 57\nreply 6 length 49\nclosed ike 1\nrefused E32\n\
            refused E35\n",
        ],
    );
}

/// With numbers of 32 bits the offer is shorter.
#[test]
fn without_extended_numbers(rt: HostRuntime) {
    expect_two(
        &rt,
        [
            "extended no\n",
            OPENING,
            "start A 0\ndeliver 1\ndeliver 2\ndeliver 3\ndeliver 4\nchild A 1 0\ndeliver 5\ndeliver 6\n",
        ],
        [
            "request 1 ike 1 length 148\nreply 2 length 148\nrequest 3 ike 1 length 194\nreply 4 length 194\ncounted ike 1 child 1\n",
            "request 5 ike 1 length 173\nreply 6 length 173\ncounted ike 1 child 2\n",
        ],
    );
}
