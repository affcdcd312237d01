//! Scripts of kind `two` in which children and IKE SAs are deleted (RFC 7296, section 1.4.1).
use super::probes::ESTABLISHED_WIDE;
use super::two::{ESTABLISH, ESTABLISHED, OPENING, expect_two};

/// How a script begins whose ends have windows of four.
const WIDE: &str =
    "window A 4\nwindow B 4\nentry A protect 0 10.0.0.0-10.0.0.255 0-65535 10.1.0.0-10.1.0.255 0-65535\n\
    entry B protect 0 10.1.0.0-10.1.0.255 0-65535 10.0.0.0-10.0.0.255 0-65535\n";

#[test]
fn children(rt: HostRuntime) {
    let rows = [
        // Each end deletes the same child at once: its pair is Deleting, stays till the own request is
        // answered, and isn't named.
        (
            "delete A 1\ndelete B 1\ndeliver 5\ndeliver 6\ndeliver 7\ndeliver 8\ntable A\ntable B\n",
            "request 5 ike 1 length 61\nrequest 6 ike 1 length 61\nreply 7 length 49\nreply 8 length 49\n\
            counted ike 1\ncounted ike 1\nempty\nempty\n",
        ),
        // The answer names the SPI of the other direction.
        (
            "delete A 1\ndeliver 5\ntable A\ntable B\ndeliver 6\ntable A\n",
            "request 5 ike 1 length 61\nreply 6 length 61\npair 1 ike 1 in 00001000 out 00002000 deleting\nempty\n\
            counted ike 1\nempty\n",
        ),
        // What is being deleted carries nothing outward, and still hands up what comes.
        (
            "delete A 1\nout A 4500001400000000400100000a0000010a010001\nout B 4500001400000000400100000a0100010a000001\ndeliver 6\n",
            "request 5 ike 1 length 61\ndropped E28\nsealed 6 child 1 number 1 length 48\n\
            up child 1 number 1 4500001400000000400100000a0100010a000001\n",
        ),
        // The same request again is answered by the same octets, and deletes nothing more.
        (
            "delete A 1\ndeliver 5\ndeliver 5\nsame 6 7\ntable B\n",
            "request 5 ike 1 length 61\nreply 6 length 61\nrepeat 7 length 61\nsame yes\nempty\n",
        ),
        // What was on its way when the child went finds it no more.
        (
            "out B 4500001400000000400100000a0100010a000001\ndelete A 1\ndeliver 6\ndeliver 7\ndeliver 5\n",
            "sealed 5 child 1 number 1 length 48\nrequest 6 ike 1 length 61\nreply 7 length 61\ncounted ike 1\ndropped E28\n",
        ),
        // A request that is not answered goes out again, five times, and then the IKE SA is closed.
        (
            "delete A 1\ntick A 1000\ntick A 3000\ntick A 7000\ntick A 15000\ntick A 31000\nsame 5 10\ntick A 47000\ntable A\n",
            "request 5 ike 1 length 61\nrequest 6 ike 1 length 61\nrequest 7 ike 1 length 61\nrequest 8 ike 1 length 61\n\
            request 9 ike 1 length 61\nrequest 10 ike 1 length 61\nsame yes\nclosed ike 1\nempty\n",
        ),
        // Of two IKE SAs the child of one goes, and the other's stays.
        (
            "start A 0\ndeliver 5\ndeliver 6\ndeliver 7\ndeliver 8\ndelete A 2\ndeliver 9\ndeliver 10\ntable A\ntable B\n",
            "request 5 ike 2 length 148\nreply 6 length 148\nrequest 7 ike 2 length 202\nreply 8 length 194\ncounted ike 2 child 2\n\
            request 9 ike 2 length 61\nreply 10 length 61\ncounted ike 2\n\
            pair 1 ike 1 in 00001000 out 00002000 live\npair 1 ike 1 in 00002000 out 00001000 live\n",
        ),
        // Orders that are refused: no such child, one that is being deleted, a request under way.
        (
            "delete A 2\ndelete A 0\ndelete A 1\ndelete A 1\nprobe A 1\n",
            "refused E28\nrefused E28\nrequest 5 ike 1 length 61\nrefused E32\nrefused E35\n",
        ),
    ];
    for (rest, wanted) in rows {
        expect_two(&rt, [OPENING, ESTABLISH, rest], [ESTABLISHED, wanted]);
    }
}

#[test]
fn associations(rt: HostRuntime) {
    let rows = [
        (
            "close A 1\ndeliver 5\ndeliver 6\ntable A\ntable B\ndeliver 5\nprobe B 1\ntick B 120000\ndeliver 5\n",
            "request 5 ike 1 length 57\nreply 6 length 49\nclosed ike 1\ncounted ike 1\nclosed ike 1\nempty\nempty\n\
            repeat 7 length 49\nrefused E32\nticked\ndropped E28\n",
        ),
        // Each end deletes the same IKE SA at once: one that is closed takes no response.
        (
            "close A 1\nclose B 1\ndeliver 5\ndeliver 6\ndeliver 7\ndeliver 8\ntable A\ntable B\n",
            "request 5 ike 1 length 57\nrequest 6 ike 1 length 57\nreply 7 length 49\nclosed ike 1\nreply 8 length 49\nclosed ike 1\n\
            dropped E32\ndropped E32\nempty\nempty\n",
        ),
        // One end deletes the child, the other the IKE SA.
        (
            "delete A 1\nclose B 1\ndeliver 5\ndeliver 6\ndeliver 7\ndeliver 8\ntable A\ntable B\n",
            "request 5 ike 1 length 61\nrequest 6 ike 1 length 57\nreply 7 length 61\nreply 8 length 49\nclosed ike 1\n\
            dropped E32\ncounted ike 1\nclosed ike 1\nempty\nempty\n",
        ),
        ("close A 2\nclose B 0\n", "refused E28\nrefused E28\n"),
    ];
    for (rest, wanted) in rows {
        expect_two(&rt, [OPENING, ESTABLISH, rest], [ESTABLISHED, wanted]);
    }
    // With windows of four: no further order is taken, though the peer's window is not full; what is
    // being deleted comes first.
    let wide = [
        (
            "probe A 1\nclose A 1\nprobe A 1\ndelete A 1\nclose A 1\ntable A\n",
            "request 5 ike 1 length 49\nrequest 6 ike 1 length 57\nrefused E35\nrefused E35\nrefused E35\n\
            pair 1 ike 1 in 00001000 out 00002000 live\n",
        ),
        (
            "delete A 1\nclose A 1\ndelete A 1\nprobe A 1\n",
            "request 5 ike 1 length 61\nrequest 6 ike 1 length 57\nrefused E32\nrefused E35\n",
        ),
        // The deletion comes before what was asked before it.
        (
            "probe A 1\nclose A 1\ndeliver 6\ndeliver 5\ndeliver 7\ntable A\n",
            "request 5 ike 1 length 49\nrequest 6 ike 1 length 57\nreply 7 length 49\nclosed ike 1\ndropped E32\n\
            counted ike 1\nclosed ike 1\nempty\n",
        ),
    ];
    for (rest, wanted) in wide {
        expect_two(&rt, [WIDE, ESTABLISH, rest], [ESTABLISHED_WIDE, wanted]);
    }
}
