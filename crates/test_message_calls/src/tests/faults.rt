//! The number and the text of each fault that a call answers.
use crate::tests::asserts::named;
use children::MemoryFault;
use esp::{EspFault, ListFault, ListStop};
use mac::MacFault;
use policy::InnerFault;
use replay::ReplayFault;
use requests::RequestFault;
use sa_init::SecretsSpent;
use sadb::TableFault;
use std::alloc::Global;
use std::process::Abort;
use traffic::PacketFault;

fn names_of_mac(rt: &impl Abort, alloc: Global) {
    let fault = MacFault::TooMuch;
    named(
        rt,
        alloc,
        fault.code(),
        11,
        fault,
        "E11: prf+ gives no more than 8160 octets",
    );
}

fn names_of_replay(rt: &impl Abort, alloc: Global) {
    let fault = ReplayFault::Memory;
    named(
        rt,
        alloc,
        fault.code(),
        20,
        fault,
        "E20: no memory for the replay window",
    );
}

fn names_of_requests(rt: &impl Abort, alloc: Global) {
    for (fault, number, text) in [
        (RequestFault::Memory, 10, "E10: no memory"),
        (RequestFault::Busy, 35, "E35: the peer's window is full"),
        (
            RequestFault::NumbersSpent,
            36,
            "E36: the request numbers are spent",
        ),
    ] {
        named(rt, alloc, fault.code(), number, fault, text);
    }
}

fn names_of_esp(rt: &impl Abort, alloc: Global) {
    for (fault, number, text) in [
        (
            EspFault::Exhausted,
            12,
            "E12: the sequence numbers are exhausted",
        ),
        (
            EspFault::PayloadSize,
            13,
            "E13: the payload has more than 16384 octets",
        ),
        (
            EspFault::BadLength,
            14,
            "E14: the packet's length is not that of a packet",
        ),
        (
            EspFault::Old,
            15,
            "E15: the number lies below the replay window",
        ),
        (EspFault::Replayed, 16, "E16: the number was taken already"),
        (
            EspFault::BadNumber,
            17,
            "E17: the packet has no sequence number",
        ),
        (EspFault::BadIcv, 18, "E18: the check value is wrong"),
        (EspFault::BadPadding, 19, "E19: the padding is wrong"),
        (EspFault::Memory, 20, "E20: no memory"),
    ] {
        named(rt, alloc, fault.code(), number, fault, text);
    }
    let fault = ListFault::NoRoom;
    named(
        rt,
        alloc,
        fault.code(),
        38,
        fault,
        "E38: no room for an answer",
    );
    // The text of what stopped a list tells how far that came.
    let stop = ListStop { done: 3, fault };
    let text = "E38: no room for an answer, after 3 packets";
    named(rt, alloc, stop.fault.code(), 38, stop, text);
    let fault = EspFault::PayloadSize;
    let stop = ListStop { done: 3, fault };
    let text = "E13: the payload has more than 16384 octets, after 3 packets";
    named(rt, alloc, stop.fault.code(), 13, stop, text);
}

fn names_of_sadb(rt: &impl Abort, alloc: Global) {
    for (fault, number, text) in [
        (TableFault::Full, 25, "E25: the table is full"),
        (TableFault::Spent, 26, "E26: the inbound SPIs are spent"),
        (TableFault::Memory, 27, "E27: no memory"),
    ] {
        named(rt, alloc, fault.code(), number, fault, text);
    }
}

fn names_of_traffic(rt: &impl Abort, alloc: Global) {
    for (fault, number, text) in [
        (
            PacketFault::UnknownAssociation,
            28,
            "E28: no association is there for the packet",
        ),
        (
            PacketFault::Esp(EspFault::Exhausted),
            12,
            "E12: the sequence numbers are exhausted",
        ),
        (
            PacketFault::Inner(InnerFault::Fragment),
            22,
            "E22: a fragment of a packet",
        ),
        (
            PacketFault::OutsideSelectors,
            23,
            "E23: the packet is outside the selectors of its association",
        ),
    ] {
        named(rt, alloc, fault.code(), number, fault, text);
    }
}

fn names_of_children(rt: &impl Abort, alloc: Global) {
    for (fault, number, text) in [
        (MemoryFault::Message, 10, "E10: no memory"),
        (
            MemoryFault::Window,
            20,
            "E20: no memory for the replay window",
        ),
        (
            MemoryFault::Narrowing,
            24,
            "E24: no memory for the selectors",
        ),
        (MemoryFault::Table, 27, "E27: no memory for the table"),
    ] {
        named(rt, alloc, fault.code(), number, fault, text);
    }
}

fn names_of_sa_init(rt: &impl Abort, alloc: Global) {
    let fault = SecretsSpent;
    named(
        rt,
        alloc,
        fault.code(),
        36,
        fault,
        "E36: the numbers are spent",
    );
}

#[test]
fn names_each_fault(rt: HostRuntime) {
    names_of_mac(&rt, rt.alloc());
    names_of_replay(&rt, rt.alloc());
    names_of_requests(&rt, rt.alloc());
    names_of_esp(&rt, rt.alloc());
    names_of_sadb(&rt, rt.alloc());
    names_of_traffic(&rt, rt.alloc());
    names_of_children(&rt, rt.alloc());
    names_of_sa_init(&rt, rt.alloc());
}
