//! What faults print, each of them once. The texts are those of the crates' documentation.
use super::asserts::same;
use association::{MessageFault, OrderFault};
use children::MemoryFault;
use gateway::{Reason, RunFault};
use gw_console::HexFault;
use gw_engine::Stop;
use ike::IkeFault;
use replay::ReplayFault;
use std::alloc::Global;
use std::fmt::Display;
use std::panic::Expect;
use std::process::Abort;
use traffic::PacketFault;
use wire::WireFault;

/// Compares what a fault prints.
fn prints<F: Display + Drop>(rt: &impl Abort, alloc: Global, fault: F, text: &str) {
    let printed = format!(in alloc; "{fault}").expect(rt, "memory");
    same(rt, printed.as_str(), text);
}

#[test]
fn faults_of_messages(rt: HostRuntime) {
    for (fault, number, text) in [
        (WireFault::Short, 1, "E1: fewer octets than a header has"),
        (
            WireFault::BadLength,
            2,
            "E2: the length field is not the length of the datagram",
        ),
        (WireFault::BadVersion, 3, "E3: the version is not supported"),
        (WireFault::TooLong, 9, "E9: the message is too long"),
        (WireFault::Memory, 10, "E10: no memory"),
    ] {
        tells(&rt, rt.alloc(), fault.code(), number, fault, text);
    }
}

#[test]
fn faults_of_payloads(rt: HostRuntime) {
    let offset = 28;
    for (fault, number, text) in [
        (
            WireFault::BadChain { offset },
            4,
            "E4 at 28: the chain of payloads is broken",
        ),
        (
            WireFault::BadProposal { offset },
            5,
            "E5 at 28: a proposal is malformed",
        ),
        (
            WireFault::BadSelector { offset },
            6,
            "E6 at 28: a traffic selector is malformed",
        ),
        (
            WireFault::BadNonce { offset },
            7,
            "E7 at 28: the nonce has a wrong length",
        ),
        (
            WireFault::BadField { offset },
            8,
            "E8 at 28: a field is malformed",
        ),
    ] {
        tells(&rt, rt.alloc(), fault.code(), number, fault, text);
    }
}

#[test]
fn reasons_to_stop(rt: HostRuntime) {
    let number = 5;
    for (stop, text) in [
        (Stop::File, "refused file"),
        (Stop::Hex, "refused hex"),
        (Stop::Message { number }, "refused E5"),
        (Stop::Payload { number, offset: 28 }, "refused E5 at 28"),
        (Stop::Line(7), "line 7 refused"),
        (Stop::Memory, "no memory"),
        (Stop::Output, "the output was not written"),
    ] {
        prints(&rt, rt.alloc(), stop, text);
    }
}

#[test]
fn the_fault_of_a_window(rt: HostRuntime) {
    let printed = format!(in rt.alloc(); "{}", ReplayFault::Memory).expect(&rt, "memory");
    same(
        &rt,
        printed.as_str(),
        "E20: no memory for the replay window",
    );
}

#[test]
fn faults_of_digits(rt: HostRuntime) {
    for (fault, text) in [
        (HexFault::NotHex, "the text is not hexadecimal"),
        (HexFault::Memory, "no memory"),
    ] {
        prints(&rt, rt.alloc(), fault, text);
    }
}

/// Compares the number that a fault has and what it prints.
fn tells<F: Display + Drop>(
    rt: &impl Abort,
    alloc: Global,
    code: u8,
    number: u8,
    fault: F,
    text: &str,
) {
    same(rt, code, number);
    prints(rt, alloc, fault, text);
}

#[test]
fn faults_of_ike(rt: HostRuntime) {
    for (fault, number, text) in [
        (
            IkeFault::Unread(WireFault::BadVersion),
            3,
            "E3: the version is not supported",
        ),
        (IkeFault::Unprotected, 23, "E23: no entry that protects"),
        (IkeFault::Crowded, 25, "E25: 128 IKE associations are held"),
        (IkeFault::TableFull, 25, "E25: the table is full"),
        (IkeFault::SpisSpent, 26, "E26: the inbound SPIs are spent"),
        (
            IkeFault::HalfOpenFull,
            34,
            "E34: too many associations are half open or held",
        ),
        (
            IkeFault::Busy,
            35,
            "E35: the peer's window is full, or the association is being deleted",
        ),
        (IkeFault::NumbersSpent, 36, "E36: the numbers are spent"),
        (
            IkeFault::BadFresh,
            37,
            "E37: the fresh SPI is zero or in use",
        ),
    ] {
        tells(&rt, rt.alloc(), fault.code(), number, fault, text);
    }
}

#[test]
fn faults_of_what_came(rt: HostRuntime) {
    for (fault, number, text) in [
        (
            MessageFault::UnknownAssociation,
            28,
            "E28: no association has these SPIs",
        ),
        (MessageFault::NotOpened, 29, "E29: the message doesn't open"),
        (
            MessageFault::Forgotten,
            30,
            "E30: the request was answered, and its reply is kept no more",
        ),
        (
            MessageFault::OutsideWindow,
            31,
            "E31: the number lies outside the window",
        ),
        (
            MessageFault::WrongPhase,
            32,
            "E32: the association is in another phase, or this message is not due to it",
        ),
        (
            MessageFault::WrongRole,
            33,
            "E33: the message claims the role of this end",
        ),
    ] {
        let fault = IkeFault::Message(fault);
        tells(&rt, rt.alloc(), fault.code(), number, fault, text);
    }
}

#[test]
fn faults_for_want_of_memory(rt: HostRuntime) {
    for (fault, number, text) in [
        (MemoryFault::Message, 10, "E10: no memory"),
        (
            MemoryFault::Window,
            20,
            "E20: no memory for the replay window",
        ),
        (
            MemoryFault::Narrowing,
            24,
            "E24: no memory for the selectors",
        ),
        (MemoryFault::Table, 27, "E27: no memory for the table"),
    ] {
        let fault = IkeFault::Memory(fault);
        tells(&rt, rt.alloc(), fault.code(), number, fault, text);
    }
}

#[test]
fn faults_of_orders(rt: HostRuntime) {
    for (fault, number, text) in [
        (
            OrderFault::WrongPhase,
            32,
            "E32: the association is in another phase",
        ),
        (
            OrderFault::Busy,
            35,
            "E35: the peer's window is full, or the association is being deleted",
        ),
        (OrderFault::NumbersSpent, 36, "E36: the numbers are spent"),
        (OrderFault::TableFull, 25, "E25: the table is full"),
        (OrderFault::SpisSpent, 26, "E26: the SPIs are spent"),
        (OrderFault::TableMemory, 27, "E27: no memory for the table"),
        (OrderFault::Memory, 10, "E10: no memory"),
    ] {
        tells(&rt, rt.alloc(), fault.code(), number, fault, text);
    }
}

#[test]
fn reasons_of_a_gateway(rt: HostRuntime) {
    for (reason, number, text) in [
        (
            Reason::Ike(IkeFault::Unprotected),
            23,
            "E23: no entry that protects",
        ),
        (
            Reason::Packet(PacketFault::UnknownAssociation),
            28,
            "E28: no association is there for the packet",
        ),
        (Reason::Memory, 20, "E20: no memory for the packet"),
    ] {
        tells(&rt, rt.alloc(), reason.code(), number, reason, text);
    }
}

#[test]
fn the_fault_of_a_list(rt: HostRuntime) {
    let text = format!(in rt.alloc(); "{}", RunFault::NoRoom { done: 3 }).expect(&rt, "memory");
    same(&rt, text.as_str(), "E38: no room after 3 inputs");
}
