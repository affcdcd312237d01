use crate::tests::asserts::{holds, same};
use policy::{InnerFault, NarrowFault, PolicyFault};
use std::alloc::Global;
use std::fmt::Display;
use std::process::Abort;

/// Whether a fault prints this text.
fn prints<F: Display>(rt: &impl Abort, alloc: Global, fault: &F, text: &str) -> bool {
    let printed = format!(in alloc; "{fault}").expect(rt, "memory");
    printed.as_str() == text
}

#[test]
fn names_the_fault_of_an_entry(rt: HostRuntime) {
    let fault = PolicyFault::BadEntry { index: 12 };
    same(&rt, (fault.code(), fault.index()), (6, 12));
    holds(
        &rt,
        prints(&rt, rt.alloc(), &fault, "E6: policy entry 12 is at fault"),
    );
}

#[test]
fn names_each_fault_of_a_packet(rt: HostRuntime) {
    for (fault, code, text) in [
        (InnerFault::BadInner, 21, "E21: not a whole IP packet"),
        (InnerFault::Fragment, 22, "E22: a fragment of a packet"),
        (
            InnerFault::ExtensionHeader,
            39,
            "E39: a packet with an extension header",
        ),
    ] {
        same(&rt, fault.code(), code);
        holds(&rt, prints(&rt, rt.alloc(), &fault, text));
    }
}

#[test]
fn names_each_fault_of_an_offer(rt: HostRuntime) {
    for (fault, code, text) in [
        (
            NarrowFault::Unacceptable,
            23,
            "E23: no policy entry accepts the selectors",
        ),
        (NarrowFault::Memory, 24, "E24: no memory for the selectors"),
    ] {
        same(&rt, fault.code(), code);
        holds(&rt, prints(&rt, rt.alloc(), &fault, text));
    }
}
