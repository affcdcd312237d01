use crate::tests::asserts::{same, same_at};
use base::Address;
use gw_console::{address_text, read_address};
use std::panic::Expect;
use std::process::Abort;

/// Compares the address that a text is read as.
fn reads(rt: &impl Abort, text: &str, wanted: Option<Address>) {
    same_at(rt, text, read_address(text), wanted);
}

/// Compares what an address is written as.
fn writes<R: Abort + AllocGlobal>(rt: &R, address: Address, wanted: &str) {
    let text = address_text(rt.alloc(), address).expect(rt, "memory");
    same(rt, text.as_str(), wanted);
}

#[test]
fn addresses_of_both_families(rt: HostRuntime) {
    let rows = [
        ("10.0.0.255", Address::V4(0x0a00_00ff)),
        (
            "2001:0db8:0000:0000:0000:0000:0000:0a01",
            Address::V6(0x2001_0db8_0000_0000_0000_0000_0000_0a01),
        ),
        (
            "ffff:ffff:ffff:ffff:ffff:ffff:ffff:ffff",
            Address::V6(u128::MAX),
        ),
    ];
    for (text, address) in rows {
        reads(&rt, text, Some(address));
        writes(&rt, address, text);
    }
    let upper = Address::V6(0x2001_0db8_0000_0000_0000_0000_0000_0a01);
    reads(&rt, "2001:0DB8:0000:0000:0000:0000:0000:0A01", Some(upper));
    let none = [
        "",
        "10.0.0",
        "10.0.0.256",
        "2001:db8::a01",
        "2001:0db8:0000:0000:0000:0000:0a01",
        "2001:0db8:0000:0000:0000:0000:0000:0000:0a01",
        "2001:0db8:0000:0000:0000:0000:0000:a01",
        "2001:0db8:0:0000:0000:0000:0000:0a01",
        "2001:0db8:00000:0000:0000:0000:0000:0a01",
        "2001:0db8::0000:0000:0000:0000:0a01",
        "2001:0db8:0000:0000:0000:0000:0000:+a01",
        "2001:0db8:0000:0000:0000:0000:0000:0a0g",
    ];
    for text in none {
        reads(&rt, text, None);
    }
}
