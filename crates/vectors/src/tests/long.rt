//! Inputs as long as they may be.
use crate::tests::asserts::{granted, same};
use exchange::{leading_cookie, returned_cookie};
use gw_console::{hex_text, read_hex};

#[test]
fn a_cookie_of_64_octets_is_brought_back(rt: HostRuntime) {
    let mut cookie = Vec::new(rt.alloc());
    for octet in 0..64 {
        granted(&rt, cookie.push(octet));
    }
    let payloads = [granted(&rt, returned_cookie(rt.alloc(), &cookie))];
    same(&rt, leading_cookie(&payloads), Some(cookie.as_slice()));
}

#[test]
fn digits_of_3000_octets_are_read(rt: HostRuntime) {
    let mut octets: Vec<u8> = Vec::new(rt.alloc());
    for number in 0..3000_u32 {
        granted(&rt, octets.push((number % 251) as u8));
    }
    let text = hex_text(rt.alloc(), &octets).expect(&rt, "memory");
    same(&rt, text.len(), 6000);
    let mut read = Vec::new(rt.alloc());
    read_hex(text.as_bytes(), &mut read)
        .ok()
        .expect(&rt, "digits");
    same(&rt, read.as_slice(), octets.as_slice());
}
