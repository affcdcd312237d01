use crate::tests::asserts::{granted, holds, same};
use auth::{peer_window, window_notice};
use base::Items;
use std::alloc::Global;
use std::process::Abort;
use wire::Payload;

// A notice SET_WINDOW_SIZE that names a protocol and an SPI.
fn told(rt: &impl Abort, alloc: Global, octets: &[u8]) -> Payload {
    Payload::Notify {
        protocol: 3,
        spi: granted(rt, Items::from_slice(alloc, &[1])),
        kind: 16385,
        data: granted(rt, Items::from_slice(alloc, octets)),
    }
}

// The window of a peer that sends such notices, with these octets.
fn window_told(rt: &impl Abort, alloc: Global, notices: &[&[u8]]) -> u8 {
    let mut payloads = Vec::new(alloc);
    for octets in notices {
        granted(rt, payloads.push(told(rt, alloc, octets)));
    }
    peer_window(&payloads)
}

// The windows that such rows tell.
fn windows_told(rt: &impl Abort, alloc: Global) -> [u8; 10] {
    [
        window_told(rt, alloc, &[&[0, 0, 0, 0]]),
        window_told(rt, alloc, &[&[0, 0, 0, 1]]),
        window_told(rt, alloc, &[&[0, 0, 0, 4]]),
        window_told(rt, alloc, &[&[0, 0, 0, 16]]),
        window_told(rt, alloc, &[&[0, 0, 0, 17]]),
        window_told(rt, alloc, &[&[1, 0, 0, 2]]),
        window_told(rt, alloc, &[&[0, 0, 9]]),
        window_told(rt, alloc, &[&[0, 0, 0, 0, 9]]),
        window_told(rt, alloc, &[]),
        window_told(rt, alloc, &[&[0, 0, 9], &[0, 0, 0, 3], &[0, 0, 0, 5]]),
    ]
}

// The octets of the notice that is sent, where it names no protocol and no SPI.
fn octets_of(notice: &Payload) -> &[u8] {
    match notice {
        Payload::Notify {
            protocol: 0,
            spi,
            kind: 16385,
            data,
        } if spi.is_empty() => data.as_slice(),
        _ => &[],
    }
}

fn is_noticed(rt: &impl Abort, alloc: Global) -> bool {
    let notice = window_notice(alloc, 5).expect(rt, "memory");
    octets_of(&notice) == [0, 0, 0, 5].as_slice()
}

// RFC 7296, section 2.3.
#[test]
fn what_is_told_and_read(rt: HostRuntime) {
    same(
        &rt,
        windows_told(&rt, rt.alloc()),
        [1, 1, 4, 16, 16, 16, 1, 1, 1, 3],
    );
    holds(&rt, is_noticed(&rt, rt.alloc()));
}
