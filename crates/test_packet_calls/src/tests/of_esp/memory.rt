//! Runs that pass whether an allocation fails or not: what was refused on allocation failure left everything
//! as it was. Each is to be run with every allocation failing in turn.
use super::fixture::{IPV4, Receiver, damaged, first, inner, packet, sender, slices};
use crate::tests::asserts::{holds, same};
use esp::{EspFault, Opened};
use std::alloc::{AllocError, Global};

#[test]
fn sealing_without_memory(rt: HostRuntime) {
    let mut sender = sender(0);
    let mut out = Vec::new(rt.alloc());
    let mut last: u64 = 0;
    for _ in 0..40 {
        let before = out.len();
        match sender.seal(IPV4, &inner(), &mut out) {
            Ok(number) => {
                same(&rt, Some(number), last.checked_add(1));
                last = number;
                same(&rt, out.len(), before + 48);
            }
            Err(fault) => {
                same(&rt, fault, EspFault::Memory);
                same(&rt, out.len(), before);
            }
        }
    }
    // No more than one allocation fails.
    holds(&rt, last >= 39);
    holds(&rt, out.as_slice().starts_with(&first()));
}

// The receiver's window grows, and may want memory for it; what it refused opens at the next try.
#[test]
fn opening_without_memory(rt: HostRuntime) {
    let mut receiver = Receiver::new(rt.alloc(), false);
    for number in 1..=80 {
        let Ok(sealed) = packet(rt.alloc(), number, &[1, 2, 2, 4], &[]) else {
            continue;
        };
        if receiver.open(&rt, &sealed).err() == Some(EspFault::Memory) {
            let opened = receiver.open(&rt, &sealed);
            same(
                &rt,
                opened.map(|opened| opened.number),
                Ok(u64::from(number)),
            );
        }
        same(
            &rt,
            receiver.open(&rt, &sealed).err(),
            Some(EspFault::Replayed),
        );
    }
}

/// Five packets, of which the second is damaged and the third repeats the first.
fn packets(alloc: Global) -> Result<Vec<Vec<u8>>, AllocError> {
    let mut packets = Vec::with_capacity(alloc, 5)?;
    let rows: [(u32, &[u8; 4], bool); 5] = [
        (1, &[1, 2, 2, 4], false),
        (2, &[1, 2, 2, 4], true),
        (1, &[1, 2, 2, 4], false),
        (3, &[0, 0, 2, 4], false),
        (2, &[1, 2, 2, 4], false),
    ];
    for (low, contents, is_damaged) in rows {
        let packet = packet(alloc, low, contents, &[])?;
        packets.push(if is_damaged {
            damaged(alloc, &packet, 27)?
        } else {
            packet
        })?;
    }
    Ok(packets)
}

// Of the list, what was not answered for want of room and what was refused for memory is opened afterwards.
#[test]
fn a_list_without_memory(rt: HostRuntime) {
    let Ok(packets) = packets(rt.alloc()) else {
        return;
    };
    let Ok(slices) = slices(rt.alloc(), &packets) else {
        return;
    };
    let mut receiver = Receiver::new(rt.alloc(), false);
    let mut out = Vec::new(rt.alloc());
    if let Err(stop) = receiver.open_all(&rt, &slices, &mut out) {
        same(&rt, out.len(), stop.done);
        assert!(rt; stop.done < 5);
        assert!(rt; stop.done <= slices.len());
        let rest = receiver.open_all(&rt, &slices[stop.done..], &mut out);
        same(&rt, rest, Ok(()));
    }
    assert!(rt; out.len() == 5);
    let mut wanted = [
        up(1),
        Err(EspFault::BadIcv),
        Err(EspFault::Replayed),
        Err(EspFault::BadPadding),
        up(2),
    ];
    // Of the first packet's two deliveries the second is then the first that counts.
    if out[0] == Err(EspFault::Memory) {
        wanted[0] = Err(EspFault::Memory);
        wanted[2] = up(1);
    }
    same(&rt, out.as_slice(), wanted.as_slice());
    for packet in &packets {
        let repeated = receiver.open(&rt, packet).err();
        holds(
            &rt,
            matches!(repeated, Some(EspFault::Replayed | EspFault::BadIcv)),
        );
    }
}

/// The answer to a packet with this number that carries no octet.
fn up(number: u64) -> Result<Opened<'static>, EspFault> {
    Ok(Opened {
        number,
        next: IPV4,
        payload: b"",
    })
}
