//! The pages of the lower crates.
use std::test::Fail;

#[test]
fn the_page_of_base(rt: HostRuntime) -> Result<(), Fail> {
    use base::{Address, Range};

    let local = Range::prefix(Address::v4([10, 0, 0, 0]), 24)?; // 10.0.0.0/24
    assert!(rt; local.holds(Address::v4([10, 0, 0, 1])));
    assert!(rt; !local.holds(Address::V6(0x0a00_0001))); // another family
    Ok(())
}

#[test]
fn the_page_of_replay(rt: HostRuntime) -> Result<(), Fail> {
    use replay::{BlockWindow, Judgement, Window};

    let mut window = BlockWindow::new(rt.alloc(), 2)?; // spans 64 numbers
    if let Judgement::Fresh = window.judge(65) {
        window.take(65)?;
    }
    assert_eq!(rt; window.judge(2), Judgement::Fresh);
    assert_eq!(rt; window.judge(1), Judgement::Old);
    assert_eq!(rt; window.judge(65), Judgement::Taken);
    assert_eq!(rt; window.judge(0), Judgement::Zero);
    Ok(())
}

#[test]
fn the_page_of_wire(rt: HostRuntime) -> Result<(), Fail> {
    use base::Items;
    use wire::{Flags, Header, Message, Payload, decode_message, encode_message};

    let mut payloads = Items::new(rt.alloc());
    payloads.push(Payload::Nonce(Items::from_slice(rt.alloc(), &[7; 32])?))?;
    let flags = Flags {
        initiator: true,
        version: false,
        response: false,
    };
    let header = Header {
        spi_i: 1,
        spi_r: 0,
        minor: 0,
        exchange: 34,
        flags,
        id: 0,
    };
    let mut datagram = Vec::new(rt.alloc());
    encode_message(&Message { header, payloads }, &mut datagram)?;

    let message = decode_message(rt.alloc(), &datagram)?;
    for payload in message.payloads.as_slice() {
        if let Payload::Nonce(nonce) = payload {
            assert_eq!(rt; nonce.as_slice(), [7; 32].as_slice());
        }
    }
    Ok(())
}

#[test]
fn the_page_of_policy(rt: HostRuntime) -> Result<(), Fail> {
    use base::{Address, Items, Range};
    use policy::{Decision, Direction, Entry, Policy, inner};

    let local = Range::prefix(Address::v4([10, 0, 0, 0]), 24)?;
    let remote = Range::prefix(Address::v4([10, 1, 0, 0]), 24)?;
    let entry = Entry::protect(local, remote);
    let policy = Policy::new(Items::from_slice(rt.alloc(), &[entry])?)?;
    // A header of IPv4 alone, from 10.0.0.1 to 10.1.0.1.
    let packet = [
        0x45, 0, 0, 20, 0, 0, 0, 0, 64, 1, 0, 0, 10, 0, 0, 1, 10, 1, 0, 1,
    ];
    assert_eq!(rt;
        policy.decide(&inner(&packet)?, Direction::Outward),
        Decision::Protect
    );
    Ok(())
}

#[test]
fn the_page_of_sites(rt: HostRuntime) -> Result<(), Fail> {
    use sites::{Site, Sites};

    let mut sites = Sites::new(rt.alloc());
    sites.add(Site {
        key: 7,
        peer: [192, 0, 2, 1],
        start: 0x0001_0000,
    })?;
    sites.add(Site {
        key: 8,
        peer: [192, 0, 2, 1],
        start: 0x0002_0000,
    })?;
    assert_eq!(rt; sites.of_esp(&[0, 1, 0, 5, 0, 0, 0, 1]), Some(7));
    // A message that begins an association is for the newest gateway of that peer.
    assert_eq!(rt; sites.of_ike([192, 0, 2, 1], &[], &[]), Some(8));
    Ok(())
}
