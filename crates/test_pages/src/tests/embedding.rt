//! The pages that whoever embeds the library begins with.
use std::test::Fail;

#[test]
fn the_page_of_caller_peer(rt: HostRuntime) -> Result<(), Fail> {
    use base::Items;
    use caller_peer::{Peer, PeerCaller};
    use suite::Agreement;

    let peer = Peer {
        kind: 2,
        id: Items::from_slice(rt.alloc(), b"gw.example")?,
        secret: Items::from_slice(rt.alloc(), b"our secret")?,
    };
    let mut peers = Items::new(rt.alloc());
    peers.push(peer)?;
    let caller = PeerCaller {
        own: Items::from_slice(rt.alloc(), b"our secret")?,
        peers,
    };
    let public = caller.public(rt.alloc(), &[1; 32])?;
    assert_eq!(rt; public.len(), 256); // octets, for a KE payload
    Ok(())
}

#[test]
fn the_page_of_gateway(rt: HostRuntime) -> Result<(), Fail> {
    use caller_script::ScriptCaller; // no encryption, for tests: real peers want caller_peer::PeerCaller
    use gateway::{Address, Config, EndConfig, Entry, Fresh, Gateway, Identity, Input};
    use gateway::{Items, Output, Policy, Range, Transmit, first_spi};
    use std::alloc::Global;
    use std::mem;
    use std::test::Fail;

    // Site N has the addresses 10.N.0.0/16, and its gateway 192.0.2.N.
    fn end_of(alloc: Global, site: u8) -> Result<EndConfig, Fail> {
        let address = [192, 0, 2, site];
        let identity = Identity::address(alloc, address)?; // or Identity::fqdn(alloc, "a.example")?
        Ok(EndConfig { identity, address })
    }

    fn gateway_of(alloc: Global, site: u8, peer: u8) -> Result<Gateway<ScriptCaller>, Fail> {
        let secret = [site; 32]; // of cookies: random octets
        let config = Config::new(end_of(alloc, site)?, end_of(alloc, peer)?, &secret)?;
        let local = Range::prefix(Address::v4([10, site, 0, 0]), 16)?;
        let remote = Range::prefix(Address::v4([10, peer, 0, 0]), 16)?;
        let entry = Entry::protect(local, remote);
        let policy = Policy::new(Items::from_slice(alloc, &[entry])?)?;
        let spi = first_spi(4096)?;
        Ok(Gateway::new(alloc, config, policy, spi, ScriptCaller))
    }

    // In place of the system's random octets, which a real host draws anew for each input that has them.
    fn drawn(count: u8) -> Fresh {
        Fresh {
            spi: u64::from(count) + 1,
            nonce: [count; 32],
            secret: [count; 32],
            seal: [count; 16],
        }
    }

    // What goes out: by UDP, from port 500 to port 500, or by IP, as protocol 50.
    #[derive(Drop)]
    enum Sent {
        Udp(Items<u8>),
        Ip(Items<u8>),
    }

    // A real host has sockets in place of `sent`, and an interface in place of `up`.
    #[derive(Drop)]
    struct Host {
        gateway: Gateway<ScriptCaller>,
        address: [u8; 4],
        sent: Vec<Sent>,
        up: Vec<Items<u8>>,
    }

    fn host_of(alloc: Global, site: u8, peer: u8) -> Result<Host, Fail> {
        Ok(Host {
            gateway: gateway_of(alloc, site, peer)?,
            address: [192, 0, 2, site],
            sent: Vec::new(alloc),
            up: Vec::new(alloc),
        })
    }

    fn start(alloc: Global, host: &mut Host) -> Result<(), Fail> {
        let begin = Input::Start {
            ike: None,
            entry: 0,
            fresh: &drawn(0),
        };
        take(alloc, host, &begin)
    }

    // ----
    // One input, and what comes of it.
    fn take(alloc: Global, host: &mut Host, input: &Input<'_>) -> Result<(), Fail> {
        let output = host.gateway.step(alloc, input);
        for datagram in output.datagrams() {
            host.sent.push(match datagram {
                Transmit::Ike(octets) => Sent::Udp(Items::from_slice(alloc, octets)?),
                Transmit::Esp(octets) => Sent::Ip(Items::from_slice(alloc, octets)?),
            })?;
        }
        if let Output::Up { packet, .. } = output {
            host.up.push(Items::from_slice(alloc, packet)?)?;
        }
        Ok(())
    }

    // The wire: what one end sent comes to the other one, but each third datagram is lost.
    fn carry(alloc: Global, count: &mut u8, from: &mut Host, to: &mut Host) -> Result<(), Fail> {
        for datagram in mem::replace(&mut from.sent, Vec::new(alloc)) {
            *count = count.wrapping_add(1);
            let fresh = drawn(*count);
            let input = match &datagram {
                Sent::Udp(octets) => Input::Ike {
                    from: from.address,
                    octets: octets.as_slice(),
                    fresh: &fresh,
                },
                Sent::Ip(octets) => Input::Esp {
                    octets: octets.as_slice(),
                },
            };
            if *count % 3 != 0 {
                take(alloc, to, &input)?;
            }
        }
        Ok(())
    }

    // A turn of the loop: a packet for the other site, what comes from the peer, and the time. Here it jumps
    // to what is due next at the end that began, and both are told it. A real host sleeps until its own
    // gateway's next moment, or until something comes, and tells its clock's time first.
    fn turn(
        alloc: Global,
        count: &mut u8,
        packet: &[u8],
        a: &mut Host,
        b: &mut Host,
    ) -> Result<(), Fail> {
        take(alloc, a, &Input::Outward { packet })?; // dropped as long as there is no tunnel
        carry(alloc, count, a, b)?;
        carry(alloc, count, b, a)?;
        if let Some(moment) = a.gateway.next_moment() {
            take(alloc, a, &Input::Tick { moment })?;
            take(alloc, b, &Input::Tick { moment })?;
        }
        Ok(())
    }

    let alloc = rt.alloc();
    let mut a = host_of(alloc, 1, 2)?;
    let mut b = host_of(alloc, 2, 1)?;
    // From 10.1.0.1 to 10.2.0.1.
    let packet = [
        0x45, 0, 0, 20, 0, 0, 0, 0, 64, 1, 0, 0, 10, 1, 0, 1, 10, 2, 0, 1,
    ];
    start(alloc, &mut a)?;
    let mut count = 0;
    for _ in 0..20u32 {
        turn(alloc, &mut count, &packet, &mut a, &mut b)?;
    }
    let up = b.up.pop().ok_or("nothing went up")?;
    assert_eq!(rt; up.as_slice(), packet.as_slice());
    Ok(())
}
