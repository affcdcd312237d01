//! Two gateways, each the other's peer, and what they do about their children.
use base::{Items, Range};
use caller_script::ScriptCaller;
use gateway::{End, Gateway, Input, Output};
use policy::{Action, Entry, Policy};
use std::alloc::{AllocError, Global};
use std::test::Fail;
use suite::Fresh;
use test_samples::{config, fresh};

/// A network of 256 addresses, or its lower half.
fn network(first: u32, size: u32) -> Range {
    Range::V4(first, first | size.saturating_sub(1))
}

/// What is done between two networks with a protocol and a range of remote ports.
fn entry(end: End, a: Range, b: Range, protocol: u8, ports: (u16, u16), action: Action) -> Entry {
    let all = (0, 65535);
    match end {
        End::A => Entry {
            protocol,
            local: a,
            remote: b,
            local_ports: all,
            remote_ports: ports,
            action,
        },
        End::B => Entry {
            protocol,
            local: b,
            remote: a,
            local_ports: ports,
            remote_ports: all,
            action,
        },
    }
}

/// How many entries of the policy protect, from the first one on.
pub const PROTECTING: u64 = 4;

/// What an end does: it protects what goes between 10.0.0.0/24, A's network, and 10.1.0.0/24, B's, but
/// for some ports, and passes by what goes to 10.2.0.0/24.
pub fn policy(alloc: Global, end: End) -> Result<Policy, Fail> {
    let all = (0, 65535);
    let a = network(0x0a00_0000, 256);
    let b = network(0x0a01_0000, 256);
    let entries = [
        entry(end, a, b, 6, (80, 80), Action::Protect),
        entry(end, a, b, 17, (0, 79), Action::Protect),
        entry(end, network(0x0a00_0000, 128), b, 1, all, Action::Protect),
        entry(
            end,
            network(0x0a00_0000, 128),
            network(0x0a01_0000, 128),
            0,
            all,
            Action::Protect,
        ),
        entry(end, a, b, 6, (22, 22), Action::Discard),
        entry(end, a, b, 17, (200, 200), Action::Bypass),
        entry(end, a, b, 0, all, Action::Protect),
        entry(end, a, network(0x0a02_0000, 256), 0, all, Action::Bypass),
    ];
    Ok(Policy::new(Items::from_slice(alloc, &entries)?)?)
}

fn gateway(alloc: Global, end: End) -> Result<Gateway<ScriptCaller>, Fail> {
    let policy = policy(alloc, end)?;
    let config = config(alloc, end, 4)?;
    let start = match end {
        End::A => 4096,
        End::B => 262_144,
    };
    Ok(Gateway::new(alloc, config, policy, start, ScriptCaller))
}

/// The octets that a step sends; none where it sends nothing.
fn sent(gateway: &mut Gateway<ScriptCaller>, alloc: Global, input: &Input<'_>) -> Vec<u8> {
    match gateway.step(alloc, input) {
        Output::Reply { octets, .. } | Output::Repeat { octets } | Output::Request { octets, .. } =>
            octets.into_vec(),
        _ => Vec::new(alloc),
    }
}

/// Both gateways, and how many SPIs of IKE they were given.
#[derive(Drop)]
pub struct Ends {
    pub a: Gateway<ScriptCaller>,
    b: Gateway<ScriptCaller>,
    spis: u64,
}

impl Ends {
    /// Both hold nothing.
    pub fn new(alloc: Global) -> Result<Ends, Fail> {
        Ok(Ends {
            a: gateway(alloc, End::A)?,
            b: gateway(alloc, End::B)?,
            spis: 0,
        })
    }

    /// Octets whose SPI was not drawn before.
    pub fn fresh(&mut self) -> Fresh {
        self.spis = self.spis.saturating_add(1);
        fresh(self.spis)
    }

    /// An end takes an order, and its octets are sent; none where it refuses.
    pub fn order(&mut self, alloc: Global, end: End, order: &Input<'_>) -> Vec<u8> {
        match end {
            End::A => sent(&mut self.a, alloc, order),
            End::B => sent(&mut self.b, alloc, order),
        }
    }

    /// Octets come to an end, what it sends comes back, and so on until nothing is sent.
    pub fn deliver(&mut self, alloc: Global, octets: &[u8], end: End) -> Result<(), AllocError> {
        let mut next = octets.to_vec(alloc)?;
        let mut to = end;
        for _ in 0..6_u8 {
            if next.is_empty() {
                return Ok(());
            }
            let message = Input::Ike {
                from: [192, 0, 2, 9],
                octets: &next,
                fresh: &self.fresh(),
            };
            next = self.order(alloc, to, &message);
            to = to.other();
        }
        Ok(())
    }

    /// The serial of the IKE SA that an end made last.
    pub fn association(&self, end: End) -> Option<u32> {
        let gateway = match end {
            End::A => &self.a,
            End::B => &self.b,
        };
        Some(gateway.associations().last()?.serial)
    }

    /// The serial of the next child of an end.
    pub fn child_after(&self, end: End, serial: u32) -> Option<u32> {
        let gateway = match end {
            End::A => &self.a,
            End::B => &self.b,
        };
        Some(gateway.table().after(serial)?.serial)
    }
}
