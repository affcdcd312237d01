//! Two gateways, each the other's peer, that protect what goes between 10.0.0.0/24, A's, and 10.1.0.0/24.
ghost use Rattle.std.specs.Prelude.{IfOk};
ghost use Rattle.gateway.specs.Worlds.{HoldsNothing};

use crate::SampleFault;
use auth::Identity;
use base::{Items, Range};
use caller_script::ScriptCaller;
use gateway::{End, Gateway};
use policy::{Action, Entry, Policy};
use setup::{Config, EndConfig};
use std::alloc::{AllocError, Global};

/// The name that an end goes by.
pub fn own_name(end: End) -> [u8; 9] {
    match end {
        End::A => *b"a.example",
        End::B => *b"b.example",
    }
}

fn end_of(alloc: Global, end: End) -> Result<EndConfig, AllocError> {
    let identity = Identity {
        kind: 2,
        data: Items::from_slice(alloc, &own_name(end))?,
    };
    Ok(EndConfig {
        identity,
        address: [192, 0, 2, 1],
    })
}

/// What an end is set to, with a window of so many requests from 1 to 16.
pub fn config(alloc: Global, end: End, window: u8) -> Result<Config, SampleFault> {
    let own = end_of(alloc, end)?;
    let peer = end_of(alloc, end.other())?;
    Ok(Config::new(own, peer, &[0; 32])?.with_window(window)?)
}

/// What an end protects.
pub fn policy(alloc: Global, end: End) -> Result<Policy, SampleFault> {
    let a = Range::V4(0x0a00_0000, 0x0a00_00ff);
    let b = Range::V4(0x0a01_0000, 0x0a01_00ff);
    let (local, remote) = match end {
        End::A => (a, b),
        End::B => (b, a),
    };
    let entry = Entry {
        protocol: 0,
        local,
        remote,
        local_ports: (0, 65535),
        remote_ports: (0, 65535),
        action: Action::Protect,
    };
    Ok(Policy::new(Items::from_slice(alloc, &[entry])?)?)
}

/// A gateway that holds nothing, with the caller of scripts.
pub fn gateway(alloc: Global, end: End) -> Result<Gateway<ScriptCaller>, SampleFault>
    ensures { IfOk result HoldsNothing }
{
    gateway_of(alloc, end, ScriptCaller)
}

/// A gateway that holds nothing. Its first SPI of ESP is 4096 at A, 8192 at B.
pub fn gateway_of<C: Drop>(alloc: Global, end: End, caller: C) -> Result<Gateway<C>, SampleFault>
    ensures { IfOk result HoldsNothing }
{
    let policy = policy(alloc, end)?;
    let config = config(alloc, end, 1)?;
    let start = match end {
        End::A => 4096,
        End::B => 8192,
    };
    Ok(Gateway::new(alloc, config, policy, start, caller))
}
