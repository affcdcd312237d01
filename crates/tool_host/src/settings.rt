//! The first frame: what the gateway is set to.
use crate::fields::Fields;
use crate::{FrameFault, SettingsFault};
use auth::Identity;
use base::Items;
use caller_peer::{Peer, PeerCaller};
use gateway::{Action, Config, EndConfig, Entry, Gateway, Policy, Range, first_spi};
use std::alloc::Global;

// The kind of the first frame.
const SETTINGS: u8 = 0;

// What doesn't depend on who the ends are.
#[derive(Drop)]
struct Sizes {
    window: u8,
    extended: bool,
    blocks: u32,
    start: u32,
    cookie_secret: [u8; 32],
}

/// The gateway that the first frame spells. It holds no IKE SA.
pub fn gateway_of(alloc: Global, frame: &[u8]) -> Result<Gateway<PeerCaller>, SettingsFault> {
    let mut fields = Fields::new(frame);
    let sizes = sizes_of(&mut fields)?;
    let (config, caller) = ends_of(alloc, &sizes, &mut fields)?;
    let policy = policy_of(alloc, fields)?;
    let start = first_spi(sizes.start)?;
    Ok(Gateway::new(alloc, config, policy, start, caller))
}

// Both ends, each with its secret.
fn ends_of(
    alloc: Global,
    sizes: &Sizes,
    fields: &mut Fields<'_>,
) -> Result<(Config, PeerCaller), SettingsFault> {
    let own = end_of(alloc, fields)?;
    let own_secret = secret_of(alloc, fields)?;
    let peer = end_of(alloc, fields)?;
    let secret = secret_of(alloc, fields)?;
    let caller = caller_of(alloc, own_secret, &peer.identity, secret)?;
    let config = config_of(sizes, own, peer)?;
    Ok((config, caller))
}

// The kind and the fields of fixed size.
fn sizes_of(fields: &mut Fields<'_>) -> Result<Sizes, FrameFault> {
    if fields.octet()? != SETTINGS {
        return Err(FrameFault::Kind);
    }
    Ok(Sizes {
        window: fields.octet()?,
        extended: fields.octet()? != 0,
        blocks: fields.u32()?,
        start: fields.u32()?,
        cookie_secret: fields.array()?,
    })
}

fn config_of(sizes: &Sizes, own: EndConfig, peer: EndConfig) -> Result<Config, SettingsFault> {
    let config = Config::new(own, peer, &sizes.cookie_secret)?;
    let config = config.with_window(sizes.window)?.with_blocks(sizes.blocks)?;
    Ok(config.with_extended(sizes.extended))
}

// An end: the type of its identity, its address, and its identity as a block.
fn end_of(alloc: Global, fields: &mut Fields<'_>) -> Result<EndConfig, SettingsFault> {
    let kind = fields.octet()?;
    let address = fields.array()?;
    let data = Items::from_slice(alloc, fields.block()?)?;
    Ok(EndConfig {
        identity: Identity { kind, data },
        address,
    })
}

fn secret_of(alloc: Global, fields: &mut Fields<'_>) -> Result<Items<u8>, SettingsFault> {
    Ok(Items::from_slice(alloc, fields.block()?)?)
}

// What proves itself by the own secret, and knows the peer by the peer's.
fn caller_of(
    alloc: Global,
    own: Items<u8>,
    identity: &Identity,
    secret: Items<u8>,
) -> Result<PeerCaller, SettingsFault> {
    let peer = Peer {
        kind: identity.kind,
        id: identity.data.clone()?,
        secret,
    };
    let mut peers = Items::new(alloc);
    peers.push(peer)?;
    Ok(PeerCaller { own, peers })
}

// The entries up to the end of the frame.
fn policy_of(alloc: Global, mut fields: Fields<'_>) -> Result<Policy, SettingsFault> {
    let mut entries = Items::new(alloc);
    for _ in 0..u64::MAX {
        if fields.is_empty() {
            break;
        }
        entries.push(entry_of(&mut fields)?)?;
    }
    Ok(Policy::new(entries)?)
}

fn entry_of(fields: &mut Fields<'_>) -> Result<Entry, SettingsFault> {
    let action = match fields.octet()? {
        0 => Action::Discard,
        1 => Action::Bypass,
        2 => Action::Protect,
        _ => return Err(SettingsFault::Action),
    };
    let family = fields.octet()?;
    Ok(Entry {
        action,
        protocol: fields.octet()?,
        local_ports: (fields.u16()?, fields.u16()?),
        remote_ports: (fields.u16()?, fields.u16()?),
        local: range_of(family, fields)?,
        remote: range_of(family, fields)?,
    })
}

// The first address and the last, both of this family.
fn range_of(family: u8, fields: &mut Fields<'_>) -> Result<Range, SettingsFault> {
    match family {
        4 => Ok(Range::V4(fields.u32()?, fields.u32()?)),
        6 => Ok(Range::V6(fields.u128()?, fields.u128()?)),
        _ => Err(SettingsFault::Family),
    }
}
