//! The terms of a gateway, as C spells them, and what the core makes of them.
ghost use Rattle.std.specs.Prelude.{◌≡◌, ◌↔◌, IsTrue, IfOk, IfErr, IfSome, IfNone, Some, take};
ghost use Rattle.sadb.specs.Database.{IsStart};
ghost use Rattle.setup.specs.Configs.{IsConfig};
ghost use Rattle.sukperin.specs.Terms.{action_spelled, caller_spelled, config_between, config_spelled};
ghost use Rattle.sukperin.specs.Terms.{end_spelled, entries_spelled, entry_spelled, range_spelled};
ghost use Rattle.sukperin.specs.Terms.{IsConfigRefusal, IsEntriesRefusal, IsPolicyRefusal, SpellsPolicy};

use crate::refusal::Refusal;
use auth::Identity;
use base::{Items, Range};
use caller_peer::{Peer, PeerCaller};
use policy::{Action, Entry, Policy};
use setup::{Config, EndConfig};
use std::alloc::Global;

/// The terms of a gateway, but for what has no fixed length.
#[repr(C)]
#[derive(Clone, Copy)]
pub struct SukTerms {
    /// The type of this end's identity, as on the wire (RFC 7296 section 3.5).
    pub own_kind: u8,
    /// The type of the peer's identity.
    pub peer_kind: u8,
    /// Whether extended sequence numbers are allowed: where it is not 0.
    pub extended: u8,
    /// How many requests it takes at once, 1 to 16.
    pub window: u8,
    /// The blocks of its Child SAs' replay windows, 2, 4, 8 .. or 128.
    pub blocks: u32,
    /// The first inbound SPI for ESP, from 256 to 2^32 - 65,536.
    pub first_spi: u32,
    /// This end's IPv4 address.
    pub own_address: [u8; 4],
    /// The peer's IPv4 address.
    pub peer_address: [u8; 4],
    /// The first secret of its cookies.
    pub cookie_secret: [u8; 32],
    /// Whether it tells the keys of its IKE SAs: where it is not 0.
    pub tells_keys: u8,
    /// 0.
    pub reserved: [u8; 3],
}

/// An entry of the policy. An address of IPv4 is the first four octets of sixteen.
#[repr(C)]
#[derive(Clone, Copy)]
pub struct SukEntry {
    /// 4 or 6.
    pub family: u8,
    /// An IP protocol, 0 for any.
    pub protocol: u8,
    /// 0 discards, 1 lets go in the clear, 2 protects.
    pub action: u8,
    /// 0.
    pub reserved: u8,
    /// The first local port.
    pub local_start_port: u16,
    /// The last local port.
    pub local_end_port: u16,
    /// The first remote port.
    pub remote_start_port: u16,
    /// The last remote port.
    pub remote_end_port: u16,
    /// The first local address.
    pub local_start: [u8; 16],
    /// The last local address.
    pub local_end: [u8; 16],
    /// The first remote address.
    pub remote_start: [u8; 16],
    /// The last remote address.
    pub remote_end: [u8; 16],
}

// The inbound SPIs that a gateway may give begin from here on,
const SPI_LEAST: u32 = 256;

// and up to here, so that 65,536 of them fit 32 bits.
const SPI_MOST: u32 = 0xffff_0000;

// Whether the inbound SPIs may begin so.
pub fn is_start(spi: u32) -> bool
    ensures { IsTrue result ↔ IsStart spi }
{
    (SPI_LEAST..=SPI_MOST).contains(&spi)
}

// A copy of octets of the caller's.
pub fn copied(alloc: Global, octets: &[u8]) -> Result<Items<u8>, Refusal>
    ensures copied { IfOk result (λ items. items ≡ octets.now) }
    ensures refused { IfErr result (λ refusal. refusal ≡ Refusal.Memory) }
{
    match Items::from_slice(alloc, octets) {
        Ok(items) => Ok(items),
        Err(_) => Err(Refusal::Memory),
    }
}

// One of the two ends.
fn end_of(alloc: Global, kind: u8, id: &[u8], address: &[u8; 4]) -> Result<EndConfig, Refusal>
    ensures end { IfOk result (λ end. end ≡ end_spelled kind id.now address.now) }
    ensures refused { IfErr result (λ refusal. refusal ≡ Refusal.Memory) }
{
    match copied(alloc, id) {
        Ok(data) => Ok(EndConfig {
            identity: Identity { kind, data },
            address: *address,
        }),
        Err(refusal) => Err(refusal),
    }
}

// The configuration of these ends, where it can be used.
fn config_of_ends(terms: &SukTerms, own: EndConfig, peer: EndConfig) -> Option<Config>
    ensures made { IfSome result (λ config. config ≡ config_between terms.now own peer) }
    ensures unmade { IfNone result (¬ IsConfig (config_between terms.now own peer)) }
{
    let Ok(config) = Config::new(own, peer, &terms.cookie_secret) else {
        return None;
    };
    let Ok(config) = config.with_blocks(terms.blocks) else {
        return None;
    };
    let Ok(config) = config.with_window(terms.window) else {
        return None;
    };
    Some(config.with_extended(terms.extended != 0))
}

// The configuration, where it can be used.
pub fn config_of(
    alloc: Global,
    terms: &SukTerms,
    own_id: &[u8],
    peer_id: &[u8],
) -> Result<Config, Refusal>
    ensures config { IfOk result (λ config. config ≡ config_spelled terms.now own_id.now peer_id.now) }
    ensures usable { IfOk result IsConfig }
    ensures refused { IfErr result (IsConfigRefusal terms.now own_id.now peer_id.now) }
{
    let own = match end_of(alloc, terms.own_kind, own_id, &terms.own_address) {
        Ok(own) => own,
        Err(refusal) => return Err(refusal),
    };
    let peer = match end_of(alloc, terms.peer_kind, peer_id, &terms.peer_address) {
        Ok(peer) => peer,
        Err(refusal) => return Err(refusal),
    };
    match config_of_ends(terms, own, peer) {
        Some(config) => {
            config.invariants_hold();
            Ok(config)
        }
        None => Err(Refusal::Configuration),
    }
}

// Four octets at the beginning of an address.
fn first_four(octets: &[u8; 16]) -> [u8; 4]
    ensures { result ≡ take 4 octets.now }
{
    [octets[0], octets[1], octets[2], octets[3]]
}

// A range of addresses of a family, 4 or 6.
fn range_of(family: u8, start: &[u8; 16], end: &[u8; 16]) -> Option<Range>
    ensures { result ≡ range_spelled family start.now end.now }
{
    match family {
        4 => Some(Range::V4(
            u32::from_be_bytes(first_four(start)),
            u32::from_be_bytes(first_four(end)),
        )),
        6 => Some(Range::V6(u128::from_be_bytes(*start), u128::from_be_bytes(*end))),
        _ => None,
    }
}

// What is done with a flow.
fn action_of(action: u8) -> Option<Action>
    ensures { result ≡ action_spelled action }
{
    match action {
        0 => Some(Action::Discard),
        1 => Some(Action::Bypass),
        2 => Some(Action::Protect),
        _ => None,
    }
}

// An entry, where family and action are such.
fn entry_of(entry: &SukEntry) -> Option<Entry>
    ensures { result ≡ entry_spelled entry.now }
{
    Some(Entry {
        protocol: entry.protocol,
        local: range_of(entry.family, &entry.local_start, &entry.local_end)?,
        remote: range_of(entry.family, &entry.remote_start, &entry.remote_end)?,
        local_ports: (entry.local_start_port, entry.local_end_port),
        remote_ports: (entry.remote_start_port, entry.remote_end_port),
        action: action_of(entry.action)?,
    })
}

// The entries in their order.
#[tactic(auto, using(crate::proofs::TermLemmas::spelled_more, crate::proofs::TermLemmas::spelled_none))]
fn entries_of(alloc: Global, entries: &[SukEntry]) -> Result<Items<Entry>, Refusal>
    ensures entries { IfOk result (λ spelled. entries_spelled entries.now ≡ Some spelled) }
    ensures refused { IfErr result (IsEntriesRefusal entries.now) }
{
    let mut spelled = Items::new(alloc);
    for given in entries {
        let Some(entry) = entry_of(given) else {
            return Err(Refusal::Policy);
        };
        if spelled.push(entry).is_err() {
            return Err(Refusal::Memory);
        }
    }
    Ok(spelled)
}

// The policy of these entries, where it is one.
pub fn policy_of(alloc: Global, entries: &[SukEntry]) -> Result<Policy, Refusal>
    ensures policy { IfOk result (SpellsPolicy entries.now) }
    ensures refused { IfErr result (IsPolicyRefusal entries.now) }
{
    match entries_of(alloc, entries) {
        Ok(entries) => match Policy::new(entries) {
            Ok(policy) => Ok(policy),
            Err(_) => Err(Refusal::Policy),
        },
        Err(refusal) => Err(refusal),
    }
}

// The caller that proves itself by its own secret, and knows one peer by the peer's.
pub fn caller_of(
    alloc: Global,
    terms: &SukTerms,
    peer_id: &[u8],
    own_secret: &[u8],
    peer_secret: &[u8],
) -> Result<PeerCaller, Refusal>
    ensures caller { IfOk result (λ caller.
        caller ≡ caller_spelled terms.now peer_id.now own_secret.now peer_secret.now) }
    ensures refused { IfErr result (λ refusal. refusal ≡ Refusal.Memory) }
{
    let (Ok(own), Ok(id), Ok(secret)) = (
        copied(alloc, own_secret),
        copied(alloc, peer_id),
        copied(alloc, peer_secret),
    ) else {
        return Err(Refusal::Memory);
    };
    let peer = Peer {
        kind: terms.peer_kind,
        id,
        secret,
    };
    let mut peers = Items::new(alloc);
    match peers.push(peer) {
        Ok(()) => Ok(PeerCaller { own, peers }),
        Err(_) => Err(Refusal::Memory),
    }
}
