//! Where a flow is kept.
ghost use Rattle.std.specs.Prelude.{◌≡◌, ◌<◌};
ghost use Rattle.flows.specs.Places as places;

use base::Address;
use policy::{Flow, Ports};

// How many places there are.
pub(crate) const PLACES: usize = 4096;

// An odd number without a pattern: the golden ratio's fraction, in 64 bits.
const SCATTER: u64 = 0x9e37_79b9_7f4a_7c15;

// The place of a flow, by a hash of all that it is. Whoever knows the hash can choose flows of one place:
// each of them costs a look-up, as it would without a memory.
pub(crate) fn place_of(flow: &Flow) -> usize
    ensures is { result ≡ places.place_of flow.now }
    ensures within { result < 4096 }
{
    let start = scatter(0, first_word(flow.protocol, flow.ports));
    let mixed = mix_both(start, flow.source, flow.target);
    // The top bits of a product are those that all of its bits change.
    (mixed.wrapping_mul(SCATTER) >> 52) as usize
}

// The protocol and both ports in one word.
fn first_word(protocol: u8, ports: Option<Ports>) -> u64
    ensures { result ≡ places.first_word protocol ports }
{
    u64::from(protocol) << 32 | ports_word(ports)
}

// Both ports in one word.
fn ports_word(ports: Option<Ports>) -> u64
    ensures { result ≡ places.ports_word ports }
{
    match ports {
        Some(ports) => u64::from(ports.source) << 16 | u64::from(ports.target),
        None => 0,
    }
}

// Mixes both addresses into a hash.
fn mix_both(hash: u64, source: Address, target: Address) -> u64
    ensures { result ≡ places.mix_both hash source target }
{
    match (source, target) {
        // In one word, since each multiplication waits for the one before it.
        (Address::V4(source), Address::V4(target)) => {
            hash ^ (u64::from(source) << 32 | u64::from(target))
        }
        (source, target) => mix(mix(hash, source), target),
    }
}

// Mixes an address into a hash.
fn mix(hash: u64, address: Address) -> u64
    ensures { result ≡ places.mix hash address }
{
    match address {
        Address::V4(number) => scatter(hash, u64::from(number)),
        Address::V6(number) => {
            let high = scatter(hash, (number >> 64) as u64);
            scatter(high, (number % (1 << 64)) as u64)
        }
    }
}

// Mixes a word into a hash: each bit of a factor changes about half of the product's bits above it.
fn scatter(hash: u64, word: u64) -> u64
    ensures { result ≡ places.scatter hash word }
{
    let mixed = (hash ^ word).wrapping_mul(SCATTER);
    mixed ^ mixed >> 29
}
