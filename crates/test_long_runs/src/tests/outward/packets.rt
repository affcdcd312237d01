//! Packets on their way out from A, of mixed flows.
use crate::tests::random::Random;

/// The next packet: of a few flows that come often, or of any of some hundred thousand.
pub fn next_packet(random: &mut Random) -> [u8; 28] {
    let few = random.below(2) == 0;
    octets(few, random)
}

/// An IPv4 packet of eight octets behind its header. It goes to a network that is protected, to one
/// that is bypassed, or to neither.
fn octets(few: bool, random: &mut Random) -> [u8; 28] {
    let network = match random.below(16) {
        0 => 2,
        1 => 3,
        _ => 1,
    };
    let protocol = [1, 6, 17].get(random.below(3) as usize).copied();
    let (source, target) = if few {
        (host(random) % 4, host(random) % 4)
    } else {
        (host(random), host(random))
    };
    let ports = [22, 53, 80, 200].get(random.below(4) as usize).copied();
    [
        0x45,
        0,
        0,
        28,
        0,
        0,
        0,
        0,
        64,
        protocol.unwrap_or(1),
        0,
        0,
        10,
        0,
        0,
        source,
        10,
        network,
        0,
        target,
        4,
        host(random) % 4,
        0,
        ports.unwrap_or(0),
        0,
        8,
        0,
        0,
    ]
}

/// A host's number in its network: of either half of it.
fn host(random: &mut Random) -> u8 {
    random.octet() / 8 * 8 | random.octet() % 4
}
