//! The inputs of a gateway.

use suite::Fresh;

/// One input of a gateway. Octets are borrowed, so a host can read everything into one buffer. A packet
/// that is delivered or passed on is a part of that buffer.
#[derive(Clone, Copy, Drop)]
pub enum Input<'a> {
    /// A datagram of IKE that came from an IPv4 address.
    Ike {
        from: [u8; 4],
        octets: &'a [u8],
        fresh: &'a Fresh,
    },
    /// An ESP packet that came.
    Esp {
        octets: &'a [u8],
    },
    /// A packet from the inside, on its way out.
    Outward {
        packet: &'a [u8],
    },
    /// A packet that came from outside without protection.
    Inward {
        packet: &'a [u8],
    },
    /// Command: ask the peer for a Child SA by an entry of the policy, counted from 0. Where `ike` is none,
    /// with a new IKE SA; otherwise an additional Child SA of the IKE SA with this serial (RFC 7296, section
    /// 1.3.1).
    Start {
        ike: Option<u32>,
        entry: u32,
        fresh: &'a Fresh,
    },
    /// Command: a liveness check, an empty INFORMATIONAL request under the IKE SA with this serial (RFC
    /// 7296, section 2.4).
    Probe {
        ike: u32,
        fresh: &'a Fresh,
    },
    /// Command: delete the Child SA with this serial (RFC 7296, section 1.4.1). It stops sending at once,
    /// and is removed when the peer answers.
    DeleteChild {
        child: u32,
        fresh: &'a Fresh,
    },
    /// Command: delete the IKE SA with this serial and all its Child SAs (RFC 7296, section 1.4.1).
    DeleteIke {
        ike: u32,
        fresh: &'a Fresh,
    },
    /// Command: make cookies under a new secret from now on (RFC 7296, section 2.6).
    Secret {
        secret: &'a [u8; 32],
    },
    /// The time in milliseconds, counted from any beginning. All timers run on it. A time before the
    /// greatest so far counts as that one.
    Tick {
        moment: u64,
    },
}
