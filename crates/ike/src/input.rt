//! The inputs of a step.

use suite::Fresh;

/// A datagram that came, a command, or the time.
#[derive(Clone, Copy, Drop)]
pub enum IkeInput<'a> {
    /// A datagram, from an IPv4 address.
    Message {
        from: [u8; 4],
        octets: &'a [u8],
        fresh: &'a Fresh,
    },
    /// Command: ask the peer for a Child SA by an entry of the policy, counted from 0. Where `ike` is none,
    /// with a new IKE SA; otherwise an additional Child SA of the IKE SA with this serial (RFC 7296, section
    /// 1.3.1).
    Start {
        ike: Option<u32>,
        entry: u32,
        fresh: &'a Fresh,
    },
    /// Command: a liveness check, an empty INFORMATIONAL request under the IKE SA with this serial (RFC
    /// 7296, section 2.4).
    Probe {
        ike: u32,
        fresh: &'a Fresh,
    },
    /// Command: delete the Child SA with this serial. It stops sending at once, and is removed when the
    /// peer answers (RFC 7296, section 1.4.1).
    DeleteChild {
        child: u32,
        fresh: &'a Fresh,
    },
    /// Command: delete the IKE SA with this serial and all its Child SAs. The peer's answer closes it (RFC
    /// 7296, section 1.4.1).
    DeleteIke {
        ike: u32,
        fresh: &'a Fresh,
    },
    /// Command: make cookies under a new secret from now on (RFC 7296, section 2.6).
    Secret(&'a [u8; 32]),
    /// The time in milliseconds, counted from any beginning. What is due by then is done. A time before the
    /// greatest so far counts as that one.
    Tick(u64),
}
