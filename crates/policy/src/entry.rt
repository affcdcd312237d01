//! The entries of a policy.
ghost use Rattle.std.specs.Prelude.{◌≡◌, IsTrue, ◌↔◌};
ghost use Rattle.policy.specs.Decisions.{local_side, remote_side};
ghost use Rattle.policy.specs.Entries.{IsSoundEntry, entry_for, with_local_ports, with_protocol, with_remote_ports};
ghost use Rattle.policy.specs.declared.entry.Action.TheVariants.{Protect as ToProtect, Bypass as ToBypass, Discard as ToDiscard};

use crate::ports::PortRange;
use base::{Range, Selector};

/// What is done with a flow (RFC 4301 section 4.4.1).
#[derive(Clone, Copy, Debug, PartialEq, Eq)]
pub enum Action {
    /// It goes through an ESP SA.
    Protect,
    /// It goes in the clear.
    Bypass,
    /// It does not go.
    Discard,
}

/// One rule of a policy: an IP protocol (0 for any), on each side a range of addresses and one of ports,
/// both ends included, and what is done with the flows between the sides. The addresses of both sides are
/// of one family.
#[derive(Clone, Copy, Debug, PartialEq, Eq)]
pub struct Entry {
    pub protocol: u8,
    pub local: Range,
    pub remote: Range,
    pub local_ports: (u16, u16),
    pub remote_ports: (u16, u16),
    pub action: Action,
}

impl Entry {
    /// Protects the flows between two ranges, of all protocols and all ports (RFC 4301 section 4.4.1.1).
    /// Nothing is refused here: [`crate::Policy::new`] judges whether the entry is sound.
    pub fn protect(local: Range, remote: Range) -> Entry
        ensures { result ≡ entry_for ToProtect local remote }
    {
        Entry::between(local, remote, Action::Protect)
    }

    /// Lets the flows between two ranges go in the clear, those of all protocols and all ports.
    pub fn bypass(local: Range, remote: Range) -> Entry
        ensures { result ≡ entry_for ToBypass local remote }
    {
        Entry::between(local, remote, Action::Bypass)
    }

    /// Discards the flows between two ranges, those of all protocols and all ports.
    pub fn discard(local: Range, remote: Range) -> Entry
        ensures { result ≡ entry_for ToDiscard local remote }
    {
        Entry::between(local, remote, Action::Discard)
    }

    /// The same entry for one IP protocol, or for all of them where it is 0.
    pub fn with_protocol(self, protocol: u8) -> Entry
        ensures { result ≡ with_protocol protocol self }
    {
        Entry { protocol, ..self }
    }

    /// The same entry for the local ports from `start` to `end`, both included.
    pub fn with_local_ports(self, start: u16, end: u16) -> Entry
        ensures { result ≡ with_local_ports start end self }
    {
        Entry {
            local_ports: (start, end),
            ..self
        }
    }

    /// The same entry for the remote ports from `start` to `end`, both included.
    pub fn with_remote_ports(self, start: u16, end: u16) -> Entry
        ensures { result ≡ with_remote_ports start end self }
    {
        Entry {
            remote_ports: (start, end),
            ..self
        }
    }

    fn between(local: Range, remote: Range, action: Action) -> Entry
        ensures { result ≡ entry_for action local remote }
    {
        Entry {
            protocol: 0,
            local,
            remote,
            local_ports: (0, u16::MAX),
            remote_ports: (0, u16::MAX),
            action,
        }
    }

    /// The points of the local side: what an initiator offers as its own selector (TSi), and a responder
    /// narrows TSr to.
    pub fn local_side(&self) -> Selector
        ensures { result ≡ local_side self.now }
    {
        Selector {
            protocol: self.protocol,
            start_port: self.local_ports.0,
            end_port: self.local_ports.1,
            addresses: self.local,
        }
    }

    /// The points of the remote side: what an initiator offers as its peer's selector (TSr), and a
    /// responder narrows TSi to.
    pub fn remote_side(&self) -> Selector
        ensures { result ≡ remote_side self.now }
    {
        Selector {
            protocol: self.protocol,
            start_port: self.remote_ports.0,
            end_port: self.remote_ports.1,
            addresses: self.remote,
        }
    }

    // Whether no range ends before it starts, and both sides are of one family.
    pub(crate) fn is_sound(&self) -> bool
        ensures { IsTrue result ↔ IsSoundEntry self.now }
    {
        self.local.is_ordered()
            && self.remote.is_ordered()
            && PortRange::new(self.local_ports.0, self.local_ports.1).is_ordered()
            && PortRange::new(self.remote_ports.0, self.remote_ports.1).is_ordered()
            && self.local.family() == self.remote.family()
    }
}
