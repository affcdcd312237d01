//! The peer's requests of one IKE SA.
ghost use Rattle.std.specs.Prelude.{◌≡◌, ◌≤◌, OnOk, OnErr, IsOk};
ghost use Rattle.requests.specs.Incoming.{IsJudgement, IsFreshRequest, IsSoundIncoming, HasSameRequests, TakesRequest, no_requests, after_number_0};

use crate::by_number::ByNumber;
use crate::numbers::NumberSet;
use base::Items;
use std::alloc::{AllocError, Global};
use std::marker::Model;

/// What is to be done about a request of the peer, by its Message ID.
#[derive(Clone, Copy, Debug, PartialEq, Eq)]
pub enum Judgement<'a> {
    /// It is processed: none with its Message ID was yet, and it lies in the window.
    Fresh,
    /// It was processed, and is answered by these octets again (RFC 7296 section 2.1).
    Repeat(&'a [u8]),
    /// It was processed, and its response is kept no more.
    Forgotten,
    /// Its Message ID lies above the window (RFC 7296 section 2.3).
    Outside,
}

/// The peer's requests of one IKE SA: the Message IDs of those that were processed, and the cached responses
/// to be sent again (RFC 7296 sections 2.1 to 2.3).
///
/// The window begins at the gap, the least Message ID that was not processed yet, and spans as many Message
/// IDs as the peer may have under way: 1 to begin with, and up to 16. A response is kept until a request is
/// processed that lies a window above its own.
///
/// What it keeps beside the responses doesn't grow with the Message IDs, and each call costs the same
/// whatever they are.
#[derive(Drop)]
pub struct Incoming {
    in_effect: NumberSet,
    size: u8,
    kept: ByNumber<Items<u8>>,
}

impl Model for Incoming {
    ghost use Rattle.requests.specs.Incoming.{PeerRequests, peer_requests_code};
    ghost use Rattle.requests.specs.Storage.{AreIncoming};

    ghost Value = { PeerRequests };

    ghost coded = { peer_requests_code };

    ghost view = { λ a. record {
      in_effect = a.in_effect;
      size = a.size;
      kept = a.kept.items;
      room = a.kept.room;
    } };

    ghost invariant = { λ a. AreIncoming a.in_effect a.size a.kept.items };
}

impl Incoming {
    /// No request was processed yet, and the window is 1: the end of the IKE SA that sent IKE_SA_INIT. Takes
    /// no memory.
    pub fn new(alloc: Global) -> Incoming
        ensures { result ≡ no_requests }
    {
        Incoming {
            in_effect: NumberSet::new(),
            size: 1,
            kept: ByNumber::new(alloc),
        }
    }

    /// Message ID 0 is in effect, with no response kept, and the window is 1: the end that answered the
    /// peer's IKE_SA_INIT, whose Message ID that was. Takes no memory.
    pub fn after_initial(alloc: Global) -> Incoming
        ensures { result ≡ after_number_0 }
    {
        Incoming {
            in_effect: NumberSet::zero(),
            size: 1,
            kept: ByNumber::new(alloc),
        }
    }

    /// What holds of the peer's requests, always. Does nothing.
    pub fn invariants_hold(&self)
        ensures { IsSoundIncoming self.now }
    {
        let _ = self.in_effect.gap();
    }

    /// What is to be done about a request of this Message ID. Takes no memory.
    pub fn judge(&self, number: u32) -> Judgement<'_>
        ensures { IsJudgement self.now number result }
    {
        if self.in_effect.contains(number) {
            match self.kept.get(number) {
                Some(reply) => Judgement::Repeat(reply.as_slice()),
                None => Judgement::Forgotten,
            }
        } else if u64::from(number) < self.in_effect.gap() + u64::from(self.size) {
            Judgement::Fresh
        } else {
            Judgement::Outside
        }
    }

    /// Makes room for one more response. Nothing else is changed. Where there is room already, as right after
    /// another `prepare`, it takes no memory. Refused where there was none, with nothing changed.
    pub fn prepare(&mut self) -> Result<(), AllocError>
        ensures content { HasSameRequests self.old self.new }
        ensures ok { OnOk result (1 ≤ self.new.room) }
        ensures refused { OnErr result (self.new ≡ self.old) }
        ensures succeeds { 1 ≤ self.old.room → IsOk result }
    {
        self.kept.make_room()
    }

    /// A request was processed: its Message ID is in effect from now on, and its response is kept. The
    /// responses of the Message IDs a window or more below it are given up. The caller asks only for a
    /// Message ID that [`judge`](Incoming::judge) calls Fresh, after [`prepare`](Incoming::prepare). Takes no
    /// memory.
    pub fn take(&mut self, number: u32, reply: Items<u8>)
        requires fresh { IsFreshRequest self.old number }
        requires room { 1 ≤ self.old.room }
        ensures { TakesRequest self.old number reply self.new }
    {
        self.in_effect.insert(number);
        self.kept.add(number, reply);
        let end = u64::from(number) + 1;
        let first = end.saturating_sub(u64::from(self.size));
        self.kept.keep_from(first);
    }

    /// How many requests the peer may have under way.
    pub fn size(&self) -> u8
        ensures { result ≡ self.now.size }
    {
        self.size
    }

    /// Lets the peer have more requests under way, up to 16. Nothing else is changed. The caller asks for no
    /// fewer than before, so no cached response is lost. Takes no memory.
    pub fn set_size(&mut self, size: u8)
        requires grows { self.old.size ≤ size }
        requires most { size ≤ 16 }
        ensures { self.new ≡ record self.old { size = size } }
    {
        self.size = size;
    }
}

#[cfg(test)]
pub(crate) mod tests {
    use super::Incoming;
    use crate::by_number::ByNumber;
    use crate::numbers::tests::all_below;
    use std::alloc::Global;

    /// All Message IDs below one of them are in effect, with no response kept, and the window is 1.
    pub fn after_all_below(alloc: Global, gap: u32) -> Incoming
        ensures { result.size ≡ 1 }
    {
        Incoming {
            in_effect: all_below(gap),
            size: 1,
            kept: ByNumber::new(alloc),
        }
    }
}
