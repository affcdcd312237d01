//! A message that is to be authenticated.
use crate::key::LaneKey;
use crate::message::{MORE_LIMIT, Message};

/// A message in two parts, and its key.
#[derive(Clone, Copy)]
pub struct Task<'a> {
    /// The key.
    pub key: &'a LaneKey,
    /// The octets of the message.
    pub octets: &'a [u8],
    /// Octets that follow them, as the half of an extended sequence number that is not sent (RFC 4303,
    /// section 2.2.1).
    pub more: &'a [u8],
}

impl<'a> Task<'a> {
    ghost use Rattle.std.specs.Prelude.{◌≡◌, ◌+◌, ◌/◌, ◌≤◌, ◌↔◌, IsTrue, length};
    ghost use Rattle.lanes.specs.Message.{HasBlocks};
    ghost use Rattle.lanes.specs.Padding.{after_a_block};
    ghost use Rattle.lanes.specs.Task.{icv_of, message_of};

    /// The integrity check value of the message, computed alone.
    pub fn icv(&self) -> [u8; 16]
        ensures { result ≡ icv_of self.now }
    {
        self.key.icv(self.octets, self.more)
    }

    // The message as the blocks that a lane takes.
    pub(crate) fn message(&self) -> Message<'a>
        requires { length self.now.more.now ≤ MORE_LIMIT }
        ensures { HasBlocks result (after_a_block (message_of self.now)) }
    {
        Message::new(self.octets, self.more)
    }

    // The blocks that the message and its padding take behind the key's, where its second part is short
    // enough for a lane.
    pub(crate) fn block_count(&self) -> usize
        ensures { length self.now.more.now ≤ MORE_LIMIT → result ≡ (length (message_of self.now) + 72) / 64 }
    {
        (self.octets.len() + self.more.len().min(MORE_LIMIT) + 72) / 64
    }

    // Whether the message can go into a lane.
    pub(crate) fn fits_a_lane(&self) -> bool
        ensures { IsTrue result ↔ (length self.now.more.now ≤ MORE_LIMIT) }
    {
        self.more.len() <= MORE_LIMIT
    }
}
