//! What a handle leads to.

use crate::hosted::Hosted;
use esp::{Inbound, Outbound};
use replay::BlockWindow;

/// What a handle leads to.
#[derive(Drop)]
pub enum End {
    /// The sender's end of one ESP SA by itself.
    Sender(Outbound),
    /// The receiver's end of one ESP SA by itself.
    Receiver(Inbound<BlockWindow>),
    /// A gateway.
    Gateway(Hosted),
}
