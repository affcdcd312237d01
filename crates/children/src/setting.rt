//! What a Child SA is made on.

use std::fmt;

/// What a Child SA is made on.
#[derive(Clone, Copy)]
pub struct Setting {
    /// The serial of the IKE SA that makes it.
    pub ike: u32,
    /// The keys of the exchange ([`suite::child_keys`], those of a first Child SA
    /// [`KeyRecord::first_child_keys`](suite::KeyRecord::first_child_keys)): that of what its initiator
    /// sends, then that of what its responder sends (RFC 7296, section 2.17).
    pub keys: [[u8; 32]; 2],
    /// The blocks of the replay window, a count that [`replay::is_block_count`] allows.
    pub blocks: u32,
}

// Shows no octet of a key.
impl fmt::Debug for Setting {
    ghost use Rattle.std.specs.Prelude.{Some, codes};

    ghost debug_output = { λ _. Some (codes "Setting { .. }") };

    fn fmt<W: fmt::Write>(&self, f: &mut fmt::Formatter<W>) -> fmt::Result {
        f.write_str("Setting { .. }")
    }
}
