//! The keys of one direction.
ghost use Rattle.std.specs.Prelude.{◌≡◌, length};
ghost use Rattle.base.specs.Octets.{AreOctets};

use std::fmt;

/// The keys under which one end's messages are sealed (RFC 7296, section 3.14).
#[derive(Clone, Copy, PartialEq, Eq)]
pub struct Keys {
    /// SK_ei or SK_er.
    pub encryption: [u8; 32],
    /// SK_ai or SK_ar.
    pub integrity: [u8; 32],
}

impl Keys {
    ghost use Rattle.suite.specs.Sealing.{AreKeys};

    /// Both keys as octets, encryption first: 32 each, which the laws of a [`Sealer`](crate::Sealer) ask for.
    pub fn as_slices(&self) -> (&[u8], &[u8])
        ensures encryption { result.0.now ≡ self.now.encryption }
        ensures integrity { result.1.now ≡ self.now.integrity }
        ensures keys { AreKeys self.now }
    {
        (octets_of(&self.encryption), octets_of(&self.integrity))
    }
}

fn octets_of(key: &[u8; 32]) -> &[u8]
    ensures same { result.now ≡ key.now }
    ensures whole { length key.now ≡ 32 }
    ensures octets { AreOctets key.now }
{
    key.as_slice()
}

// Shows no octet of a key.
impl fmt::Debug for Keys {
    ghost use Rattle.std.specs.Prelude.{Some, codes};

    ghost debug_output = { λ _. Some (codes "Keys { .. }") };

    fn fmt<W: fmt::Write>(&self, f: &mut fmt::Formatter<W>) -> fmt::Result {
        f.write_str("Keys { .. }")
    }
}
