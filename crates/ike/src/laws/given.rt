//! What an input's type and the cipher's law say of what the input leads to.
ghost use Rattle.base.specs.Octets.{AreOctets};
ghost use Rattle.effects.specs.Lengths.{TellsLengths};
ghost use Rattle.effects.specs.Taking.{meaning_of};
ghost use Rattle.ike.specs.Lengths.{IsTold};
ghost use Rattle.ike.specs.Moves.{HasFresh, HasSeal};
ghost use Rattle.ike.specs.Steps.{input_view};

use crate::IkeInput;
use exchange::laws::ciphers_tell_lengths;
use suite::{Agreement, Fresh, Proof, Sealer};

/// A datagram is of octets, and with an input's fresh octets the length of a sealed body follows from that of
/// its plain text. So it is by the types of inputs, and by the law of [`Sealer`] (RFC 7296, section 3.14).
pub fn inputs_tell_their_lengths<C: Sealer + Agreement + Proof>(caller: &C, input: &IkeInput<'_>)
    ensures { IsTold (meaning_of C.Sealer C.Agreement C.Proof caller.now) (input_view input.now) }
{
    match *input {
        IkeInput::Message { octets, fresh, .. } => {
            are_octets(octets);
            seals_at_one_length(caller, &fresh.seal);
        }
        IkeInput::Start { fresh, .. }
        | IkeInput::Probe { fresh, .. }
        | IkeInput::DeleteChild { fresh, .. }
        | IkeInput::DeleteIke { fresh, .. } => seals_at_one_length(caller, &fresh.seal),
        IkeInput::Secret(_) | IkeInput::Tick(_) => {}
    }
}

/// The fresh octets that an input brings for sealing are 16, as its type says.
pub fn inputs_bring_sixteen_octets_for_sealing(input: &IkeInput<'_>)
    ensures { HasFresh (input_view input.now) }
{
    match *input {
        IkeInput::Message { fresh, .. }
        | IkeInput::Start { fresh, .. }
        | IkeInput::Probe { fresh, .. }
        | IkeInput::DeleteChild { fresh, .. }
        | IkeInput::DeleteIke { fresh, .. } => brings_sixteen(fresh),
        IkeInput::Secret(_) | IkeInput::Tick(_) => {}
    }
}

// Tells of fresh octets what their type does. Does nothing.
fn brings_sixteen(fresh: &Fresh)
    ensures { HasSeal fresh.now }
{
    are_octets(&fresh.seal);
}

// Tells of the items of a slice what their type does. Does nothing.
fn are_octets(octets: &[u8])
    ensures { AreOctets octets.now }
{
    let _ = octets;
}

// With 16 fresh octets the length of a sealed body follows from that of its plain text. Does nothing.
fn seals_at_one_length<C: Sealer>(caller: &C, seal: &[u8; 16])
    ensures { TellsLengths C.body_of seal.now }
{
    ciphers_tell_lengths(caller);
    are_octets(seal);
}
