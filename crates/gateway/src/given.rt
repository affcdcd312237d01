//! What an input's type and the cipher's law say of what the input leads to.
ghost use Rattle.std.specs.Prelude.{map};
ghost use Rattle.effects.specs.Taking.{meaning_of};
ghost use Rattle.gateway.specs.Inputs.{input_view};
ghost use Rattle.gateway.specs.Lengths.{AreGiven, IsGiven};

use crate::Input;
use ike::IkeInput;
use ike::laws::inputs_tell_their_lengths;
use suite::{Agreement, Proof, Sealer};

/// A datagram is of octets, and with an input's fresh octets the length of a sealed body follows from that of
/// its plain text. Does nothing.
pub fn tells_its_lengths<C: Sealer + Agreement + Proof>(caller: &C, input: &Input<'_>)
    ensures { IsGiven (meaning_of C.Sealer C.Agreement C.Proof caller.now) (input_view input.now) }
{
    match *input {
        Input::Ike {
            from,
            octets,
            fresh,
        } => {
            let message = IkeInput::Message {
                from,
                octets,
                fresh,
            };
            inputs_tell_their_lengths(caller, &message);
        }
        Input::Start { ike, entry, fresh } => {
            inputs_tell_their_lengths(caller, &IkeInput::Start { ike, entry, fresh });
        }
        Input::Probe { ike, fresh } => {
            inputs_tell_their_lengths(caller, &IkeInput::Probe { ike, fresh });
        }
        Input::DeleteChild { child, fresh } => {
            inputs_tell_their_lengths(caller, &IkeInput::DeleteChild { child, fresh });
        }
        Input::DeleteIke { ike, fresh } => {
            inputs_tell_their_lengths(caller, &IkeInput::DeleteIke { ike, fresh });
        }
        _ => {}
    }
}

/// The same of each input of a list. Does nothing.
pub fn tell_their_lengths<C: Sealer + Agreement + Proof>(caller: &C, inputs: &[Input<'_>])
    ensures { AreGiven (meaning_of C.Sealer C.Agreement C.Proof caller.now) (map input_view inputs.now) }
{
    for input in inputs {
        tells_its_lengths(caller, input);
    }
}
