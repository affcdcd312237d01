//! Room of the caller's.
ghost use Rattle.std.specs.Prelude.{◌≡◌, ◌≤◌, ◌++◌, drop, length};
ghost use Rattle.gateway.specs.Outputs.{output_view};
ghost use Rattle.sukperin.specs.Outward.{filled_with, sealed_in};

use gateway::Output;

// Writes octets at the beginning of a room. What stood behind them stands there still.
pub fn write_front(room: &mut [u8], octets: &[u8])
    requires { length octets.now ≤ length room.old }
    ensures { room.new ≡ octets.now ++ drop (length octets.now) room.old }
{
    room[..octets.len()].copy_from_slice(octets);
}

// Writes the ESP packet of an output, if it has one, at the beginning of a room.
pub fn write_sealed(output: &Output<'_>, room: &mut [u8])
    requires { length (sealed_in (output_view output.now)) ≤ length room.old }
    ensures { room.new ≡ filled_with (sealed_in (output_view output.now)) room.old }
{
    if let Output::Sealed { octets, .. } = output {
        write_front(room, octets.as_slice());
    }
}
