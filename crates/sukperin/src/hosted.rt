//! A gateway behind a handle.
ghost use Rattle.std.specs.Prelude.{◌≡◌, MatchOption, length};
ghost use Rattle.gateway.specs.Inputs.{input_view};
ghost use Rattle.gateway.specs.Outputs.{output_view};
ghost use Rattle.sukperin.specs.Outputs.{left_of};
ghost use Rattle.sukperin.specs.Inputs.{TakesInput};
ghost use Rattle.sukperin.specs.Outward.{HasRoom, TakesOutward};
ghost use Rattle.sukperin.specs.Views.{closing_in, message_at};

use crate::output::SukOutput;
use crate::room::write_sealed;
use base::Items;
use caller_peer::PeerCaller;
use gateway::{Gateway, Input, Output, Resent};
use std::alloc::Global;

/// What the last input left to be taken.
#[derive(Drop)]
pub enum Left {
    /// Nothing.
    Nothing,
    /// A message of IKE, and the IKE SA that asks by it, 0 of an answer.
    Message {
        ike: u32,
        octets: Items<u8>,
    },
    /// What a tick brought: the requests that go out again, and the IKE SAs that were closed.
    Ticked {
        requests: Items<Resent>,
        closed: Items<u32>,
    },
}

/// A gateway behind a handle.
#[derive(Drop)]
pub struct Hosted {
    /// The gateway.
    pub gateway: Gateway<PeerCaller>,
    /// What the last input left to be taken.
    pub left: Left,
    /// Whether it tells the keys of its IKE SAs.
    pub tells_keys: bool,
}

impl Left {
    // What an output leaves.
    fn of(output: Output<'_>) -> Left
        ensures { result ≡ left_of (output_view output.entry) }
    {
        match output {
            Output::Reply { octets, .. } | Output::Repeat { octets } => Left::Message {
                ike: 0,
                octets,
            },
            Output::Request { ike, octets } => Left::Message { ike, octets },
            Output::Ticked { requests, closed } => Left::Ticked { requests, closed },
            _ => Left::Nothing,
        }
    }

    // The message of IKE at a place, with the IKE SA that asks by it.
    pub fn message(&self, place: u64) -> Option<(u32, &[u8])>
        ensures { MatchOption result (message_at self.now place ≡ None)
            (λ message. message_at self.now place ≡ Some (message.0, message.1.now)) }
    {
        match self {
            Left::Message { ike, octets } => {
                if place == 0 {
                    Some((*ike, octets.as_slice()))
                } else {
                    None
                }
            }
            Left::Ticked { requests, .. } => match requests.as_slice().get(place as usize) {
                Some(request) => Some((request.ike, request.octets.as_slice())),
                None => None,
            },
            Left::Nothing => None,
        }
    }

    // The closed IKE SA at a place.
    pub fn closing(&self, place: u64) -> Option<u32>
        ensures { result ≡ closing_in self.now place }
    {
        match self {
            Left::Ticked { closed, .. } => closed.as_slice().get(place as usize).copied(),
            _ => None,
        }
    }
}

impl Hosted {
    // Takes one input, tells what came of it, and keeps what is left to be taken.
    pub fn take(&mut self, alloc: Global, input: &Input<'_>, out: &mut SukOutput)
        ensures { TakesInput (input_view input.now) self.old self.new out.new }
    {
        let traced = self.gateway.traced_step(alloc, input);
        *out = SukOutput::of(&traced.output, &traced.trace);
        self.left = Left::of(traced.output);
    }

    // Takes a packet on its way out, and writes its ESP packet at the beginning of the room where it goes
    // protected.
    pub fn take_outward(
        &mut self,
        alloc: Global,
        packet: &[u8],
        room: &mut [u8],
        out: &mut SukOutput,
    )
        requires { HasRoom packet.now (length room.old) }
        ensures { TakesOutward packet.now room.old self.old self.new out.new room.new }
    {
        let traced = self.gateway.traced_step(alloc, &Input::Outward { packet });
        write_sealed(&traced.output, room);
        *out = SukOutput::of(&traced.output, &traced.trace);
        self.left = Left::Nothing;
    }
}
