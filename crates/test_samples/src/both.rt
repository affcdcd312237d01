//! Two gateways that hold an IKE SA and its first child, A's by its own order.
use crate::{OwnedInput, SampleFault, config, message, order, policy};
use caller_script::ScriptCaller;
use gateway::{End, Gateway, Output};
use std::alloc::{AllocError, Global};

/// A gateway that holds nothing, with numbers of 64 bits or of 32 in its children. Its first SPI of ESP
/// is 4096 at A, 8192 at B.
pub fn gateway_with(
    alloc: Global,
    end: End,
    extended: bool,
) -> Result<Gateway<ScriptCaller>, SampleFault> {
    let policy = policy(alloc, end)?;
    let config = config(alloc, end, 1)?.with_extended(extended);
    let start = match end {
        End::A => 4096,
        End::B => 8192,
    };
    Ok(Gateway::new(alloc, config, policy, start, ScriptCaller))
}

/// The octets that a step sends; none where it sends nothing.
pub fn sent(gateway: &mut Gateway<ScriptCaller>, alloc: Global, input: &OwnedInput) -> Vec<u8> {
    match gateway.step(alloc, &input.lend()) {
        Output::Reply { octets, .. }
        | Output::Repeat { octets }
        | Output::Request { octets, .. }
        | Output::Sealed { octets, .. } => octets.into_vec(),
        _ => Vec::new(alloc),
    }
}

/// Both ends, and what they sent until then.
#[derive(Drop)]
pub struct Both {
    pub a: Gateway<ScriptCaller>,
    pub b: Gateway<ScriptCaller>,
    datagrams: Vec<Vec<u8>>,
}

impl Both {
    /// A begins, and each datagram comes to the other end.
    pub fn connected(alloc: Global, extended: bool) -> Result<Both, SampleFault> {
        let mut both = Both {
            a: gateway_with(alloc, End::A, extended)?,
            b: gateway_with(alloc, End::B, extended)?,
            datagrams: Vec::new(alloc),
        };
        both.begin(alloc)?;
        Ok(both)
    }

    fn begin(&mut self, alloc: Global) -> Result<(), AllocError> {
        let first = sent(&mut self.a, alloc, &order(1));
        self.datagrams.push(first)?;
        for place in 1..=4 {
            self.deliver(alloc, place)?;
        }
        Ok(())
    }

    /// The octets of the datagram that was sent as this one, counted from 1; none where there is none.
    pub fn datagram(&self, place: usize) -> &[u8] {
        match self.datagrams.get(place.saturating_sub(1)) {
            Some(octets) => octets.as_slice(),
            None => &[],
        }
    }

    /// It comes to the other end, and what that sends is the next one.
    fn deliver(&mut self, alloc: Global, place: usize) -> Result<(), AllocError> {
        let input = message(alloc, self.datagram(place), 10)?;
        let end = if place % 2 == 1 {
            &mut self.b
        } else {
            &mut self.a
        };
        let next = sent(end, alloc, &input);
        self.datagrams.push(next)?;
        Ok(())
    }
}
