//! What the tests make messages of.
ghost use Rattle.auth.specs.Windows.{IsWindow};

use crate::tests::asserts::granted;
use auth::{Identity, Proving, request};
use base::{Items, Range, Selector};
use caller_script::ScriptCaller;
use exchange::{ChildPayloads, only_auth};
use std::alloc::Global;
use std::process::Abort;
use wire::{Payload, Proposal};

pub fn identity(rt: &impl Abort, alloc: Global, kind: u8, octets: &[u8]) -> Identity {
    Identity {
        kind,
        data: granted(rt, Items::from_slice(alloc, octets)),
    }
}

pub fn auth(rt: &impl Abort, alloc: Global, method: u8, octets: &[u8]) -> Payload {
    Payload::Auth {
        method,
        data: granted(rt, Items::from_slice(alloc, octets)),
    }
}

// A payload of an unknown type that is marked as critical.
pub fn critical(alloc: Global) -> Payload {
    Payload::Unknown {
        kind: 200,
        critical: true,
        data: Items::new(alloc),
    }
}

// This address alone.
pub fn selector(address: u32) -> Selector {
    Selector {
        protocol: 0,
        start_port: 0,
        end_port: 65535,
        addresses: Range::V4(address, address),
    }
}

// One proposal, and the addresses 1 and 2.
pub fn child(rt: &impl Abort, alloc: Global) -> ChildPayloads {
    let mut proposals = Items::new(alloc);
    granted(
        rt,
        proposals.push(Proposal {
            number: 1,
            protocol: 3,
            spi: granted(rt, Items::from_slice(alloc, &[1, 2, 3, 4])),
            transforms: Items::new(alloc),
        }),
    );
    ChildPayloads {
        proposals,
        ts_i: granted(rt, Items::from_slice(alloc, &[selector(1)])),
        ts_r: granted(rt, Items::from_slice(alloc, &[selector(2)])),
    }
}

// The request of an end of this identity, behind this first message.
pub fn request_behind(
    rt: &impl Abort,
    alloc: Global,
    first: &[u8],
    own: &Identity,
    window: u8,
) -> Vec<Payload>
    requires { IsWindow window }
{
    assert!(rt; own.fits_payload());
    let what = Proving {
        first,
        nonce: &[9; 16],
        sk_p: &[5; 32],
    };
    let payloads = request(alloc, &ScriptCaller, own, &what, child(rt, alloc), window).expect(
        rt, "memory",
    );
    payloads.into_vec()
}

pub fn request_of(rt: &impl Abort, alloc: Global, kind: u8, id: &[u8], window: u8) -> Vec<Payload>
    requires { IsWindow window }
{
    request_behind(
        rt,
        alloc,
        b"first message",
        &identity(rt, alloc, kind, id),
        window,
    )
}

// Whether the payloads are of just these types.
pub fn are_of_types(payloads: &[Payload], types: &[u8]) -> bool {
    for (payload, kind) in payloads.iter().zip(types) {
        if payload.number() != *kind {
            return false;
        }
    }
    payloads.len() == types.len()
}

// Whether the only AUTH payload has the method 2 and this proof.
pub fn has_proof(payloads: &[Payload], proof: &[u8]) -> bool {
    only_auth(payloads) == Some((2, proof))
}
