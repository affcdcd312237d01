//! Messages sealed and opened by the caller of scripts (RFC 7296 section 3.14).
ghost use Rattle.std.specs.Prelude.{◌≡◌, true, false, IfErr};
ghost use Rattle.wire.specs.declared.fault.WireFault.{WireFault};

use crate::tests::asserts::{granted, holds, same};
use base::Items;
use caller_script::ScriptCaller;
use exchange::laws::{sealed_messages_open, short_messages_can_be_sent};
use exchange::{Notice, Plain, open_message, seal_message};
use std::alloc::Global;
use std::process::Abort;
use std::test::Fail;
use suite::Keys;
use wire::{
    Flags, Header, Message, Payload, SkippedKind, WireFault, decode_chain, decode_message,
    encode_message,
};

const FRESH: [u8; 16] = [9; 16];

const KEYS: Keys = Keys {
    encryption: [1; 32],
    integrity: [2; 32],
};

fn header(exchange: u8, id: u32) -> Header
    ensures { result ≡ record {
      spi_i = 1;
      spi_r = 2;
      minor = 0;
      exchange = exchange;
      flags = record { initiator = true; version = false; response = false };
      id = id;
    } }
{
    Header {
        spi_i: 1,
        spi_r: 2,
        minor: 0,
        exchange,
        flags: Flags {
            initiator: true,
            version: false,
            response: false,
        },
        id,
    }
}

/// A payload, as a table names it.
#[derive(Clone, Copy)]
enum Sample {
    Nonce,
    InvalidSyntax,
    /// An encrypted payload of so many octets 00.
    Sealed(usize),
    /// A vendor ID of so many octets 00.
    VendorId(usize),
}

fn payload(rt: &impl Abort, alloc: Global, sample: Sample) -> Payload {
    match sample {
        Sample::Nonce => Payload::Nonce(granted(rt, Items::from_slice(alloc, &[7; 32]))),
        Sample::InvalidSyntax => granted(rt, Notice::InvalidSyntax.payload(alloc)),
        Sample::Sealed(length) => Payload::Sealed {
            first: 0,
            body: zeros(rt, alloc, length),
        },
        Sample::VendorId(length) => Payload::Skipped {
            kind: SkippedKind::VendorId,
            data: zeros(rt, alloc, length),
        },
    }
}

fn zeros(rt: &impl Abort, alloc: Global, length: usize) -> Items<u8> {
    Items::from_vec(granted(rt, vec![in alloc; 0u8; length]))
}

fn message(rt: &impl Abort, alloc: Global, exchange: u8, id: u32, samples: &[Sample]) -> Message {
    let mut payloads = Items::new(alloc);
    for sample in samples {
        granted(rt, payloads.push(payload(rt, alloc, *sample)));
    }
    Message {
        header: header(exchange, id),
        payloads,
    }
}

// A message with no payload is refused for memory alone: the premise of that promise is met.
fn empty(alloc: Global, id: u32) -> Result<Vec<u8>, WireFault>
    ensures { IfErr result (λ f. f ≡ WireFault.Memory) }
{
    short_messages_can_be_sent();
    let empty = Message {
        header: header(37, id),
        payloads: Items::new(alloc),
    };
    let mut out = Vec::new(alloc);
    match seal_message(&ScriptCaller, &KEYS, &empty, &FRESH, &mut out) {
        Ok(()) => Ok(out),
        Err(fault) => Err(fault),
    }
}

fn sealed(alloc: Global, message: &Message) -> Result<Vec<u8>, WireFault> {
    let mut out = Vec::new(alloc);
    seal_message(&ScriptCaller, &KEYS, message, &FRESH, &mut out)?;
    Ok(out)
}

// RFC 7296, sections 3.1 and 3.14: header and encrypted payload of an empty INFORMATIONAL request, number 2.
#[test]
fn seals_no_payload(rt: HostRuntime) {
    // The ICV is that of Python's module `hmac`.
    let wanted: [u8; 49] = [
        0, 0, 0, 0, 0, 0, 0, 1, 0, 0, 0, 0, 0, 0, 0, 2, 46, 32, 37, 8, 0, 0, 0, 2, 0, 0, 0, 49, 0,
        0, 0, 21, 0x00, 0x96, 0x5e, 0xed, 0xb0, 0x3f, 0xc4, 0x16, 0x47, 0xea, 0xdc, 0x39, 0x2e,
        0x30, 0xc1, 0x5a, 0x63,
    ];
    let octets = empty(rt.alloc(), 2).expect(&rt, "memory");
    same(&rt, octets.as_slice(), wanted.as_slice());
}

/// What an encrypted message holds: the type of its first payload, and the octets of them all; none if it
/// does not open.
fn opened(rt: &impl Abort, alloc: Global, octets: &[u8]) -> Option<Plain> {
    let came = decode_message(alloc, octets).expect(rt, "a message");
    open_message(alloc, &ScriptCaller, &KEYS, octets, &came).expect(rt, "memory")
}

#[test]
fn opens_what_was_sealed(rt: HostRuntime) {
    let alloc = rt.alloc();
    let said = message(&rt, alloc, 36, 3, &[Sample::Nonce, Sample::InvalidSyntax]);
    let octets = sealed(alloc, &said).expect(&rt, "memory");
    // 32 octets, two payloads of 36 and 8, and what the cipher adds
    same(&rt, octets.len(), 93);
    let plain = opened(&rt, alloc, &octets).expect(&rt, "an opened message");
    same(&rt, plain.first, 40);
    let payloads = decode_chain(alloc, 40, plain.octets.as_slice()).expect(&rt, "payloads");
    holds(&rt, payloads == said.payloads);
}

#[test]
fn a_sealed_message_keeps_its_header(rt: HostRuntime) {
    let octets = sealed(
        rt.alloc(),
        &message(
            &rt,
            rt.alloc(),
            36,
            3,
            &[Sample::Nonce, Sample::InvalidSyntax],
        ),
    )
    .expect(&rt, "memory");
    let came = decode_message(rt.alloc(), &octets).expect(&rt, "a message");
    same(&rt, came.header, header(36, 3));
}

#[test]
fn laws_can_be_called() {
    sealed_messages_open(&ScriptCaller);
}

fn opens(rt: &impl Abort, alloc: Global, samples: &[Sample]) -> bool {
    let mut octets = Vec::new(alloc);
    encode_message(&message(rt, alloc, 37, 2, samples), &mut octets).expect(rt, "a spelling");
    opened(rt, alloc, &octets).is_some()
}

// Only an encrypted payload that stands alone, and whose body opens, is opened.
#[test]
fn opens_nothing_else(rt: HostRuntime) {
    let rows: [&[Sample]; 5] = [
        &[],
        &[Sample::Nonce],
        &[Sample::Nonce, Sample::Sealed(17)],
        &[Sample::Sealed(16)],
        &[Sample::Sealed(17)],
    ];
    for samples in rows {
        holds(&rt, !opens(&rt, rt.alloc(), samples));
    }
    let right = empty(rt.alloc(), 2).expect(&rt, "memory");
    holds(&rt, opened(&rt, rt.alloc(), &right).is_some());
}

/// How many octets a message of this payload has, or why it is not sealed.
fn length_sealed(rt: &impl Abort, alloc: Global, sample: Sample) -> Result<usize, WireFault> {
    match sealed(alloc, &message(rt, alloc, 37, 2, &[sample])) {
        Ok(octets) => Ok(octets.len()),
        Err(fault) => Err(fault),
    }
}

#[test]
fn the_longest_message(rt: HostRuntime) {
    // 32 octets of headers and 17 of the cipher leave 2951 for payloads, each with 4 of its own header.
    for (length, wanted) in [(2947, Ok(3000)), (2948, Err(WireFault::TooLong))] {
        let answer = length_sealed(&rt, rt.alloc(), Sample::VendorId(length));
        same(&rt, answer, wanted);
    }
}

// A nonce of 15 octets has no spelling.
#[test]
fn seals_no_short_nonce(rt: HostRuntime) {
    let mut said = message(&rt, rt.alloc(), 37, 2, &[]);
    let nonce = granted(&rt, Items::from_slice(rt.alloc(), &[7; 15]));
    granted(&rt, said.payloads.push(Payload::Nonce(nonce)));
    let refused = sealed(rt.alloc(), &said).err();
    same(&rt, refused, Some(WireFault::BadNonce { offset: 28 }));
}

#[test]
fn messages_of_many_lengths(rt: HostRuntime) {
    let alloc = rt.alloc();
    for length in [0, 1, 400, 1000, 2000, 2947] {
        let octets = sealed(
            alloc,
            &message(&rt, alloc, 37, 2, &[Sample::VendorId(length)]),
        )
        .expect(&rt, "memory");
        same(&rt, octets.len(), length + 53);
        let plain = opened(&rt, alloc, &octets).expect(&rt, "an opened message");
        same(&rt, plain.octets.len(), length + 4);
    }
}

#[test]
fn a_refusal_leaves_out_as_it_was(rt: HostRuntime) -> Result<(), Fail> {
    let alloc = rt.alloc();
    let said = message(&rt, alloc, 37, 2, &[]);
    let mut out = Vec::new(alloc);
    out.push(0xee)?;
    match seal_message(&ScriptCaller, &KEYS, &said, &FRESH, &mut out) {
        Ok(()) => same(&rt, out.len(), 50),
        Err(fault) => {
            same(&rt, fault, WireFault::Memory);
            same(&rt, out.as_slice(), [0xee].as_slice());
        }
    }
    Ok(())
}
