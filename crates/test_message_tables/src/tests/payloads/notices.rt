use crate::tests::asserts::{granted, holds_at, same};
use exchange::{Notice, asked_cookie, has_invalid_syntax, leading_cookie, returned_cookie};
use std::alloc::Global;
use std::process::Abort;
use wire::{Items, Payload};

fn notice(rt: &impl Abort, alloc: Global, kind: u16, data: &[u8]) -> Payload {
    Payload::Notify {
        protocol: 3,
        spi: granted(rt, Items::from_slice(alloc, &[1])),
        kind,
        data: granted(rt, Items::from_slice(alloc, data)),
    }
}

/// Whether a notice has this number and these octets, and no protocol and no SPI.
fn is_notice(payload: &Payload, number: u16, octets: &[u8]) -> bool {
    match payload {
        Payload::Notify {
            protocol,
            spi,
            kind,
            data,
        } => *protocol == 0 && spi.is_empty() && *kind == number && data.as_slice() == octets,
        _ => false,
    }
}

// RFC 7296, section 3.10.1.
#[test]
fn numbers_and_data(rt: HostRuntime) {
    let critical = Notice::UnsupportedCriticalPayload { kind: 200 };
    let cookie = Notice::Cookie { octets: [5; 36] };
    let expected: [(Notice, u16, &[u8]); 7] = [
        (critical, 1, &[200]),
        (Notice::InvalidSyntax, 7, &[]),
        (Notice::NoProposalChosen, 14, &[]),
        (Notice::AuthenticationFailed, 24, &[]),
        (Notice::NoAdditionalSas, 35, &[]),
        (Notice::TsUnacceptable, 38, &[]),
        (cookie, 16390, &[5; 36]),
    ];
    for (sent, number, octets) in expected {
        same(&rt, sent.number(), number);
        let payload = granted(&rt, sent.payload(rt.alloc()));
        holds_at(&rt, number, is_notice(&payload, number, octets));
    }
}

/// A payload, as a table names it.
#[derive(Clone, Copy)]
enum Sample {
    Nonce,
    /// A notice of this number with this data.
    Notice(u16, &'static [u8]),
}

fn payload(rt: &impl Abort, alloc: Global, sample: Sample) -> Payload {
    match sample {
        Sample::Nonce => Payload::Nonce(granted(rt, Items::from_slice(alloc, &[1; 16]))),
        Sample::Notice(number, data) => notice(rt, alloc, number, data),
    }
}

fn payloads(rt: &impl Abort, alloc: Global, samples: &[Sample]) -> Items<Payload> {
    let mut payloads = Items::new(alloc);
    for sample in samples {
        granted(rt, payloads.push(payload(rt, alloc, *sample)));
    }
    payloads
}

// RFC 7296, section 2.6: 1 to 64 octets, at the first place of a request, alone in an answer.
#[test]
fn cookies(rt: HostRuntime) {
    let rows: [(&[Sample], Option<&[u8]>, Option<&[u8]>); 7] = [
        (
            &[Sample::Notice(16390, &[7; 64]), Sample::Nonce],
            Some(&[7; 64]),
            None,
        ),
        (&[Sample::Nonce, Sample::Notice(16390, &[7])], None, None),
        (&[Sample::Notice(16390, &[7])], Some(&[7]), Some(&[7])),
        (&[Sample::Notice(16390, &[])], None, None),
        (&[Sample::Notice(16390, &[7; 65])], None, None),
        (&[Sample::Notice(16389, &[7])], None, None),
        (&[], None, None),
    ];
    for (samples, leading, asked) in rows {
        let payloads = payloads(&rt, rt.alloc(), samples);
        same(&rt, leading_cookie(payloads.as_slice()), leading);
        same(&rt, asked_cookie(payloads.as_slice()), asked);
    }
}

#[test]
fn a_cookie_is_brought_back(rt: HostRuntime) {
    let back = [granted(&rt, returned_cookie(rt.alloc(), &[0xaa, 0xbb]))];
    same(&rt, leading_cookie(&back), Some([0xaa, 0xbb].as_slice()));
}

#[test]
fn invalid_syntax(rt: HostRuntime) {
    let rows: [(&[Sample], bool); 3] = [
        (&[Sample::Notice(14, &[])], false),
        (&[Sample::Notice(14, &[]), Sample::Notice(7, &[1])], true),
        (&[], false),
    ];
    for (samples, wanted) in rows {
        let payloads = payloads(&rt, rt.alloc(), samples);
        same(&rt, has_invalid_syntax(payloads.as_slice()), wanted);
    }
}
