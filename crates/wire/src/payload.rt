//! The payloads of a message (RFC 7296 section 3.2), one variant for each form.
ghost use Rattle.std.specs.Prelude.{◌≡◌};
ghost use Rattle.wire.specs.Reading.{Gives, Answers, body_of, payload_at, link_of};
ghost use Rattle.wire.specs.Payloads.{type_of, type_of_skipped};
ghost use Rattle.wire.specs.Refusals.{fault_in};
ghost use Rattle.wire.specs.Writing.{Writes, is_unknown, header_octets, body_onto, payload_onto};

use crate::deletions::{read_delete, write_delete};
use crate::fault::WireFault;
use crate::fields::{
    read_key_exchange, read_nonce, read_typed, write_key_exchange, write_nonce, write_typed,
};
use crate::form::Form;
use crate::notices::{read_notify, write_notify};
use crate::numbers::{
    AUTH_TYPE, AUTHENTICATION_LIMIT, CERTIFICATE_REQUEST_TYPE, CERTIFICATE_TYPE,
    CONFIGURATION_TYPE, DELETE_TYPE, EAP_TYPE, ID_I_TYPE, ID_R_TYPE, IDENTITY_LIMIT, KE_TYPE,
    NO_PAYLOAD, NONCE_TYPE, NOTIFY_TYPE, SA_TYPE, SEALED_TYPE, TS_I_TYPE, TS_R_TYPE,
    VENDOR_ID_TYPE,
};
use crate::proposal::{Proposal, read_proposals, write_proposals};
use crate::reader::{Part, Reader, Unread};
use crate::selector::{read_selectors, write_selectors};
use crate::writer::{Unwritten, close_part, open_part, push_octets};
use base::{Items, Selector};
use std::alloc::Global;

/// A payload without its header. Of a payload that is known by its type, only what the form itself fixes is
/// kept: the critical bit and the reserved octets are not.
#[derive(Clone, Debug, PartialEq, Eq, Drop)]
pub enum Payload {
    /// Security association, type 33 (section 3.3): at least one proposal. One alone has any number from 1;
    /// two or more are numbered 1, 2, 3, and so on.
    Sa(Items<Proposal>),
    /// Key exchange, type 34 (section 3.4): the Diffie-Hellman group and 1 to 1024 octets of data, the
    /// limits being this implementation's.
    Ke {
        group: u16,
        data: Items<u8>,
    },
    /// Identification of the initiator, type 35 (section 3.5): the identity's type and 1 to 256 octets of
    /// data, the limits being this implementation's.
    IdI {
        kind: u8,
        data: Items<u8>,
    },
    /// Identification of the responder, type 36 (section 3.5), of the same form.
    IdR {
        kind: u8,
        data: Items<u8>,
    },
    /// Authentication, type 39 (section 3.8): the method and 1 to 1024 octets of data, the limits being this
    /// implementation's.
    Auth {
        method: u8,
        data: Items<u8>,
    },
    /// Nonce, type 40 (section 3.9): 16 to 256 octets.
    Nonce(Items<u8>),
    /// Notification, type 41 (section 3.10): protocol, SPI of up to 255 octets, the notification's type and
    /// its data.
    Notify {
        protocol: u8,
        spi: Items<u8>,
        kind: u16,
        data: Items<u8>,
    },
    /// Deletion, type 42 (section 3.11): of the IKE SA itself (protocol 1, no SPI), or of the SAs with these
    /// SPIs (protocol 2 or 3).
    Delete {
        protocol: u8,
        spis: Items<u32>,
    },
    /// Traffic selectors of the initiator's side, type 44 (section 3.13): 1 to 16 of them, a limit of this
    /// implementation.
    TsI(Items<Selector>),
    /// Traffic selectors of the responder's side, type 45 (section 3.13): 1 to 16 of them.
    TsR(Items<Selector>),
    /// Encrypted payloads, type 46 (section 3.14), always the last of a message: the type of the first
    /// payload inside, and the body as the cipher wrote it, which may be empty.
    Sealed {
        first: u8,
        body: Items<u8>,
    },
    /// A payload whose type is known and whose content is not looked into.
    Skipped {
        kind: SkippedKind,
        data: Items<u8>,
    },
    /// A payload of a type that is not known, 1 to 32 or 49 to 255, with its critical bit (section 2.5).
    Unknown {
        kind: u8,
        critical: bool,
        data: Items<u8>,
    },
}

/// The types of payload that are known and skipped.
#[derive(Clone, Copy, Debug, PartialEq, Eq)]
pub enum SkippedKind {
    /// Certificate, type 37 (section 3.6).
    Certificate,
    /// Certificate request, type 38 (section 3.7).
    CertificateRequest,
    /// Vendor ID, type 43 (section 3.12).
    VendorId,
    /// Configuration, type 47 (section 3.15).
    Configuration,
    /// Extensible authentication, type 48 (section 3.16).
    Eap,
}

// The bit of the second octet of a payload's header that marks it as critical (section 3.2).
const CRITICAL: u8 = 0x80;

// A payload that is not encrypted.
#[tactic(auto, unfolding(crate::specs::Reading::body_of))]
fn read_body(alloc: Global, form: Form, kind: u8, part: Part) -> Result<Payload, Unread>
    ensures { Gives (λ x. x) result (body_of form kind part.entry.second part.entry.inside.rest.now) }
{
    let body = part.inside;
    match form {
        Form::Sa => Ok(Payload::Sa(read_proposals(alloc, body)?)),
        Form::Ke => {
            let (group, data) = read_key_exchange(alloc, body)?;
            Ok(Payload::Ke { group, data })
        }
        Form::IdI => {
            let (kind, data) = read_typed(alloc, IDENTITY_LIMIT, body)?;
            Ok(Payload::IdI { kind, data })
        }
        Form::IdR => {
            let (kind, data) = read_typed(alloc, IDENTITY_LIMIT, body)?;
            Ok(Payload::IdR { kind, data })
        }
        Form::Auth => {
            let (method, data) = read_typed(alloc, AUTHENTICATION_LIMIT, body)?;
            Ok(Payload::Auth { method, data })
        }
        Form::Nonce => Ok(Payload::Nonce(read_nonce(alloc, body)?)),
        Form::Notify => read_notify(alloc, body),
        Form::Delete => read_delete(alloc, body),
        Form::TsI => Ok(Payload::TsI(read_selectors(alloc, body)?)),
        Form::TsR => Ok(Payload::TsR(read_selectors(alloc, body)?)),
        Form::Sealed => Err(Unread::Malformed),
        Form::Skipped(kind) => {
            let data = Items::from_slice(alloc, body.rest)?;
            Ok(Payload::Skipped { kind, data })
        }
        Form::Unknown => {
            let data = Items::from_slice(alloc, body.rest)?;
            let critical = part.second >= CRITICAL;
            Ok(Payload::Unknown {
                kind,
                critical,
                data,
            })
        }
    }
}

// The next payload, which has the type `kind`, and the type of the payload behind it. An encrypted payload
// has to be the last, where there may be one; nothing follows it (section 3.14).
#[tactic(auto, unfolding(crate::specs::Reading::payload_at))]
pub(crate) fn read_payload(
    alloc: Global,
    kind: u8,
    encrypted: bool,
    reader: &mut Reader,
) -> Result<(Payload, u8), WireFault>
    ensures read { Answers (λ x. link_of x.0 x.1 reader.new.rest.now) result
        (payload_at encrypted reader.old.end kind reader.old.rest.now) }
    ensures end { reader.new.end ≡ reader.old.end }
{
    let offset = reader.offset();
    let part = match reader.part() {
        Ok(part) => part,
        Err(unread) => return Err(unread.or(WireFault::BadChain { offset })),
    };
    let fault = WireFault::of_type(kind, offset);
    let form = Form::of(kind);
    if let Form::Sealed = form {
        if !encrypted || !reader.is_empty() {
            return Err(fault);
        }
        let body = Items::from_slice(alloc, part.inside.rest)?;
        let first = part.first;
        return Ok((Payload::Sealed { first, body }, NO_PAYLOAD));
    }
    match read_body(alloc, form, kind, part) {
        Ok(payload) => Ok((payload, part.first)),
        Err(unread) => Err(unread.or(fault)),
    }
}

impl SkippedKind {
    /// The number of the type.
    pub fn number(self) -> u8
        ensures { result ≡ type_of_skipped self }
    {
        match self {
            SkippedKind::Certificate => CERTIFICATE_TYPE,
            SkippedKind::CertificateRequest => CERTIFICATE_REQUEST_TYPE,
            SkippedKind::VendorId => VENDOR_ID_TYPE,
            SkippedKind::Configuration => CONFIGURATION_TYPE,
            SkippedKind::Eap => EAP_TYPE,
        }
    }
}

impl Payload {
    /// The number of the payload's type (section 3.2).
    pub fn number(&self) -> u8
        ensures { result ≡ type_of self.now }
    {
        match self {
            Payload::Sa(_) => SA_TYPE,
            Payload::Ke { .. } => KE_TYPE,
            Payload::IdI { .. } => ID_I_TYPE,
            Payload::IdR { .. } => ID_R_TYPE,
            Payload::Auth { .. } => AUTH_TYPE,
            Payload::Nonce(_) => NONCE_TYPE,
            Payload::Notify { .. } => NOTIFY_TYPE,
            Payload::Delete { .. } => DELETE_TYPE,
            Payload::TsI(_) => TS_I_TYPE,
            Payload::TsR(_) => TS_R_TYPE,
            Payload::Sealed { .. } => SEALED_TYPE,
            Payload::Skipped { kind, .. } => kind.number(),
            Payload::Unknown { kind, .. } => *kind,
        }
    }

    // The refusal of a payload that has no spelling, at the offset where it would begin.
    pub(crate) fn fault(&self, offset: usize) -> WireFault
        ensures { result ≡ fault_in self.now offset }
    {
        match self {
            Payload::Unknown { .. } => WireFault::BadChain { offset },
            _ => WireFault::of_type(self.number(), offset),
        }
    }
}

#[tactic(auto, unfolding(crate::specs::Writing::body_onto))]
fn write_body(payload: &Payload, out: &mut Vec<u8>) -> Result<(), Unwritten>
    ensures { Writes out.new.items result (body_onto payload.now out.old.items) }
{
    match payload {
        Payload::Sa(proposals) => write_proposals(proposals.as_slice(), out),
        Payload::Ke { group, data } => write_key_exchange(*group, data.as_slice(), out),
        Payload::IdI { kind, data } => write_typed(IDENTITY_LIMIT, *kind, data.as_slice(), out),
        Payload::IdR { kind, data } => write_typed(IDENTITY_LIMIT, *kind, data.as_slice(), out),
        Payload::Auth { method, data } => {
            write_typed(AUTHENTICATION_LIMIT, *method, data.as_slice(), out)
        }
        Payload::Nonce(nonce) => write_nonce(nonce.as_slice(), out),
        Payload::Notify {
            protocol,
            spi,
            kind,
            data,
        } => write_notify(*protocol, spi.as_slice(), *kind, data.as_slice(), out),
        Payload::Delete { protocol, spis } => write_delete(*protocol, spis.as_slice(), out),
        Payload::TsI(selectors) => write_selectors(selectors.as_slice(), out),
        Payload::TsR(selectors) => write_selectors(selectors.as_slice(), out),
        Payload::Sealed { body, .. } => push_octets(out, body.as_slice()),
        Payload::Skipped { data, .. } => push_octets(out, data.as_slice()),
        Payload::Unknown { data, .. } => push_octets(out, data.as_slice()),
    }
}

// Whether a type is one that is not known (section 3.2).
fn is_unknown(kind: u8) -> bool
    ensures { result ≡ is_unknown kind }
{
    kind > NO_PAYLOAD && kind < SA_TYPE || kind > EAP_TYPE
}

// The first two octets of the payload's header, where `next` is the type of the payload behind it: an
// encrypted payload names the first one inside it. There are none for an unknown payload of a type with a
// form of its own.
fn header_octets(payload: &Payload, next: u8) -> Option<(u8, u8)>
    ensures { result ≡ header_octets payload.now next }
{
    match payload {
        Payload::Sealed { first, .. } => Some((*first, 0)),
        Payload::Unknown { kind, critical, .. } => {
            if !is_unknown(*kind) {
                return None;
            }
            Some((next, if *critical { CRITICAL } else { 0 }))
        }
        _ => Some((next, 0)),
    }
}

// Appends a payload, where `next` is the type of the payload behind it.
#[tactic(auto, unfolding(crate::specs::Writing::payload_onto))]
pub(crate) fn write_payload(payload: &Payload, next: u8, out: &mut Vec<u8>) -> Result<(), Unwritten>
    ensures { Writes out.new.items result (payload_onto payload.now next out.old.items) }
{
    let Some((first, second)) = header_octets(payload, next) else {
        return Err(Unwritten::Unspelled);
    };
    let start = out.len();
    open_part(out, first, second)?;
    write_body(payload, out)?;
    close_part(out, start)
}
