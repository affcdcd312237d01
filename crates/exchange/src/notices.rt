//! Notifications (RFC 7296, section 3.10).
ghost use Rattle.std.specs.Prelude.{◌≡◌, None, Some, IfOk, MatchOption};
ghost use Rattle.std.specs.List.{list_any};
ghost use Rattle.exchange.specs.Notices.{type_of_notice, data_of_notice, payload_of_notice, returned_cookie, cookie_in, error_in, first_error, leading_cookie, asked_cookie, is_invalid_syntax, FitsNotice};
ghost use Rattle.base.specs.Octets.{AreOctets};

use base::Items;
use std::alloc::{AllocError, Global};
use wire::Payload;
use wire::numbers::{
    AUTHENTICATION_FAILED, COOKIE, INVALID_SYNTAX, NO_ADDITIONAL_SAS, NO_PROPOSAL_CHOSEN,
    TS_UNACCEPTABLE, UNSUPPORTED_CRITICAL_PAYLOAD,
};

// The most octets of a cookie (section 2.6).
const COOKIE_LIMIT: usize = 64;

// The first type of a notification that tells a status; those below it tell errors (section 3.10.1).
const FIRST_STATUS: u16 = 16384;

/// A notification that is sent.
#[derive(Clone, Copy, Debug, PartialEq, Eq)]
pub enum Notice {
    /// A payload of this type is marked as critical and not known (RFC 7296, section 2.5).
    UnsupportedCriticalPayload { kind: u8 },
    /// A request is not in the grammar, or a payload is missing in it or one too many (sections 2.21.2 and
    /// 2.21.3).
    InvalidSyntax,
    /// No proposal is acceptable (section 2.7).
    NoProposalChosen,
    /// The peer did not prove its identity (section 2.21.2).
    AuthenticationFailed,
    /// No additional Child SA is made (section 1.3).
    NoAdditionalSas,
    /// No entry of the policy protects anything of the flows that were offered (section 2.9).
    TsUnacceptable,
    /// The first message is to be sent again with these octets (section 2.6).
    Cookie { octets: [u8; 36] },
}

impl Notice {
    /// The number of its type.
    pub fn number(&self) -> u16
        ensures { result ≡ type_of_notice self.now }
    {
        match self {
            Notice::UnsupportedCriticalPayload { .. } => UNSUPPORTED_CRITICAL_PAYLOAD,
            Notice::InvalidSyntax => INVALID_SYNTAX,
            Notice::NoProposalChosen => NO_PROPOSAL_CHOSEN,
            Notice::AuthenticationFailed => AUTHENTICATION_FAILED,
            Notice::NoAdditionalSas => NO_ADDITIONAL_SAS,
            Notice::TsUnacceptable => TS_UNACCEPTABLE,
            Notice::Cookie { .. } => COOKIE,
        }
    }

    /// The payload that carries it, with protocol 0 and no SPI. The only error is an allocation failure.
    pub fn payload(&self, alloc: Global) -> Result<Payload, AllocError>
        ensures { IfOk result (λ payload. payload ≡ payload_of_notice self.now) }
    {
        Ok(Payload::Notify {
            protocol: 0,
            spi: Items::new(alloc),
            kind: self.number(),
            data: self.data(alloc)?,
        })
    }

    /// What the types of its fields say of them. Does nothing.
    pub fn fits(self)
        ensures { FitsNotice self }
    {
        if let Notice::Cookie { octets } = self {
            octets_fit(&octets);
        }
    }

    fn data(&self, alloc: Global) -> Result<Items<u8>, AllocError>
        ensures { IfOk result (λ octets. octets ≡ data_of_notice self.now) }
    {
        match self {
            Notice::UnsupportedCriticalPayload { kind } => Items::from_slice(alloc, &[*kind]),
            Notice::Cookie { octets } => Items::from_slice(alloc, octets),
            _ => Ok(Items::new(alloc)),
        }
    }
}

/// The notification with which a request brings back the cookie that it was asked for (RFC 7296, section
/// 2.6). The only error is an allocation failure.
pub fn returned_cookie(alloc: Global, octets: &[u8]) -> Result<Payload, AllocError>
    ensures { IfOk result (λ payload. payload ≡ returned_cookie octets.now) }
{
    Ok(Payload::Notify {
        protocol: 0,
        spi: Items::new(alloc),
        kind: COOKIE,
        data: Items::from_slice(alloc, octets)?,
    })
}

/// The cookie that a request brings, as its first payload (RFC 7296, section 2.6), `None` where that is none.
pub fn leading_cookie(payloads: &[Payload]) -> Option<&[u8]>
    ensures { MatchOption result (leading_cookie payloads.now ≡ None)
        (λ octets. leading_cookie payloads.now ≡ Some octets.now) }
{
    cookie_in(payloads.first()?)
}

/// The cookie that an answer asks for, as its only payload (RFC 7296, section 2.6), `None` where it is not
/// just that.
pub fn asked_cookie(payloads: &[Payload]) -> Option<&[u8]>
    ensures { MatchOption result (asked_cookie payloads.now ≡ None)
        (λ octets. asked_cookie payloads.now ≡ Some octets.now) }
{
    match payloads {
        [payload] => cookie_in(payload),
        _ => None,
    }
}

/// Whether one of the payloads is an INVALID_SYNTAX notification (RFC 7296, section 3.10.1).
pub fn has_invalid_syntax(payloads: &[Payload]) -> bool
    ensures { result ≡ list_any is_invalid_syntax payloads.now }
{
    for payload in payloads {
        if is_invalid_syntax(payload) {
            return true;
        }
    }
    false
}

/// The type of the first notification among the payloads that tells an error: one below 16384 (RFC 7296,
/// section 3.10.1). `None` where there is none. Notifications of other types tell a status, and are passed
/// over.
pub fn first_error(payloads: &[Payload]) -> Option<u16>
    ensures { result ≡ first_error payloads.now }
{
    for payload in payloads {
        let error = error_in(payload);
        if error.is_some() {
            return error;
        }
    }
    None
}

// Whatever protocol and SPI a notification names, its type and its data tell whether it is a cookie.
fn cookie_in(payload: &Payload) -> Option<&[u8]>
    ensures { MatchOption result (cookie_in payload.now ≡ None)
        (λ octets. cookie_in payload.now ≡ Some octets.now) }
{
    match payload {
        Payload::Notify {
            kind: COOKIE,
            data,
            ..
        } if !data.is_empty() && data.len() <= COOKIE_LIMIT => Some(data.as_slice()),
        _ => None,
    }
}

fn error_in(payload: &Payload) -> Option<u16>
    ensures { result ≡ error_in payload.now }
{
    match payload {
        Payload::Notify { kind, .. } if *kind < FIRST_STATUS => Some(*kind),
        _ => None,
    }
}

fn is_invalid_syntax(payload: &Payload) -> bool
    ensures { result ≡ is_invalid_syntax payload.now }
{
    match payload {
        Payload::Notify { kind, .. } => *kind == INVALID_SYNTAX,
        _ => false,
    }
}

// What the type of octets says. Does nothing.
fn octets_fit(octets: &[u8])
    ensures { AreOctets octets.now }
{}
