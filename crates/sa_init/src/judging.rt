//! What a responder makes of a request (RFC 7296, sections 1.2, 2.5, 2.6 and 2.7).
ghost use Rattle.std.specs.Prelude.{◌↔◌, IsTrue, MatchOption};
ghost use Rattle.sa_init.specs.Parts.{parts_view};
ghost use Rattle.sa_init.specs.Judging.{judgement_view, BringsRightCookie, IsJudgement, IsSuited, IsUnsuited};

use crate::cookies::Cookies;
use crate::parts::{Parts, parts_of};
use exchange::{Notice, leading_cookie, unknown_critical};
use suite::{Agreement, Chosen, Sealer, Wanted, choose};
use wire::Payload;

/// So many half-open IKE SAs there are from which on a cookie is asked for.
pub const COOKIE_THRESHOLD: usize = 8;

/// So many half-open IKE SAs there are at most.
pub const HALF_OPEN_LIMIT: usize = 32;

/// So many IKE SAs there are at most.
pub const ASSOCIATION_LIMIT: usize = 128;

/// Where a request came from.
#[derive(Clone, Copy, Debug, PartialEq, Eq)]
pub struct Sender {
    /// The address that it was sent from.
    pub address: [u8; 4],
    /// The SPI by which it names the IKE SA, not zero.
    pub spi_i: u64,
}

/// What a request offers, where it is accepted.
#[derive(Clone, Copy, Debug, PartialEq, Eq)]
pub struct Offer<'a> {
    /// The proposal that is chosen (RFC 7296, section 2.7).
    pub chosen: Chosen,
    /// The initiator's public value (section 3.4).
    pub public: &'a [u8],
    /// The initiator's nonce (section 3.9).
    pub nonce: &'a [u8],
}

/// What a responder makes of a request.
#[derive(Clone, Copy, Debug, PartialEq, Eq)]
pub enum Judgement<'a> {
    /// It is answered with this notification, and nothing of it is kept.
    Answered(Notice),
    /// E32: an SA, a KE or a Nonce is missing in it, or stands there twice.
    Incomplete,
    /// E34: there is no room for another IKE SA.
    Full,
    /// It is accepted.
    Accepted(Offer<'a>),
}

/// What a responder makes of the payloads of a request, with so many IKE SAs half open, of so many that it
/// holds. The first that applies, in this order:
///
/// 1. An unknown payload is marked as critical: the UNSUPPORTED_CRITICAL_PAYLOAD notification (RFC 7296,
///    section 2.5).
/// 2. There is not one SA, one KE and one Nonce: [`Judgement::Incomplete`].
/// 3. [`COOKIE_THRESHOLD`] or more are half open, and the first payload is no right cookie: the COOKIE
///    notification (section 2.6). With fewer a cookie isn't looked at.
/// 4. [`HALF_OPEN_LIMIT`] are half open, or [`ASSOCIATION_LIMIT`] are held: [`Judgement::Full`].
/// 5. No proposal is acceptable, or the KE is of another group than the caller's: the NO_PROPOSAL_CHOSEN
///    notification (section 2.7).
/// 6. [`Judgement::Accepted`].
///
/// Takes no memory.
pub fn judge<'a, C: Sealer + Agreement>(
    caller: &C,
    payloads: &'a [Payload],
    sender: &Sender,
    cookies: &Cookies,
    half_open: usize,
    held: usize,
) -> Judgement<'a>
    ensures { IsJudgement C.cipher C.group_number cookies.now sender.now half_open held payloads.now
        (judgement_view result) }
{
    if let Some(kind) = unknown_critical(payloads) {
        return Judgement::Answered(Notice::UnsupportedCriticalPayload { kind });
    }
    let Some(parts) = parts_of(payloads) else {
        return Judgement::Incomplete;
    };
    if half_open >= COOKIE_THRESHOLD
        && !brings_right_cookie(cookies, sender, payloads, parts.nonce)
    {
        let octets = cookies.make(parts.nonce, &sender.address, sender.spi_i);
        return Judgement::Answered(Notice::Cookie { octets });
    }
    if half_open >= HALF_OPEN_LIMIT || held >= ASSOCIATION_LIMIT {
        return Judgement::Full;
    }
    match chosen_of(caller, &parts) {
        Some(chosen) => Judgement::Accepted(Offer {
            chosen,
            public: parts.public,
            nonce: parts.nonce,
        }),
        None => Judgement::Answered(Notice::NoProposalChosen),
    }
}

// Whether the first payload is a right cookie.
fn brings_right_cookie(
    cookies: &Cookies,
    sender: &Sender,
    payloads: &[Payload],
    nonce: &[u8],
) -> bool
    ensures { IsTrue result ↔ BringsRightCookie cookies.now sender.now payloads.now nonce.now }
{
    match leading_cookie(payloads) {
        Some(octets) => cookies.is_right(octets, nonce, &sender.address, sender.spi_i),
        None => false,
    }
}

// The proposal that is chosen, where the group is the caller's.
fn chosen_of<C: Sealer + Agreement>(caller: &C, parts: &Parts<'_>) -> Option<Chosen>
    ensures { MatchOption result
        (IsUnsuited C.cipher C.group_number (parts_view parts.now))
        (IsSuited C.cipher C.group_number (parts_view parts.now)) }
{
    if parts.group != caller.group() {
        return None;
    }
    choose(parts.proposals, &Wanted::ike(caller))
}
