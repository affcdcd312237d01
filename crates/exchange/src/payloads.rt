//! Which payloads of a message count.
ghost use Rattle.std.specs.Prelude.{◌≡◌, ◌==◌, Some, None, MatchOption};
ghost use Rattle.std.specs.Option.{option_copied};
ghost use Rattle.exchange.specs.Counting.{only_auth, only_id_i, only_id_r, only_ke, only_nonce, only_sa, only_ts_i, only_ts_r};
ghost use Rattle.exchange.specs.Counting.{has_ke, offers_protocol, only, proposals_in, unknown_critical};
ghost use Rattle.std.specs.List.{list_any};
ghost use Rattle.wire.specs.Numbers.{IKE_PROTOCOL};

use base::Selector;
use wire::numbers::{
    AUTH_TYPE, ID_I_TYPE, ID_R_TYPE, IKE_PROTOCOL, KE_TYPE, NONCE_TYPE, SA_TYPE, TS_I_TYPE,
    TS_R_TYPE,
};
use wire::{Payload, Proposal};

/// The type of the first payload that is not known and is marked as critical (RFC 7296, section 2.5),
/// `None` where there is none. A request that has it is refused. Here an answer is not: its critical
/// payloads are passed over, a rule of this implementation against that section, which has the initiator
/// ignore such an answer.
pub fn unknown_critical(payloads: &[Payload]) -> Option<u8>
    ensures { result ≡ unknown_critical payloads.now }
{
    for payload in payloads {
        if let Payload::Unknown {
            kind,
            critical: true,
            ..
        } = payload
        {
            return Some(*kind);
        }
    }
    None
}

/// Whether a key exchange payload is there (section 3.4).
pub fn has_ke(payloads: &[Payload]) -> bool
    ensures { result ≡ has_ke payloads.now }
{
    for payload in payloads {
        if let Payload::Ke { .. } = payload {
            return true;
        }
    }
    false
}

/// Whether a proposal is for an IKE SA (section 3.3.1).
pub fn offers_ike(payloads: &[Payload]) -> bool
    ensures { result ≡ list_any (offers_protocol IKE_PROTOCOL) payloads.now }
{
    for payload in payloads {
        if is_for_ike(proposals_in(payload)) {
            return true;
        }
    }
    false
}

fn is_for_ike(proposals: &[Proposal]) -> bool
    ensures { result ≡ list_any (λ proposal. proposal.protocol == IKE_PROTOCOL) proposals.now }
{
    for proposal in proposals {
        if proposal.protocol == IKE_PROTOCOL {
            return true;
        }
    }
    false
}

fn proposals_in(payload: &Payload) -> &[Proposal]
    ensures { result.now ≡ proposals_in payload.now }
{
    match payload {
        Payload::Sa(proposals) => proposals.as_slice(),
        _ => &[],
    }
}

/// The payload of this type, `None` where there is none, or another of its type beside it.
pub fn only(payloads: &[Payload], kind: u8) -> Option<&Payload>
    ensures { option_copied result ≡ only kind payloads.now }
{
    let mut found = None;
    for payload in payloads {
        if payload.number() == kind {
            if found.is_some() {
                return None;
            }
            found = Some(payload);
        }
    }
    found
}

/// The proposals of the only SA payload (RFC 7296, section 3.3), `None` where there is not just one.
pub fn only_sa(payloads: &[Payload]) -> Option<&[Proposal]>
    ensures { MatchOption result (only_sa payloads.now ≡ None)
        (λ found. only_sa payloads.now ≡ Some found.now) }
{
    match only(payloads, SA_TYPE)? {
        Payload::Sa(proposals) => Some(proposals.as_slice()),
        _ => None,
    }
}

/// The group and the public value of the only key exchange payload (section 3.4), `None` where there is not
/// just one.
pub fn only_ke(payloads: &[Payload]) -> Option<(u16, &[u8])>
    ensures { MatchOption result (only_ke payloads.now ≡ None)
        (λ found. only_ke payloads.now ≡ Some (found.0, found.1.now)) }
{
    match only(payloads, KE_TYPE)? {
        Payload::Ke { group, data } => Some((*group, data.as_slice())),
        _ => None,
    }
}

/// The type and the data of the only identity of an initiator (section 3.5), `None` where there is not just
/// one.
pub fn only_id_i(payloads: &[Payload]) -> Option<(u8, &[u8])>
    ensures { MatchOption result (only_id_i payloads.now ≡ None)
        (λ found. only_id_i payloads.now ≡ Some (found.0, found.1.now)) }
{
    match only(payloads, ID_I_TYPE)? {
        Payload::IdI { kind, data } => Some((*kind, data.as_slice())),
        _ => None,
    }
}

/// The type and the data of the only identity of a responder (section 3.5), `None` where there is not just
/// one.
pub fn only_id_r(payloads: &[Payload]) -> Option<(u8, &[u8])>
    ensures { MatchOption result (only_id_r payloads.now ≡ None)
        (λ found. only_id_r payloads.now ≡ Some (found.0, found.1.now)) }
{
    match only(payloads, ID_R_TYPE)? {
        Payload::IdR { kind, data } => Some((*kind, data.as_slice())),
        _ => None,
    }
}

/// The method and the data of the only authentication payload (section 3.8), `None` where there is not just
/// one.
pub fn only_auth(payloads: &[Payload]) -> Option<(u8, &[u8])>
    ensures { MatchOption result (only_auth payloads.now ≡ None)
        (λ found. only_auth payloads.now ≡ Some (found.0, found.1.now)) }
{
    match only(payloads, AUTH_TYPE)? {
        Payload::Auth { method, data } => Some((*method, data.as_slice())),
        _ => None,
    }
}

/// The only nonce (section 3.9), `None` where there is not just one.
pub fn only_nonce(payloads: &[Payload]) -> Option<&[u8]>
    ensures { MatchOption result (only_nonce payloads.now ≡ None)
        (λ found. only_nonce payloads.now ≡ Some found.now) }
{
    match only(payloads, NONCE_TYPE)? {
        Payload::Nonce(octets) => Some(octets.as_slice()),
        _ => None,
    }
}

/// The selectors of the only payload for the initiator's side (section 3.13), `None` where there is not
/// just one.
pub fn only_ts_i(payloads: &[Payload]) -> Option<&[Selector]>
    ensures { MatchOption result (only_ts_i payloads.now ≡ None)
        (λ found. only_ts_i payloads.now ≡ Some found.now) }
{
    match only(payloads, TS_I_TYPE)? {
        Payload::TsI(selectors) => Some(selectors.as_slice()),
        _ => None,
    }
}

/// The selectors of the only payload for the responder's side (section 3.13), `None` where there is not
/// just one.
pub fn only_ts_r(payloads: &[Payload]) -> Option<&[Selector]>
    ensures { MatchOption result (only_ts_r payloads.now ≡ None)
        (λ found. only_ts_r payloads.now ≡ Some found.now) }
{
    match only(payloads, TS_R_TYPE)? {
        Payload::TsR(selectors) => Some(selectors.as_slice()),
        _ => None,
    }
}
