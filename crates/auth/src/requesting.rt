//! The request of IKE_AUTH (RFC 7296, section 1.2), and what a responder makes of it.
ghost use Rattle.std.specs.Prelude.{◌≡◌, false, IfOk, IsOk, OnOk, MatchOption};
ghost use Rattle.wire.specs.Sizes.{FitsFields};
ghost use Rattle.auth.specs.Proofs.{auth_payload, proving_view, IsIdentity};
ghost use Rattle.auth.specs.Requests.{auth_request, hangs_on_its_proof, is_complete, judgement_view};
ghost use Rattle.auth.specs.Requests.{HasAuthParts, IsAuthJudgement};
ghost use Rattle.auth.specs.Windows.{IsWindow};

use crate::proving::proved_identity;
use crate::window::push_window;
use crate::{Identity, Proving, is_proved, peer_window};
use base::Items;
use exchange::{
    ChildOffer, ChildPayloads, Notice, Role, only_auth, only_id_i, only_sa, only_ts_i, only_ts_r,
    unknown_critical,
};
use std::alloc::{AllocError, Global};
use suite::Proof;
use wire::Payload;

/// The payloads of the request (RFC 7296, section 1.2): IDi and AUTH of this end, the three of its Child SA,
/// and, where its window (1 to 16 requests) is above 1, the notification that tells it. The proof in it fits
/// its payload. The only error is an allocation failure.
pub fn request<C: Proof>(
    alloc: Global,
    caller: &C,
    own: &Identity,
    what: &Proving<'_>,
    child: ChildPayloads,
    window: u8,
) -> Result<Items<Payload>, AllocError>
    requires own { IsIdentity own.now }
    requires window { IsWindow window }
    ensures made { IfOk result (λ payloads. payloads ≡ auth_request
        (C.own_method caller.now) (C.proof_of caller.now) own.now (proving_view what.now) child window) }
    ensures fits { OnOk result (FitsFields
        (auth_payload (C.own_method caller.now) (C.proof_of caller.now) own.now (proving_view what.now))) }
{
    let mut payloads = proved_identity(alloc, caller, Role::Initiator, own, what)?;
    child.append_to(&mut payloads)?;
    push_window(alloc, &mut payloads, window)?;
    Ok(payloads)
}

/// What an accepted request asks for.
#[derive(Clone, Copy)]
pub struct Asked<'a> {
    /// The Child SA (RFC 7296, section 1.2).
    pub offer: ChildOffer<'a>,
    /// The initiator's window, 1 to 16 requests (section 2.3).
    pub window: u8,
}

/// What a responder makes of a request.
#[derive(Clone, Copy)]
pub enum Judgement<'a> {
    /// It is answered by this notification alone.
    Refused(Notice),
    /// The peer proved who it is.
    Accepted(Asked<'a>),
}

/// What a responder makes of the payloads of a request, which `peer` is to have sent. The first that
/// applies, in this order:
///
/// 1. An unknown payload is marked as critical: the UNSUPPORTED_CRITICAL_PAYLOAD notification, for the first
///    (RFC 7296, section 2.5).
/// 2. There is not exactly one IDi, AUTH, SA, TSi and TSr each: INVALID_SYNTAX (section 3.10.1).
/// 3. The IDi is not the peer's, or it is not proved ([`is_proved`]): AUTHENTICATION_FAILED (section
///    2.21.2).
/// 4. [`Judgement::Accepted`].
///
/// The only error is an allocation failure, and none comes in place of a refusal that doesn't hang on the
/// proof: the first two, and the third where another identity is named.
pub fn judge<'a, C: Proof>(
    alloc: Global,
    caller: &C,
    peer: &Identity,
    what: &Proving<'_>,
    payloads: &'a [Payload],
) -> Result<Judgement<'a>, AllocError>
    ensures judged { IfOk result (λ judgement.
        IsAuthJudgement (C.accepts caller.now) peer.now (proving_view what.now) payloads.now
        (judgement_view judgement)) }
    ensures early { hangs_on_its_proof peer.now payloads.now ≡ false → IsOk result }
{
    if let Some(kind) = unknown_critical(payloads) {
        return Ok(Judgement::Refused(Notice::UnsupportedCriticalPayload { kind }));
    }
    let Some(parts) = parts_of(payloads) else {
        return Ok(Judgement::Refused(Notice::InvalidSyntax));
    };
    let Parts {
        kind,
        id,
        method,
        proof,
        offer,
    } = parts;
    if !is_proved(alloc, caller, peer, what, kind, id, method, proof)? {
        return Ok(Judgement::Refused(Notice::AuthenticationFailed));
    }
    let window = peer_window(payloads);
    Ok(Judgement::Accepted(Asked { offer, window }))
}

// What the payloads say that a request has to have.
#[derive(Clone, Copy)]
struct Parts<'a> {
    kind: u8,
    id: &'a [u8],
    method: u8,
    proof: &'a [u8],
    offer: ChildOffer<'a>,
}

// `None` where there is not exactly one of each.
fn parts_of(payloads: &[Payload]) -> Option<Parts<'_>>
    ensures { MatchOption result (is_complete payloads.now ≡ false) (HasAuthParts payloads.now) }
{
    let (kind, id) = only_id_i(payloads)?;
    let (method, proof) = only_auth(payloads)?;
    Some(Parts {
        kind,
        id,
        method,
        proof,
        offer: ChildOffer {
            proposals: only_sa(payloads)?,
            ts_i: only_ts_i(payloads)?,
            ts_r: only_ts_r(payloads)?,
        },
    })
}
