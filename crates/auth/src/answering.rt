//! The answer of IKE_AUTH where the peer is accepted (RFC 7296, section 1.2), and what an initiator makes
//! of an answer.
ghost use Rattle.std.specs.Prelude.{◌≡◌, Ok, false, IfOk, OnOk};
ghost use Rattle.exchange.specs.Counting.{only_auth, only_id_r};
ghost use Rattle.auth.specs.Answers.{auth_answer, is_accepted};
ghost use Rattle.wire.specs.Sizes.{FitsFields};
ghost use Rattle.auth.specs.Proofs.{auth_payload, names, proving_view, IsIdentity};
ghost use Rattle.auth.specs.Windows.{IsWindow};

use crate::proving::proved_identity;
use crate::window::push_window;
use crate::{Identity, Proving, is_proved};
use base::Items;
use exchange::{ChildAnswer, Role, only_auth, only_id_r};
use std::alloc::{AllocError, Global};
use suite::Proof;
use wire::Payload;

/// The payloads of the answer to a request that was accepted (RFC 7296, section 1.2): IDr and AUTH of this
/// end, what answers the Child SA, and, where its window (1 to 16 requests) is above 1, the notification that
/// tells it. The proof in it fits its payload. The only error is an allocation failure.
pub fn answer<C: Proof>(
    alloc: Global,
    caller: &C,
    own: &Identity,
    what: &Proving<'_>,
    child: ChildAnswer,
    window: u8,
) -> Result<Items<Payload>, AllocError>
    requires own { IsIdentity own.now }
    requires window { IsWindow window }
    ensures made { IfOk result (λ payloads. payloads ≡ auth_answer
        (C.own_method caller.now) (C.proof_of caller.now) own.now (proving_view what.now) child window) }
    ensures fits { OnOk result (FitsFields
        (auth_payload (C.own_method caller.now) (C.proof_of caller.now) own.now (proving_view what.now))) }
{
    let mut payloads = proved_identity(alloc, caller, Role::Responder, own, what)?;
    child.append_to(alloc, &mut payloads)?;
    push_window(alloc, &mut payloads, window)?;
    Ok(payloads)
}

/// Whether the sender of an answer with these payloads is the peer, and proved it (RFC 7296, section 2.15):
/// there is exactly one IDr, which is the peer's, and exactly one AUTH, by which it is proved
/// ([`is_proved`]). All else is passed over. That a critical payload is, too, is a rule of this
/// implementation against section 2.5, which has the initiator ignore such an answer.
///
/// The only error is an allocation failure, and none comes where an IDr or an AUTH is missing or there twice,
/// or another identity is named.
pub fn is_accepted<C: Proof>(
    alloc: Global,
    caller: &C,
    peer: &Identity,
    what: &Proving<'_>,
    payloads: &[Payload],
) -> Result<bool, AllocError>
    ensures accepted { IfOk result (λ accepted. accepted
        ≡ is_accepted (C.accepts caller.now) peer.now (proving_view what.now) payloads.now) }
    ensures early { names peer.now (only_id_r payloads.now) (only_auth payloads.now) ≡ false
        → result ≡ Ok false }
{
    let Some((kind, id)) = only_id_r(payloads) else {
        return Ok(false);
    };
    let Some((method, proof)) = only_auth(payloads) else {
        return Ok(false);
    };
    is_proved(alloc, caller, peer, what, kind, id, method, proof)
}
