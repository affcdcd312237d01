//! Proofs of identity (RFC 7296, sections 2.15 and 3.8).
ghost use Rattle.std.specs.Prelude.{◌≡◌, Ok, false, IfOk, OnOk};
ghost use Rattle.base.specs.Octets.{AreOctets};
ghost use Rattle.wire.specs.Sizes.{FitsFields};
ghost use Rattle.wire.specs.declared.payload.Payload.TheVariants.{Auth};
ghost use Rattle.auth.specs.Proofs.{auth_payload, id_payload, is_identity, is_proved, octets_to_prove};
ghost use Rattle.auth.specs.Proofs.{proved_identity, proving_of, proving_view};

use crate::Identity;
use base::Items;
use exchange::Role;
use std::alloc::{AllocError, Global};
use suite::{KeyRecord, Proof, proof_octets};
use wire::Payload;

/// What goes into an end's proof beside its identity (RFC 7296, section 2.15).
#[derive(Clone, Copy)]
pub struct Proving<'a> {
    /// The end's first message, of IKE_SA_INIT: of an initiator that was asked for a cookie, the one that
    /// brings it.
    pub first: &'a [u8],
    /// The other end's nonce.
    pub nonce: &'a [u8],
    /// The end's key SK_p (section 2.14).
    pub sk_p: &'a [u8; 32],
}

impl<'a> Proving<'a> {
    /// What the end of this role in IKE_SA_INIT proves over (RFC 7296, section 2.15), with the keys of the
    /// IKE SA and the first message that this end sent: an initiator over the responder's nonce, with SK_pi,
    /// a responder over the initiator's, with SK_pr.
    pub fn of(role: Role, keys: &'a KeyRecord, first: &'a [u8]) -> Proving<'a>
        ensures { proving_view result ≡ proving_of role keys.now first.now }
    {
        match role {
            Role::Initiator => Proving {
                first,
                nonce: keys.nonce_r.as_slice(),
                sk_p: &keys.sk_pi,
            },
            Role::Responder => Proving {
                first,
                nonce: keys.nonce_i.as_slice(),
                sk_p: &keys.sk_pr,
            },
        }
    }
}

// The ID and AUTH payloads, with which the message of an end of this role begins.
pub(crate) fn proved_identity<C: Proof>(
    alloc: Global,
    caller: &C,
    role: Role,
    own: &Identity,
    what: &Proving<'_>,
) -> Result<Items<Payload>, AllocError>
    ensures made { IfOk result (λ payloads. payloads ≡ proved_identity role
        (C.own_method caller.now) (C.proof_of caller.now) own.now (proving_view what.now)) }
    ensures fits { OnOk result (FitsFields
        (auth_payload (C.own_method caller.now) (C.proof_of caller.now) own.now (proving_view what.now))) }
{
    let mut payloads = Items::new(alloc);
    payloads.push(id_payload(alloc, role, own)?)?;
    payloads.push(prove(alloc, caller, own, what)?)?;
    Ok(payloads)
}

fn id_payload(alloc: Global, role: Role, own: &Identity) -> Result<Payload, AllocError>
    ensures { IfOk result (λ payload. payload ≡ id_payload role own.now) }
{
    let kind = own.kind;
    let data = Items::from_slice(alloc, own.data.as_slice())?;
    Ok(match role {
        Role::Initiator => Payload::IdI { kind, data },
        Role::Responder => Payload::IdR { kind, data },
    })
}

/// The AUTH payload by which an end of this identity proves itself (RFC 7296, section 3.8). The only error is
/// an allocation failure.
pub fn prove<C: Proof>(
    alloc: Global,
    caller: &C,
    identity: &Identity,
    what: &Proving<'_>,
) -> Result<Payload, AllocError>
    ensures made { IfOk result (λ payload. payload
        ≡ auth_payload (C.own_method caller.now) (C.proof_of caller.now)
        identity.now (proving_view what.now)) }
    ensures fits { IfOk result FitsFields }
{
    let octets = octets_to_prove(alloc, identity, what)?;
    auth_over(alloc, caller, &octets)
}

// The AUTH payload over octets. By the law of the caller's trait its proof fits.
fn auth_over<C: Proof>(alloc: Global, caller: &C, octets: &[u8]) -> Result<Payload, AllocError>
    ensures made { IfOk result (λ payload. payload
        ≡ Auth (C.own_method caller.now) (C.proof_of caller.now octets.now)) }
    ensures fits { IfOk result FitsFields }
{
    let proof = caller.prove(alloc, octets)?;
    let method = caller.method();
    are_octets(proof.as_slice());
    Ok(Payload::Auth {
        method,
        data: proof,
    })
}

// Tells of the items of a slice what their type does. Does nothing.
pub(crate) fn are_octets(octets: &[u8])
    ensures { AreOctets octets.now }
{
    let _ = octets;
}

/// Whether the identity that is named is the peer's, by its type and its data, and the caller accepts of it
/// the AUTH payload's method and data, `proof`, over what the peer has to prove (RFC 7296, section 2.15). The
/// only error is an allocation failure, and none comes where another identity is named.
pub fn is_proved<C: Proof>(
    alloc: Global,
    caller: &C,
    peer: &Identity,
    what: &Proving<'_>,
    kind: u8,
    id: &[u8],
    method: u8,
    proof: &[u8],
) -> Result<bool, AllocError>
    ensures proved { IfOk result (λ proved. proved
        ≡ is_proved (C.accepts caller.now) peer.now (proving_view what.now) kind id.now method proof.now) }
    ensures early { is_identity peer.now kind id.now ≡ false → result ≡ Ok false }
{
    if !peer.is(kind, id) {
        return Ok(false);
    }
    let octets = octets_to_prove(alloc, peer, what)?;
    caller.check(alloc, kind, id, method, &octets, proof)
}

// What an end of this identity proves.
fn octets_to_prove(
    alloc: Global,
    identity: &Identity,
    what: &Proving<'_>,
) -> Result<Vec<u8>, AllocError>
    ensures { IfOk result (λ octets. octets.items ≡ octets_to_prove (proving_view what.now) identity.now) }
{
    let mut octets = Vec::new(alloc);
    let id = identity.data.as_slice();
    if proof_octets(
        what.first,
        what.nonce,
        what.sk_p,
        identity.kind,
        id,
        &mut octets,
    )
    .is_err()
    {
        return Err(AllocError);
    }
    Ok(octets)
}
