//! Proposals that are offered, answered and accepted (RFC 7296, sections 2.7 and 3.3).
ghost use Rattle.std.specs.Prelude.{◌≡◌, ◌==◌, ◌++◌, ◌∷◌, [], List, ℕ, All, IfOk, IsTrue, ◌↔◌, MatchOption};
ghost use Rattle.std.specs.List.{list_all};
ghost use Rattle.wire.specs.declared.proposal.Proposal.{Proposal};
ghost use Rattle.wire.specs.declared.proposal.Transform.{Transform};
ghost use Rattle.suite.specs.Transforms.{ENCR};
ghost use Rattle.suite.specs.Choice.{kinds, key_length_attribute, wanted_protocol, without_attributes, HasSpi, IsAcceptableProposal, IsChosenProposal};
ghost use Rattle.suite.specs.Offers.{answer_of, count_of_kind, fixed_transforms, offer_of, AcceptsAnswer, IsAcceptableAnswer};

use crate::transforms::{
    AUTH_HMAC_SHA2_256_128, ENCR, ENCR_NULL, ESN, EXTENSION, GROUP, INTEG, KEY_LENGTH,
    NO_EXTENSION, PRF, PRF_HMAC_SHA2_256,
};
use crate::{Chosen, Wanted, choose};
use std::alloc::{AllocError, Global};
use wire::{Attribute, Items, Proposal, Transform};

// The number of the one proposal that an end offers (section 3.3.1).
const OFFERED: u8 = 1;

/// The one proposal that an end offers (RFC 7296, section 3.3), with its SPI: none for IKE, that of its
/// inbound SA for a Child SA. Where extended sequence numbers are wanted, they are offered before those of 32
/// bits. The only error is an allocation failure.
pub fn offer(alloc: Global, wanted: &Wanted, spi: &[u8]) -> Result<Proposal, AllocError>
    ensures { IfOk result (λ proposal. proposal ≡ offer_of wanted.now spi.now) }
{
    let mut transforms = fixed(alloc, wanted)?;
    if let Wanted::Esp { extended } = wanted {
        if *extended {
            transforms.push(plain(alloc, ESN, EXTENSION))?;
        }
        transforms.push(plain(alloc, ESN, NO_EXTENSION))?;
    }
    proposal(alloc, OFFERED, wanted, spi, transforms)
}

/// The proposal that answers a chosen one (RFC 7296, sections 2.7 and 3.3.1), with its number, this end's SPI
/// and one transform of each type. The only error is an allocation failure.
pub fn answer(
    alloc: Global,
    wanted: &Wanted,
    chosen: &Chosen,
    spi: &[u8],
) -> Result<Proposal, AllocError>
    ensures { IfOk result (λ proposal. proposal ≡ answer_of wanted.now chosen.now spi.now) }
{
    let mut transforms = fixed(alloc, wanted)?;
    if let Wanted::Esp { .. } = wanted {
        let numbers = if chosen.extended {
            EXTENSION
        } else {
            NO_EXTENSION
        };
        transforms.push(plain(alloc, ESN, numbers))?;
    }
    proposal(alloc, chosen.number, wanted, spi, transforms)
}

/// What an answer to this end's offer chose (RFC 7296, section 2.7), `None` where it is none: it has one
/// proposal, of number 1, with an SPI of the protocol's form, one acceptable transform of each type and no
/// other. Takes no memory.
pub fn accept(proposals: &[Proposal], wanted: &Wanted) -> Option<Chosen>
    ensures { MatchOption result
        ((proposal : Proposal) → proposals.now ≡ proposal ∷ [] → ¬ IsAcceptableAnswer wanted.now proposal)
        (AcceptsAnswer wanted.now proposals.now) }
{
    match proposals {
        [proposal] if is_first(proposal, wanted) => choose(proposals, wanted),
        _ => None,
    }
}

// Whether the proposal has number 1 and one transform of each type.
fn is_first(proposal: &Proposal, wanted: &Wanted) -> bool
    ensures { IsTrue result ↔ ((proposal.now.number ≡ 1)
        × All (λ kind. count_of_kind proposal.now.transforms kind ≡ 1) (kinds wanted.now)) }
{
    proposal.number == OFFERED && has_one_each(proposal.transforms.as_slice(), wanted.kinds())
}

fn has_one_each(transforms: &[Transform], kinds: &[u8]) -> bool
    ensures { result ≡ list_all (λ kind. count_of_kind transforms.now kind == 1) kinds.now }
{
    for kind in kinds {
        if count_of_kind(transforms, *kind) != 1 {
            return false;
        }
    }
    true
}

fn count_of_kind(transforms: &[Transform], kind: u8) -> usize
    ensures { result ≡ count_of_kind transforms.now kind }
{
    let mut count = 0;
    for transform in transforms {
        if transform.kind == kind {
            count += 1;
        }
    }
    count
}

fn proposal(
    alloc: Global,
    number: u8,
    wanted: &Wanted,
    spi: &[u8],
    transforms: Items<Transform>,
) -> Result<Proposal, AllocError>
    ensures { IfOk result (λ proposal. proposal ≡ record {
      number = number;
      protocol = wanted_protocol wanted.now;
      spi = spi.now;
      transforms = transforms;
    }) }
{
    Ok(Proposal {
        number,
        protocol: wanted.protocol(),
        spi: Items::from_slice(alloc, spi)?,
        transforms,
    })
}

// The transforms of each type of which one alone is acceptable.
fn fixed(alloc: Global, wanted: &Wanted) -> Result<Items<Transform>, AllocError>
    ensures { IfOk result (λ transforms. transforms ≡ fixed_transforms wanted.now) }
{
    let mut transforms = Items::new(alloc);
    match wanted {
        Wanted::Ike {
            encr,
            key_length,
            group,
        } => {
            transforms.push(cipher(alloc, *encr, *key_length)?)?;
            transforms.push(plain(alloc, PRF, PRF_HMAC_SHA2_256))?;
            transforms.push(plain(alloc, INTEG, AUTH_HMAC_SHA2_256_128))?;
            transforms.push(plain(alloc, GROUP, *group))?;
        }
        Wanted::Esp { .. } => {
            transforms.push(plain(alloc, ENCR, ENCR_NULL))?;
            transforms.push(plain(alloc, INTEG, AUTH_HMAC_SHA2_256_128))?;
        }
    }
    Ok(transforms)
}

fn cipher(alloc: Global, id: u16, key_length: Option<u16>) -> Result<Transform, AllocError>
    ensures { IfOk result (λ transform. transform ≡ record {
      kind = ENCR;
      id = id;
      attributes = key_length_attribute key_length;
    }) }
{
    let mut attributes = Items::new(alloc);
    if let Some(bits) = key_length {
        attributes.push(Attribute::Short {
            kind: KEY_LENGTH,
            value: bits,
        })?;
    }
    Ok(Transform {
        kind: ENCR,
        id,
        attributes,
    })
}

fn plain(alloc: Global, kind: u8, id: u16) -> Transform
    ensures { result ≡ without_attributes kind id }
{
    Transform {
        kind,
        id,
        attributes: Items::new(alloc),
    }
}
