//! The choice of a proposal (RFC 7296, sections 2.7 and 3.3).
ghost use Rattle.std.specs.Prelude.{◌≡◌, ℕ, IsTrue, ◌↔◌, All, Any, Contains, MatchOption};

use crate::transforms::{
    AUTH_HMAC_SHA2_256_128, ENCR, ENCR_NULL, ESN, ESP, EXTENSION, FIRST_SPI, GROUP, IKE, INTEG,
    KEY_LENGTH, NO_EXTENSION, PRF, PRF_HMAC_SHA2_256,
};
use crate::{Agreement, Sealer};
use byteorder::{BigEndian, ByteOrder};
use wire::{Attribute, Proposal, Transform};

/// What a proposal is to be for.
#[derive(Clone, Copy, Debug, PartialEq, Eq)]
pub enum Wanted {
    /// An IKE SA with the caller's cipher, its key length in bits where there is to be one, and the caller's
    /// group. The other transforms are PRF_HMAC_SHA2_256 and AUTH_HMAC_SHA2_256_128.
    Ike {
        encr: u16,
        key_length: Option<u16>,
        group: u16,
    },
    /// A Child SA with ENCR_NULL and AUTH_HMAC_SHA2_256_128, with extended sequence numbers or without; with
    /// them only where `extended` allows it.
    Esp {
        extended: bool,
    },
}

/// A proposal that was chosen.
#[derive(Clone, Copy, Debug, PartialEq, Eq)]
pub struct Chosen {
    /// Its place among the proposals, from 0.
    pub place: usize,
    /// Its own number, which the answer keeps (section 3.3.1).
    pub number: u8,
    /// Whether sequence numbers are extended; never for IKE.
    pub extended: bool,
}

const IKE_KINDS: [u8; 4] = [ENCR, PRF, INTEG, GROUP];

const ESP_KINDS: [u8; 3] = [ENCR, INTEG, ESN];

ghost use Rattle.suite.specs.Choice.{acceptable_transforms, key_length_attribute, kinds, wanted_protocol, without_attributes, ChoosesNumbers, HasSpi, IsAcceptableProposal, IsAcceptableTransform, IsChosenProposal, IsFirstAcceptable};

impl Wanted {
    /// What an IKE SA is to have by a caller's traits: its cipher and its group.
    pub fn ike<C: Sealer + Agreement>(caller: &C) -> Wanted
        ensures { result ≡ Wanted.Ike C.cipher.id C.cipher.key_length C.group_number }
    {
        let cipher = caller.transform();
        Wanted::Ike {
            encr: cipher.id,
            key_length: cipher.key_length,
            group: caller.group(),
        }
    }

    /// The protocol that a proposal is for (RFC 7296, section 3.3.1).
    pub fn protocol(&self) -> u8
        ensures { result ≡ wanted_protocol self.now }
    {
        match self {
            Wanted::Ike { .. } => IKE,
            Wanted::Esp { .. } => ESP,
        }
    }

    /// The types of transforms that a proposal has, one or more of each and no other (RFC 7296, section
    /// 3.3.3).
    pub fn kinds(&self) -> &'static [u8]
        ensures { result.now ≡ kinds self.now }
    {
        match self {
            Wanted::Ike { .. } => &IKE_KINDS,
            Wanted::Esp { .. } => &ESP_KINDS,
        }
    }

    fn allows_spi(&self, spi: &[u8]) -> bool
        ensures { IsTrue result ↔ HasSpi self.now spi.now }
    {
        match self {
            Wanted::Ike { .. } => spi.is_empty(),
            Wanted::Esp { .. } => spi.len() == 4 && BigEndian::read_u32(spi) >= FIRST_SPI,
        }
    }

    // Whether a transform is acceptable, whichever type it has.
    fn allows(&self, transform: &Transform) -> bool
        ensures { IsTrue result ↔ Contains (acceptable_transforms self.now) transform.now }
    {
        match self {
            Wanted::Ike {
                encr,
                key_length,
                group,
            } => match transform.kind {
                ENCR => transform.id == *encr && has_key_length(transform, *key_length),
                PRF => is_plain(transform, PRF_HMAC_SHA2_256),
                INTEG => is_plain(transform, AUTH_HMAC_SHA2_256_128),
                GROUP => is_plain(transform, *group),
                _ => false,
            },
            Wanted::Esp { extended } => match transform.kind {
                ENCR => is_plain(transform, ENCR_NULL),
                INTEG => is_plain(transform, AUTH_HMAC_SHA2_256_128),
                ESN => is_plain(transform, NO_EXTENSION)
                    || (*extended && is_plain(transform, EXTENSION)),
                _ => false,
            },
        }
    }
}

/// The first acceptable proposal, `None` where there is none (RFC 7296, sections 2.7 and 3.3). Takes no
/// memory.
///
/// A proposal is acceptable if it is for the wanted protocol, its SPI has the protocol's form (none for
/// IKE; for ESP 4 octets, from 256 on), and it has an acceptable transform of each type that the protocol
/// wants and no transform of another type. A transform with another attribute than the wanted key length is
/// not acceptable.
pub fn choose(proposals: &[Proposal], wanted: &Wanted) -> Option<Chosen>
    ensures { MatchOption result
        (All (λ proposal. ¬ IsAcceptableProposal wanted.now proposal) proposals.now)
        (IsChosenProposal wanted.now proposals.now) }
{
    for (place, proposal) in proposals.iter().enumerate() {
        if is_acceptable(proposal, wanted) {
            return Some(Chosen {
                place,
                number: proposal.number,
                extended: takes_extension(proposal.transforms.as_slice(), wanted),
            });
        }
    }
    None
}

fn is_acceptable(proposal: &Proposal, wanted: &Wanted) -> bool
    ensures { IsTrue result ↔ IsAcceptableProposal wanted.now proposal.now }
{
    has_protocol(proposal, wanted) && has_transforms(proposal.transforms.as_slice(), wanted)
}

// Whether the proposal is for the wanted protocol, with an SPI of its form.
fn has_protocol(proposal: &Proposal, wanted: &Wanted) -> bool
    ensures { IsTrue result
        ↔ ((proposal.now.protocol ≡ wanted_protocol wanted.now) × HasSpi wanted.now proposal.now.spi) }
{
    proposal.protocol == wanted.protocol() && wanted.allows_spi(proposal.spi.as_slice())
}

// Whether there is an acceptable transform of each wanted type, and none of another type.
fn has_transforms(transforms: &[Transform], wanted: &Wanted) -> bool
    ensures { IsTrue result
        ↔ (All (λ transform. Contains (kinds wanted.now) transform.kind) transforms.now
        × All (λ kind. Any (IsAcceptableTransform wanted.now kind) transforms.now) (kinds wanted.now)) }
{
    has_no_other(transforms, wanted.kinds()) && has_each(transforms, wanted)
}

// Whether each transform has one of these types.
fn has_no_other(transforms: &[Transform], kinds: &[u8]) -> bool
    ensures { IsTrue result ↔ All (λ transform. Contains kinds.now transform.kind) transforms.now }
{
    for transform in transforms {
        if !is_among(kinds, transform.kind) {
            return false;
        }
    }
    true
}

fn is_among(kinds: &[u8], kind: u8) -> bool
    ensures { IsTrue result ↔ Contains kinds.now kind }
{
    kinds.contains(&kind)
}

// Whether there is an acceptable transform of each wanted type.
fn has_each(transforms: &[Transform], wanted: &Wanted) -> bool
    ensures { IsTrue result
        ↔ All (λ kind. Any (IsAcceptableTransform wanted.now kind) transforms.now) (kinds wanted.now) }
{
    for kind in wanted.kinds() {
        if first_acceptable(transforms, wanted, *kind).is_none() {
            return false;
        }
    }
    true
}

// The first acceptable transform of a type.
fn first_acceptable<'a>(
    transforms: &'a [Transform],
    wanted: &Wanted,
    kind: u8,
) -> Option<&'a Transform>
    ensures { MatchOption result
        (Any (IsAcceptableTransform wanted.now kind) transforms.now → ⊥)
        (λ found. IsFirstAcceptable wanted.now kind transforms.now found.now) }
{
    for transform in transforms {
        if transform.kind == kind && wanted.allows(transform) {
            return Some(transform);
        }
    }
    None
}

// Whether sequence numbers are extended: the first acceptable transform for them decides. IKE has none.
fn takes_extension(transforms: &[Transform], wanted: &Wanted) -> bool
    requires { All (λ kind. Any (IsAcceptableTransform wanted.now kind) transforms.now) (kinds wanted.now) }
    ensures { ChoosesNumbers wanted.now transforms.now result }
{
    match first_acceptable(transforms, wanted, ESN) {
        Some(transform) => transform.id == EXTENSION,
        None => false,
    }
}

// Whether the transform has this ID and no attribute.
fn is_plain(transform: &Transform, id: u16) -> bool
    ensures { IsTrue result ↔ (transform.now ≡ without_attributes transform.now.kind id) }
{
    transform.id == id && transform.attributes.is_empty()
}

// Whether the transform's one attribute is this key length, or, where there is to be none, it has no
// attribute.
fn has_key_length(transform: &Transform, key_length: Option<u16>) -> bool
    ensures { IsTrue result ↔ (transform.now.attributes ≡ key_length_attribute key_length) }
{
    match (key_length, transform.attributes.as_slice()) {
        (None, []) => true,
        (Some(bits), [attribute]) => is_key_length(attribute, bits),
        _ => false,
    }
}

fn is_key_length(attribute: &Attribute, bits: u16) -> bool
    ensures { IsTrue result ↔ (attribute.now ≡ Attribute.Short KEY_LENGTH bits) }
{
    match attribute {
        Attribute::Short { kind, value } => *kind == KEY_LENGTH && *value == bits,
        Attribute::Long { .. } => false,
    }
}
