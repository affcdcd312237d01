//! The sizes of payloads in octets (RFC 7296 section 3).
ghost use Rattle.std.specs.Prelude.{◌≡◌};
ghost use Rattle.std.specs.List.{sum_by};
ghost use Rattle.wire.specs.Sizes.{attribute_size, transform_size, proposal_size, selector_size, body_size, size_of, usize_of};

use crate::numbers::{IPV4_RANGE_LENGTH, IPV6_RANGE_LENGTH, SPI_LENGTH};
use crate::payload::Payload;
use crate::proposal::{Attribute, Proposal, Transform};
use base::{Range, Selector};

fn attribute_size(attribute: &Attribute) -> usize
    ensures { result ≡ usize_of (attribute_size attribute.now) }
{
    match attribute {
        Attribute::Short { .. } => 4,
        Attribute::Long { value, .. } => value.len().saturating_add(4),
    }
}

fn attributes_size(attributes: &[Attribute]) -> usize
    ensures { result ≡ usize_of (sum_by attribute_size attributes.now) }
{
    let mut size = 0usize;
    for attribute in attributes {
        size = size.saturating_add(attribute_size(attribute));
    }
    size
}

fn transforms_size(transforms: &[Transform]) -> usize
    ensures { result ≡ usize_of (sum_by transform_size transforms.now) }
{
    let mut size = 0usize;
    for transform in transforms {
        let attributes = attributes_size(transform.attributes.as_slice());
        size = size.saturating_add(attributes.saturating_add(8));
    }
    size
}

fn proposals_size(proposals: &[Proposal]) -> usize
    ensures { result ≡ usize_of (sum_by proposal_size proposals.now) }
{
    let mut size = 0usize;
    for proposal in proposals {
        let transforms = transforms_size(proposal.transforms.as_slice());
        size = size.saturating_add(
            transforms
                .saturating_add(proposal.spi.len())
                .saturating_add(8),
        );
    }
    size
}

fn selectors_size(selectors: &[Selector]) -> usize
    ensures { result ≡ usize_of (sum_by selector_size selectors.now) }
{
    let mut size = 0usize;
    for selector in selectors {
        let length = match selector.addresses {
            Range::V4(_, _) => IPV4_RANGE_LENGTH,
            Range::V6(_, _) => IPV6_RANGE_LENGTH,
        };
        size = size.saturating_add(length);
    }
    size
}

fn body_size(payload: &Payload) -> usize
    ensures { result ≡ usize_of (body_size payload.now) }
{
    match payload {
        Payload::Sa(proposals) => proposals_size(proposals.as_slice()),
        Payload::Ke { data, .. }
        | Payload::IdI { data, .. }
        | Payload::IdR { data, .. }
        | Payload::Auth { data, .. } => data.len().saturating_add(4),
        Payload::Nonce(data) => data.len(),
        Payload::Notify { spi, data, .. } => spi.len().saturating_add(data.len()).saturating_add(4),
        Payload::Delete { spis, .. } => spis.len().saturating_mul(SPI_LENGTH).saturating_add(4),
        Payload::TsI(selectors) | Payload::TsR(selectors) => {
            selectors_size(selectors.as_slice()).saturating_add(4)
        }
        Payload::Sealed { body, .. } => body.len(),
        Payload::Skipped { data, .. } | Payload::Unknown { data, .. } => data.len(),
    }
}

impl Payload {
    /// How many octets the payload has with its header, or the greatest `usize` where that is less. In a
    /// decoded message it has at most 2972.
    pub fn size(&self) -> usize
        ensures { result ≡ usize_of (size_of self.now) }
    {
        body_size(self).saturating_add(4)
    }
}
