//! The payloads that request and response have (RFC 7296, section 1.2).
ghost use Rattle.std.specs.Prelude.{MatchOption};
ghost use Rattle.sa_init.specs.Parts.{parts_view, HasParts, PartsView};

use exchange::{only_ke, only_nonce, only_sa};
use wire::{Payload, Proposal};

/// The content of the one SA, the one KE and the one Nonce.
#[derive(Clone, Copy)]
pub struct Parts<'a> {
    pub proposals: &'a [Proposal],
    pub group: u16,
    pub public: &'a [u8],
    pub nonce: &'a [u8],
}

/// The parts of a message, `None` where one is missing or stands there twice.
pub fn parts_of(payloads: &[Payload]) -> Option<Parts<'_>>
    ensures { MatchOption result
        ((parts : PartsView) → ¬ HasParts payloads.now parts)
        (λ parts. HasParts payloads.now (parts_view parts)) }
{
    let proposals = only_sa(payloads)?;
    let (group, public) = only_ke(payloads)?;
    let nonce = only_nonce(payloads)?;
    Some(Parts {
        proposals,
        group,
        public,
        nonce,
    })
}
