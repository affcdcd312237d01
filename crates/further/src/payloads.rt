//! The payloads that make an additional Child SA.
ghost use Rattle.std.specs.Prelude.{◌≡◌, IfOk};
ghost use Rattle.base.specs.Octets.{AreOctets};
ghost use Rattle.wire.specs.Sizes.{FitsFields};
ghost use Rattle.wire.specs.declared.payload.Payload.TheVariants.{Nonce};
ghost use Rattle.exchange.specs.Sealed.{PAYLOADS_LIMIT};
ghost use Rattle.auth.specs.Fitting.{FitWithin};
ghost use Rattle.children.specs.Asking.{FitMessages};
ghost use Rattle.further.specs.Payloads.{further_payloads};

use base::Items;
use exchange::ChildPayloads;
use std::alloc::{AllocError, Global};
use wire::Payload;

/// SA, Nonce, TSi and TSr (RFC 7296, section 1.3.1), by what a request or its answer says of the Child SA,
/// and its sender's nonce.
pub fn further_payloads(
    alloc: Global,
    child: ChildPayloads,
    nonce: &[u8; 32],
) -> Result<Items<Payload>, AllocError>
    requires { FitMessages child }
    ensures payloads { IfOk result (λ payloads. payloads ≡ further_payloads child nonce.now) }
    ensures fits { IfOk result (FitWithin PAYLOADS_LIMIT) }
{
    nonce_fits(nonce);
    let ChildPayloads {
        proposals,
        ts_i,
        ts_r,
    } = child;
    let mut payloads = Items::new(alloc);
    payloads.push(Payload::Sa(proposals))?;
    payloads.push(Payload::Nonce(Items::from_slice(alloc, nonce)?))?;
    payloads.push(Payload::TsI(ts_i))?;
    payloads.push(Payload::TsR(ts_r))?;
    Ok(payloads)
}

// Brings that 32 octets can be sent as a nonce (RFC 7296, section 3.9). Does nothing.
fn nonce_fits(nonce: &[u8; 32])
    ensures { FitsFields (Nonce nonce.now) }
{
    octets_fit(nonce);
}

// Brings what the type of octets says. Does nothing.
fn octets_fit(octets: &[u8])
    ensures { AreOctets octets.now }
{}
