//! The request for an additional Child SA.
ghost use Rattle.std.specs.Prelude.{◌≡◌, IfOk};
ghost use Rattle.exchange.specs.Sealed.{PAYLOADS_LIMIT};
ghost use Rattle.auth.specs.Fitting.{FitWithin};
ghost use Rattle.children.specs.Asking.{child_request};
ghost use Rattle.policy.specs.Narrowing.{IsSendableSelector};
ghost use Rattle.further.specs.Payloads.{further_payloads};

use crate::payloads::further_payloads;
use base::Items;
use children::Asked;
use children::laws::payloads_fit;
use std::alloc::{AllocError, Global};
use wire::Payload;

/// The payloads of a request for an additional Child SA (RFC 7296, section 1.3.1): SA, Nonce, TSi, TSr, with
/// what [`children::ask`] asks for, and this end's nonce of 32 octets, which is wanted again when the answer
/// comes (section 2.17). They can be sealed.
///
/// The caller gives selectors that a message can carry. The only error is an allocation failure.
pub fn ask(alloc: Global, asked: &Asked, nonce: &[u8; 32]) -> Result<Items<Payload>, AllocError>
    requires local { IsSendableSelector asked.now.local }
    requires remote { IsSendableSelector asked.now.remote }
    ensures payloads { IfOk result
        (λ payloads. payloads ≡ further_payloads (child_request asked.now) nonce.now) }
    ensures fits { IfOk result (FitWithin PAYLOADS_LIMIT) }
{
    payloads_fit();
    further_payloads(alloc, children::ask(alloc, asked)?, nonce)
}
