//! The answer to a request for an additional Child SA.
ghost use Rattle.std.specs.Prelude.{◌≡◌, IfOk};
ghost use Rattle.exchange.specs.Sealed.{PAYLOADS_LIMIT};
ghost use Rattle.auth.specs.Fitting.{FitWithin};
ghost use Rattle.further.specs.Answering.{further_answer, FitsAnswer};

use crate::payloads::further_payloads;
use base::Items;
use exchange::ChildAnswer;
use exchange::laws::notices_fit;
use std::alloc::{AllocError, Global};
use wire::Payload;

/// The payloads of the answer to a request for an additional Child SA (RFC 7296, section 1.3.1): SA, Nonce,
/// TSi, TSr, with the nonce by which [`decide`](crate::decide) made the child, the step's fresh one; or one
/// Notify payload. They can be sealed.
///
/// The caller gives an answer that can be sent, as [`Decision::into_parts`](crate::Decision::into_parts)
/// does. The only error is an allocation failure.
pub fn answer_payloads(
    alloc: Global,
    answer: ChildAnswer,
    nonce: &[u8; 32],
) -> Result<Items<Payload>, AllocError>
    requires { FitsAnswer answer }
    ensures payloads { IfOk result (λ payloads. payloads ≡ further_answer answer nonce.now) }
    ensures fits { IfOk result (FitWithin PAYLOADS_LIMIT) }
{
    match answer {
        ChildAnswer::Payloads(child) => further_payloads(alloc, child, nonce),
        ChildAnswer::Notice(notice) => {
            notices_fit();
            let mut payloads = Items::new(alloc);
            payloads.push(notice.payload(alloc)?)?;
            Ok(payloads)
        }
    }
}
