//! What answers a request.
ghost use Rattle.std.specs.Prelude.{◌≡◌, ◌≤◌, [], ◌∷◌, IfOk, length};
ghost use Rattle.exchange.specs.Notices.{payload_of_notice};
ghost use Rattle.deletions.specs.Asking.{CanBeSent};
ghost use Rattle.deletions.specs.Naming.{named_limit};
ghost use Rattle.deletions.specs.Answering.{deletion_if_any, payloads_of_verdict, FewAreNamed};

use crate::Verdict;
use crate::payloads::{esp_deletion, lone};
use base::Items;
use exchange::Notice;
use exchange::laws::notices_fit;
use std::alloc::{AllocError, Global};
use wire::Payload;

/// The payloads of the answer to a request of INFORMATIONAL (RFC 7296, sections 1.4.1, 2.5 and 2.21.3). They
/// are the Notify payload INVALID_SYNTAX, the Notify payload UNSUPPORTED_CRITICAL_PAYLOAD with the payload's
/// type, or one Delete of ESP that names the SPIs under which this end received by the SA pairs that go.
/// There are none where the IKE SA is closed or no pair goes.
///
/// Where at most 512 pairs go, as after [`decide`](crate::decide), they fit a message that is sealed. The
/// only error is an allocation failure.
pub fn answer_payloads(alloc: Global, verdict: &Verdict) -> Result<Items<Payload>, AllocError>
    ensures payloads { IfOk result (λ payloads. payloads ≡ payloads_of_verdict verdict.now) }
    ensures fits { IfOk result (λ payloads. FewAreNamed verdict.now → CanBeSent payloads) }
{
    match verdict {
        Verdict::BadSyntax => lone_notice(alloc, Notice::InvalidSyntax),
        Verdict::Unsupported { kind } => {
            lone_notice(alloc, Notice::UnsupportedCriticalPayload { kind: *kind })
        }
        Verdict::Closes => Ok(Items::new(alloc)),
        Verdict::Deletes(deleted) => deletion_if_any(alloc, deleted.inbound_spis.as_slice()),
    }
}

fn lone_notice(alloc: Global, notice: Notice) -> Result<Items<Payload>, AllocError>
    ensures payloads { IfOk result (λ payloads. payloads ≡ payload_of_notice notice ∷ []) }
    ensures fits { IfOk result CanBeSent }
{
    notices_fit();
    notice.fits();
    lone(alloc, notice.payload(alloc)?)
}

fn deletion_if_any(alloc: Global, spis: &[u32]) -> Result<Items<Payload>, AllocError>
    ensures payloads { IfOk result (λ payloads. payloads ≡ deletion_if_any spis.now) }
    ensures fits { IfOk result (λ payloads. length spis.now ≤ named_limit → CanBeSent payloads) }
{
    if spis.is_empty() {
        return Ok(Items::new(alloc));
    }
    esp_deletion(alloc, spis)
}
