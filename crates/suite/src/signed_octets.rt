//! The octets that an end proves (RFC 7296, section 2.15).
ghost use Rattle.std.specs.Prelude.{◌≡◌, ◌++◌, OnOk, OnErr};
ghost use Rattle.suite.specs.SignedOctets.{proved_octets};

use crate::SuiteFault;
use mac::hmac;

/// Appends to `out` what an end proves of itself (RFC 7296, section 2.15): its first message, the other
/// end's nonce, and the keyed hash of its identity under its SK_p. `kind` is the type of the identity and
/// `id` its data; between them the hash covers three octets of zeros.
///
/// [`SuiteFault::Memory`] leaves `out` as it was.
pub fn proof_octets(
    first: &[u8],
    nonce: &[u8],
    sk_p: &[u8; 32],
    kind: u8,
    id: &[u8],
    out: &mut Vec<u8>,
) -> Result<(), SuiteFault>
    ensures appended { OnOk result
        (out.new.items ≡ out.old.items ++ proved_octets first.now nonce.now sk_p.now kind id.now) }
    ensures refused { OnErr result (out.new.items ≡ out.old.items) }
{
    let identity = hmac(sk_p, &[&[kind, 0, 0, 0], id]);
    let start = out.len();
    for part in [first, nonce, &identity] {
        if out.extend_from_slice(part).is_err() {
            out.truncate(start);
            return Err(SuiteFault::Memory);
        }
    }
    Ok(())
}
