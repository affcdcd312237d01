//! The key agreement in the 2048-bit MODP group (RFC 7296, sections 2.14 and 3.4).
ghost use Rattle.std.specs.Prelude.{◌≡◌, None, Ok, IfOk};
ghost use Rattle.caller_peer.specs.Groups.{shared_of};
ghost use Rattle.caller_peer.specs.OtherLaws.{public_fits, symmetric};

use crate::PeerCaller;
use base::Items;
use modp::Element;
use std::alloc::{AllocError, Global};
use suite::Agreement;

// The group's number (RFC 3526, section 3).
const GROUP: u16 = 14;

/// A public value is refused that has not 256 octets or spells no number below the prime, and so is a
/// shared secret of 0, 1 or the prime less 1: so is each public value whose every power is one of these
/// (RFC 6989, section 2.1), and a secret of 0.
impl Agreement for PeerCaller {
    ghost use Rattle.caller_peer.specs.Groups.{group_14, public_of, shared_of};

    ghost group_number = { group_14 };

    ghost public_value = { public_of };

    ghost shared_secret = { shared_of };

    fn group(&self) -> u16 {
        GROUP
    }

    #[tactic(auto, unfolding(crate::specs::Groups::public_of))]
    fn public(&self, alloc: Global, secret: &[u8; 32]) -> Result<Items<u8>, AllocError> {
        Items::from_slice(alloc, &Element::generator().power(secret).to_octets())
    }

    #[tactic(auto, unfolding(crate::specs::Groups::shared_of, crate::specs::Groups::shared_by, crate::specs::Groups::secret_of))]
    fn shared(
        &self,
        alloc: Global,
        secret: &[u8; 32],
        other: &[u8],
    ) -> Result<Option<Items<u8>>, AllocError>
        ensures answered { IfOk result (λ shared. shared ≡ shared_of secret.now other.now) }
        ensures refused { shared_of secret.now other.now ≡ None → result ≡ Ok None }
    {
        let Some(other) = Element::from_octets(other) else {
            return Ok(None);
        };
        let shared = other.power(secret);
        if shared.is_trivial() {
            return Ok(None);
        }
        Ok(Some(Items::from_slice(alloc, &shared.to_octets())?))
    }

    ghost symmetric = { symmetric };

    ghost public_fits = { public_fits };
}
