//! The key agreement: the exclusive or of two secrets (RFC 7296 section 2.14).
ghost use Rattle.std.specs.Prelude.{◌≡◌, length};
ghost use Rattle.caller_script.specs.Meaning.{exclusive_or};
ghost use Rattle.caller_script.specs.MeaningLaws.{public_fits, symmetric};

use crate::ScriptCaller;
use base::Items;
use std::alloc::{AllocError, Global};
use suite::Agreement;

// Its group's number, of those for private use (RFC 7296 section 3.3.2).
const GROUP: u16 = 65002;

impl Agreement for ScriptCaller {
    ghost use Rattle.caller_script.specs.Meaning.{common_secret, script_group, script_public};

    ghost group_number = { script_group };

    ghost public_value = { script_public };

    ghost shared_secret = { common_secret };

    fn group(&self) -> u16 {
        GROUP
    }

    fn public(&self, alloc: Global, secret: &[u8; 32]) -> Result<Items<u8>, AllocError> {
        Items::from_slice(alloc, secret)
    }

    #[tactic(auto, unfolding(crate::specs::Meaning::common_secret))]
    fn shared(
        &self,
        alloc: Global,
        secret: &[u8; 32],
        other: &[u8],
    ) -> Result<Option<Items<u8>>, AllocError> {
        if other.len() != 32 {
            return Ok(None);
        }
        let shared = exclusive_or(secret, other);
        Ok(Some(Items::from_slice(alloc, &shared)?))
    }

    ghost symmetric = { symmetric };

    ghost public_fits = { public_fits };
}

// Octet by octet.
fn exclusive_or(a: &[u8; 32], b: &[u8]) -> [u8; 32]
    requires { length b.now ≡ 32 }
    ensures { result ≡ exclusive_or a.now b.now }
{
    let mut both = [0; 32];
    for k in 0..32 {
        both[k] = a[k] ^ b[k];
    }
    both
}
