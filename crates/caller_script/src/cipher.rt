//! The cipher: it hides nothing, and authenticates head and body (RFC 7296 section 3.14).
ghost use Rattle.std.specs.Prelude.{◌≡◌};
ghost use Rattle.caller_script.specs.Meaning.{tail_of};
ghost use Rattle.caller_script.specs.MeaningLaws.{body_length, body_opens, sizes};

use crate::ScriptCaller;
use mac::icv;
use std::alloc::AllocError;
use suite::{Cipher, Keys, Sealer};

// Its transform's ID, of those for private use (RFC 7296 section 3.3.2).
const CIPHER: u16 = 65001;

// The octets that a body has behind its plain text.
const TAIL: usize = 17;

impl Sealer for ScriptCaller {
    ghost use Rattle.caller_script.specs.Meaning.{script_body, script_cipher, script_plain, script_size};

    ghost cipher = { script_cipher };

    ghost sealed_size = { script_size };

    ghost body_of = { script_body };

    ghost plain_of = { script_plain };

    fn transform(&self) -> Cipher {
        Cipher {
            id: CIPHER,
            key_length: None,
        }
    }

    fn sealed_len(&self, plain: usize) -> usize {
        plain + TAIL
    }

    #[tactic(auto, unfolding(crate::specs::Meaning::script_body))]
    fn seal(
        &self,
        keys: &Keys,
        head: &[u8],
        plain: &[u8],
        _fresh: &[u8; 16],
        out: &mut Vec<u8>,
    ) -> Result<(), AllocError> {
        let tail = tail_of(keys, head, plain);
        let start = out.len();
        for part in [plain, &tail] {
            if out.extend_from_slice(part).is_err() {
                out.truncate(start);
                return Err(AllocError);
            }
        }
        Ok(())
    }

    #[tactic(auto, unfolding(crate::specs::Meaning::script_plain))]
    fn open(
        &self,
        keys: &Keys,
        head: &[u8],
        body: &[u8],
        out: &mut Vec<u8>,
    ) -> Result<bool, AllocError> {
        if body.len() < TAIL {
            return Ok(false);
        }
        let (plain, tail) = body.split_at(body.len() - TAIL);
        if tail != tail_of(keys, head, plain).as_slice() {
            return Ok(false);
        }
        out.extend_from_slice(plain)?;
        Ok(true)
    }

    ghost opens_again = { body_opens };

    ghost length_told = { body_length };

    ghost size_bounded = { sizes };
}

// An octet 00, and the ICV over head, plain text and that octet.
fn tail_of(keys: &Keys, head: &[u8], plain: &[u8]) -> [u8; TAIL]
    ensures { result ≡ tail_of keys.now head.now plain.now }
{
    let mut tail = [0; TAIL];
    tail[1..].copy_from_slice(&icv(&keys.integrity, &[head, plain, &[0]]));
    tail
}
