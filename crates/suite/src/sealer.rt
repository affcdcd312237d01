//! The caller's cipher (RFC 7296, section 3.14).
ghost use Rattle.std.specs.Prelude.{◌≡◌, ◌+◌, ◌<◌, ◌^◌, ◌++◌, OnOk, OnErr, IfOk};

use crate::Keys;
use std::alloc::AllocError;

/// The encryption transform that a cipher is named by (RFC 7296, section 3.3.2).
#[derive(Clone, Copy, Debug, PartialEq, Eq)]
pub struct Cipher {
    pub id: u16,
    /// The length of its key in bits, where the attribute Key Length names one (section 3.3.5).
    pub key_length: Option<u16>,
}

/// The cipher with which the bodies of encrypted payloads are sealed and opened (RFC 7296, section 3.14).
///
/// What a body is and what it opens to depends on keys and octets alone, never on the value. The head is
/// what stands before the body in the message, from its first octet through the encrypted payload's header.
/// It is not sealed; a cipher is to authenticate it with the body, which no law says, nor that nothing else
/// opens.
///
/// Both keys have 32 octets, whatever the cipher, a rule of this implementation. A cipher that wants fewer
/// can use a part of them, but then agrees with no other implementation: RFC 7296 section 2.14 takes each
/// key with its cipher's length.
pub trait Sealer {
    ghost use Rattle.std.specs.Prelude.{◌≤◌, ℕ, List, Option, Some, length};
    ghost use Rattle.suite.specs.declared.keys.Keys.{Keys};
    ghost use Rattle.suite.specs.declared.sealer.Cipher.{Cipher};
    ghost use Rattle.suite.specs.Sealing.{AreSealable, Opens};

    /// The cipher's transform.
    ghost cipher: { Cipher };

    /// The octets of a body, by those of its plain text.
    ghost sealed_size: { ℕ → ℕ };

    /// The body that a plain text becomes, under keys and a head, with 16 fresh octets.
    ghost body_of: { Keys → List ℕ → List ℕ → List ℕ → List ℕ };

    /// The plain text that a body opens to, under keys and a head.
    ghost plain_of: { Keys → List ℕ → List ℕ → Option (List ℕ) };

    /// The transform by which peers name this cipher.
    fn transform(&self) -> Cipher
        ensures { result ≡ cipher };

    /// The octets of a body whose plain text has so many.
    fn sealed_len(&self, plain: usize) -> usize
        requires { plain + 128 < 2 ^ 64 }
        ensures { result ≡ sealed_size plain };

    /// Appends the body that a plain text becomes. The only error is an allocation failure, which leaves
    /// `out` as it was.
    fn seal(
        &self,
        keys: &Keys,
        head: &[u8],
        plain: &[u8],
        fresh: &[u8; 16],
        out: &mut Vec<u8>,
    ) -> Result<(), AllocError>
        ensures appended { OnOk result
            (out.new.items ≡ out.old.items ++ body_of keys.now head.now plain.now fresh.now) }
        ensures refused { OnErr result (out.new.items ≡ out.old.items) };

    /// Appends the plain text that a body opens to, and answers whether it opens. `false` and an error, which
    /// is an allocation failure alone, leave `out` as it was.
    fn open(
        &self,
        keys: &Keys,
        head: &[u8],
        body: &[u8],
        out: &mut Vec<u8>,
    ) -> Result<bool, AllocError>
        ensures answered { IfOk result
            (λ opens. Opens (plain_of keys.now head.now body.now) opens out.old.items out.new.items) }
        ensures refused { OnErr result (out.new.items ≡ out.old.items) };

    /// What is sealed opens to the same plain text, under the same keys and head.
    ghost opens_again: { (keys : Keys) (head plain fresh : List ℕ) → AreSealable keys head plain fresh
        → plain_of keys head (body_of keys head plain fresh) ≡ Some plain };

    /// A body's length is the one that is told beforehand.
    ghost length_told: { (keys : Keys) (head plain fresh : List ℕ) → AreSealable keys head plain fresh
        → length (body_of keys head plain fresh) ≡ sealed_size (length plain) };

    /// It is at most 128 octets more than the plain text's, and no less.
    ghost size_bounded: { (n : ℕ) → (n ≤ sealed_size n) × (sealed_size n ≤ n + 128) };
}
