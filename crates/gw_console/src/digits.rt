//! Octets written as hexadecimal digits, with blanks and line ends among them.
ghost use Rattle.std.specs.Prelude.{◌≡◌, List, ℕ, ◌++◌, Ok, IsErr, OnOk, OnErr, IfOk, string_bytes};
ghost use Rattle.base.specs.Octets.{Appends};
ghost use Rattle.hex.specs.Hex.{decode_of};
ghost use Rattle.gw_console.specs.Digits.{is_blank, digits_of, text_of};

use hex::FromHexError;
use std::alloc::{AllocError, Global};
use thiserror::Error;

/// Why digits are not read.
#[derive(Clone, Copy, Debug, PartialEq, Eq, Error)]
pub enum HexFault {
    /// Something else than digits, blanks and line ends is there, or an odd count of digits.
    #[error("the text is not hexadecimal")]
    NotHex,
    /// There was no memory.
    #[error("no memory")]
    Memory,
}

impl From<AllocError> for HexFault {
    ghost use Rattle.std.specs.Prelude.{◌≡◌};
    ghost use Rattle.gw_console.specs.declared.digits.HexFault.TheVariants.{Memory};

    ghost from_gives = { λ _ e. e ≡ Memory };

    fn from(_: AllocError) -> HexFault {
        HexFault::Memory
    }
}

// Whether the octet stands between digits and means nothing: a space, a tab, or part of a line end.
fn is_blank(octet: u8) -> bool
    ensures { result ≡ is_blank octet }
{
    matches!(octet, b' ' | b'\t' | b'\r' | b'\n')
}

/// Appends the octets that the digits of a text spell, of either case, two digits an octet. Blanks and
/// line ends are skipped.
///
/// Refused, with `out` as it was: [`HexFault::NotHex`] where anything else is there or the count of
/// digits is odd, else [`HexFault::Memory`] alone.
pub fn read_hex(text: &[u8], out: &mut Vec<u8>) -> Result<(), HexFault>
    ensures read { OnOk result (Appends (λ octets. decode_of (digits_of text.now) ≡ Ok octets)
        out.old.items out.new.items) }
    ensures not_hex { result ≡ Err HexFault.NotHex → IsErr (decode_of (digits_of text.now)) }
    ensures refused { OnErr result (out.new.items ≡ out.old.items) }
{
    let alloc = *out.allocator();
    let digits: Vec<u8> = text
        .iter()
        .copied()
        .filter(|octet| !is_blank(*octet))
        .collect(alloc)?;
    let octets = match hex::decode(alloc, digits.as_slice()) {
        Ok(octets) => octets,
        Err(FromHexError::OutOfMemory) => return Err(HexFault::Memory),
        Err(_) => return Err(HexFault::NotHex),
    };
    out.extend_from_slice(&octets)?;
    Ok(())
}

/// The octets as hexadecimal digits in lower case, `-` where there are none.
pub fn hex_text(alloc: Global, octets: &[u8]) -> Result<String, AllocError>
    ensures { IfOk result (λ text. string_bytes text ≡ text_of octets.now) }
{
    if octets.is_empty() {
        return String::from_str(alloc, "-");
    }
    hex::encode(alloc, octets)
}
