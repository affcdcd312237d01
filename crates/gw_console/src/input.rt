//! The file that is read.
ghost use Rattle.std.specs.Prelude.{IfOk};
ghost use Rattle.gw_console.specs.Input.{IsWholeFile};

use std::alloc::{AllocError, Global};
use std::io::{ErrorKind, Read};

/// The largest file that is read, in octets.
pub const FILE_LIMIT: usize = 1_048_576;

// How many octets are asked of the reader at once.
const CHUNK: usize = 4096;

/// Why a file was not read.
#[derive(Clone, Copy, Debug, PartialEq, Eq)]
pub enum InputFault {
    /// A read failed, or there are more than [`FILE_LIMIT`] octets.
    File,
    /// There was no memory for its octets.
    Memory,
}

impl From<AllocError> for InputFault {
    ghost use Rattle.std.specs.Prelude.{◌≡◌};
    ghost use Rattle.gw_console.specs.declared.input.InputFault.TheVariants.{Memory};

    ghost from_gives = { λ _ fault. fault ≡ Memory };

    fn from(_: AllocError) -> InputFault {
        InputFault::Memory
    }
}

/// All that the reader has.
///
/// Refused: [`InputFault::File`] where a read fails, or there are more than [`FILE_LIMIT`] octets;
/// [`InputFault::Memory`].
pub fn read_whole<R: Read>(alloc: Global, reader: &mut R) -> Result<Vec<u8>, InputFault>
    ensures { IfOk result (λ octets. IsWholeFile (R.remaining reader.old) octets.items) }
{
    let mut octets = Vec::new(alloc);
    let mut chunk = [0; CHUNK];
    for _ in 0..u64::MAX {
        match reader.read(&mut chunk) {
            Ok(0) => return Ok(octets),
            Ok(count) if octets.len() + count > FILE_LIMIT => return Err(InputFault::File),
            Ok(count) => octets.extend_from_slice(&chunk[..count])?,
            Err(fault) if fault.kind() == ErrorKind::Interrupted => {}
            Err(_) => return Err(InputFault::File),
        }
    }
    Err(InputFault::File)
}
