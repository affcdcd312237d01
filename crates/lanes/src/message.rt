//! A message as the blocks that a lane takes.
ghost use Rattle.std.specs.Prelude.{◌≡◌, ◌/◌, ◌^◌, ◌<◌, ◌≤◌, length};

use crate::padding::{end_len, ending};

// The octets of a block of SHA-256.
const BLOCK_LEN: usize = 64;

// The most octets that the second part may have, so that two blocks are enough to end a message.
pub(crate) const MORE_LIMIT: usize = 56;

// A message that follows a first block, the key's.
#[derive(Drop)]
pub(crate) struct Message<'a> {
    octets: &'a [u8],
    // What stands after the last whole block of the octets, padded: one block or two.
    end: [u8; 128],
    // How many blocks there are in all.
    pub(crate) count: usize,
    ghost room: { length end ≡ 128 },
    ghost front: { length octets.now / 64 ≤ count },
    ghost few: { count < 2 ^ 64 },
}

impl<'a> Message<'a> {
    ghost use Rattle.std.specs.Prelude.{◌≡◌, ℕ, ◌+◌, ◌*◌, ◌<◌, ◌≤◌, List, ◌++◌, length, take, drop};
    ghost use Rattle.lanes.specs.Padding.{after_a_block};
    ghost use Rattle.lanes.specs.Message.{HasBlocks, whole_blocks};

    // The message whose two parts follow a block.
    pub(crate) fn new(octets: &'a [u8], more: &[u8]) -> Message<'a>
        requires { length more.now ≤ MORE_LIMIT }
        ensures { HasBlocks result (after_a_block (octets.now ++ more.now)) }
    {
        let whole = octets.len() / BLOCK_LEN;
        let rest = &octets[whole * BLOCK_LEN..];
        let size = end_len(rest.len() + more.len());
        let bits = ((BLOCK_LEN + octets.len() + more.len()) as u64).wrapping_mul(8);
        Message {
            octets,
            end: ending(rest, more, size, bits),
            count: whole + size / BLOCK_LEN,
        }
    }

    // How many whole blocks the octets have.
    #[inline(always)]
    pub(crate) fn whole(&self) -> usize
        ensures whole { result ≡ whole_blocks self.now }
        ensures least { result ≤ self.now.count }
    {
        self.octets.len() / BLOCK_LEN
    }

    // The block at `index`, which stands whole in the octets.
    #[inline(always)]
    pub(crate) fn whole_block(&self, index: usize) -> &[u8]
        requires { index < whole_blocks self.now }
        ensures whole { length result.now ≡ 64 }
        ensures block { (octets : List ℕ) → HasBlocks self.now octets
            → result.now ≡ take 64 (drop (index * 64) octets) }
    {
        &self.octets[index * BLOCK_LEN..(index + 1) * BLOCK_LEN]
    }

    // The block at `index`; past the last one it is any block.
    pub(crate) fn block(&self, index: usize) -> &[u8]
        ensures whole { length result.now ≡ 64 }
        ensures block { (octets : List ℕ) → HasBlocks self.now octets → index < self.now.count
            → result.now ≡ take 64 (drop (index * 64) octets) }
    {
        let whole = self.octets.len() / BLOCK_LEN;
        if index < whole {
            &self.octets[index * BLOCK_LEN..(index + 1) * BLOCK_LEN]
        } else if index == whole {
            &self.end[..BLOCK_LEN]
        } else {
            &self.end[BLOCK_LEN..]
        }
    }
}
