//! A window of blocks of bits (RFC 6479).
ghost use Rattle.std.specs.Prelude.{◌≡◌, ℕ, ◌+◌, ◌*◌, ◌-◌, ◌/◌, ◌%◌, ◌<◌, ◌≤◌, ◌||◌, max, length, get_or, IfOk};
ghost use Rattle.replay.specs.Window.{IsBlockCount, IsSoundWindow, Takes, judgement, unused_window};
ghost use Rattle.replay.specs.Blocks.{IsRing, is_marked, is_twin, shown};

use crate::{Judgement, ReplayFault, Window};
use std::alloc::Global;

// The sequence numbers of one block.
const BLOCK: u64 = 64;

/// A window that keeps a bit for each sequence number, in a ring of blocks of 64 bits (RFC 6479). Moving up
/// clears the blocks that are passed over and shifts nothing, so asking and taking cost the same whatever the
/// window holds, and a jump costs at most as many writes as there are blocks. Memory is taken when it is
/// made, and never again.
#[derive(Drop)]
pub struct BlockWindow {
    top: u64,
    blocks: Vec<u64>,
    ghost ring: { IsRing top blocks.items },
    ghost sound: { IsSoundWindow (shown top blocks.items) },
}

impl BlockWindow {
    /// A window of `blocks` blocks of 64 sequence numbers, a count that
    /// [`is_block_count`](crate::is_block_count) allows. It spans 64 (blocks - 1) numbers.
    /// [`ReplayFault::Memory`] where there is no memory for the blocks, 8 octets each.
    pub fn new(alloc: Global, blocks: u32) -> Result<BlockWindow, ReplayFault>
        requires { IsBlockCount blocks }
        ensures { IfOk result (λ window. ⟦<BlockWindow as Window>⟧.seen window ≡ unused_window blocks) }
    {
        let blocks = vec![in alloc; 0; blocks as usize].map_err(|_| ReplayFault::Memory)?;
        Ok(BlockWindow { top: 0, blocks })
    }
}

impl Window for BlockWindow {
    ghost seen = { λ w. shown w.top w.blocks.items };

    ghost may_want = { ⊥ };

    fn top(&self) -> u64 {
        self.top
    }

    fn size(&self) -> u64 {
        BLOCK * (self.blocks.len() as u64 - 1)
    }

    fn judge(&self, n: u64) -> Judgement {
        if n == 0 {
            Judgement::Zero
        } else if n > self.top {
            Judgement::Fresh
        } else if self.top - n >= self.size() {
            Judgement::Old
        } else if is_set(&self.blocks, n) {
            Judgement::Taken
        } else {
            Judgement::Fresh
        }
    }

    fn take(&mut self, n: u64) -> Result<(), ReplayFault> {
        mark(&mut self.blocks, self.top, n);
        self.top = self.top.max(n);
        Ok(())
    }

    ghost sound = { λ w. w.sound };
}

// The place in the ring of the block that counts as the `block`th from the start. Their count is a power of
// two, so a mask does instead of a division, which would take longer than all else here.
fn place(blocks: &[u64], block: u64) -> usize
    requires { IsBlockCount (length blocks.now) }
    ensures { result ≡ block % length blocks.now }
{
    (block & (blocks.len() as u64 - 1)) as usize
}

// Whether the bit of a sequence number is set.
fn is_set(blocks: &[u64], n: u64) -> bool
    requires { IsBlockCount (length blocks.now) }
    ensures { result ≡ is_marked blocks.now n }
{
    (blocks[place(blocks, n / BLOCK)] >> (n % BLOCK)) & 1 == 1
}

// Marks a fresh sequence number, in the ring whose greatest number is `top`; a greater one moves the span up.
fn mark(blocks: &mut [u64], top: u64, n: u64)
    requires ring { IsRing top blocks.old }
    requires is_fresh { judgement (shown top blocks.old) n ≡ Judgement.Fresh }
    ensures length { length blocks.new ≡ length blocks.old }
    ensures ring { IsRing (max top n) blocks.new }
    ensures taken { Takes (shown top blocks.old) n (shown (max top n) blocks.new) }
{
    if n > top {
        clear_passed(blocks, top / BLOCK, n / BLOCK);
    }
    set_bit(blocks, n);
}

// Sets the bit of a sequence number.
fn set_bit(blocks: &mut [u64], n: u64)
    requires { IsBlockCount (length blocks.old) }
    ensures length { length blocks.new ≡ length blocks.old }
    ensures marked { (q : ℕ)
        → is_marked blocks.new q ≡ (is_twin (length blocks.old) n q || is_marked blocks.old q) }
{
    let place = place(blocks, n / BLOCK);
    blocks[place] |= 1 << (n % BLOCK);
}

// Clears the blocks behind `from`, up to `to`: all of the ring where they go round it.
fn clear_passed(blocks: &mut [u64], from: u64, to: u64)
    requires count { IsBlockCount (length blocks.old) }
    requires upwards { from ≤ to }
    ensures length { length blocks.new ≡ length blocks.old }
    ensures cleared { (block : ℕ) → from < block → block ≤ to
        → get_or blocks.new (block % length blocks.old) 0 ≡ 0 }
    ensures kept { (block : ℕ) → block ≤ from → to < block + length blocks.old
        → get_or blocks.new (block % length blocks.old) 0 ≡ get_or blocks.old (block % length blocks.old) 0 }
{
    if to - from >= blocks.len() as u64 {
        blocks.fill(0);
    } else {
        for block in from..to {
            let place = place(blocks, block + 1);
            blocks[place] = 0;
        }
    }
}
