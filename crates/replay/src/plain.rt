//! A window that keeps a list of the sequence numbers taken.
ghost use Rattle.std.specs.Prelude.{◌≡◌, ◌-◌, nat_eq, nat_lt, filter};
ghost use Rattle.std.specs.List.{IsDistinct, IsDistinct-prop};
ghost use Rattle.replay.specs.Window.{IsBlockCount, IsSoundWindow, listed, unused_window};

use crate::{Judgement, ReplayFault, Window};
use std::alloc::Global;

/// A window that keeps a list of the sequence numbers taken in its span, each of them once: simple, with
/// memory for as many numbers as it holds, of which there are no more than it spans. Asking looks through all
/// of them.
#[derive(Drop)]
pub struct PlainWindow {
    top: u64,
    size: u64,
    taken: Vec<u64>,
    ghost sound: { IsSoundWindow (listed top size taken.items) },
    ghost each_once: { IsDistinct nat_eq taken.items } by { IsDistinct-prop nat_eq taken.items },
}

impl PlainWindow {
    /// A window of `blocks` blocks of 64 sequence numbers, a count that
    /// [`is_block_count`](crate::is_block_count) allows. It spans 64 (blocks - 1) numbers, and takes no
    /// memory until a number is taken.
    pub fn new(alloc: Global, blocks: u32) -> PlainWindow
        requires { IsBlockCount blocks }
        ensures { ⟦<PlainWindow as Window>⟧.seen result ≡ unused_window blocks }
    {
        PlainWindow {
            top: 0,
            size: 64 * u64::from(blocks - 1),
            taken: Vec::new(alloc),
        }
    }
}

impl Window for PlainWindow {
    ghost seen = { λ w. listed w.top w.size w.taken.items };

    ghost may_want = { Unit {0} };

    fn top(&self) -> u64 {
        self.top
    }

    fn size(&self) -> u64 {
        self.size
    }

    fn judge(&self, n: u64) -> Judgement {
        if n == 0 {
            Judgement::Zero
        } else if n <= self.top && self.top - n >= self.size {
            Judgement::Old
        } else if self.taken.contains(&n) {
            Judgement::Taken
        } else {
            Judgement::Fresh
        }
    }

    fn take(&mut self, n: u64) -> Result<(), ReplayFault> {
        self.taken.push(n).map_err(|_| ReplayFault::Memory)?;
        if n > self.top {
            self.top = n;
            forget_below(&mut self.taken, n, self.size);
        }
        Ok(())
    }

    ghost sound = { λ w. w.sound };
}

// Forgets the sequence numbers below the span of `size` numbers that ends at `top`.
fn forget_below(taken: &mut Vec<u64>, top: u64, size: u64)
    ensures { taken.new.items ≡ filter (λ n. nat_lt (top - n) size) taken.old.items }
{
    taken.retain(|&n| top.saturating_sub(n) < size);
}
