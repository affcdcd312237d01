//! What a replay window is, however it keeps its sequence numbers.
ghost use Rattle.std.specs.Prelude.{◌≡◌, IsTrue, ◌↔◌, OnOk, OnErr};
ghost use Rattle.replay.specs.Window.{Seen, IsBlockCount};

use crate::ReplayFault;

/// What a window says of a sequence number.
#[derive(Clone, Copy, Debug, PartialEq, Eq)]
pub enum Judgement {
    /// The sequence number is 0, which no packet has.
    Zero,
    /// The sequence number lies below the window's span, so nothing is known of it.
    Old,
    /// The sequence number lies in the span and was taken.
    Taken,
    /// The sequence number was not taken, and lies in the span or above it.
    Fresh,
}

/// Whether a window can be made of `m` blocks of 64 sequence numbers: a power of two from 2 to 128.
pub fn is_block_count(m: u32) -> bool
    ensures { IsTrue result ↔ IsBlockCount m }
{
    matches!(m, 2 | 4 | 8 | 16 | 32 | 64 | 128)
}

/// The sequence numbers of an SA that were taken, as far as they are remembered (RFC 4303 section 3.4.3).
///
/// Asking about a number is apart from taking it: a receiver asks, checks the packet's integrity, and only
/// then takes.
pub trait Window {
    ghost use Rattle.std.specs.Prelude.{ℕ};
    ghost use Rattle.replay.specs.Window.{Seen, IsSoundWindow, judgement, Takes};

    /// The window as contracts see it.
    ghost seen: { Self → Seen };

    /// Holds of a kind of window that may refuse a sequence number because of an allocation failure.
    ghost may_want: { Type 0 };

    /// The greatest sequence number taken, 0 where none was.
    fn top(&self) -> u64
        ensures { result ≡ (seen self.now).top };

    /// How many numbers the window spans, up to the greatest one taken.
    fn size(&self) -> u64
        ensures { result ≡ (seen self.now).size };

    /// What is known of a sequence number.
    fn judge(&self, n: u64) -> Judgement
        ensures { result ≡ judgement (seen self.now) n };

    /// Takes a sequence number that [`Window::judge`] calls fresh. A greater number than all before moves the
    /// span up, and what falls out of it is forgotten. [`ReplayFault::Memory`] leaves the window as it was.
    fn take(&mut self, n: u64) -> Result<(), ReplayFault>
        requires { judgement (seen self.old) n ≡ Judgement.Fresh }
        ensures taken { OnOk result (Takes (seen self.old) n (seen self.new)) }
        ensures refused { OnErr result ((seen self.new ≡ seen self.old) × may_want) };

    /// What holds of every window.
    ghost sound: { (w : Self) → IsSoundWindow (seen w) };
}
