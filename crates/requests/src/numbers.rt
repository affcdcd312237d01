//! A set of Message IDs.
ghost use Rattle.std.specs.Prelude.{◌≡◌, ◌+◌, ◌<◌, ◌^◌, ℕ, nat_eq, nat_lt};
ghost use Rattle.std.specs.FinSet as set;
ghost use Rattle.std.specs.Int.{bit_at};
ghost use Rattle.requests.specs.Numbers.{HasNumber, LacksNumber, IsGap};

use std::marker::Model;

// Message IDs that came mostly in order: all below the gap, which is the least Message ID that is missing,
// and those of the 15 behind it whose bits are set. Its size doesn't grow with the Message IDs.
#[derive(Drop)]
pub(crate) struct NumberSet {
    gap: u64,
    marks: u16,
}

impl Model for NumberSet {
    ghost use Rattle.std.specs.Coded.{coded_ℕ};
    ghost use Rattle.std.specs.FinSet as set;
    ghost use Rattle.requests.specs.Numbers.{NumberSet as Numbers};
    ghost use Rattle.requests.specs.Storage.{counted, AreMarks};

    ghost Value = { Numbers };

    ghost coded = { set.code coded_ℕ };

    ghost view = { λ a. counted a.gap a.marks };

    ghost invariant = { λ a. AreMarks a.gap a.marks };
}

impl NumberSet {
    /// No Message IDs.
    pub fn new() -> NumberSet
        ensures { result ≡ set.empty }
    {
        NumberSet { gap: 0, marks: 0 }
    }

    /// The Message ID 0 alone.
    pub fn zero() -> NumberSet
        ensures { result ≡ set.insert set.empty 0 }
    {
        NumberSet { gap: 1, marks: 0 }
    }

    /// The least Message ID that is not in the set.
    pub fn gap(&self) -> u64
        ensures gap { IsGap self.now result }
        ensures fits { (n : ℕ) → HasNumber self.now n → n < 2 ^ 32 }
    {
        self.gap
    }

    /// Whether a Message ID is in the set.
    pub fn contains(&self, number: u32) -> bool
        ensures { result ≡ set.contains self.now number }
    {
        let number = u64::from(number);
        number < self.gap || is_marked(self.marks, number - self.gap)
    }

    /// Adds a Message ID that lies less than 16 above the gap.
    pub fn insert(&mut self, number: u32)
        requires new_number { LacksNumber self.old number }
        requires near { (gap : ℕ) → IsGap self.old gap → number < gap + 16 }
        ensures { self.new ≡ set.insert self.old number }
    {
        self.marks |= 1 << (u64::from(number) - self.gap);
        while self.marks % 2 == 1 {
            self.marks /= 2;
            self.gap += 1;
        }
    }
}

// Whether a bit is set.
fn is_marked(marks: u16, place: u64) -> bool
    ensures { result ≡ nat_eq (bit_at marks place) 1 }
{
    place < 16 && (marks >> place) & 1 == 1
}

#[cfg(test)]
pub(crate) mod tests {
    use super::NumberSet;

    /// All Message IDs below one of them.
    pub fn all_below(gap: u32) -> NumberSet
        ensures { (n : ℕ) → set.contains result n ≡ nat_lt n gap }
    {
        NumberSet {
            gap: u64::from(gap),
            marks: 0,
        }
    }
}
