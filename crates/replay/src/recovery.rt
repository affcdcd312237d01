//! The sequence number that a low half stands for.
ghost use Rattle.std.specs.Prelude.{◌≡◌, ℕ, MatchOption};
ghost use Rattle.replay.specs.Recovery.{IsRecovered};

const LOW_HALF: u64 = 0xffff_ffff;

/// The one number with this low half among the 2^32 that begin at the lower edge of a window of `window`
/// sequence numbers which ends at `top`, the greatest number taken so far; `None` where that number would be
/// 0, negative or 2^64 or more (RFC 4303 section 2.2.1 and appendix A2).
pub fn recover(top: u64, window: u64, low: u32) -> Option<u64>
    ensures { MatchOption result ((n : ℕ) → ¬ IsRecovered top window low n)
        (λ n. IsRecovered top window low n) }
{
    let low = u64::from(low);
    if window > top {
        // The edge lies at 0 or below it, so every candidate from 1 on has the high half 0.
        let below = window - top - 1;
        return (low != 0 && below <= LOW_HALF - low).then_some(low);
    }
    let edge = (top - window).checked_add(1)?;
    let edge_low = edge & LOW_HALF;
    let edge_high = edge - edge_low;
    if low >= edge_low {
        Some(edge_high + low)
    } else {
        // The low half has wrapped round since the edge.
        edge_high.checked_add(LOW_HALF + 1 + low)
    }
}
