//! The number that a low half stands for, by a window of 64 numbers (RFC 4303, appendix A2).
use replay::recover;

// The greatest number, the low half, and the number.
const ROWS: [(u64, u32, Option<u64>); 8] = [
    (4_294_967_306, 0xffff_fff0, Some(4_294_967_280)),
    (4_294_967_295, 5, Some(4_294_967_301)),
    (10, 0xffff_fff0, None),
    (10, 0xffff_ffc0, Some(4_294_967_232)),
    (0, 0, None),
    (0, 0xffff_ffc1, None),
    (u64::MAX, 0, None),
    (u64::MAX, 0xffff_ffff, Some(u64::MAX)),
];

pub fn holds(row: usize) -> bool {
    match ROWS.get(row) {
        Some((top, low, number)) => recover(*top, 64, *low) == *number,
        None => false,
    }
}
