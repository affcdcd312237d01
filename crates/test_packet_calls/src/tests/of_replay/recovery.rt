use crate::tests::asserts::same_at;
use replay::laws::recovers_one_number;
use replay::recover;
use std::process::Abort;

#[test]
fn recovers_the_worked_numbers(rt: HostRuntime) {
    for (top, low, number) in [
        (4_294_967_306, 0xffff_fff0, Some(4_294_967_280)),
        (4_294_967_295, 5, Some(4_294_967_301)),
        (10, 0xffff_fff0, None),
        (10, 0xffff_ffc0, Some(4_294_967_232)),
        (0, 0, None),
        (0, 0xffff_ffc1, None),
        (u64::MAX, 0, None),
        (u64::MAX, u32::MAX, Some(u64::MAX)),
    ] {
        same_at(&rt, (top, low), recover(top, 64, low), number);
    }
}

#[test]
fn agrees_with_a_search_near_each_boundary(rt: HostRuntime) {
    recovers_one_number();
    for window in [1, 64, 8128] {
        for boundary in [
            0,
            window,
            1 << 32,
            (1 << 32) + window,
            1 << 33,
            u64::MAX - window,
        ] {
            agrees_near(&rt, boundary, window);
        }
    }
}

/// Tries the tops from 4 below the boundary to 4 above it.
fn agrees_near(rt: &impl Abort, boundary: u64, window: u64) {
    for step in 0..9 {
        agrees_at(rt, boundary.wrapping_add(step).wrapping_sub(4), window);
    }
}

/// Tries the low halves near the window's lower edge and near 0.
fn agrees_at(rt: &impl Abort, top: u64, window: u64) {
    let edge = (top.wrapping_sub(window) % (1 << 32)) as u32;
    for step in 0..9 {
        for low in [
            edge.wrapping_add(step).wrapping_sub(3),
            step.wrapping_sub(4),
        ] {
            same_at(
                rt,
                (top, window, low),
                recover(top, window, low),
                search(top, window, low),
            );
        }
    }
}

/// Tries each number with this low half and a high half near that of `top`.
fn search(top: u64, window: u64, low: u32) -> Option<u64> {
    let high = top >> 32;
    for high in high.saturating_sub(2)..high.saturating_add(3) {
        let number = (u128::from(high) << 32) + u128::from(low);
        let place = number + u128::from(window);
        let above_the_edge = u128::from(top) < place;
        let in_the_cycle = place <= u128::from(top) + (1 << 32);
        if above_the_edge && in_the_cycle && number > 0 {
            return u64::try_from(number).ok();
        }
    }
    None
}
