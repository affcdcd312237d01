//! What a window answers once numbers were taken (RFC 4303, section 3.4.3; RFC 6479).
use replay::Judgement::{Fresh, Old, Taken, Zero};
use replay::{BlockWindow, Judgement, PlainWindow, Window, is_block_count};
use std::alloc::{AllocError, Global};

// The count of blocks, the numbers that are taken in order, and what is answered then.
type Row = (u32, &'static [u64], &'static [(u64, Judgement)]);

const ROWS: [Row; 8] = [
    (2, &[64], &[(1, Fresh)]),
    (
        2,
        &[64, 65],
        &[(2, Fresh), (1, Old), (65, Taken), (0, Zero)],
    ),
    (
        2,
        &[3, 64, 131],
        &[(131, Taken), (128, Fresh), (68, Fresh), (67, Old)],
    ),
    (4, &[1, 193], &[(2, Fresh), (1, Old)]),
    (4, &[1, 193, 256], &[(193, Taken), (65, Fresh), (64, Old)]),
    (
        4,
        &[1, 65, 129, 193, 500],
        &[
            (321, Fresh),
            (385, Fresh),
            (449, Fresh),
            (309, Fresh),
            (308, Old),
        ],
    ),
    (2, &[5, 64_005], &[(63_942, Fresh), (63_941, Old)]),
    (128, &[1, 8_128], &[(1, Taken), (0, Zero), (8_127, Fresh)]),
];

/// Both kinds of windows answer so.
pub fn holds(alloc: Global, row: usize) -> Result<bool, AllocError> {
    let Some((blocks, taken, answers)) = ROWS.get(row) else {
        return Ok(false);
    };
    if !is_block_count(*blocks) {
        return Ok(false);
    }
    let Ok(block) = BlockWindow::new(alloc, *blocks) else {
        return Err(AllocError);
    };
    let plain = PlainWindow::new(alloc, *blocks);
    Ok(answers_so(block, taken, answers)? && answers_so(plain, taken, answers)?)
}

// Whether a window answers so once these numbers were taken, each of them for the first time.
fn answers_so<W: Window + Drop>(
    mut window: W,
    taken: &[u64],
    answers: &[(u64, Judgement)],
) -> Result<bool, AllocError> {
    for number in taken {
        if window.judge(*number) != Judgement::Fresh {
            return Ok(false);
        }
        if window.take(*number).is_err() {
            return Err(AllocError);
        }
    }
    Ok(
        answers
            .iter()
            .all(|(number, answer)| window.judge(*number) == *answer),
    )
}
