//! What the tests ask of either window.
use crate::tests::asserts::same_at;
use replay::{Judgement, ReplayFault, Window};
use std::process::Abort;

/// Takes a number that is fresh, through the trait alone, and answers how it was judged.
pub fn accept<W: Window>(window: &mut W, n: u64) -> Result<Judgement, ReplayFault> {
    let judgement = window.judge(n);
    if let Judgement::Fresh = judgement {
        window.take(n)?;
    }
    Ok(judgement)
}

/// Finds that a number is judged so, and takes it if it is fresh.
pub fn offer<W: Window>(rt: &impl Abort, window: &mut W, n: u64, judgement: Judgement) {
    same_at(rt, n, accept(window, n).expect(rt, "memory"), judgement);
}

/// Finds that numbers are judged so; none is taken.
pub fn judges<W: Window>(rt: &impl Abort, window: &W, rows: &[(u64, Judgement)]) {
    for (n, judgement) in rows {
        same_at(rt, *n, window.judge(*n), *judgement);
    }
}
