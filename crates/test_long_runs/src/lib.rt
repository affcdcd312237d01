//! Long lists of inputs to whole gateways, and what is known of them beforehand by a plain rule. The
//! crate `vectors` says why tests stand apart.
//!
//! `outward` sends a hundred thousand packets: `packets` has them, `ends` two gateways, `played` what
//! is done about children between them, and the look-up beside which a gateway that remembers flows is
//! held. `worlds` has two ends and random events between them: `game` makes them, `book` writes down
//! what was sent, and `promises` has what is promised of both. `mixed` gives lists of inputs of all
//! kinds to two gateways that are alike, to one by `run` and to the other by `step`.
#![tactic(auto)]

#[cfg(test)]
mod tests;
