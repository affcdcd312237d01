//! Whole gateways, and the machine of one end, by the library's calls, as far as no script shows them:
//! scripts play them in the crate `test_scripts`. The crate `vectors` says why tests stand apart.
//!
//! `lists`, `flood`, `notices`, `declined` and `of_peers` have gateways step by step, `of_ike` the
//! machine of one end by its own step, `of_further` and `of_deletions` the calls below it that judge
//! payloads. The crate `test_samples` has what they are made with.
#![tactic(auto)]

#[cfg(test)]
mod tests;
