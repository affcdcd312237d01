//! Rows and tables of exact values. A crate with tests is proved twice, its tests are proved by one job,
//! and `rt ci` reckons memory by lines: so all tests but a few that need something private of their crate
//! stand in crates above the others, of a few thousand lines each. Here is what keys, choices and numbers
//! come to; in `test_message_tables` messages and payloads, in `test_policy_tables` the policy; in
//! `test_packet_calls` the calls of the crates that carry packets, one by one, in `test_message_calls`
//! those of the crates of messages; in `test_packet_lists` lists of packets; in `test_gateways` whole
//! machines and gateways; in `test_long_runs` long lists of inputs; in `test_pages` the crates' pages; in
//! `test_scripts` scripts.
//!
//! `keying` has the rows of keys and choices, `sealing` messages sealed and opened by the caller of
//! scripts, `long` inputs as long as they may be, `numbers` the numbers that RFC 7296 gives, `entries` what
//! [`check_all`] counts.
#![tactic(auto)]

mod entry;
mod report;
#[cfg(test)]
mod tests;

pub use report::{ENTRIES, Report, check_all};
