//! The calls of the crates that carry packets, and of request numbers, one by one and a few of them
//! together; `test_message_calls` has those of the crates of messages. The crate `vectors` says why
//! tests stand apart.
//!
//! The tests of one crate's calls are below a module `of_NAME`: `of_esp`, `of_sadb` and so on. It
//! hasn't the crate's own name, which would hide the crate from what stands beside it.
#![tactic(auto)]

#[cfg(test)]
mod tests;
