//! The calls of the crates of messages, one by one and a few of them together, in modules named as
//! those of `test_packet_calls`; and the faults of all crates below the machine. The crate `vectors`
//! says why tests stand apart.
#![tactic(auto)]

#[cfg(test)]
mod tests;
