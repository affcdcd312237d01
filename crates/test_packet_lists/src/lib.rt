//! The calls of `esp` for lists of packets, beside its calls for one packet. The crate `vectors` says
//! why tests stand apart.
#![tactic(auto)]

#[cfg(test)]
mod tests;
