//! What the program plays and prints, whole. The crate `vectors` says why tests stand apart.
//!
//! `of_engine` plays scripts and shows messages, `of_moments` has what comes of a moment, `of_console`
//! what is read, `texts` what each fault prints. Whole gateways by the library's calls stand in the
//! crate `test_gateways`.
#![tactic(auto)]

#[cfg(test)]
mod tests;
