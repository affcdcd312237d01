//! Rows and tables of exact values of the policy: decisions, flows and narrowing, and plain models
//! beside the library. The crate `vectors` says why tests stand apart.
#![tactic(auto)]

#[cfg(test)]
mod tests;
