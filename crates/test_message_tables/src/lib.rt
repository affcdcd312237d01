//! Rows and tables of exact values of messages: `messages` has the rows of the format, `payloads` what
//! payloads mean. The crate `vectors` says why tests stand apart.
#![tactic(auto)]

#[cfg(test)]
mod tests;
