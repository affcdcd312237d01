//! The uses that the crates' pages show, as tests: what stands on a page compiles, is proved and does
//! what the page says.
//!
//! `tools/uses.py` compares: the lines of a page's use are those of the test `the_page_of_NAME`.
#![tactic(auto)]

#[cfg(test)]
mod tests;
