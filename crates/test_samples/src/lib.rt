//! What tests of whole gateways are made of: two gateways with the caller of scripts, and what comes to them.
//!
//! `ends` has their configurations and policies, `inputs` what comes to them, `owned` lists of it, `both` two
//! of them that hold an IKE SA and its first child. The crates `test_gateways`, `test_long_runs` and
//! `tool_memory` share it; nothing of the core stands on it.
#![tactic(auto)]

mod both;
mod ends;
mod fault;
mod inputs;
mod owned;

pub use both::{Both, gateway_with, sent};
pub use ends::{config, gateway, gateway_of, own_name, policy};
pub use fault::SampleFault;
pub use inputs::{fresh, further, inner, message, order, packet_out, probe};
pub use owned::{OwnedEvent, OwnedInput, lend_events, lend_inputs};
