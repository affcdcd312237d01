//! What an end is set to, and what each step of it has to hand. Nothing is done here.
//!
//! A [`Config`] says who the two ends are ([`EndConfig`]) and by which sizes this one works. Whatever makes
//! one refuses what can't be used, by a [`ConfigFault`], so that every value can be. A [`Setup`] lends it to
//! one step, beside the caller's traits ([`suite`]), the policy, the step's fresh words and its time.
//!
//! ```text
//! let config = Config::new(own, peer, &cookie_secret)?.with_window(4)?;
//! let step = Setup { caller: &caller, config: &config, policy: &policy, fresh: &fresh, moment };
//! ```
#![tactic(auto)]

mod config;
mod fault;
mod surroundings;

pub use config::{Config, EndConfig};
pub use fault::ConfigFault;
pub use surroundings::Setup;
