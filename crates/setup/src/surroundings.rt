//! The surroundings of a step.

use crate::Config;
use policy::Policy;
use suite::Fresh;

/// What a step has to hand, beside the IKE SAs that it may change.
#[derive(Drop)]
pub struct Setup<'a, C> {
    /// The caller's cipher, key agreement and proofs.
    pub caller: &'a C,
    pub config: &'a Config,
    pub policy: &'a Policy,
    /// Random words of this step alone, from the caller.
    pub fresh: &'a Fresh,
    /// The time of the step, in milliseconds.
    pub moment: u64,
}
