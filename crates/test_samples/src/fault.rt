//! Why what tests are made of can't be made.
use policy::PolicyFault;
use setup::ConfigFault;
use std::alloc::AllocError;
use thiserror::Error;

/// Why two gateways can't be made.
#[derive(Debug, Drop, Error)]
pub enum SampleFault {
    /// There was no memory.
    #[error("no memory")]
    Memory(#[from] AllocError),
    /// A policy was refused.
    #[error("{0}")]
    Policy(#[from] PolicyFault),
    /// A configuration was refused.
    #[error("{0}")]
    Config(#[from] ConfigFault),
}
