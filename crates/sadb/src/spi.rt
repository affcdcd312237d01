//! Inbound SPIs.
ghost use Rattle.std.specs.Prelude.{◌≡◌, IfOk, IfErr};
ghost use Rattle.sadb.specs.Database.{IsStart};
ghost use Rattle.sadb.specs.Faults.{IsSpiFault};

use crate::SpiFault;
use std::marker::Model;

// The first SPI that isn't reserved (RFC 4303 section 2.1).
const START_LEAST: u32 = 256;

// The greatest SPI from which on 65,536 fit 32 bits.
const START_MOST: u32 = 0xffff_0000;

/// The number itself, where it can be the first inbound SPI of a table: from 256 to 2^32 - 65,536. Refused
/// as [`SpiFault::Reserved`] below that, as [`SpiFault::TooHigh`] above. Takes no memory.
pub fn first_spi(start: u32) -> Result<u32, SpiFault>
    ensures given { IfOk result (λ spi. (spi ≡ start) × IsStart start) }
    ensures refused { IfErr result (λ fault. IsSpiFault start fault × (¬ IsStart start)) }
{
    if start < START_LEAST {
        return Err(SpiFault::Reserved);
    }
    if start > START_MOST {
        return Err(SpiFault::TooHigh);
    }
    Ok(start)
}

/// An inbound security parameters index that a table gave (RFC 4301 section 4.1), for one SA pair. It is
/// given back to [`Table::install`](crate::Table::install) or [`Table::release`](crate::Table::release); one
/// that is dropped stays reserved.
#[derive(Drop)]
pub struct Spi {
    number: u32,
}

impl Model for Spi {
    ghost use Rattle.std.specs.Prelude.{ℕ};

    ghost Value = { ℕ };

    ghost view = { λ s. s.number };
}

impl Spi {
    pub(crate) fn new(number: u32) -> Spi
        ensures { result ≡ number }
    {
        Spi { number }
    }

    /// The index, as packets and messages bear it.
    pub fn number(&self) -> u32
        ensures { result ≡ self.now }
    {
        self.number
    }
}
