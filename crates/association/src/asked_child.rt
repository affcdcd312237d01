//! A Child SA that this end asked for.
ghost use Rattle.std.specs.Prelude.{◌≡◌};
ghost use Rattle.policy.specs.Narrowing.{IsSendableSelector};
ghost use Rattle.association.specs.AskedChildren.{asked_of};

use base::Selector;
use children::Asked;
use sadb::Spi;
use std::marker::Model;

/// A Child SA that this end wants: with the IKE SA, by IKE_AUTH, or by an exchange of its own (RFC 7296,
/// sections 1.2 and 1.3.1).
#[derive(Drop)]
pub struct AskedChild {
    spi: Spi,
    local: Selector,
    remote: Selector,
    extended: bool,
}

impl Model for AskedChild {
    ghost use Rattle.association.specs.AskedChildren.{AskedChildView, IsSendableChild};

    ghost Value = { AskedChildView };

    ghost view = { λ c. record { spi = c.spi; local = c.local; remote = c.remote; extended = c.extended } };

    ghost invariant = { λ c. IsSendableChild c.local c.remote };
}

impl AskedChild {
    /// A Child SA with an inbound SPI that the table reserved, a selector of this end's side and one of the
    /// peer's, and with ESN where it is allowed (RFC 4303, section 2.2.1). The caller gives selectors that a
    /// message can carry.
    pub fn new(spi: Spi, local: Selector, remote: Selector, extended: bool) -> AskedChild
        requires local { IsSendableSelector local }
        requires remote { IsSendableSelector remote }
        ensures { result ≡ record { spi = spi; local = local; remote = remote; extended = extended } }
    {
        AskedChild {
            spi,
            local,
            remote,
            extended,
        }
    }

    /// What is asked for.
    pub fn asked(&self) -> Asked
        ensures asked { result ≡ asked_of self.now }
        ensures local { IsSendableSelector result.local }
        ensures remote { IsSendableSelector result.remote }
    {
        Asked {
            spi: self.spi.number(),
            local: self.local,
            remote: self.remote,
            extended: self.extended,
        }
    }

    /// The SPI, which is to be given back to the table.
    pub fn into_spi(self) -> Spi
        ensures { result ≡ self.spi }
    {
        self.spi
    }
}
