//! The secrets of a responder's cookies (RFC 7296, section 2.6).
ghost use Rattle.std.specs.Prelude.{◌≡◌, ◌+◌, ◌<◌, ◌^◌, ◌↔◌, IsTrue, IsOk, OnOk, OnErr};
ghost use Rattle.sa_init.specs.Cookies.{changed, first_secret, new_cookie, IsRightCookie};

use mac::cookie;
use std::fmt;
use std::marker::Model;
use thiserror::Error;

/// The secret under which a responder makes its cookies, and the one before it, whose cookies are still
/// right (RFC 7296, section 2.6). Secrets are counted from 1 on, and a cookie begins with the number of its
/// own, its version.
#[derive(Drop)]
pub struct Cookies {
    current: [u8; 32],
    previous: Option<[u8; 32]>,
    version: u32,
}

impl Model for Cookies {
    ghost use Rattle.std.specs.Prelude.{◌≤◌};
    ghost use Rattle.sa_init.specs.Cookies.{CookieSecrets};

    ghost Value = { CookieSecrets };

    ghost view = { λ c. record { current = c.current; previous = c.previous; version = c.version } };

    ghost invariant = { λ c. 1 ≤ c.version };
}

/// No further secret can be counted.
#[derive(Clone, Copy, Debug, PartialEq, Eq, Error)]
#[error("E36: the numbers are spent")]
pub struct SecretsSpent;

impl SecretsSpent {
    /// The refusal's number, as programs print it behind `E`.
    pub fn code(self) -> u8
        ensures { result ≡ 36 }
    {
        36
    }
}

impl Cookies {
    /// The first secret, of version 1, with none before it.
    pub fn new(secret: &[u8; 32]) -> Cookies
        ensures { result ≡ first_secret secret.now }
    {
        Cookies {
            current: *secret,
            previous: None,
            version: 1,
        }
    }

    /// Makes cookies under another secret from now on. Those of the secret so far stay right, those of the
    /// one before it are right no longer. Refused where the version is 2^32 - 1.
    pub fn change(&mut self, secret: &[u8; 32]) -> Result<(), SecretsSpent>
        ensures changed { OnOk result (self.new ≡ changed self.old secret.now) }
        ensures exactly { IsOk result ↔ (self.old.version + 1 < 2 ^ 32) }
        ensures refused { OnErr result (self.new ≡ self.old) }
    {
        let Some(version) = self.version.checked_add(1) else {
            return Err(SecretsSpent);
        };
        self.previous = Some(self.current);
        self.current = *secret;
        self.version = version;
        Ok(())
    }

    /// The cookie under the current secret for an initiator's nonce, its address and its SPI.
    pub fn make(&self, nonce: &[u8], address: &[u8], spi_i: u64) -> [u8; 36]
        ensures { result ≡ new_cookie self.now nonce.now address.now spi_i }
    {
        cookie(self.version, &self.current, nonce, address, spi_i)
    }

    /// Whether octets are the cookie for an initiator's nonce, its address and its SPI, under the secret of
    /// its version, which is the current one or the one before it.
    pub fn is_right(&self, octets: &[u8], nonce: &[u8], address: &[u8], spi_i: u64) -> bool
        ensures { IsTrue result ↔ IsRightCookie self.now nonce.now address.now spi_i octets.now }
    {
        if octets == self.make(nonce, address, spi_i).as_slice() {
            return true;
        }
        match &self.previous {
            Some(secret) => {
                octets == cookie(self.version - 1, secret, nonce, address, spi_i).as_slice()
            }
            None => false,
        }
    }
}

// Shows no octet of a secret.
impl fmt::Debug for Cookies {
    ghost use Rattle.std.specs.Prelude.{Some, codes};

    ghost debug_output = { λ _. Some (codes "Cookies { .. }") };

    fn fmt<W: fmt::Write>(&self, f: &mut fmt::Formatter<W>) -> fmt::Result {
        f.write_str("Cookies { .. }")
    }
}
