//! Identities made of a name or an address (RFC 7296, section 3.5).
ghost use Rattle.std.specs.Prelude.{◌≡◌, ◌≤◌, IfOk, IfErr, length};
ghost use Rattle.std.specs.List.{list_any};
ghost use Rattle.wire.specs.Numbers.{IDENTITY_LIMIT};
ghost use Rattle.auth.specs.Names.{identity_of, is_foreign, ID_FQDN, ID_IPV4_ADDR, ID_RFC822_ADDR, IsIdentityFault, IsName};
ghost use Rattle.auth.specs.Proofs.{IsIdentity};
ghost use Rattle.auth.specs.declared.naming.IdentityFault.TheVariants as fault;

use crate::Identity;
use crate::proving::are_octets;
use base::Items;
use std::alloc::Global;
use thiserror::Error;
use wire::numbers::IDENTITY_LIMIT;

/// Why no identity is made.
#[derive(Clone, Copy, Debug, PartialEq, Eq, Error)]
pub enum IdentityFault {
    /// The name has no octet.
    #[error("an identity has no octets")]
    Empty,
    /// The name has more than 256 octets, a limit of this implementation.
    #[error("an identity has more than 256 octets")]
    Long,
    /// The name has a space, or a character that isn't one of printable ASCII.
    #[error("an identity has a character that is a space or not printable ASCII")]
    Foreign,
    /// There was no memory for it.
    #[error("no memory for an identity")]
    Memory,
}

// Types of identities (RFC 7296, section 3.5).
const ID_IPV4_ADDR: u8 = 1;

const ID_FQDN: u8 = 2;

const ID_RFC822_ADDR: u8 = 3;

impl Identity {
    /// The identity of a name such as `left.example` (ID_FQDN). It has 1 to 256 octets of printable ASCII,
    /// without spaces. No more is asked of a domain name.
    ///
    /// Refused, in this order: [`IdentityFault::Empty`], [`IdentityFault::Long`],
    /// [`IdentityFault::Foreign`], [`IdentityFault::Memory`].
    pub fn fqdn(alloc: Global, name: &str) -> Result<Identity, IdentityFault>
        ensures named { IfOk result (λ identity. (identity ≡ identity_of ID_FQDN name.now) × IsName name.now) }
        ensures fits { IfOk result IsIdentity }
        ensures refused { IfErr result (IsIdentityFault name.now) }
    {
        named(alloc, ID_FQDN, name.as_bytes())
    }

    /// The identity of an address of mail such as `gate@left.example` (ID_RFC822_ADDR). It is refused as
    /// [`fqdn`](Identity::fqdn) is: nothing looks for its `@`.
    pub fn email(alloc: Global, name: &str) -> Result<Identity, IdentityFault>
        ensures named { IfOk result (λ identity. (identity ≡ identity_of ID_RFC822_ADDR name.now) × IsName name.now) }
        ensures fits { IfOk result IsIdentity }
        ensures refused { IfErr result (IsIdentityFault name.now) }
    {
        named(alloc, ID_RFC822_ADDR, name.as_bytes())
    }

    /// The identity of an IPv4 address (ID_IPV4_ADDR), of its octets as they stand in a packet. Refused
    /// because of an allocation failure alone ([`IdentityFault::Memory`]).
    pub fn address(alloc: Global, octets: [u8; 4]) -> Result<Identity, IdentityFault>
        ensures named { IfOk result (λ identity. identity ≡ identity_of ID_IPV4_ADDR octets) }
        ensures fits { IfOk result IsIdentity }
        ensures refused { IfErr result (λ why. why ≡ fault.Memory) }
    {
        copied(alloc, ID_IPV4_ADDR, &octets)
    }
}

// An identity of this type, whose data is a name.
fn named(alloc: Global, kind: u8, name: &[u8]) -> Result<Identity, IdentityFault>
    ensures named { IfOk result (λ identity. (identity ≡ identity_of kind name.now) × IsName name.now) }
    ensures fits { IfOk result IsIdentity }
    ensures refused { IfErr result (IsIdentityFault name.now) }
{
    if name.is_empty() {
        return Err(IdentityFault::Empty);
    }
    if name.len() > IDENTITY_LIMIT {
        return Err(IdentityFault::Long);
    }
    if has_foreign(name) {
        return Err(IdentityFault::Foreign);
    }
    copied(alloc, kind, name)
}

fn has_foreign(name: &[u8]) -> bool
    ensures { result ≡ list_any is_foreign name.now }
{
    name.iter().any(|&octet| !(octet > b' ' && octet < 0x7f))
}

fn copied(alloc: Global, kind: u8, data: &[u8]) -> Result<Identity, IdentityFault>
    requires some { 1 ≤ length data.now }
    requires few { length data.now ≤ IDENTITY_LIMIT }
    ensures copied { IfOk result (λ identity. identity ≡ identity_of kind data.now) }
    ensures fits { IfOk result IsIdentity }
    ensures refused { IfErr result (λ why. why ≡ fault.Memory) }
{
    are_octets(data);
    match Items::from_slice(alloc, data) {
        Ok(data) => Ok(Identity { kind, data }),
        Err(_) => Err(IdentityFault::Memory),
    }
}
