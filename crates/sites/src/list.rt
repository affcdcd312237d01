//! The list of gateways, and the one that a datagram is for.
ghost use Rattle.std.specs.Prelude.{◌≡◌, ◌++◌, ◌∷◌, ◌≤◌, [], length, IsTrue, ◌↔◌, OnOk, OnErr, IfErr};
ghost use Rattle.std.specs.Option.{option_copied};
ghost use Rattle.sites.specs.Finding.{has_association, holder, holder_of, is_holder, key_of, newest, others_than};
ghost use Rattle.sites.specs.Finding.{site_of_esp, site_of_ike, spi_r_of, takes};
ghost use Rattle.std.specs.List.{find};
ghost use Rattle.sites.specs.Ranges.{is_taken, overlaps, AreSites, IsNew, IsSiteRefusal, IsStart};

use crate::fault::SiteFault;
use crate::held::Held;
use crate::site::Site;
use byteorder::{BigEndian, ByteOrder};
use std::alloc::Global;
use std::marker::Model;

// The least SPI that is not reserved (RFC 4303 section 2.1).
const SPI_LEAST: u32 = 256;

// How many inbound SPIs a gateway gives, a limit of this implementation.
const SPI_COUNT: u32 = 65536;

/// Gateways in the order in which they were added, the newest last. Contracts see them as the list of
/// their sites.
#[derive(Drop)]
pub struct Sites {
    sites: Vec<Site>,
}

impl Model for Sites {
    ghost use Rattle.std.specs.Prelude.{List};
    ghost use Rattle.sites.specs.declared.site.Site.{Site};
    ghost use Rattle.sites.specs.Ranges.{AreSites};

    ghost Value = { List Site };

    ghost view = { λ s. s.sites.items };

    ghost invariant = { λ s. AreSites s.sites.items };
}

impl Sites {
    /// No gateways. Takes no memory.
    pub fn new(alloc: Global) -> Sites
        ensures { result ≡ [] }
    {
        Sites {
            sites: Vec::new(alloc),
        }
    }

    /// The gateways in their order. No SPI is in the ranges of two.
    pub fn as_slice(&self) -> &[Site]
        ensures sites { result.now ≡ self.now }
        ensures sound { AreSites self.now }
    {
        self.sites.as_slice()
    }

    /// Adds a gateway behind the others. [`SiteFault::Start`] where its range begins below 256 or beyond
    /// 2^32 - 65,536, then [`SiteFault::KeyTaken`] where another has its key, [`SiteFault::Overlap`]
    /// where its range meets that of another, and [`SiteFault::Memory`]. A refusal leaves the list as it
    /// was.
    pub fn add(&mut self, site: Site) -> Result<(), SiteFault>
        ensures added { OnOk result (self.new ≡ self.old ++ site ∷ []) }
        ensures new { OnOk result (IsNew self.old site) }
        ensures kept { OnErr result (self.new ≡ self.old) }
        ensures refused { IfErr result (λ fault. IsSiteRefusal self.old site fault) }
    {
        if !is_start(site.start) {
            return Err(SiteFault::Start);
        }
        if is_taken(site.key, &self.sites) {
            return Err(SiteFault::KeyTaken);
        }
        if overlaps(site.start, &self.sites) {
            return Err(SiteFault::Overlap);
        }
        if self.sites.push(site).is_err() {
            return Err(SiteFault::Memory);
        }
        Ok(())
    }

    /// Takes out the gateway of this key, and tells whether there was one. The others stay in their
    /// order.
    pub fn remove(&mut self, key: u32) -> bool
        ensures there { result ≡ is_taken key self.old }
        ensures others { self.new ≡ others_than key self.old }
    {
        let there = is_taken(key, &self.sites);
        self.sites.retain(|site| site.key != key);
        there
    }

    /// The key of the gateway whose range has the SPI in the first four octets of an ESP packet (RFC 4303
    /// section 2.1). None where there is no such gateway, and for fewer octets.
    pub fn of_esp(&self, packet: &[u8]) -> Option<u32>
        ensures { result ≡ key_of (site_of_esp packet.now self.now) }
    {
        if packet.len() < 4 {
            return None;
        }
        let site = site_of_spi(BigEndian::read_u32(packet), &self.sites)?;
        Some(site.key)
    }

    /// The key of the gateway that an IKE message from an IPv4 address is for, with the IKE SAs that the
    /// gateways hold. It is the first of those of that peer that holds an IKE SA with the SPIs in the
    /// message's first 16 octets (RFC 7296 section 3.1). Where the responder's SPI is zero, the initiator's
    /// alone counts. Where none does, and for fewer octets, it is the newest gateway of that peer. None where
    /// no gateway has that peer.
    pub fn of_ike(&self, from: [u8; 4], datagram: &[u8], held: &[Held]) -> Option<u32>
        ensures { result ≡ key_of (site_of_ike from datagram.now held.now self.now) }
    {
        let site = match holder(&from, datagram, held, &self.sites) {
            Some(site) => site,
            None => newest(&from, &self.sites)?,
        };
        Some(site.key)
    }
}

// Whether a range may begin there.
fn is_start(start: u32) -> bool
    ensures { IsTrue result ↔ IsStart start }
{
    (SPI_LEAST..=u32::MAX - SPI_COUNT + 1).contains(&start)
}

// Whether a gateway has this key.
fn is_taken(key: u32, sites: &[Site]) -> bool
    ensures { result ≡ is_taken key sites.now }
{
    sites.iter().any(|site| site.key == key)
}

// Whether the range from a start on meets that of a gateway.
fn overlaps(start: u32, sites: &[Site]) -> bool
    ensures { result ≡ overlaps start sites.now }
{
    sites
        .iter()
        .any(|site| site.start.abs_diff(start) < SPI_COUNT)
}

// The first gateway whose range has an SPI.
fn site_of_spi(spi: u32, sites: &[Site]) -> Option<&Site>
    ensures { option_copied result ≡ find (takes spi) sites.now }
{
    sites.iter().find(|site| takes(spi, site))
}

// Whether an SPI is in a gateway's range.
fn takes(spi: u32, site: &Site) -> bool
    ensures { result ≡ takes spi site.now }
{
    spi >= site.start && spi - site.start < SPI_COUNT
}

// The first gateway of a peer that holds the IKE SA that a message is of.
fn holder<'a>(from: &[u8; 4], datagram: &[u8], held: &[Held], sites: &'a [Site]) -> Option<&'a Site>
    ensures { option_copied result ≡ holder from.now datagram.now held.now sites.now }
{
    if datagram.len() < 16 {
        return None;
    }
    let spi_i = BigEndian::read_u64(datagram);
    let spi_r = responder_spi(datagram);
    holder_of(from, spi_i, spi_r, held, sites)
}

// The first gateway of a peer that holds an IKE SA with these SPIs.
fn holder_of<'a>(
    from: &[u8; 4],
    spi_i: u64,
    spi_r: u64,
    held: &[Held],
    sites: &'a [Site],
) -> Option<&'a Site>
    ensures { option_copied result ≡ holder_of from.now spi_i spi_r held.now sites.now }
{
    sites
        .iter()
        .find(|site| is_holder(from, spi_i, spi_r, held, site))
}

// Whether a gateway of a peer holds an IKE SA with these SPIs.
fn is_holder(from: &[u8; 4], spi_i: u64, spi_r: u64, held: &[Held], site: &Site) -> bool
    ensures { result ≡ is_holder from.now spi_i spi_r held.now site.now }
{
    site.peer == *from && holds(spi_i, spi_r, held, site.key)
}

// The responder's SPI, in octets 8 to 15 of an IKE message (RFC 7296 section 3.1).
fn responder_spi(datagram: &[u8]) -> u64
    requires { 16 ≤ length datagram.now }
    ensures { result ≡ spi_r_of datagram.now }
{
    BigEndian::read_u64(&datagram[8..])
}

// Whether a gateway holds an IKE SA with these SPIs, of which the responder's doesn't count where it is zero.
fn holds(spi_i: u64, spi_r: u64, held: &[Held], key: u32) -> bool
    ensures { result ≡ has_association spi_i spi_r key held.now }
{
    held.iter().any(|one| {
        one.key == key && one.spi_i == spi_i && (spi_r == 0 || one.spi_r == spi_r)
    })
}

// The newest gateway of a peer.
fn newest<'a>(from: &[u8; 4], sites: &'a [Site]) -> Option<&'a Site>
    ensures { option_copied result ≡ newest from.now sites.now }
{
    sites.iter().rev().find(|site| site.peer == *from)
}
