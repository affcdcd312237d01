//! The pair of SAs, made of what the two ends agree on.
ghost use Rattle.std.specs.Prelude.{◌≡◌, ◌≤◌, IfErr, IfOk, length};
ghost use Rattle.byteorder.specs.Endian.{big_bytes, big_number};
ghost use Rattle.replay.specs.Window.{IsBlockCount};
ghost use Rattle.children.specs.Making.{terms_of};
ghost use Rattle.children.specs.Pairs.{new_pair};
ghost use Rattle.children.specs.Faults.{IsWantOfPair};

use crate::{MemoryFault, Setting};
use base::{Items, Selector};
use byteorder::{BigEndian, ByteOrder};
use esp::{Inbound, Outbound};
use exchange::Role;
use replay::BlockWindow;
use sadb::Pair;
use std::alloc::Global;
use wire::Proposal;

/// What the two ends agree on, by parts of the payloads.
#[derive(Clone, Copy)]
pub struct AgreedTerms<'a> {
    pub spi_i: u32,
    pub spi_r: u32,
    pub extended: bool,
    pub ts_i: &'a [Selector],
    pub ts_r: &'a [Selector],
}

/// The four octets that spell an SPI for ESP (RFC 7296, section 3.3.1).
pub fn spi_octets(spi: u32) -> [u8; 4]
    ensures { result ≡ big_bytes 4 spi }
{
    let mut octets = [0; 4];
    BigEndian::write_u32(&mut octets, spi);
    octets
}

/// The SA pair of the end of this role.
pub fn make_pair(
    alloc: Global,
    role: Role,
    setting: &Setting,
    agreed: &AgreedTerms<'_>,
) -> Result<Pair, MemoryFault>
    requires { IsBlockCount setting.now.blocks }
    ensures made { IfOk result (λ pair. pair ≡ new_pair role setting.now (terms_of agreed.now)) }
    ensures wanted { IfErr result IsWantOfPair }
{
    let Ok(window) = BlockWindow::new(alloc, setting.blocks) else {
        return Err(MemoryFault::Window);
    };
    let Ok(ts_i) = Items::from_slice(alloc, agreed.ts_i) else {
        return Err(MemoryFault::Narrowing);
    };
    let Ok(ts_r) = Items::from_slice(alloc, agreed.ts_r) else {
        return Err(MemoryFault::Narrowing);
    };
    let [key_i, key_r] = &setting.keys;
    let extended = agreed.extended;
    Ok(match role {
        Role::Initiator => {
            let inbound = Inbound::new(agreed.spi_i, key_r, extended, window);
            let outbound = Outbound::new(agreed.spi_r, key_i, extended, 0);
            Pair::new(setting.ike, inbound, outbound, ts_i, ts_r)
        }
        Role::Responder => {
            let inbound = Inbound::new(agreed.spi_r, key_i, extended, window);
            let outbound = Outbound::new(agreed.spi_i, key_r, extended, 0);
            Pair::new(setting.ike, inbound, outbound, ts_r, ts_i)
        }
    })
}

/// The SPI that a proposal for ESP names (RFC 7296, section 3.3.1).
pub fn spi_of(proposal: &Proposal) -> u32
    requires { 4 ≤ length proposal.now.spi }
    ensures { result ≡ big_number 4 proposal.now.spi }
{
    BigEndian::read_u32(proposal.spi.as_slice())
}
