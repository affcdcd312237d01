//! Which SA pairs go for the SPIs that a peer names.
ghost use Rattle.std.specs.Prelude.{◌≡◌, ◌↔◌, ℕ, Some, None, IfNone, IfOk, IfSome, IsTrue};
ghost use Rattle.sadb.specs.Database.{BelongsTo, IsSenderUnder, SendsUnder};
ghost use Rattle.deletions.specs.Naming.{deleted_by, deleted_for, without};

use base::Items;
use sadb::{Pair, State, Table};
use std::alloc::{AllocError, Global};

/// The SA pairs that a peer deletes, each once, in the order in which it names them.
#[derive(Debug, PartialEq, Eq, Drop)]
pub struct DeletedPairs {
    /// Their serials in the table.
    pub serials: Items<u32>,
    /// The SPIs under which this end receives by them, in the same order: what the answer names, and not
    /// what the peer named (RFC 7296, section 1.4.1).
    pub inbound_spis: Items<u32>,
}

// The SA pairs of an IKE SA that go where its peer names these SPIs, which are worked through in order.
pub(crate) fn find_deleted(
    alloc: Global,
    table: &Table,
    ike: u32,
    spis: &[u32],
) -> Result<DeletedPairs, AllocError>
    ensures { IfOk result (λ found. found ≡ deleted_by table.now.pairs ike spis.now) }
{
    let mut serials = Vec::new(alloc);
    let mut inbound_spis = Vec::new(alloc);
    for spi in spis {
        if let Some(pair) = deleted_for(table, ike, *spi, serials.as_slice()) {
            serials.push(pair.serial)?;
            inbound_spis.push(pair.inbound.spi())?;
        }
    }
    Ok(DeletedPairs {
        serials: Items::from_vec(serials),
        inbound_spis: Items::from_vec(inbound_spis),
    })
}

// The SA pair that goes for an SPI where those with some serials went before, if one does.
fn deleted_for<'a>(table: &'a Table, ike: u32, spi: u32, gone: &[u32]) -> Option<&'a Pair>
    ensures some { IfSome result (λ pair.
        deleted_for (without table.now.pairs gone.now) ike spi ≡ Some (pair.now.serial, pair.now)) }
    ensures none { IfNone result (deleted_for (without table.now.pairs gone.now) ike spi ≡ None) }
{
    table.invariants_hold();
    let serial = sender_left(table, ike, spi, gone)?;
    let pair = table.get(serial)?;
    match pair.state {
        State::Live => Some(pair),
        State::Deleting => None,
    }
}

// The serial of the SA pair that sends under an SPI where those with some serials went before; of several,
// the least.
fn sender_left(table: &Table, ike: u32, spi: u32, gone: &[u32]) -> Option<u32>
    ensures some { IfSome result (IsSenderUnder (without table.now.pairs gone.now) ike spi) }
    ensures none { IfNone result
        ((serial : ℕ) → ¬ SendsUnder (without table.now.pairs gone.now) ike spi serial) }
{
    table.invariants_hold();
    let mut passed = 0;
    while let Some(serial) = table.next_of(ike, passed) {
        if sends_still(table, serial, ike, spi, gone) {
            return Some(serial);
        }
        passed = serial;
    }
    None
}

// Whether an SA pair of an IKE SA sends under an SPI where those with some serials went before.
fn sends_still(table: &Table, serial: u32, ike: u32, spi: u32, gone: &[u32]) -> bool
    requires { BelongsTo table.now.pairs ike serial }
    ensures { IsTrue result ↔ SendsUnder (without table.now.pairs gone.now) ike spi serial }
{
    if gone.contains(&serial) {
        return false;
    }
    match table.get(serial) {
        Some(pair) => pair.outbound.spi() == spi,
        None => false,
    }
}
