//! SA pairs that go from the table.
ghost use Rattle.std.specs.Prelude.{All};
ghost use Rattle.sadb.specs.Database.{IsThere};
ghost use Rattle.deletions.specs.Removing.{AreDistinct, RemovesNamed};

use sadb::Table;

/// Takes the SA pairs with these serials out for good (RFC 7296, section 1.4.1; RFC 4301, section 4.4.2). No
/// other pair is changed, no SPI that was given is given again, and of the rest of the table its spare
/// capacity alone changes, which grows by one for each pair at most. Takes no memory.
///
/// The caller asks only for pairs that are there, each once, as [`decide`](crate::decide) names them at the
/// same table.
pub fn remove_named(table: &mut Table, serials: &[u32])
    requires there { All (IsThere table.old.pairs) serials.now }
    requires distinct { AreDistinct serials.now }
    ensures { RemovesNamed table.old serials.now table.new }
{
    for serial in serials {
        table.remove(*serial);
    }
}
