//! The response to a request of this end.
ghost use Rattle.std.specs.Prelude.{◌≡◌, IfOk, IfErr};
ghost use Rattle.requests.specs.Outgoing.{IsOutstanding};
ghost use Rattle.association.specs.Closing.{HoldsReserved};
ghost use Rattle.informational.specs.Counting.{gone_with, CountsWhereEstablished, IsRejectedBy};
ghost use Rattle.informational.specs.Orders.{ClosesIf, RemovesOwn};
ghost use Rattle.setup.specs.Configs.{setup_of};
ghost use Rattle.association.specs.Purposes.{AsksForNoFurtherChild};

use association::laws::spis_stay_held;
use association::{Association, Ended, Fate, Phase, Purpose};
use deletions::remove_named;
use exchange::{Plain, first_error, has_invalid_syntax, read_chain};
use sadb::Table;
use setup::Setup;
use std::alloc::{AllocError, Global};

/// Matches the response to a request of INFORMATIONAL (RFC 7296, sections 1.4 and 1.4.1), by the payloads
/// that it opened to. The IKE SA is closed where it has a Notify payload INVALID_SYNTAX (section 2.21.3), or
/// answers a request to delete it; the SA pair of a Child SA goes whose deletion it answers. What else it
/// says is nothing to that; the first error notification in it is told ([`Ended::declined`]). It is `None`,
/// and nothing is changed, where the IKE SA is not established.
///
/// The caller asks only where a request with this Message ID is outstanding, which asks for no child, and the
/// SPIs that the IKE SA holds are reserved in the table. The only error is an allocation failure, and it
/// changes nothing.
pub fn count<C>(
    alloc: Global,
    setup: &Setup<'_, C>,
    association: &mut Association,
    table: &mut Table,
    number: u32,
    plain: &Plain,
) -> Result<Option<Ended>, AllocError>
    requires outstanding { IsOutstanding association.old.outgoing number }
    requires no_child { AsksForNoFurtherChild association.old.outgoing number }
    requires reserved { HoldsReserved association.old table.old }
    ensures counted { IfOk result (λ ended. CountsWhereEstablished (setup_of setup.now)
        association.old table.old number plain.now ended association.new table.new) }
    ensures refused { IfErr result (λ _. (association.new ≡ association.old) × (table.new ≡ table.old)) }
{
    let Phase::Established(_) = &association.phase else {
        return Ok(None);
    };
    spis_stay_held();
    let told = read_answer(alloc, plain)?;
    let Told { rejected, error } = told;
    // From here on nothing can be refused.
    let request = association.outgoing.count(number);
    let closed = rejected || request.purpose.asks_to_end();
    conclude(association, table, closed, &request.purpose, setup.moment);
    Ok(Some(Ended {
        fate: Fate::childless(closed),
        declined: error,
    }))
}

// What the peer tells by its Notify payloads.
#[derive(Clone, Copy)]
struct Told {
    // Whether it could not read the request.
    rejected: bool,
    error: Option<u16>,
}

fn read_answer(alloc: Global, plain: &Plain) -> Result<Told, AllocError>
    ensures { IfOk result (λ told. IsRejectedBy plain.now told.rejected told.error) }
{
    match read_chain(alloc, plain)? {
        None => Ok(Told {
            rejected: false,
            error: None,
        }),
        Some(payloads) => {
            let payloads = payloads.as_slice();
            Ok(Told {
                rejected: has_invalid_syntax(payloads),
                error: first_error(payloads),
            })
        }
    }
}

// The IKE SA is closed, or the SA pair goes that this end asked to delete.
fn conclude(
    association: &mut Association,
    table: &mut Table,
    closed: bool,
    purpose: &Purpose,
    moment: u64,
)
    requires { HoldsReserved association.old table.old }
    ensures { ClosesIf closed (gone_with table.old.pairs association.old.serial purpose.now)
        association.old table.old moment association.new table.new }
{
    if closed {
        association.close(table, moment);
    } else {
        remove_deleted(table, association.serial, purpose);
    }
}

// The SA pair of a Child SA goes that this end asked to delete, if it is of this IKE SA.
fn remove_deleted(table: &mut Table, ike: u32, purpose: &Purpose)
    ensures { RemovesOwn ike (gone_with table.old.pairs ike purpose.now) table.old table.new }
{
    match purpose {
        Purpose::DeleteChild { child } => match table.get(*child) {
            Some(pair) if pair.ike == ike => remove_named(table, &[*child]),
            _ => remove_named(table, &[]),
        },
        _ => remove_named(table, &[]),
    }
}
