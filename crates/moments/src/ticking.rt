//! What a tick brings, at all IKE SAs.
ghost use Rattle.std.specs.Prelude.{◌≡◌, IfOk, IfErr, OnErr};
ghost use Rattle.std.specs.List.{flat_map};
ghost use Rattle.association.specs.Closing.{HoldsReserved};
ghost use Rattle.moments.specs.Due.{closed_of, sent_of, SomethingComes};
ghost use Rattle.moments.specs.Passing.{Becomes, BecomeAll};
ghost use Rattle.moments.specs.Ticking.{HoldTheirSpis, Ticks};

use crate::Resent;
use crate::due::{append_due, has_failed, is_over, send_again};
use association::Association;
use base::Items;
use sadb::Table;
use std::alloc::{AllocError, Global};

/// What a tick brought.
#[derive(Debug, Drop, PartialEq, Eq)]
pub struct Ticked {
    /// The requests that go out again, in the order of their IKE SAs and by rising Message ID.
    pub requests: Items<Resent>,
    /// The serials of the IKE SAs that were closed, in their order.
    pub closed: Items<u32>,
}

/// Does what is due at a time, in milliseconds. An IKE SA that is over is held no longer. One with a request
/// that was sent for the last time and not answered in time is closed, and sends nothing. Of each other one
/// the requests that are due go out once more, however late it is.
///
/// The caller gives IKE SAs whose SPIs are reserved in the table, each for one of them alone. The only error
/// is an allocation failure, and it changes nothing. It comes only where a request is due to go out again or
/// an IKE SA to be closed: to let go of what is over takes no memory.
pub fn tick(
    alloc: Global,
    associations: &mut Vec<Association>,
    table: &mut Table,
    now: u64,
) -> Result<Ticked, AllocError>
    requires { HoldTheirSpis associations.old.items table.old }
    ensures ticked { IfOk result
        (λ ticked. Ticks now associations.old.items table.old ticked associations.new.items table.new) }
    ensures refused { IfErr result
        (λ _. (associations.new.items ≡ associations.old.items) × (table.new ≡ table.old)) }
    ensures needs { OnErr result (SomethingComes now associations.old.items) }
{
    let requests = due(alloc, associations.as_slice(), now)?;
    let closed = failed(alloc, associations.as_slice(), now)?;
    // From here on nothing can be refused.
    pass_all(associations.as_mut_slice(), table, now);
    associations.retain(|association| !is_over(association, now));
    Ok(Ticked { requests, closed })
}

// The requests that go out again.
fn due(alloc: Global, associations: &[Association], now: u64) -> Result<Items<Resent>, AllocError>
    ensures ok { IfOk result (λ requests. requests ≡ flat_map (sent_of now) associations.now) }
    ensures refused { OnErr result (SomethingComes now associations.now) }
{
    let mut requests = Items::new(alloc);
    for association in associations {
        if !is_over(association, now) && !has_failed(association, now) {
            append_due(alloc, &mut requests, association, now)?;
        }
    }
    Ok(requests)
}

// The serials of those that are closed.
fn failed(alloc: Global, associations: &[Association], now: u64) -> Result<Items<u32>, AllocError>
    ensures ok { IfOk result (λ closed. closed ≡ flat_map (closed_of now) associations.now) }
    ensures refused { OnErr result (SomethingComes now associations.now) }
{
    let mut closed = Items::new(alloc);
    for association in associations {
        if !is_over(association, now) && has_failed(association, now) {
            closed.push(association.serial)?;
        }
    }
    Ok(closed)
}

// Closes those that have failed, and notes of the others what they send.
fn pass_all(associations: &mut [Association], table: &mut Table, now: u64)
    requires { HoldTheirSpis associations.old table.old }
    ensures { BecomeAll now associations.old table.old associations.new table.new }
{
    for association in associations.iter_mut() {
        pass(association, table, now);
    }
}

fn pass(association: &mut Association, table: &mut Table, now: u64)
    requires { HoldsReserved association.old table.old }
    ensures { Becomes now association.old table.old association.new table.new }
{
    if is_over(association, now) {
        return;
    }
    if has_failed(association, now) {
        association.close(table, now);
    } else {
        send_again(association, now);
    }
}
