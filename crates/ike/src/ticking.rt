//! What a `Tick` brings.
ghost use Rattle.std.specs.Prelude.{◌≡◌, IfOk, IfErr, OnErr};
ghost use Rattle.moments.specs.Due.{SomethingComes};
ghost use Rattle.moments.specs.Ticking.{HoldTheirSpis, Ticks};
ghost use Rattle.ike.specs.Soundness.{AreSound};
ghost use Rattle.ike.specs.Ticking.{TakesHeld};

use crate::held::Held;
use crate::{IkeOutput, Stepped};
use moments::tick;
use sadb::Table;
use std::alloc::{AllocError, Global};

// Does what is due at this time.
pub(crate) fn take_moment(
    alloc: Global,
    held: &mut Held,
    table: &mut Table,
    now: u64,
) -> Result<Stepped, AllocError>
    requires { AreSound held.old table.old }
    ensures taken { IfOk result (TakesHeld now held.old table.old held.new table.new) }
    ensures refused { IfErr result (λ _. (held.new ≡ held.old) × (table.new ≡ table.old)) }
    ensures needs { OnErr result (SomethingComes now held.old.associations) }
{
    let ticked = tick(alloc, &mut held.associations, table, now)?;
    Ok(Stepped::plain(IkeOutput::Ticked(ticked)))
}
