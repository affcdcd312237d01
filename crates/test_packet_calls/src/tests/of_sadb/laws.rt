ghost use Rattle.std.specs.Prelude.{◌≡◌, ◌≢◌, IfOk};

use super::fixture::START;
use crate::tests::asserts::same;
use sadb::laws::{
    an_spi_names_one_pair, answers_are_determined, later_tables_follow, mirroring_is_symmetric,
    mirrors_exist, no_spi_is_given_twice, room_stays,
};
use sadb::{Table, TableFault};

// Nothing runs here: each law can be called.
#[test]
fn laws_can_be_called(rt: HostRuntime) {
    later_tables_follow();
    no_spi_is_given_twice();
    room_stays();
    an_spi_names_one_pair();
    answers_are_determined();
    mirroring_is_symmetric();
    mirrors_exist();
    Table::new(rt.alloc(), START).invariants_hold();
}

// Proved of any table, by the contracts of its calls alone.
fn reserved_twice(table: &mut Table) -> Result<(u32, u32), TableFault>
    ensures { IfOk result (λ both. both.0 ≢ both.1) }
{
    let first = table.reserve()?;
    let number = first.number();
    table.release(first);
    let second = table.reserve()?;
    Ok((number, second.number()))
}

fn prepared(table: &mut Table) -> Result<(u32, u32), TableFault>
    ensures { IfOk result (λ both. both.0 ≡ both.1) }
{
    let told = table.prepare()?;
    match table.reserve() {
        Ok(spi) => Ok((told, spi.number())),
        Err(_) => unreachable!(),
    }
}

#[test]
fn numbers_that_differ_and_agree(rt: HostRuntime) {
    let mut table = Table::new(rt.alloc(), START);
    same(&rt, reserved_twice(&mut table), Ok((START, START + 1)));
    same(&rt, prepared(&mut table), Ok((START + 2, START + 2)));
}
