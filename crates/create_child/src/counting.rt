//! The response to a request of this end for an additional Child SA.
ghost use Rattle.std.specs.Prelude.{◌≡◌, IfOk, IfErr};
ghost use Rattle.sadb.specs.Database.{IsReserved};
ghost use Rattle.association.specs.Closing.{HoldsReserved, HoldsSpi};
ghost use Rattle.setup.specs.Configs.{setup_of};
ghost use Rattle.association.specs.Purposes.{SeeksAt};
ghost use Rattle.association.specs.declared.purpose.Sought.TheVariants as sought;
ghost use Rattle.create_child.specs.Concluding.{CanWantForAnswer};
ghost use Rattle.create_child.specs.Counting.{CountsWhereAwaited, EndsFurther, HasItsSpi};

use crate::concluding::{Concluded, conclude_response};
use association::laws::{children_are_asked_for, spis_stay_held};
use association::{Association, Ended, Fate, Phase, unless_made};
use children::{Asked, MemoryFault};
use exchange::Plain;
use further::Conclusion;
use sadb::{Spi, Table};
use setup::Setup;
use std::alloc::Global;

/// Matches the response to a request for an additional Child SA (RFC 7296, section 1.3.1), by the payloads
/// that it opened to and what [`conclude_response`] makes of them. The IKE SA is closed, the child
/// is made under the SPI that was reserved for it, or no child is made and that SPI is given up. Where no
/// child is made, the first error notification of the answer is told ([`Ended::declined`]). It is `None`, and
/// nothing is changed, where the IKE SA is not established.
///
/// The caller gives what the outstanding request with this Message ID asked for, and its nonce, and asks only
/// where the SPIs that the IKE SA holds are reserved in the table. The only error is an allocation failure,
/// for the message, or for the SA pair where the answer can make one: its place in the table stands since its
/// SPI was reserved. It changes nothing.
pub fn count<C>(
    alloc: Global,
    setup: &Setup<'_, C>,
    association: &mut Association,
    table: &mut Table,
    number: u32,
    asked: &Asked,
    nonce: &[u8; 32],
    plain: &Plain,
) -> Result<Option<Ended>, MemoryFault>
    requires sought { SeeksAt association.old.outgoing number (sought.Child asked.now nonce.now) }
    requires reserved { HoldsReserved association.old table.old }
    ensures counted { IfOk result (λ ended. CountsWhereAwaited (setup_of setup.now)
        association.old table.old number plain.now ended association.new table.new) }
    ensures refused { IfErr result (λ _. (association.new ≡ association.old) × (table.new ≡ table.old)) }
    ensures wanted { IfErr result (CanWantForAnswer asked.now plain.now) }
{
    let Phase::Established(keys) = &association.phase else {
        return Ok(None);
    };
    let blocks = setup.config.blocks();
    let concluded = conclude_response(
        alloc,
        plain,
        asked,
        nonce,
        association.serial,
        keys,
        blocks,
    )?;
    let Concluded { conclusion, error } = concluded;
    spis_stay_held();
    children_are_asked_for();
    // From here on nothing can be refused.
    let request = association.outgoing.count(number);
    let spi = request.purpose.into_spi().unwrap();
    let fate = conclude(association, table, spi, conclusion, setup.moment);
    let declined = unless_made(fate, error);
    Ok(Some(Ended { fate, declined }))
}

// The Child SA's SPI, which the IKE SA holds no more, goes to its SA pair or back to the table.
fn conclude(
    association: &mut Association,
    table: &mut Table,
    spi: Spi,
    conclusion: Conclusion,
    moment: u64,
) -> Fate
    requires held { HoldsReserved association.old table.old }
    requires reserved { IsReserved table.old spi }
    requires apart { ¬ HoldsSpi association.old spi }
    requires its_own { HasItsSpi spi conclusion }
    ensures { EndsFurther conclusion spi association.old table.old moment result association.new table.new }
{
    spis_stay_held();
    match conclusion {
        Conclusion::Closes => {
            table.release(spi);
            association.close(table, moment);
            Fate::Closed
        }
        Conclusion::Made(pair) => Fate::Made(table.install(spi, pair)),
        Conclusion::NoChild => {
            table.release(spi);
            Fate::Stands
        }
    }
}
