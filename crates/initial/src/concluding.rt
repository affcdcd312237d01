//! What becomes of an IKE SA when IKE_AUTH is done.
ghost use Rattle.std.specs.Prelude.{◌≡◌, false, Option, Some, None};
ghost use Rattle.auth.specs.Windows.{IsWindow};
ghost use Rattle.association.specs.Outcomes.{closed_by, made_by};
ghost use Rattle.association.specs.Phases.{established_spi};
ghost use Rattle.initial.specs.Concluding.{established, widened, AddsChild, CanAdd, CanConclude, ConcludesBy, EstablishesBy};
ghost use Rattle.setup.specs.Configs.{setup_of};

use association::{Association, Fate};
use children::install;
use sadb::{Pair, Spi, Table};
use setup::Setup;

/// How IKE_AUTH ends.
#[derive(Drop)]
pub enum Outcome {
    /// The IKE SA is over.
    Closes,
    /// It is established.
    Establishes {
        /// Its first Child SA, if it has one.
        pair: Option<Pair>,
        /// The peer's window (RFC 7296, section 2.3).
        window: u8,
    },
}

/// Brings an IKE SA and the table to an outcome. The serial of the Child SA is answered, if there is one.
/// Takes no memory.
pub fn conclude<C>(
    setup: &Setup<'_, C>,
    association: &mut Association,
    table: &mut Table,
    outcome: Outcome,
) -> Fate
    requires ready { CanConclude association.old table.old outcome }
    ensures { ConcludesBy
        (setup_of setup.now) association.old table.old outcome result association.new table.new }
{
    match outcome {
        Outcome::Closes => {
            association.close(table, setup.moment);
            Fate::Closed
        }
        Outcome::Establishes { pair, window } => establish(
            association,
            table,
            pair,
            setup.config.window(),
            window,
        ),
    }
}

// The Child SA is added, and both windows apply from now on.
fn establish(
    association: &mut Association,
    table: &mut Table,
    pair: Option<Pair>,
    own: u8,
    peers: u8,
) -> Fate
    requires own { IsWindow own }
    requires peers { IsWindow peers }
    requires ready { CanAdd table.old (established_spi association.old.phase) pair }
    ensures stands { closed_by result ≡ false }
    ensures added { AddsChild table.old (established_spi association.old.phase) pair (made_by result) table.new }
    ensures content { association.new ≡ widened own peers (established association.old) }
{
    let spi = association.establish();
    widen(association, own, peers);
    add(table, spi, pair)
}

fn widen(association: &mut Association, own: u8, peers: u8)
    requires own { IsWindow own }
    requires peers { IsWindow peers }
    ensures { association.new ≡ widened own peers association.old }
{
    association.incoming.invariants_hold();
    association.outgoing.invariants_hold();
    let size = own.max(association.incoming.size());
    association.incoming.set_size(size);
    let window = peers.max(association.outgoing.window());
    association.outgoing.set_window(window);
}

// A Child SA takes the SPI that was reserved for it, which is given up where there is none; or the next one,
// where none was.
fn add(table: &mut Table, spi: Option<Spi>, pair: Option<Pair>) -> Fate
    requires { CanAdd table.old spi pair }
    ensures stands { closed_by result ≡ false }
    ensures added { AddsChild table.old spi pair (made_by result) table.new }
{
    match (spi, pair) {
        (Some(spi), Some(pair)) => Fate::Made(table.install(spi, pair)),
        (Some(spi), None) => {
            table.release(spi);
            Fate::Stands
        }
        (None, Some(pair)) => Fate::Made(install(table, pair)),
        (None, None) => Fate::Stands,
    }
}
