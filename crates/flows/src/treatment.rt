//! What is done with a flow on its way out.
ghost use Rattle.std.specs.Prelude.{◌≡◌, IsTrue, ◌↔◌};
ghost use Rattle.sadb.specs.Database.{IsLive};
ghost use Rattle.flows.specs.Treatments.{Counts, IsTreatment};

use policy::{Decision, Direction, Flow, Policy};
use sadb::{Pair, State, Table};

/// What is done with a flow on its way out. A pair is told by its serial.
#[derive(Clone, Copy, Debug, PartialEq, Eq)]
pub enum Treatment {
    /// It is protected, by this pair.
    Carried(u32),
    /// It is to be protected, and no pair carries it.
    Uncarried,
    /// It goes in the clear.
    Bypassed,
    /// It does not go.
    Discarded,
}

impl Treatment {
    // Whether it counts still: the pair that it names, if it names one, is Live.
    pub(crate) fn counts(self, table: &Table) -> bool
        ensures { IsTrue result ↔ Counts table.now.pairs self }
    {
        match self {
            Treatment::Carried(child) => stands(table, child),
            Treatment::Uncarried | Treatment::Bypassed | Treatment::Discarded => true,
        }
    }
}

/// Looks up what is done with a flow on its way out: what the policy decides, and which pair carries it.
/// Takes no memory.
pub fn look_up(table: &Table, policy: &Policy, flow: &Flow) -> Treatment
    ensures { IsTreatment policy.now table.now.pairs flow.now result }
{
    match policy.decide(flow, Direction::Outward) {
        Decision::Protect => match table.outbound(flow) {
            Some(child) => Treatment::Carried(child),
            None => Treatment::Uncarried,
        },
        Decision::Bypass => Treatment::Bypassed,
        Decision::Discard => Treatment::Discarded,
    }
}

// Whether the pair with this serial is there, and Live.
fn stands(table: &Table, serial: u32) -> bool
    ensures { IsTrue result ↔ IsLive table.now.pairs serial }
{
    match table.get(serial) {
        Some(pair) => is_live(pair),
        None => false,
    }
}

fn is_live(pair: &Pair) -> bool
    ensures { IsTrue result ↔ (pair.now.state ≡ State.Live) }
{
    pair.state == State::Live
}
