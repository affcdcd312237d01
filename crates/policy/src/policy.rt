//! A policy and its decisions.
ghost use Rattle.std.specs.Prelude.{◌≡◌, IsTrue, ◌↔◌, IfOk, IfErr, List};
ghost use Rattle.policy.specs.Decisions.{HoldsFlow, IsDecision};
ghost use Rattle.policy.specs.Entries.{IsFirstEntryAtFault, IsSoundPolicy};
ghost use Rattle.policy.specs.Faults.{place_of_policy_fault};

use crate::entry::{Action, Entry};
use crate::fault::PolicyFault;
use crate::flow::Flow;
use crate::selectors::holds;
use base::Items;
use std::marker::Model;

// The most entries that a policy may have, a limit of this implementation.
const ENTRY_LIMIT: usize = 256;

/// Which way a flow goes.
#[derive(Clone, Copy, Debug, PartialEq, Eq)]
pub enum Direction {
    /// From the local side to the remote one.
    Outward,
    /// From the remote side to the local one.
    Inward,
}

/// What is done with a flow.
pub type Decision = Action;

/// Entries in their order, of which the first that fits counts. Contracts see the list of entries.
#[derive(Debug, Drop)]
pub struct Policy {
    entries: Items<Entry>,
}

impl Model for Policy {
    ghost use Rattle.std.specs.Prelude.{List};
    ghost use Rattle.policy.specs.declared.entry.Entry.{Entry};
    ghost use Rattle.policy.specs.Entries.{IsSoundPolicy};

    ghost Value = { List Entry };

    ghost view = { λ p. p.entries };

    ghost invariant = { λ p. IsSoundPolicy p.entries };
}

impl Policy {
    /// A policy of at most 256 entries, which takes no memory. [`PolicyFault::BadEntry`] (E6) tells the
    /// first entry with a range that ends below its start or with sides of two families, or the one that
    /// comes after 256 others.
    pub fn new(entries: Items<Entry>) -> Result<Policy, PolicyFault>
        ensures policy { IfOk result (λ policy. policy ≡ entries) }
        ensures sound { IfOk result (λ policy. IsSoundPolicy policy) }
        ensures fault { IfErr result (λ fault. IsFirstEntryAtFault entries (place_of_policy_fault fault)) }
    {
        for (index, entry) in entries.as_slice().iter().enumerate() {
            if index >= ENTRY_LIMIT || !entry.is_sound() {
                return Err(PolicyFault::BadEntry { index });
            }
        }
        Ok(Policy { entries })
    }

    /// The entries in their order, of which none is at fault.
    pub fn entries(&self) -> &[Entry]
        ensures entries { result.now ≡ self.now }
        ensures sound { IsSoundPolicy self.now }
    {
        self.entries.as_slice()
    }

    /// What is done with a flow: the action of the first entry that holds its source and its target,
    /// [`Action::Discard`] where none does. Outward the source is on the local side of an entry, inward on
    /// the remote one.
    pub fn decide(&self, flow: &Flow, direction: Direction) -> Decision
        ensures { IsDecision self.now flow.now direction result }
    {
        for entry in self.entries() {
            if holds_flow(entry, flow, direction) {
                return entry.action;
            }
        }
        Decision::Discard
    }
}

// Whether an entry holds both points of a flow.
fn holds_flow(entry: &Entry, flow: &Flow, direction: Direction) -> bool
    ensures { IsTrue result ↔ HoldsFlow direction flow.now entry.now }
{
    let (sources, targets) = match direction {
        Direction::Outward => (entry.local_side(), entry.remote_side()),
        Direction::Inward => (entry.remote_side(), entry.local_side()),
    };
    holds(&sources, flow.source_point()) && holds(&targets, flow.target_point())
}
