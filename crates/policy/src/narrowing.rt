//! Narrowing an offer of selectors to a policy.
ghost use Rattle.std.specs.Prelude.{IsTrue, ◌↔◌, MatchOption, IfOk, IfErr, ℕ};
ghost use Rattle.policy.specs.declared.entry.Entry.{Entry};
ghost use Rattle.base.specs.Lists.{HoldsOfNone, IsFirst};
ghost use Rattle.policy.specs.Narrowing.{FitsFirst, FitsSome, HoldsFirst, IsAcceptableOffer, IsChosenEntry, IsNarrowRefusal, IsNarrowed, IsNarrowing, MeetsOffer};

use crate::entry::{Action, Entry};
use crate::fault::NarrowFault;
use crate::policy::Policy;
use crate::selectors::{common_part, has_point, lies_in, meets};
use base::{Items, Selector};
use std::alloc::{AllocError, Global};

/// What a responder agrees to: the initiator's selectors and its own.
#[derive(Debug, Drop, PartialEq, Eq)]
pub struct Narrowed {
    pub initiator: Items<Selector>,
    pub responder: Items<Selector>,
}

/// Narrows an offer to the policy of the responder (RFC 7296 section 2.9): the responder's selectors are
/// the local side.
///
/// One entry with the action Protect is chosen. Where the first selectors of both lists have points, it is
/// the first entry that takes these two in whole, each on its side. Where there is none, or one of them has
/// no point, it is the first that has points of both lists. The answer has, in the offered order, the part
/// of each offered selector inside the entry, and leaves out those without points.
///
/// [`NarrowFault::Unacceptable`] (E23) where no entry can be chosen, as for a list of no selector. Behind a
/// choice there is one refusal left, [`NarrowFault::Memory`] (E24), where a growth was refused.
pub fn narrow(
    alloc: Global,
    offered_i: &[Selector],
    offered_r: &[Selector],
    policy: &Policy,
) -> Result<Narrowed, NarrowFault>
    ensures narrowed { IfOk result (λ n.
        IsNarrowing policy.now offered_i.now offered_r.now n.initiator n.responder) }
    ensures refused { IfErr result (IsNarrowRefusal policy.now offered_i.now offered_r.now) }
{
    let Some(entry) = chosen(policy.entries(), offered_i, offered_r) else {
        return Err(NarrowFault::Unacceptable);
    };
    let Ok(initiator) = narrow_list(alloc, offered_i, &entry.remote_side()) else {
        return Err(NarrowFault::Memory);
    };
    let Ok(responder) = narrow_list(alloc, offered_r, &entry.local_side()) else {
        return Err(NarrowFault::Memory);
    };
    Ok(Narrowed {
        initiator,
        responder,
    })
}

// The part of each offered selector inside one side of an entry, where it has points.
fn narrow_list(
    alloc: Global,
    offered: &[Selector],
    side: &Selector,
) -> Result<Items<Selector>, AllocError>
    ensures { IfOk result (IsNarrowed side.now offered.now) }
{
    let mut narrowed = Items::new(alloc);
    for selector in offered {
        if let Some(part) = common_part(selector, side) {
            narrowed.push(part)?;
        }
    }
    Ok(narrowed)
}

// The entry that an offer is narrowed to.
fn chosen<'a>(
    entries: &'a [Entry],
    offered_i: &[Selector],
    offered_r: &[Selector],
) -> Option<&'a Entry>
    ensures { MatchOption result (¬ IsAcceptableOffer entries.now offered_i.now offered_r.now)
        (λ entry. (place : ℕ) × IsChosenEntry entries.now offered_i.now offered_r.now place entry.now) }
{
    if let Some(entry) = first_that_fits_first(entries, offered_i, offered_r) {
        return Some(entry);
    }
    first_that_fits_some(entries, offered_i, offered_r)
}

fn first_that_fits_first<'a>(
    entries: &'a [Entry],
    offered_i: &[Selector],
    offered_r: &[Selector],
) -> Option<&'a Entry>
    ensures { MatchOption result (HoldsOfNone (FitsFirst offered_i.now offered_r.now) entries.now)
        (λ entry. (place : ℕ) × IsFirst (FitsFirst offered_i.now offered_r.now) entries.now place entry.now) }
{
    for entry in entries {
        if fits_first(entry, offered_i, offered_r) {
            return Some(entry);
        }
    }
    None
}

fn first_that_fits_some<'a>(
    entries: &'a [Entry],
    offered_i: &[Selector],
    offered_r: &[Selector],
) -> Option<&'a Entry>
    ensures { MatchOption result (HoldsOfNone (FitsSome offered_i.now offered_r.now) entries.now)
        (λ entry. (place : ℕ) × IsFirst (FitsSome offered_i.now offered_r.now) entries.now place entry.now) }
{
    for entry in entries {
        if fits_some(entry, offered_i, offered_r) {
            return Some(entry);
        }
    }
    None
}

// Whether an entry protects the whole of the first selector of each list.
fn fits_first(entry: &Entry, offered_i: &[Selector], offered_r: &[Selector]) -> bool
    ensures { IsTrue result ↔ FitsFirst offered_i.now offered_r.now entry.now }
{
    entry.action == Action::Protect
        && holds_first(&entry.remote_side(), offered_i)
        && holds_first(&entry.local_side(), offered_r)
}

// Whether an entry protects something of each list.
fn fits_some(entry: &Entry, offered_i: &[Selector], offered_r: &[Selector]) -> bool
    ensures { IsTrue result ↔ FitsSome offered_i.now offered_r.now entry.now }
{
    entry.action == Action::Protect
        && meets_offer(&entry.remote_side(), offered_i)
        && meets_offer(&entry.local_side(), offered_r)
}

// Whether the first of the selectors has a point, and lies in the side.
fn holds_first(side: &Selector, offered: &[Selector]) -> bool
    ensures { IsTrue result ↔ HoldsFirst side.now offered.now }
{
    match offered {
        [first, ..] => has_point(first) && lies_in(first, side),
        [] => false,
    }
}

// Whether any of the selectors has points inside the side.
fn meets_offer(side: &Selector, offered: &[Selector]) -> bool
    ensures { IsTrue result ↔ MeetsOffer side.now offered.now }
{
    for selector in offered {
        if meets(selector, side) {
            return true;
        }
    }
    false
}
