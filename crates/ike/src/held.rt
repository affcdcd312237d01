//! The IKE SAs that an end holds.
ghost use Rattle.std.specs.Prelude.{◌≡◌, ◌<◌, ◌++◌, ◌∷◌, [], ◌+◌, IfOk, IfErr, MatchOption};
ghost use Rattle.std.specs.List.{list_any, position};
ghost use Rattle.std.specs.Option.{option_copied};
ghost use Rattle.ike.specs.Machines.{association_of, half_open_count, has_own_spi, has_serial, is_bad_spi, is_half_open, none_held, spi_by_role, SERIAL_END};
ghost use Rattle.ike.specs.Receiving.{is_answered, with_next};

use association::{Association, Phase};
use exchange::Role;
use std::alloc::{AllocError, Global};
use std::marker::Model;

// The IKE SAs in the order in which they were made, and the serial of the next one.
#[derive(Drop)]
pub(crate) struct Held {
    // The next serial where all are used up: one past the greatest.
    pub next: u64,
    pub associations: Vec<Association>,
}

impl Model for Held {
    ghost use Rattle.std.specs.Prelude.{◌≤◌};
    ghost use Rattle.std.specs.Coded.{codes};
    ghost use Rattle.association.specs.contracts.phase.Association as association;
    ghost use Rattle.ike.specs.Machines as machines;

    ghost Value = { machines.Held };

    ghost coded = { Prim.hlevel (codes, association.the_row.coded) };

    ghost view = { λ h. record { next = h.next; associations = h.associations.items } };

    ghost invariant = { λ h. h.next ≤ machines.SERIAL_END };
}

impl Held {
    pub fn new(alloc: Global) -> Held
        ensures { result ≡ none_held }
    {
        Held {
            next: 1,
            associations: Vec::new(alloc),
        }
    }

    pub fn associations(&self) -> &[Association]
        ensures { result.now ≡ self.now.associations }
    {
        self.associations.as_slice()
    }

    /// The serial of the next IKE SA, if one is left.
    pub fn next_serial(&self) -> Option<u32>
        ensures { MatchOption result (self.now.next ≡ SERIAL_END)
            (λ serial. (serial ≡ self.now.next) × (self.now.next < SERIAL_END)) }
    {
        u32::try_from(self.next).ok()
    }

    /// Adds the IKE SA that has the next serial. An error is an allocation failure, and changes nothing.
    pub fn push(&mut self, association: Association) -> Result<(), AllocError>
        requires { self.old.next < SERIAL_END }
        ensures pushed { IfOk result (λ _. self.new ≡ with_next self.old association) }
        ensures refused { IfErr result (λ _. self.new ≡ self.old) }
    {
        self.associations.reserve(1)?;
        self.associations.push_reserved(association);
        self.next += 1;
        Ok(())
    }
}

// Whether no new IKE SA can have the SPI: it is zero, or this end uses it.
pub(crate) fn is_bad_spi(spi: u64, associations: &[Association]) -> bool
    ensures { result ≡ is_bad_spi spi associations.now }
{
    spi == 0 || has_spi(spi, associations)
}

fn has_spi(spi: u64, associations: &[Association]) -> bool
    ensures { result ≡ list_any (has_own_spi spi) associations.now }
{
    associations.iter().any(|a| has_own_spi(spi, a))
}

fn has_own_spi(spi: u64, association: &Association) -> bool
    ensures { result ≡ has_own_spi spi association.now }
{
    spi_by_role(association.role, association.spi_i, association.spi_r) == spi
}

// The SPI that this end chose.
fn spi_by_role(role: Role, spi_i: u64, spi_r: u64) -> u64
    ensures { result ≡ spi_by_role role spi_i spi_r }
{
    match role {
        Role::Initiator => spi_i,
        Role::Responder => spi_r,
    }
}

// Whether an IKE SA with this serial is held.
pub(crate) fn has_serial(serial: u32, associations: &[Association]) -> bool
    ensures { result ≡ list_any (has_serial serial) associations.now }
{
    associations.iter().any(|a| a.serial == serial)
}

// The IKE SA with this serial.
pub(crate) fn association_of(serial: u32, associations: &[Association]) -> Option<&Association>
    ensures { option_copied result ≡ association_of serial associations.now }
{
    associations.iter().find(|a| a.serial == serial)
}

// How many IKE SAs are half open.
pub(crate) fn half_open_count(associations: &[Association]) -> usize
    ensures { result ≡ half_open_count associations.now }
{
    let mut count = 0;
    for association in associations {
        if is_half_open(association) {
            count += 1;
        }
    }
    count
}

fn is_half_open(association: &Association) -> bool
    ensures { result ≡ is_half_open association.now }
{
    match &association.phase {
        Phase::HalfOpen(_) => true,
        _ => false,
    }
}

// The place of the half-open IKE SA that these octets made, if there is one.
pub(crate) fn answered_place(associations: &[Association], octets: &[u8]) -> Option<usize>
    ensures { result ≡ position (is_answered octets.now) associations.now }
{
    associations.iter().position(|a| is_answered(octets, a))
}

fn is_answered(octets: &[u8], association: &Association) -> bool
    ensures { result ≡ is_answered octets.now association.now }
{
    match &association.phase {
        Phase::HalfOpen(half_open) => half_open.request.as_slice() == octets,
        _ => false,
    }
}
