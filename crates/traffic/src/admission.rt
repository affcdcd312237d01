//! Packets that come in unprotected (RFC 4301, section 5.2, step 3b).
ghost use Rattle.traffic.specs.Admitting.{Admits};
ghost use Rattle.traffic.specs.Outcomes.{outcome_of_admission};

use crate::PacketFault;
use policy::{Decision, Direction, Policy, inner};

/// What became of a packet that came in unprotected.
#[derive(Clone, Copy, Debug, PartialEq, Eq)]
pub enum Admission<'a> {
    /// It goes in as it is.
    Clear(&'a [u8]),
    /// It doesn't, by the policy: it was to be protected, or is not wanted at all.
    Discarded,
    /// It is dropped.
    Dropped(PacketFault),
}

/// Judges a packet that came in unprotected: it goes in only where the policy bypasses its flow. Dropped
/// with the refusals of [`inner`] (E21, E22, E39). Takes no memory.
pub fn admit<'a>(policy: &Policy, packet: &'a [u8]) -> Admission<'a>
    ensures { Admits policy.now packet.now (outcome_of_admission result) }
{
    match inner(packet) {
        Err(fault) => Admission::Dropped(PacketFault::Inner(fault)),
        Ok(flow) => match policy.decide(&flow, Direction::Inward) {
            Decision::Bypass => Admission::Clear(packet),
            Decision::Protect | Decision::Discard => Admission::Discarded,
        },
    }
}
