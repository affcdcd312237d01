//! What becomes of packets.
ghost use Rattle.gateway.specs.LawsOfPackets.{DroppedOutwardPacketsChangeNothing, InwardPacketsChangeNothing, JudgedPacketsTakeOneNumber, OnlyTheBypassedComesInInTheClear, OnlyTheBypassedGoesOutInTheClear, TheProtectedGoesSealed, UnjudgedPacketsChangeNothing};

use traffic::laws::{a_packet_takes_one_number, only_the_bypassed_goes_in_the_clear};

/// A packet that the policy protects never goes in the clear, outward or inward. Outward it goes sealed or
/// not at all: there is no SA for it (E28), no sequence number is left (E12), or no memory. Only packets
/// that the policy bypasses pass unchanged.
pub fn the_protected_never_goes_in_the_clear<C>()
    ensures outward { OnlyTheBypassedGoesOutInTheClear C }
    ensures protected { TheProtectedGoesSealed C }
    ensures inward { OnlyTheBypassedComesInInTheClear C }
{
    only_the_bypassed_goes_in_the_clear();
}

/// An ESP packet that is dropped before it is accepted changes nothing. One that is dropped after that (E19
/// for its padding; E21, E22, E23 or E39 for its payload) takes exactly one sequence number, its own. Any
/// other packet that is dropped changes nothing.
pub fn a_dropped_packet_takes_one_number_at_most<C>()
    ensures judged { JudgedPacketsTakeOneNumber C }
    ensures unjudged { UnjudgedPacketsChangeNothing C }
    ensures outward { DroppedOutwardPacketsChangeNothing C }
    ensures inward { InwardPacketsChangeNothing C }
{
    a_packet_takes_one_number();
}
