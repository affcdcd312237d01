//! What a peer has to show before it is served.
ghost use Rattle.ike.specs.LawsOfPeers.{NoAssociationWithoutACookie, TheEstablishedProvedThemselves};

use effects::laws::associations_stay_themselves;
use moments::laws::some_are_held_on;
use sa_init::laws::acceptance_is_limited;

/// An established peer has proved its identity (RFC 7296, section 2.15). An IKE SA that is established
/// after a step was established before, or the input is a datagram that opens under its keys and proves the
/// configured peer's identity. No command establishes one.
pub fn the_established_proved_themselves()
    ensures { TheEstablishedProvedThemselves }
{
    some_are_held_on();
    associations_stay_themselves();
    effects::laws::the_established_proved_themselves();
}

/// While 8 or more IKE SAs are half open, a datagram makes another one only if it brings the right cookie
/// for its sender and its nonce (RFC 7296, section 2.6).
pub fn no_association_without_a_cookie()
    ensures { NoAssociationWithoutACookie }
{
    acceptance_is_limited();
    associations_stay_themselves();
}
