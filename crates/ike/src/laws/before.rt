//! What an IKE SA was before a step.
ghost use Rattle.ike.specs.LawsOfBefore.{EachAssociationWasThereOrCame, FirstRequestsTellWhatIsHeld, NoSerialIsGivenAgain, WhoAsksHasRead, WhoAsksWithoutKeysWaited, WhoIsHalfOpenWasSo, WhoWaitsKeepsItsOffer};

use effects::laws::{associations_stay_themselves, requests_are_remembered};
use moments::laws::some_are_held_on;

/// Each IKE SA that is held after a step was held before it: it is as it was, or took the datagram's message,
/// or asked its peer for something, or was held on at a tick. Or it came with the step, under the next serial:
/// a request of IKE_SA_INIT made it, or this end began it. No serial is given again.
pub fn each_association_was_there_or_came()
    ensures each { EachAssociationWasThereOrCame }
    ensures rising { NoSerialIsGivenAgain }
{
    associations_stay_themselves();
    some_are_held_on();
}

/// What goes out of an IKE SA that waits for the response of IKE_SA_INIT then is its request, for the first
/// time or again with a cookie. It tells the SPI, the nonce and the public value that the IKE SA holds of
/// itself (RFC 7296, sections 1.2 and 2.6).
pub fn first_requests_tell_what_is_held()
    ensures { FirstRequestsTellWhatIsHeld }
{
    associations_stay_themselves();
    some_are_held_on();
}

/// An IKE SA that waits for the response of IKE_SA_INIT after a step waited before it, where it was there. It
/// holds the same SPI, secret and nonce of itself (RFC 7296, section 2.6: a cookie changes none of them).
pub fn who_waits_keeps_its_offer()
    ensures { WhoWaitsKeepsItsOffer }
{
    associations_stay_themselves();
    some_are_held_on();
}

/// An IKE SA that waited for the response of IKE_SA_INIT, and asks by IKE_AUTH after a step, read that response
/// from the datagram. It keeps the response, and has keys with its own nonce (RFC 7296, section 2.15). One that
/// asks by IKE_AUTH, and had no keys, waited so (`waited`).
pub fn who_asks_has_read()
    ensures read { WhoAsksHasRead }
    ensures waited { WhoAsksWithoutKeysWaited }
{
    associations_stay_themselves();
    some_are_held_on();
}

/// An IKE SA that is half-open after a step, and was there before it, was half-open with the same keys, request
/// and reply.
pub fn who_is_half_open_was_so()
    ensures { WhoIsHalfOpenWasSo }
{
    requests_are_remembered();
}
