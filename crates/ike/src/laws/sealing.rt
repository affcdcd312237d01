//! What a step seals, and at which IKE SA it took a message.
ghost use Rattle.ike.specs.Payloads.{OpensToItself};
ghost use Rattle.ike.specs.LawsOfSealing.{EachAssociationHoldsWholeKeys, EachAssociationIsSound, KeysComeWithTheFirstRequest, WhatGoesOutUnderKeysIsSealed, WhatIsToldWasTaken};

use auth::laws::windows_are_read_again;
use suite::Sealer;
use wire::laws::{octets_spell_one_message, plain_spellings_are_spellings};

/// Whatever a step sends under keys, but for what a tick sends again, is a response that goes out again, or is
/// sealed now: with the fresh octets of the step, under the keys of the IKE SA that the trace names. Its payloads tell no wider window than this
/// end is set to (RFC 7296, section 2.3). Keys that come with a request come with that of Message ID 1, the
/// one of IKE_AUTH.
pub fn what_goes_out_under_keys_is_sealed()
    ensures sealed { WhatGoesOutUnderKeysIsSealed }
    ensures first { KeysComeWithTheFirstRequest }
{
    windows_are_read_again();
}

/// Where a step tells that a response was matched or a request processed at an IKE SA, the message that came
/// is what that IKE SA took.
pub fn what_is_told_was_taken()
    ensures { WhatIsToldWasTaken }
{}

/// What holds of every IKE SA holds of the one that is found by a serial: the invariant, and that its keys
/// are whole.
pub fn each_association_is_sound()
    ensures sound { EachAssociationIsSound }
    ensures whole { EachAssociationHoldsWholeKeys }
{}

/// What is sealed opens to what was sealed, and to nothing else, as a message of the end that sealed it (RFC
/// 7296, section 3.14): by the law of [`Sealer`], that what is sealed with fresh octets opens again.
pub fn what_is_sealed_opens_to_itself<S: Sealer>()
    ensures { OpensToItself S.body_of S.plain_of }
{
    octets_spell_one_message();
    plain_spellings_are_spellings();
}
