//! What a step sends, and what its trace names.
ghost use Rattle.ike.specs.LawsOfOutputs.{FewGoOutAgain, KeysStay, TracesNameWhatIsHeld, WhatGoesOutAgainHasKeys, WhatGoesOutAgainIsShort, WhatIsNotNamedIsInClear, WhatIsSentIsShort};

use crate::laws::soundness_stays;
use effects::laws::{
    associations_stay_themselves, keys_stay, orders_are_short_and_determined,
    pairs_that_come_are_told, what_goes_out_again_is_kept, what_is_kept_is_short,
};
use moments::laws::{
    no_more_go_out_than_wait, some_are_held_on, what_comes_is_due,
    what_goes_out_again_is_outstanding,
};

/// Whatever a step sends has at most 3000 octets, the limit of a message: a response, a request, or a
/// retransmission.
pub fn what_is_sent_is_short()
    ensures sent { WhatIsSentIsShort }
    ensures again { WhatGoesOutAgainIsShort }
{
    what_is_kept_is_short();
    orders_are_short_and_determined();
    what_goes_out_again_is_outstanding();
}

/// Only `Tick` retransmits requests, and only those that wait for an answer.
pub fn few_go_out_again()
    ensures { FewGoOutAgain }
{
    no_more_go_out_than_wait();
}

/// The trace is right and complete. What it names, the machine holds from then on: the IKE SA whose keys
/// sealed a message or were made, and the pair of a Child SA that was made. All that is new is named: keys
/// that an IKE SA did not have before, and a pair that was not in the table.
///
/// An IKE SA keeps its keys as long as it is held. What a `Tick` retransmits is of an IKE SA with keys, but
/// for requests of IKE_SA_INIT. What any other step sends without naming it goes in clear: a request of an
/// IKE SA without keys, the response that a half-open one keeps, or an answer to IKE_SA_INIT.
pub fn traces_name_what_is_held()
    ensures traced { TracesNameWhatIsHeld }
    ensures keys { KeysStay }
    ensures again { WhatGoesOutAgainHasKeys }
    ensures clear { WhatIsNotNamedIsInClear }
{
    soundness_stays();
    associations_stay_themselves();
    keys_stay();
    effects::laws::children_are_made_of_their_messages();
    pairs_that_come_are_told();
    some_are_held_on();
    what_comes_is_due();
    what_goes_out_again_is_kept();
    what_goes_out_again_is_outstanding();
}
