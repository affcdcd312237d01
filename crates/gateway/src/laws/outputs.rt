//! What a step sends, what it makes, and what its trace names.
ghost use Rattle.gateway.specs.LawsOfOutputs.{FewGoOutAgain, MadeChildrenAreStored, MadeKeysAreStored, SentMessagesAreStored, WhatGoesOutAgainIsStored, WhatGoesUpIsPartOfWhatCame, WhatIsMadeFits, WhatIsSentFits};

use esp::laws::sealed_packets_open;
use ike::laws::{children_have_few_selectors, traces_name_what_is_held, what_is_sent_is_short};

/// A datagram that is sent has at most 16,664 octets, the longest ESP packet that the other end opens. A
/// retransmitted request has at most 3000.
pub fn what_is_sent_fits<C>()
    ensures { WhatIsSentFits C }
{
    what_is_sent_is_short();
    sealed_packets_open();
}

/// Only `Tick` retransmits requests of this end, and only those that wait for an answer.
pub fn few_go_out_again<C>()
    ensures { FewGoOutAgain C }
{
    ike::laws::few_go_out_again();
}

/// A delivered packet is a part of the ESP packet that came, from its ninth octet on: it lies in the
/// borrowed octets, behind SPI and sequence number (RFC 4303, section 2).
pub fn what_goes_up_is_part_of_what_came<C>()
    ensures { WhatGoesUpIsPartOfWhatCame C }
{}

/// A Child SA that a step makes has at most 16 selectors on either side (RFC 7296, section 3.13; a limit of
/// this implementation).
pub fn what_is_made_fits<C>()
    ensures { WhatIsMadeFits C }
{
    children_have_few_selectors();
}

/// What a step's trace names is stored in the world's log: an encrypted message with its key record, marked
/// as request or response, and the key record and the Child SA that the step made. A retransmitted request is
/// stored too, except that of IKE_SA_INIT, which goes in clear.
pub fn what_is_told_is_stored<C>()
    ensures message { SentMessagesAreStored C }
    ensures keyed { MadeKeysAreStored C }
    ensures child { MadeChildrenAreStored C }
    ensures again { WhatGoesOutAgainIsStored C }
{
    traces_name_what_is_held();
}
