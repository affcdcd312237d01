//! Lengths of what is kept, sent and sealed.
ghost use Rattle.effects.specs.LawsOfLengths.{AdmissionsAreShort, AdmittedKeysAreWhole, BeginningsAreShort, KeysStayWhole, LengthsAreTold, WhatIsKeptStaysShort, WhatIsSentIsShort};

use association::laws::repeats_say_why;
use exchange::laws::ciphers_tell_lengths;
use suite::Sealer;
use suite::laws::derived_keys_are_keys;

/// All that an IKE SA keeps to send again has at most 3000 octets, the limit of a message: cached responses,
/// outstanding requests, and the response that a half-open IKE SA keeps. So has what a message makes an end
/// send, and what it sends as an IKE SA begins.
pub fn what_is_kept_is_short()
    ensures stays { WhatIsKeptStaysShort }
    ensures sent { WhatIsSentIsShort }
    ensures begun { BeginningsAreShort }
    ensures admitted { AdmissionsAreShort }
{
    repeats_say_why();
}

/// With 16 fresh octets, the length of a body that a provider's cipher seals follows from that of its plain
/// text.
pub fn lengths_are_told<S: Sealer>(sealer: &S)
    ensures { LengthsAreTold S.body_of }
{
    ciphers_tell_lengths(sealer);
}

/// The keys of an IKE SA have 32 octets each: those that are derived for a half-open one, and those after a
/// message.
pub fn keys_stay_whole()
    ensures admitted { AdmittedKeysAreWhole }
    ensures taken { KeysStayWhole }
{
    derived_keys_are_keys();
}
