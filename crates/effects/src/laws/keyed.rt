//! The keys of an IKE SA, and what is sent under them.
ghost use Rattle.effects.specs.LawsOfKeys.{EffectsHaveTheirKeys, KeysComeAsOneAsks, KeysStay, RepliesOpen, RequestsOfIdentityOpen, RequestsOpen, WhatIsCountedOpens, WhatIsRepliedToOpens, WhatIsSealedOpens, WhoAsksHadNoKeys, WhoBeginsAgainHasNoKeys};

use crate::laws::requests_take_effect;
use association::laws::{receptions_say_why, repeats_say_why};
use exchange::laws::sealed_messages_open;
use suite::Sealer;

/// A message leaves an IKE SA its keys, and what is sent under keys is sent by an IKE SA that has them. Keys
/// come by the response to IKE_SA_INIT alone, to an initiator that had none and asks for its Child SA now. An
/// initiator whose request is sent again with a cookie has none.
pub fn keys_stay()
    ensures stay { KeysStay }
    ensures keyed { EffectsHaveTheirKeys }
    ensures come { KeysComeAsOneAsks }
    ensures none { WhoAsksHadNoKeys }
    ensures again { WhoBeginsAgainHasNoKeys }
{
    repeats_say_why();
}

/// What is sent under an IKE SA's keys opens as what it is, where the cipher opens what it seals. A reply
/// opens as the response to its request, the request of IKE_AUTH as that with Message ID 1, a command's
/// request as that with the next Message ID. A message that puts a request into effect opens as that
/// request of the peer, and one that is matched as that response (RFC 7296, sections 2.2, 3.1 and 3.14).
pub fn messages_open()
    ensures reply { RepliesOpen }
    ensures identity { RequestsOfIdentityOpen }
    ensures requested { RequestsOpen }
    ensures taken { WhatIsRepliedToOpens }
    ensures counted { WhatIsCountedOpens }
{
    receptions_say_why();
    requests_take_effect();
}

/// A provider's cipher opens what it seals with 16 fresh octets.
pub fn what_is_sealed_opens<S: Sealer>(sealer: &S)
    ensures { WhatIsSealedOpens S.body_of S.plain_of }
{
    sealed_messages_open(sealer);
}
