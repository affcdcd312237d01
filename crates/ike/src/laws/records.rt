//! How both ends of an IKE SA come to their keys.
ghost use Rattle.ike.specs.LawsOfRecords.{FirstAnswersIntroduceTheirSenders, FirstRequestsIntroduceTheirSenders};
ghost use Rattle.ike.specs.LawsOfRecords.{KeysComeToTheInitiator, KeysComeToTheResponder, OctetsIntroduceOneSender};
ghost use Rattle.ike.specs.Records.{agreeing_by, ComesToKeysAsInitiator, ComesToKeysAsResponder, Introduction};
ghost use Rattle.std.specs.Prelude.{◌≡◌, ℕ};
ghost use Rattle.initial.specs.Reading.{Asker};
ghost use Rattle.suite.specs.declared.key_record.KeyRecord.{KeyRecord};
ghost use Rattle.suite.specs.declared.sealer.Cipher.{Cipher};

use suite::Agreement;
use wire::laws::{octets_spell_one_message, plain_spellings_are_spellings};

/// Both ends make one record of keys (RFC 7296, section 2.14). One step gave an end its keys as initiator, and
/// one gave an end its keys as responder. Each took the SPI, the value of the key exchange and the nonce that
/// the other's IKE SA holds of itself. That is enough, by the agreement's law alone: whatever else the messages
/// had, and whatever ciphers and groups the ends ask for.
pub fn both_ends_make_one_record<C: Agreement>()
    ensures { (asker : Asker) (theirs : Cipher) (their_group : ℕ)
        (initiator responder : Introduction) (one other : KeyRecord)
        → ComesToKeysAsInitiator (agreeing_by C.Agreement asker) initiator responder one
        → ComesToKeysAsResponder theirs their_group C.public_value C.shared_secret responder initiator other
        → one ≡ other }
{}

/// An IKE SA that waited for the response of IKE_SA_INIT, and has keys after a datagram, read them from it. One
/// that a datagram made, with keys, took them from it. Either way they come by what the datagram says of its
/// sender, and by what the IKE SA holds of itself (RFC 7296, sections 1.2 and 2.14).
pub fn keys_come_by_what_is_read()
    ensures initiator { KeysComeToTheInitiator }
    ensures responder { KeysComeToTheResponder }
{
    octets_spell_one_message();
}

/// What an end sends in IKE_SA_INIT tells of its IKE SA what that holds of itself: the SPI, the value of the key
/// exchange and the nonce (RFC 7296, section 1.2). So it is of a request, with a cookie or without, and of the
/// response by which a half-open IKE SA is made. Octets tell it of one sender alone.
pub fn first_messages_introduce_their_senders()
    ensures request { FirstRequestsIntroduceTheirSenders }
    ensures answer { FirstAnswersIntroduceTheirSenders }
    ensures one { OctetsIntroduceOneSender }
{
    octets_spell_one_message();
    plain_spellings_are_spellings();
}
