//! What becomes of an IKE SA with keys, as moves: events of its Message IDs, without payloads.
ghost use Rattle.effects.specs.LawsOfMoves.{AdmissionsMakeKeys, BeginningsHaveNoKeys, ClosingIsOneMove, EffectsAreTwoMovesAtMost, KeysComeByTheInitialResponse, MessagesMakeMoves, RemovalIsOneMove, RepeatedRepliesAreKept, RequestsAreIssued, SendingAgainIsNoMove, WaitingRequestsAreKept};

use association::laws::{receptions_say_why, repeats_say_why};
use auth::laws::windows_are_read_again;
use moments::laws::who_is_gone_was_asked;

/// What becomes of an IKE SA with keys, as moves (RFC 7296, sections 2.1 to 2.4). The *ledger* of an IKE SA
/// is what moves speak of: keys, role, Message IDs, and octets that wait or are kept.
///
/// - A message makes two moves at most, those that its effect names. They lead from the ledger before to
///   the ledger after.
/// - To answer a first request, to send a command's request, to close and to remove an IKE SA is one move
///   each.
/// - A dropped message, a retransmission of the peer and one of this end make none.
/// - There is no ledger before this end has keys. An initiator gets them by a response of IKE_SA_INIT.
///
/// The configuration has to be a valid one.
pub fn messages_make_moves()
    ensures message { MessagesMakeMoves }
    ensures requested { RequestsAreIssued }
    ensures admitted { AdmissionsMakeKeys }
    ensures begun { BeginningsHaveNoKeys }
    ensures initial { KeysComeByTheInitialResponse }
    ensures sending { SendingAgainIsNoMove }
    ensures closing { ClosingIsOneMove }
    ensures removal { RemovalIsOneMove }
    ensures few { EffectsAreTwoMovesAtMost }
{
    receptions_say_why();
    who_is_gone_was_asked();
    windows_are_read_again();
}

/// What is sent again under an IKE SA's keys stands in its ledger: the cached response to a retransmitted
/// request, and an outstanding request of any exchange but IKE_SA_INIT, which goes in clear (RFC 7296,
/// section 2.1).
pub fn what_goes_out_again_is_kept()
    ensures reply { RepeatedRepliesAreKept }
    ensures request { WaitingRequestsAreKept }
{
    repeats_say_why();
}
