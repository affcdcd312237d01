//! What the payloads of a message bring: a Child SA, an answer to an offer, a proof of the peer's identity.
ghost use Rattle.effects.specs.LawsOfPayloads.{AnswersKeepToTheirOffers, AuthAnswersKeepToTheirOffers, ChildrenAreMadeOfTheirMessages, FurtherAnswersKeepToTheirOffers, InitialAnswersKeepToTheirOffers, NoMessageAsksForAFurtherChild, NoOtherOrderAsksForAFurtherChild, FurtherOrdersAskForTheirChild, TheEstablishedProvedThemselves, TheFirstChildIsTheOneAskedFor, TheRequestAsksForTheFirstChild, WhoARequestEstablishesProvedItself, WhoAResponseEstablishesProvedItself, WhoWaitsWaitedOrAsksNow};

use association::laws::receptions_say_why;
use auth::laws::{who_is_accepted_proved_itself, windows_are_read_again};
use children::laws::{
    pairs_are_children, pairs_have_few_selectors, responses_keep_to_their_offers,
    what_is_accepted_was_asked,
};
use exchange::laws::what_counts_fits;
use further::laws::{
    further_children_keep_to_their_offers, further_pairs_are_children,
    further_pairs_have_few_selectors,
};
use requests::laws::later_incoming_follow;
use suite::laws::ends_agree;
use wire::laws::what_is_read_fits;

/// A Child SA that a message makes is what the payloads of its exchange say: IKE_AUTH for the first one,
/// CREATE_CHILD_SA for an additional one (RFC 7296, sections 1.2, 1.3.1, 2.9 and 2.17). At the end that
/// answers they are those that the request opened to and those that were sealed in the answer. At the end
/// that asked they are those that the response opened to and those that asked for the child. The IKE SA is
/// established, and the child's SA pair, under the IKE SA's keys, is the only new one.
///
/// An initiator that waits for its first child after a message waited for it before, or asks for it now; it
/// is the child that it asked for as it began. An end that waits for an additional child waited for it
/// before, or was told by a command to ask. No message makes it ask, and no other command.
pub fn children_are_made_of_their_messages()
    ensures made { ChildrenAreMadeOfTheirMessages }
    ensures asked { TheRequestAsksForTheFirstChild }
    ensures waits { WhoWaitsWaitedOrAsksNow }
    ensures asked_first { TheFirstChildIsTheOneAskedFor }
    ensures asked_further { FurtherOrdersAskForTheirChild }
    ensures waits_further { NoMessageAsksForAFurtherChild }
    ensures ordered_further { NoOtherOrderAsksForAFurtherChild }
{
    pairs_are_children();
    responses_keep_to_their_offers();
    what_is_accepted_was_asked();
    pairs_have_few_selectors();
    what_is_read_fits();
    what_counts_fits();
    receptions_say_why();
    further_pairs_are_children();
    further_children_keep_to_their_offers();
    further_pairs_have_few_selectors();
    later_incoming_follow();
    windows_are_read_again();
}

/// An SA payload in an answer has one proposal. It has the number and the protocol of one that was offered,
/// and one transform of each of its types (RFC 7296, section 3.3.1). This holds of the answer to
/// IKE_SA_INIT, and of each SA payload in an answer under keys.
pub fn answers_keep_to_their_offers()
    ensures initial { InitialAnswersKeepToTheirOffers }
    ensures auth { AuthAnswersKeepToTheirOffers }
    ensures further { FurtherAnswersKeepToTheirOffers }
    ensures message { AnswersKeepToTheirOffers }
{
    ends_agree();
    receptions_say_why();
}

/// An IKE SA is established by IKE_AUTH only where the provider accepted the peer's proof: for the
/// configured identity, with the method and the data of the only AUTH payload, over the octets that RFC
/// 7296, section 2.15 demands. At a responder that is the request's payload, at an initiator the
/// response's. So an IKE SA that is established after a message was so before, or the message, as it opens,
/// proves the peer.
pub fn the_established_proved_themselves()
    ensures request { WhoARequestEstablishesProvedItself }
    ensures response { WhoAResponseEstablishesProvedItself }
    ensures message { TheEstablishedProvedThemselves }
{
    receptions_say_why();
    who_is_accepted_proved_itself();
}
