//! The Child SAs that a step makes, and the answers to offers of IKE SAs and of children.
ghost use Rattle.ike.specs.LawsOfChildren.{ChildrenAreExtendedWhereAllowed, ChildrenAreMadeOfTheirMessages, ChildrenHaveFewSelectors, FirstAnswersKeepToTheirOffers, FirstChildrenMirror, FurtherChildrenMirror, OrdersAskForTheFurtherChild, OtherAnswersHaveNoSa, SealedAnswersKeepToTheirOffers, WhoComesToKeysAsksForItsFirstChild, WhoWaitsFurtherWaitedOrIsOrdered, WhoWaitsWaitedOrAsksNow};

use crate::laws::soundness_stays;
use children::laws::children_mirror;
use effects::laws::{associations_stay_themselves, keys_stay, requests_wait_on};
use moments::laws::some_are_held_on;

/// A Child SA that a step makes is what the payloads of its exchange say: IKE_AUTH for the first one,
/// CREATE_CHILD_SA for an additional one (RFC 7296, sections 1.2, 1.3.1, 2.9 and 2.17). They are the
/// payloads of the datagram that came, and those of the other message. At the end that answers that is the
/// response which it seals; at the end that asked, the request which it sent.
///
/// An initiator asks for its first child by the request that goes out when its keys are made (`asked`). If
/// it waits for the response after a step, it waited before, or asks now (`waits`). An end that is told to
/// ask for an additional child does so by the request that goes out, and remembers what it asked
/// (`asked_further`). If it waits for that response after a step, it waited before, with the same octets
/// and for the same child, or asks now (`waits_further`).
pub fn children_are_made_of_their_messages()
    ensures made { ChildrenAreMadeOfTheirMessages }
    ensures asked { WhoComesToKeysAsksForItsFirstChild }
    ensures waits { WhoWaitsWaitedOrAsksNow }
    ensures asked_further { OrdersAskForTheFurtherChild }
    ensures waits_further { WhoWaitsFurtherWaitedOrIsOrdered }
{
    soundness_stays();
    associations_stay_themselves();
    keys_stay();
    effects::laws::children_are_made_of_their_messages();
    effects::laws::requests_are_remembered();
    requests_wait_on();
    some_are_held_on();
}

/// An SA payload in an answer has one proposal. It has the number and the protocol of one that was offered,
/// and one transform of each of its types (RFC 7296, section 3.3.1). This holds of the answer that makes an
/// IKE SA half open, and of each sealed answer when it is sent first. No other answer has an SA payload.
pub fn answers_keep_to_their_offers()
    ensures initial { FirstAnswersKeepToTheirOffers }
    ensures sealed { SealedAnswersKeepToTheirOffers }
    ensures other { OtherAnswersHaveNoSa }
{
    effects::laws::answers_keep_to_their_offers();
}

/// A Child SA that a step makes has at most 16 selectors on either side (RFC 7296, section 3.13; a limit of
/// this implementation).
pub fn children_have_few_selectors()
    ensures { ChildrenHaveFewSelectors }
{
    children_are_made_of_their_messages();
}

/// A Child SA that a step makes receives with extended sequence numbers (ESN) only where this end's
/// configuration allows them (RFC 4303, section 2.2.1).
pub fn children_are_extended_where_allowed()
    ensures { ChildrenAreExtendedWhereAllowed }
{
    children_are_made_of_their_messages();
}

/// The two ends' pairs of a first Child SA mirror each other. The initiator's is made of the response, and
/// the responder's of the same response and of a request that asked for the initiator's child, under equal
/// keys.
pub fn first_children_mirror()
    ensures { FirstChildrenMirror }
{
    children_mirror();
}

/// The two ends' pairs of an additional Child SA mirror each other. That of the asking end is made of the
/// response, and that of the answering end of the same response and of the request that asked for this
/// child with this nonce, under equal keys.
pub fn further_children_mirror()
    ensures { FurtherChildrenMirror }
{
    further::laws::further_children_mirror();
}
