//! That results are determined: each relation on messages, beginnings and commands is functional.
ghost use Rattle.effects.specs.LawsOfDeterminism.{AdmissionsAreDetermined, BeginningsAreDetermined, EffectsAreDetermined, FurtherOrdersAreDetermined, OrdersAreDetermined, RequestsAreShort};

use association::Request;
use association::laws::{
    endings_are_determined, receptions_are_determined, receptions_go_by_content,
};
use children::laws::children_are_determined;
use deletions::laws::removals_are_determined;
use exchange::laws::sealed_messages_are_determined;
use further::laws::further_children_are_determined;
use requests::laws::{later_incoming_are_determined, later_outgoing_are_determined};
use sadb::laws::later_tables_are_determined;
use suite::laws::derived_keys_are_keys;
use wire::laws::{octets_spell_one_message, plain_spellings_are_determined};

/// An IKE SA begins in one way, at either end, with one first message. Spare capacity is left out of this.
pub fn beginnings_are_determined()
    ensures begun { BeginningsAreDetermined }
    ensures admitted { AdmissionsAreDetermined }
{
    sa_init::laws::answers_are_determined();
    plain_spellings_are_determined();
    later_outgoing_are_determined::<Request>();
}

/// The effect of a message is functional: it and what IKE SA and table hold afterwards follow from what
/// both held before, whatever spare capacity they have. The cipher's lengths have to follow from those of
/// the plain text, as its law says, and the IKE SA's keys have to have 32 octets each, as they keep
/// ([`super::keys_stay_whole`]).
pub fn effects_are_determined()
    ensures { EffectsAreDetermined }
{
    sa_init::laws::answers_are_determined();
    auth::laws::judgements_are_determined();
    children::laws::answers_are_determined();
    children_are_determined();
    derived_keys_are_keys();
    endings_are_determined();
    further_children_are_determined();
    removals_are_determined();
    later_incoming_are_determined();
    later_outgoing_are_determined::<Request>();
    later_tables_are_determined();
    octets_spell_one_message();
    plain_spellings_are_determined();
    receptions_are_determined();
    receptions_go_by_content();
    sealed_messages_are_determined();
}

/// A request of this end at an established IKE SA has at most 3000 octets, if all that the IKE SA keeps to
/// send again has. A command sends one request, which follows from what the IKE SA holds, and for an
/// additional Child SA also from the table, whatever spare capacity they have. The cipher's lengths have to
/// follow from those of the plain text, as its law says, and the keys have to have 32 octets each, as they
/// keep ([`super::keys_stay_whole`]).
pub fn orders_are_short_and_determined()
    ensures kept { RequestsAreShort }
    ensures determined { OrdersAreDetermined }
    ensures further { FurtherOrdersAreDetermined }
{
    later_outgoing_are_determined::<Request>();
    later_tables_are_determined();
    sealed_messages_are_determined();
}
