//! What a message does to its IKE SA.
ghost use Rattle.std.specs.Prelude.{◌≡◌, true, false, IfOk, IfErr, IsOk};
ghost use Rattle.wire.specs.Messages.{Spells};
ghost use Rattle.requests.specs.Incoming.{IsFreshRequest};
ghost use Rattle.sadb.specs.Database.{IsAsBefore};
ghost use Rattle.association.specs.Closing.{HoldsReserved};
ghost use Rattle.association.specs.Purposes.{SeeksAt};
ghost use Rattle.association.specs.Receiving.{admits, IsAnsweringInitial, IsAwaited};
ghost use Rattle.setup.specs.Configs.{setup_of};
ghost use Rattle.initial.specs.Reading.{IsUnfitAtOnce};
ghost use Rattle.effects.specs.Waiting.{SuitPhase};
ghost use Rattle.effects.specs.Taking.{counted_by, meaning_of, replied_by, CanWant, CanWantIn, DoesInitial, DoesRequest, DoesResponse, IsUnfitInitial, TakesMessage};

use association::laws::receptions_say_why;
use association::{Answered, Association, Ended, MessageFault, Received, Sought, receive};
use base::Items;
use children::MemoryFault;
use exchange::Plain;
use initial::{Continued, answer_auth, end_auth, read_response};
use sadb::Table;
use setup::Setup;
use std::alloc::{AllocError, Global};
use suite::{Agreement, Proof, Sealer};
use wire::Message;
use wire::numbers::{IKE_AUTH, INFORMATIONAL};

/// What came of a message.
#[derive(Debug, Drop)]
pub enum Effect {
    /// It is dropped for this reason, and nothing changes.
    Refused(MessageFault),
    /// A retransmitted request gets the octets of the first response; nothing changes.
    Repeated(Items<u8>),
    /// A request was processed, and is answered.
    Replied(Answered),
    /// The response to IKE_SA_INIT asks for a cookie: this request is to be sent with it.
    Again(Items<u8>),
    /// The response to IKE_SA_INIT was taken: the keys are made, and this request of IKE_AUTH is to be
    /// sent.
    AsksAuth(Items<u8>),
    /// The response to a request of another exchange was matched.
    Counted(Ended),
}

/// Takes a message for the IKE SA that [`association::find`] found for it. [`association::receive`] says
/// what the message is. Then a response to IKE_SA_INIT goes to [`read_response`], IKE_AUTH to
/// [`answer_auth`] and its response to [`end_auth`]; INFORMATIONAL to [`informational::answer`], its
/// response to [`informational::count`]; CREATE_CHILD_SA to [`create_child::answer`], its response to
/// [`create_child::count`]. In a phase to which its exchange doesn't belong, a message is dropped as
/// [`MessageFault::WrongPhase`].
///
/// The octets must be those from which the message was decoded, the SPIs that the IKE SA holds for Child SAs
/// must be reserved in the table, and what is outstanding must belong to its phase.
///
/// The only error is an allocation failure, and it changes nothing but the table's spare capacity. It is
/// [`MemoryFault::Message`], or one of the other three where the message is processed or matched and IKE_AUTH
/// or CREATE_CHILD_SA may make a child. [`MemoryFault::Table`] comes only at the end that answers, of a table
/// without a spare place that could take more SA pairs. While this end waits for the response to IKE_SA_INIT,
/// there is none for a message that asks for no cookie that is to be brought, and doesn't accept what was
/// offered.
pub fn take_message<C: Sealer + Agreement + Proof>(
    alloc: Global,
    setup: &Setup<'_, C>,
    association: &mut Association,
    table: &mut Table,
    octets: &[u8],
    message: &Message,
) -> Result<Effect, MemoryFault>
    requires spelled { Spells message.now octets.now }
    requires reserved { HoldsReserved association.old table.old }
    requires waits { SuitPhase association.old.phase association.old.outgoing.outstanding }
    ensures taken { IfOk result (λ effect. TakesMessage
        (meaning_of C.Sealer C.Agreement C.Proof setup.now.caller.now)
        (setup_of setup.now) association.old table.old octets.now message.now effect association.new
        table.new) }
    ensures refused { IfErr result
        (λ _. (association.new ≡ association.old) × IsAsBefore table.old table.new) }
    ensures wanted { IfErr result (CanWant C.plain_of association.old table.old octets.now message.now) }
    ensures early { IsUnfitInitial C.cipher C.group_number association.old message.now → IsOk result }
{
    receptions_say_why();
    match receive(alloc, setup.caller, association, octets, message)? {
        Received::Refused(fault) => Ok(Effect::Refused(fault)),
        Received::Repeat(reply) => Ok(Effect::Repeated(reply)),
        Received::InitialResponse => Ok(take_initial(alloc, setup, association, octets, message)?),
        Received::Request(plain) => take_request(
            alloc,
            setup,
            association,
            table,
            message.header.exchange,
            message.header.id,
            &plain,
        ),
        Received::Response { sought, plain } => take_response(
            alloc,
            setup,
            association,
            table,
            message,
            sought,
            &plain,
        ),
    }
}

fn take_initial<C: Sealer + Agreement + Proof>(
    alloc: Global,
    setup: &Setup<'_, C>,
    association: &mut Association,
    octets: &[u8],
    message: &Message,
) -> Result<Effect, AllocError>
    requires spelled { Spells message.now octets.now }
    requires due { IsAnsweringInitial association.old message.now }
    ensures taken { IfOk result (λ effect. DoesInitial
        (meaning_of C.Sealer C.Agreement C.Proof setup.now.caller.now)
        (setup_of setup.now) association.old octets.now message.now effect association.new) }
    ensures refused { IfErr result (λ _. association.new ≡ association.old) }
    ensures early { IsUnfitAtOnce C.cipher C.group_number association.old message.now → IsOk result }
{
    match read_response(
        alloc,
        setup,
        association,
        message.header.id,
        octets,
        message,
    )? {
        Continued::Again(next) => Ok(Effect::Again(next)),
        Continued::AsksAuth(next) => Ok(Effect::AsksAuth(next)),
        Continued::Unfit => Ok(Effect::Refused(MessageFault::WrongPhase)),
    }
}

fn take_request<C: Sealer + Agreement + Proof>(
    alloc: Global,
    setup: &Setup<'_, C>,
    association: &mut Association,
    table: &mut Table,
    exchange: u8,
    number: u32,
    plain: &Plain,
) -> Result<Effect, MemoryFault>
    requires fresh { IsFreshRequest association.old.incoming number }
    requires admitted { admits association.old.phase exchange ≡ true }
    requires reserved { HoldsReserved association.old table.old }
    ensures taken { IfOk result (λ effect. DoesRequest
        (meaning_of C.Sealer C.Agreement C.Proof setup.now.caller.now)
        (setup_of setup.now) association.old.phase exchange association.old table.old number plain.now
        effect association.new table.new) }
    ensures refused { IfErr result
        (λ _. (association.new ≡ association.old) × IsAsBefore table.old table.new) }
    ensures wanted { IfErr result (CanWantIn association.old.phase false exchange table.old) }
{
    if exchange == IKE_AUTH {
        let answered = answer_auth(alloc, setup, association, table, number, plain)?;
        Ok(replied(answered))
    } else if exchange == INFORMATIONAL {
        let answered = informational::answer(alloc, setup, association, table, number, plain)?;
        Ok(replied(answered))
    } else {
        let answered = create_child::answer(alloc, setup, association, table, number, plain)?;
        Ok(replied(answered))
    }
}

// What came of a request, by its answer. There is none in a phase to which its exchange doesn't belong.
fn replied(answered: Option<Answered>) -> Effect
    ensures { result ≡ replied_by answered }
{
    match answered {
        Some(answered) => Effect::Replied(answered),
        None => Effect::Refused(MessageFault::WrongPhase),
    }
}

fn take_response<C: Sealer + Agreement + Proof>(
    alloc: Global,
    setup: &Setup<'_, C>,
    association: &mut Association,
    table: &mut Table,
    message: &Message,
    sought: Sought,
    plain: &Plain,
) -> Result<Effect, MemoryFault>
    requires due { IsAwaited association.old message.now }
    requires sought { SeeksAt association.old.outgoing message.now.header.id sought }
    requires waits { SuitPhase association.old.phase association.old.outgoing.outstanding }
    requires reserved { HoldsReserved association.old table.old }
    ensures taken { IfOk result (λ effect. DoesResponse
        (meaning_of C.Sealer C.Agreement C.Proof setup.now.caller.now)
        (setup_of setup.now) association.old.phase association.old table.old message.now.header.id
        plain.now effect association.new table.new) }
    ensures refused { IfErr result (λ _. (association.new ≡ association.old) × (table.new ≡ table.old)) }
    ensures wanted { IfErr result
        (CanWantIn association.old.phase true message.now.header.exchange table.old) }
{
    let number = message.header.id;
    match sought {
        Sought::Identity => {
            let ended = end_auth(alloc, setup, association, table, number, plain)?;
            Ok(counted(ended))
        }
        Sought::Child { asked, nonce } => {
            let ended = create_child::count(
                alloc,
                setup,
                association,
                table,
                number,
                &asked,
                &nonce,
                plain,
            )?;
            Ok(counted(ended))
        }
        Sought::Other => {
            let ended = informational::count(alloc, setup, association, table, number, plain)?;
            Ok(counted(ended))
        }
    }
}

// What came of a response, by how it was matched. It was not, in a phase to which its exchange doesn't
// belong.
fn counted(ended: Option<Ended>) -> Effect
    ensures { result ≡ counted_by ended }
{
    match ended {
        Some(ended) => Effect::Counted(ended),
        None => Effect::Refused(MessageFault::WrongPhase),
    }
}
