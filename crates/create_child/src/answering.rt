//! The answer to a request for an additional Child SA.
ghost use Rattle.std.specs.Prelude.{◌≡◌, IfOk, IfErr};
ghost use Rattle.wire.specs.Numbers.{CREATE_CHILD_SA};
ghost use Rattle.exchange.specs.Headers.{keys_of};
ghost use Rattle.exchange.specs.Sealed.{IsSealed};
ghost use Rattle.requests.specs.Incoming.{IsFreshRequest};
ghost use Rattle.sadb.specs.Database.{IsAsBefore};
ghost use Rattle.association.specs.Closing.{HoldsReserved};
ghost use Rattle.association.specs.Sending.{reply_message};
ghost use Rattle.children.specs.Faults.{CanBeWanted};
ghost use Rattle.setup.specs.Configs.{setup_of};
ghost use Rattle.further.specs.Answering.{further_answer, FitsAnswer};
ghost use Rattle.create_child.specs.Answering.{AnswersWhereEstablished, CanInstall, ConcludesFurther};

use association::laws::spis_stay_held;
use association::{Answered, Association, Fate, Phase};
use base::Items;
use children::{MemoryFault, install};
use exchange::laws::short_messages_can_be_sent;
use exchange::{ChildAnswer, Plain, sealed_message, sent_header};
use further::{answer_payloads, decide};
use sadb::{Pair, Table};
use setup::Setup;
use std::alloc::{AllocError, Global};
use suite::{KeyRecord, Sealer};
use wire::Message;
use wire::numbers::CREATE_CHILD_SA;

/// Answers a request of CREATE_CHILD_SA at an established IKE SA (RFC 7296, section 1.3.1), by the payloads
/// that it opened to and what [`further::decide`] makes of them.
///
/// Where the payloads are not in the grammar, or the request is incomplete, the answer is INVALID_SYNTAX and
/// the IKE SA is closed (section 2.21.3). Where no Child SA is made for another reason the answer is that
/// Notify payload alone. Otherwise the child is made, and the answer has the step's fresh nonce. It is
/// `None`, and nothing is changed, where the IKE SA is not established.
///
/// The caller asks only where the request is fresh and the SPIs that the IKE SA holds are reserved in the
/// table. The only error is an allocation failure: IKE SA and table are as they were then, but for the
/// table's spare capacity.
pub fn answer<C: Sealer>(
    alloc: Global,
    setup: &Setup<'_, C>,
    association: &mut Association,
    table: &mut Table,
    number: u32,
    plain: &Plain,
) -> Result<Option<Answered>, MemoryFault>
    requires fresh { IsFreshRequest association.old.incoming number }
    requires reserved { HoldsReserved association.old table.old }
    ensures answered { IfOk result (λ answered. AnswersWhereEstablished C.body_of (setup_of setup.now)
        association.old table.old number plain.now answered association.new table.new) }
    ensures refused { IfErr result
        (λ _. (association.new ≡ association.old) × IsAsBefore table.old table.new) }
    ensures wanted { IfErr result (CanBeWanted table.old) }
{
    let Phase::Established(keys) = &association.phase else {
        return Ok(None);
    };
    spis_stay_held();
    let deleting = association.is_deleting();
    let decision = decide(
        alloc,
        setup,
        table,
        association.serial,
        keys,
        deleting,
        plain,
    )?;
    let closed = decision.is_closing();
    let (answer, pair) = decision.into_parts();
    let octets = make_reply(alloc, setup, association, keys, number, answer)?;
    let kept = Items::from_slice(alloc, octets.as_slice())?;
    association.incoming.prepare()?;
    // From here on nothing can be refused.
    association.incoming.take(number, kept);
    let fate = conclude(association, table, closed, pair, setup.moment);
    Ok(Some(Answered { octets, fate }))
}

fn make_reply<C: Sealer>(
    alloc: Global,
    setup: &Setup<'_, C>,
    association: &Association,
    keys: &KeyRecord,
    number: u32,
    answer: ChildAnswer,
) -> Result<Items<u8>, AllocError>
    requires { FitsAnswer answer }
    ensures { IfOk result (IsSealed C.body_of (keys_of association.now.role keys.now) setup.now.fresh.now.seal
        (reply_message association.now CREATE_CHILD_SA number
        (further_answer answer setup.now.fresh.now.nonce))) }
{
    short_messages_can_be_sent();
    let payloads = answer_payloads(alloc, answer, &setup.fresh.nonce)?;
    let role = association.role;
    let message = Message {
        header: sent_header(
            association.spi_i,
            association.spi_r,
            CREATE_CHILD_SA,
            role,
            true,
            number,
        ),
        payloads,
    };
    sealed_message(alloc, setup.caller, role, keys, &message, &setup.fresh.seal)
}

// The IKE SA is closed, or the Child SA is added, if there is one.
fn conclude(
    association: &mut Association,
    table: &mut Table,
    closed: bool,
    pair: Option<Pair>,
    moment: u64,
) -> Fate
    requires reserved { HoldsReserved association.old table.old }
    requires room { CanInstall table.old pair }
    ensures { ConcludesFurther closed pair association.old table.old moment result association.new table.new }
{
    if closed {
        association.close(table, moment);
        return Fate::Closed;
    }
    match pair {
        Some(pair) => Fate::Made(install(table, pair)),
        None => Fate::Stands,
    }
}
