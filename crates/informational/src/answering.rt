//! The answer to a request.
ghost use Rattle.std.specs.Prelude.{◌≡◌, IfOk, IfErr};
ghost use Rattle.wire.specs.Numbers.{INFORMATIONAL};
ghost use Rattle.exchange.specs.Headers.{keys_of};
ghost use Rattle.exchange.specs.Sealed.{IsSealed};
ghost use Rattle.requests.specs.Incoming.{IsFreshRequest};
ghost use Rattle.association.specs.Closing.{HoldsReserved};
ghost use Rattle.association.specs.Sending.{reply_message};
ghost use Rattle.setup.specs.Configs.{setup_of};
ghost use Rattle.deletions.specs.Answering.{payloads_of_verdict};
ghost use Rattle.deletions.specs.Deciding.{is_closing_verdict, IsSoundVerdict};
ghost use Rattle.informational.specs.Answering.{gone_by, AnswersWhereEstablished};
ghost use Rattle.informational.specs.Orders.{ClosesIf};

use association::laws::spis_stay_held;
use association::{Answered, Association, Fate, Phase};
use base::Items;
use deletions::laws::what_is_decided_can_be_removed;
use deletions::{Verdict, answer_payloads, decide, remove_named};
use exchange::laws::short_messages_can_be_sent;
use exchange::{Plain, sealed_message, sent_header};
use sadb::Table;
use setup::Setup;
use std::alloc::{AllocError, Global};
use suite::{KeyRecord, Sealer};
use wire::Message;
use wire::numbers::INFORMATIONAL;

/// Answers a request of INFORMATIONAL at an established IKE SA (RFC 7296, sections 1.4 and 1.4.1), by the
/// payloads that it opened to and what [`deletions::decide`] makes of them.
///
/// The answer is INVALID_SYNTAX, and the IKE SA is closed, where the payloads are not in the grammar or name
/// more than 512 SPIs; it is UNSUPPORTED_CRITICAL_PAYLOAD where one that is not known is marked as critical
/// (section 2.5). Where the IKE SA is deleted it is closed, and the answer is empty. Otherwise the Live SA
/// pairs that are named go, and the answer names the SPIs of the other direction; it is empty where none
/// goes. A pair that is Deleting stays until the request of this end is answered, and isn't named. It is
/// `None`, and nothing is changed, where the IKE SA is not established.
///
/// The caller asks only where the request is fresh and the SPIs that the IKE SA holds are reserved in the
/// table. The only error is an allocation failure, and it changes nothing.
pub fn answer<C: Sealer>(
    alloc: Global,
    setup: &Setup<'_, C>,
    association: &mut Association,
    table: &mut Table,
    number: u32,
    plain: &Plain,
) -> Result<Option<Answered>, AllocError>
    requires fresh { IsFreshRequest association.old.incoming number }
    requires reserved { HoldsReserved association.old table.old }
    ensures answered { IfOk result (λ answered. AnswersWhereEstablished C.body_of (setup_of setup.now)
        association.old table.old number plain.now answered association.new table.new) }
    ensures refused { IfErr result (λ _. (association.new ≡ association.old) × (table.new ≡ table.old)) }
{
    let Phase::Established(keys) = &association.phase else {
        return Ok(None);
    };
    spis_stay_held();
    let verdict = decide(alloc, plain, association.serial, table)?;
    let octets = make_reply(alloc, setup, association, table, keys, number, &verdict)?;
    let kept = Items::from_slice(alloc, octets.as_slice())?;
    association.incoming.prepare()?;
    // From here on nothing can be refused.
    association.incoming.take(number, kept);
    let closed = verdict.is_closing();
    conclude(association, table, &verdict, setup.moment);
    Ok(Some(Answered {
        octets,
        fate: Fate::childless(closed),
    }))
}

fn make_reply<C: Sealer>(
    alloc: Global,
    setup: &Setup<'_, C>,
    association: &Association,
    table: &Table,
    keys: &KeyRecord,
    number: u32,
    verdict: &Verdict,
) -> Result<Items<u8>, AllocError>
    requires { IsSoundVerdict table.now.pairs association.now.serial verdict.now }
    ensures { IfOk result (IsSealed C.body_of (keys_of association.now.role keys.now) setup.now.fresh.now.seal
        (reply_message association.now INFORMATIONAL number (payloads_of_verdict verdict.now))) }
{
    short_messages_can_be_sent();
    let payloads = answer_payloads(alloc, verdict)?;
    let role = association.role;
    let message = Message {
        header: sent_header(
            association.spi_i,
            association.spi_r,
            INFORMATIONAL,
            role,
            true,
            number,
        ),
        payloads,
    };
    sealed_message(alloc, setup.caller, role, keys, &message, &setup.fresh.seal)
}

// The IKE SA is closed, or the SA pairs go that a request names.
fn conclude(association: &mut Association, table: &mut Table, verdict: &Verdict, moment: u64)
    requires reserved { HoldsReserved association.old table.old }
    requires sound { IsSoundVerdict table.old.pairs association.old.serial verdict.now }
    ensures { ClosesIf (is_closing_verdict verdict.now) (gone_by verdict.now)
        association.old table.old moment association.new table.new }
{
    what_is_decided_can_be_removed();
    match verdict {
        Verdict::BadSyntax => association.close(table, moment),
        Verdict::Unsupported { .. } => remove_named(table, &[]),
        Verdict::Closes => association.close(table, moment),
        Verdict::Deletes(deleted) => remove_named(table, deleted.serials.as_slice()),
    }
}
