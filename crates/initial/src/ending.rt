//! The response to IKE_AUTH.
ghost use Rattle.std.specs.Prelude.{◌≡◌, ◌≢◌, false, Some, IfOk, IfErr, IsOk};
ghost use Rattle.requests.specs.Outgoing.{IsOutstanding};
ghost use Rattle.association.specs.AskedChildren.{asked_of};
ghost use Rattle.association.specs.Closing.{HoldsReserved};
ghost use Rattle.children.specs.Accepting.{IsUnacceptable};
ghost use Rattle.children.specs.declared.fault.MemoryFault.TheVariants as child;
ghost use Rattle.exchange.specs.Chains.{TellsError};
ghost use Rattle.setup.specs.Configs.{setup_of};
ghost use Rattle.initial.specs.Concluding.{CanConclude};
ghost use Rattle.initial.specs.Ending.{names_peer, EndsWhereSent, FitsVerdict, IsVerdict, Judges};
ghost use Rattle.association.specs.Purposes.{AsksForNoFurtherChild};

use crate::concluding::{Outcome, conclude};
use association::laws::spis_stay_held;
use association::{Association, AuthSent, Ended, Phase, unless_made};
use auth::laws::windows_are_read_again;
use auth::{Proving, is_accepted, peer_window};
use children::{MemoryFault, Setting, accept};
use exchange::{Plain, Role, first_error, read_chain};
use sadb::Table;
use setup::Setup;
use std::alloc::Global;
use suite::Proof;
use wire::Payload;

/// Matches the response to IKE_AUTH (RFC 7296, section 1.2), by the payloads that it opened to.
///
/// The IKE SA is closed where the payloads are not in the grammar, or the peer is refused by
/// [`auth::is_accepted`]. Otherwise it is established, with the Child SA that [`children::accept`] makes of
/// the answer, or without one: then its SPI is given up. From then on both windows apply (section 2.3): this
/// end's as configured, the peer's as it told, 1 where it told none. Where no child is made, the first error
/// notification of the response is told ([`Ended::declined`]). It is `None`, and nothing is changed, where
/// this end doesn't wait for the response to IKE_AUTH.
///
/// The caller asks only where a request with this Message ID is outstanding, which asks for no child but the
/// first, and the SPIs that the IKE SA holds are reserved in the table. The only error is an allocation
/// failure, for the message or the SA pair: its place in the table stands since its SPI was reserved. It
/// changes nothing.
pub fn end_auth<C: Proof>(
    alloc: Global,
    setup: &Setup<'_, C>,
    association: &mut Association,
    table: &mut Table,
    number: u32,
    plain: &Plain,
) -> Result<Option<Ended>, MemoryFault>
    requires outstanding { IsOutstanding association.old.outgoing number }
    requires no_child { AsksForNoFurtherChild association.old.outgoing number }
    requires reserved { HoldsReserved association.old table.old }
    ensures ended { IfOk result (λ ended. EndsWhereSent (C.accepts setup.now.caller.now) (setup_of setup.now)
        association.old table.old number plain.now ended association.new table.new) }
    ensures refused { IfErr result (λ _. (association.new ≡ association.old) × (table.new ≡ table.old)) }
    ensures wanted { IfErr result (λ fault. fault ≢ child.Table) }
{
    let Phase::AuthSent(sent) = &association.phase else {
        return Ok(None);
    };
    spis_stay_held();
    let judged = judge_response(alloc, setup, association.serial, sent, plain)?;
    let Judged { verdict, error } = judged;
    // From here on nothing can be refused.
    let _ = association.outgoing.count(number);
    let fate = conclude(setup, association, table, verdict);
    let declined = unless_made(fate, error);
    Ok(Some(Ended { fate, declined }))
}

// How the response ends IKE_AUTH, and the error that it tells.
#[derive(Drop)]
struct Judged {
    verdict: Outcome,
    error: Option<u16>,
}

fn judge_response<C: Proof>(
    alloc: Global,
    setup: &Setup<'_, C>,
    ike: u32,
    sent: &AuthSent,
    plain: &Plain,
) -> Result<Judged, MemoryFault>
    ensures judged { IfOk result (λ judged. Judges (C.accepts setup.now.caller.now) (setup_of setup.now) ike
        sent.now plain.now judged.verdict) }
    ensures told { IfOk result (λ judged. TellsError plain.now judged.error) }
    ensures fits { IfOk result (λ judged. FitsVerdict sent.now judged.verdict) }
    ensures wanted { IfErr result (λ fault. fault ≢ child.Table) }
{
    match read_chain(alloc, plain)? {
        None => Ok(Judged {
            verdict: Outcome::Closes,
            error: None,
        }),
        Some(payloads) => {
            let payloads = payloads.as_slice();
            Ok(Judged {
                verdict: judge_payloads(alloc, setup, ike, sent, payloads)?,
                error: first_error(payloads),
            })
        }
    }
}

// No memory is wanted where the payloads don't name the peer, and none for a child that isn't acceptable.
fn judge_payloads<C: Proof>(
    alloc: Global,
    setup: &Setup<'_, C>,
    ike: u32,
    sent: &AuthSent,
    payloads: &[Payload],
) -> Result<Outcome, MemoryFault>
    ensures judged { IfOk result (IsVerdict (C.accepts setup.now.caller.now) (setup_of setup.now) ike sent.now
        (Some payloads.now)) }
    ensures fits { IfOk result (FitsVerdict sent.now) }
    ensures wanted { IfErr result (λ fault. fault ≢ child.Table) }
    ensures early { names_peer (setup_of setup.now) payloads.now ≡ false → IsOk result }
    ensures unacceptable { IsUnacceptable (asked_of sent.now.child) payloads.now
        → IfErr result (λ fault. fault ≡ child.Message) }
{
    windows_are_read_again();
    let proving = Proving::of(Role::Responder, &sent.keys, sent.first.as_slice());
    if !is_accepted(
        alloc,
        setup.caller,
        &setup.config.peer().identity,
        &proving,
        payloads,
    )? {
        return Ok(Outcome::Closes);
    }
    let setting = Setting {
        ike,
        keys: sent.keys.first_child_keys(),
        blocks: setup.config.blocks(),
    };
    Ok(Outcome::Establishes {
        pair: accept(alloc, payloads, &sent.child.asked(), &setting)?,
        window: peer_window(payloads),
    })
}
