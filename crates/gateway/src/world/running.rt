//! A list of events at two ends.
ghost use Rattle.std.specs.Prelude.{◌+◌, ◌≤◌, OnOk, IfErr, length, map, vec_len};
ghost use Rattle.std.specs.Vec.{vec_capacity};
ghost use Rattle.gateway.specs.BothEnds.{KeepsBothEnds};
ghost use Rattle.gateway.specs.Inputs.{event_view};
ghost use Rattle.gateway.specs.Partners.{HavePartners};
ghost use Rattle.gateway.specs.WorldRuns.{PlaysFirst, StopsBeforeSending, StopsPlaying};
ghost use Rattle.effects.specs.Taking.{meaning_of};

use super::{Event, World};
use crate::laws::{
    a_partner_is_the_only_one, an_established_initiator_has_a_partner,
    an_established_responder_has_a_partner, both_ends_keep_their_promises,
    every_run_keeps_its_promises, every_world_stays_sound,
};
use crate::{Output, RunFault};
use std::alloc::Global;
use suite::{Agreement, Proof, Sealer};

/// Gives each end its events in order, appends an output for each, and stores what was sent and made.
///
/// Ends with [`RunFault::NoRoom`] (E38) and the number of events that took place, the first ones, where
/// there was no memory for the next output or for what may be stored of it. That is one datagram of at most
/// 16,664 octets, one key record and one Child SA, and for a `Tick` 3000 octets for each request that waits
/// for an answer. All of it is reserved before an event takes place, so none does without its output. What
/// came in ESP or unprotected and a new secret send nothing: where the outputs have room, the list never
/// ends before one of these. (That E38 comes in no other case is tested and not proved: no contract says
/// when memory is there.)
///
/// Each end alone keeps what [`run`](crate::run) promises. Both together keep the following, over every
/// list of events. A world that is *sound* under a key record stays so, as long as neither end came to the
/// record twice and no message under it was forged. Not forged means that what opened as the other end's
/// request or response, the other end sent as that. A new world is sound.
///
/// In a sound world, take an IKE SA that one end holds as initiator and the other as responder under the
/// record. For the requests of either end:
///
/// - what was processed at the answering end was issued by the asking end, and what that counts as answered
///   was processed;
/// - both keep within the windows, as the asking end counts the other's;
/// - where it counts a window of one, the requests that were processed are the first ones, none skipped, and
///   those answered are the same or all but the last (RFC 7296, sections 2.1 to 2.3).
///
/// Both ends hold one record (RFC 7296, section 2.14). Take an IKE SA of either end, each made or keyed in this
/// list by a message of IKE_SA_INIT that tells the SPI, the key exchange's value and the nonce which the other's
/// own message told. Where both are held after the list, their keys are the same, whatever else came. The
/// secrets have 32 octets, as their type says.
///
/// A world that is *wholly sound* also accounts for what each end announced of its window, for the children
/// under the record, and for all pairs. A new world is, and it stays so under the same assumptions. Then:
///
/// - neither end assumes a wider window than the other is configured with;
/// - wherever both ends made the child of one request, their pairs mirror each other;
/// - each packet that such a child delivers is, octet for octet, what one stored packet carries. The other
///   end's pair of the child sealed that packet under the same number, its policy protects it outward, and
///   that pair covers it. This assumes that no packet to the child was forged, and that the other end had
///   no other child that sends under its inbound SPI and key;
/// - no number of a child delivers twice (RFC 4301, section 4.1; RFC 4303, section 3.4);
/// - what is delivered had been sealed before it came, where nothing was forged up to that step.
///
/// Of two ends that held nothing before the list, who is established has one partner at the other, under the same
/// keys, where no proof of an identity is forged (`partners`; RFC 7296, section 2.15). What else that asks of
/// nonces and proofs is said with [`an_established_initiator_has_a_partner`],
/// [`an_established_responder_has_a_partner`] and [`a_partner_is_the_only_one`].
pub fn run_world<'a, C: Sealer + Agreement + Proof>(
    alloc: Global,
    world: &mut World<C>,
    events: &[Event<'a>],
    outputs: &mut Vec<Output<'a>>,
) -> Result<(), RunFault>
    ensures all { OnOk result (PlaysFirst
        (meaning_of C.Sealer C.Agreement C.Proof)
        (length events.now) (map event_view events.now) world.old outputs.old.items world.new outputs.new.items) }
    ensures stopped { IfErr result (λ fault. StopsPlaying
        (meaning_of C.Sealer C.Agreement C.Proof)
        (map event_view events.now) world.old outputs.old.items fault world.new outputs.new.items) }
    ensures room { vec_len outputs.old + length events.now ≤ vec_capacity outputs.old
        → IfErr result (StopsBeforeSending (map event_view events.now)) }
    ensures both { KeepsBothEnds C.body_of C.plain_of
        (meaning_of C.Sealer C.Agreement C.Proof)
        (map event_view events.now) world.old outputs.old.items world.new outputs.new.items }
    ensures partners { HavePartners
        (meaning_of C.Sealer C.Agreement C.Proof)
        (map event_view events.now) world.old }
{
    a_partner_is_the_only_one::<C>();
    an_established_initiator_has_a_partner::<C>();
    an_established_responder_has_a_partner::<C>();
    both_ends_keep_their_promises::<C>();
    every_run_keeps_its_promises::<C>();
    every_world_stays_sound::<C>();
    for (done, event) in events.iter().enumerate() {
        if outputs.reserve(1).is_err() {
            return Err(RunFault::NoRoom { done });
        }
        let Ok(output) = world.happen(alloc, event) else {
            return Err(RunFault::NoRoom { done });
        };
        outputs.push_reserved(output);
    }
    Ok(())
}
