//! What follows from the definitions alone.
ghost use Rattle.std.specs.Prelude.{◌≡◌, ◌≤◌, List, ℕ, ◌∷◌, [], Some, All, Contains, length, slice_get};
ghost use Rattle.wire.specs.Payloads.{IsClear};
ghost use Rattle.std.specs.List.{AllByRecursion, sum_by};
ghost use Rattle.base.specs.Octets.{AreOctets};
ghost use Rattle.suite.specs.Sealing.{AreKeys};
ghost use Rattle.suite.specs.declared.keys.Keys.{Keys};
ghost use Rattle.wire.specs.declared.proposal.Proposal.{Proposal};
ghost use Rattle.wire.specs.Sizes.{size_of, FitsHeaderFields, FitsFields};
ghost use Rattle.wire.specs.declared.message.Message.{Message};
ghost use Rattle.base.specs.declared.selector.Selector.{Selector};
ghost use Rattle.wire.specs.declared.payload.Payload.{Payload};
ghost use Rattle.wire.specs.declared.payload.Payload.TheVariants.{Sa, TsI, TsR};
ghost use Rattle.exchange.specs.Counting.{only_sa, only_ts_i, only_ts_r};
ghost use Rattle.exchange.specs.Notices.{asked_cookie, payload_of_notice, FitsNotice};
ghost use Rattle.exchange.specs.declared.notices.Notice.{Notice};
ghost use Rattle.exchange.specs.Sealed.{PAYLOADS_LIMIT, CanBeSealed, IsSealed, OpensAgain, TellsLength};

use suite::Sealer;
use wire::laws::{
    messages_that_fit_are_spelled, plain_spellings_are_determined, plain_spellings_are_spellings,
};

/// A message whose payloads have what their fields allow, and have at most 2840 octets together, can be
/// sent: sealing it is refused for memory alone. Does nothing.
pub fn short_messages_can_be_sent()
    ensures { (m : Message) → FitsHeaderFields m.header → AllByRecursion FitsFields m.payloads
        → sum_by size_of m.payloads ≤ PAYLOADS_LIMIT
        → CanBeSealed m }
{
    messages_that_fit_are_spelled();
}

/// Of payloads that have what their fields allow, those that count have it. Does nothing.
pub fn what_counts_fits()
    ensures sa { (payloads : List Payload) (proposals : List Proposal) → AllByRecursion FitsFields payloads
        → only_sa payloads ≡ Some proposals → FitsFields (Sa proposals) }
    ensures ts_i { (payloads : List Payload) (selectors : List Selector) → AllByRecursion FitsFields payloads
        → only_ts_i payloads ≡ Some selectors → FitsFields (TsI selectors) }
    ensures ts_r { (payloads : List Payload) (selectors : List Selector) → AllByRecursion FitsFields payloads
        → only_ts_r payloads ≡ Some selectors → FitsFields (TsR selectors) }
{}

/// A notification that fits is carried by a payload that has what its fields allow, of at most 72 octets.
/// Does nothing.
pub fn notices_fit()
    ensures { (notice : Notice) → FitsNotice notice
        → FitsFields (payload_of_notice notice) × (size_of (payload_of_notice notice) ≤ 72) }
{}

/// A cookie that is asked for has 1 to 64 octets (RFC 7296, section 2.6). Does nothing.
pub fn cookies_are_short()
    ensures some { (payloads : List Payload) (octets : List ℕ) → asked_cookie payloads ≡ Some octets
        → 1 ≤ length octets }
    ensures few { (payloads : List Payload) (octets : List ℕ) → asked_cookie payloads ≡ Some octets
        → length octets ≤ 64 }
{}

/// A cipher tells the length of a body by that of its plain text, under keys and with 16 fresh octets. Does
/// nothing.
pub fn ciphers_tell_lengths<S: Sealer>(sealer: &S)
    ensures { (keys : Keys) (fresh : List ℕ) → AreKeys keys → AreOctets fresh → length fresh ≡ 16
        → TellsLength S.body_of keys fresh }
{
    let _ = sealer;
}

/// A message is sealed in one way, under the same keys and with the same fresh octets, where lengths are
/// told. Does nothing.
pub fn sealed_messages_are_determined()
    ensures { (body_of : Keys → List ℕ → List ℕ → List ℕ → List ℕ) (keys : Keys) (fresh : List ℕ)
        (m : Message) (a b : List ℕ)
        → TellsLength body_of keys fresh → IsSealed body_of keys fresh m a → IsSealed body_of keys fresh m b
        → a ≡ b }
{
    plain_spellings_are_determined();
}

/// What was sealed opens again, to the payloads that were sealed. Does nothing.
pub fn sealed_messages_open<S: Sealer>(sealer: &S)
    ensures { (keys : Keys) (fresh : List ℕ) (m : Message) (b : List ℕ) → AreKeys keys → AreOctets fresh
        → length fresh ≡ 16
        → AllByRecursion IsClear m.payloads → IsSealed S.body_of keys fresh m b
        → OpensAgain S.plain_of keys m b }
{
    plain_spellings_are_spellings();
}
