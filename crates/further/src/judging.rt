//! What a responder makes of a request for an additional Child SA.
ghost use Rattle.std.specs.Prelude.{◌≡◌, false, MatchOption};
ghost use Rattle.further.specs.Judging.{is_complete, judgement_view, HasFurtherParts, IsFurtherJudgement};

use exchange::{
    ChildOffer, Notice, has_ke, offers_ike, only_nonce, only_sa, only_ts_i, only_ts_r,
    unknown_critical,
};
use wire::Payload;

/// What a request asks for (RFC 7296, section 1.3.1).
#[derive(Clone, Copy)]
pub struct FurtherRequest<'a> {
    /// The Child SA.
    pub offer: ChildOffer<'a>,
    /// The initiator's nonce (section 2.10).
    pub nonce: &'a [u8],
}

/// What a responder makes of a request.
#[derive(Clone, Copy)]
pub enum Judgement<'a> {
    /// It is answered by this Notify payload alone.
    Refused(Notice),
    /// It asks for an additional Child SA.
    Asked(FurtherRequest<'a>),
}

/// What a responder makes of the payloads of a request; `deleting` tells whether its own request to delete
/// the IKE SA is outstanding (RFC 7296, section 1.4.1). The first that applies, in this order:
///
/// 1. An unknown payload is marked as critical: the Notify payload UNSUPPORTED_CRITICAL_PAYLOAD, for the
///    first (section 2.5).
/// 2. A key exchange payload is there, or a proposal for an IKE SA, or this end is `deleting`:
///    NO_ADDITIONAL_SAS (section 1.3, in these cases a rule of this implementation).
/// 3. There is not exactly one SA, Nonce, TSi and TSr each: INVALID_SYNTAX (section 3.10.1).
/// 4. [`Judgement::Asked`].
///
/// Notify payloads are passed over, REKEY_SA (section 1.3.3) among them: no Child SA is replaced by another,
/// an additional one is made, a rule of this implementation. Takes no memory.
pub fn judge(payloads: &[Payload], deleting: bool) -> Judgement<'_>
    ensures { IsFurtherJudgement payloads.now deleting (judgement_view result) }
{
    if let Some(kind) = unknown_critical(payloads) {
        return Judgement::Refused(Notice::UnsupportedCriticalPayload { kind });
    }
    if has_ke(payloads) || offers_ike(payloads) || deleting {
        return Judgement::Refused(Notice::NoAdditionalSas);
    }
    match request_in(payloads) {
        Some(request) => Judgement::Asked(request),
        None => Judgement::Refused(Notice::InvalidSyntax),
    }
}

// `None` where there is not exactly one of each payload.
fn request_in(payloads: &[Payload]) -> Option<FurtherRequest<'_>>
    ensures { MatchOption result (is_complete payloads.now ≡ false) (HasFurtherParts payloads.now) }
{
    let proposals = only_sa(payloads)?;
    let nonce = only_nonce(payloads)?;
    let ts_i = only_ts_i(payloads)?;
    let ts_r = only_ts_r(payloads)?;
    Some(FurtherRequest {
        offer: ChildOffer {
            proposals,
            ts_i,
            ts_r,
        },
        nonce,
    })
}
