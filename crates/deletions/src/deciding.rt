//! What is made of a request.
ghost use Rattle.std.specs.Prelude.{◌≡◌, IfOk};
ghost use Rattle.deletions.specs.Deciding.{is_closing_verdict, verdict_of, IsSoundVerdict, IsVerdictOn};

use crate::DeletedPairs;
use crate::naming::find_deleted;
use exchange::{
    Plain, deletes_association, esp_spis, names_more_than, read_chain, unknown_critical,
};
use sadb::Table;
use std::alloc::{AllocError, Global};
use wire::Payload;

// The most SPIs that one message may name, a limit of this implementation.
const NAMED_LIMIT: usize = 512;

/// What is made of a request of INFORMATIONAL (RFC 7296, section 1.4).
#[derive(Debug, PartialEq, Eq, Drop)]
pub enum Verdict {
    /// It is not in the grammar (section 2.21.3), or names more than 512 SPIs, a limit of this
    /// implementation. That ends the IKE SA too.
    BadSyntax,
    /// A payload of this type is marked as critical and not known (section 2.5).
    Unsupported { kind: u8 },
    /// The IKE SA under which it comes is deleted, with all its Child SAs, and the answer is empty (section
    /// 1.4.1).
    Closes,
    /// These SA pairs are to be taken out by [`remove_named`](crate::remove_named); none, where no pair is
    /// named that goes, as in an empty request.
    Deletes(DeletedPairs),
}

impl Verdict {
    /// Whether it ends the IKE SA: a request that deletes it, or one that is refused as not in the grammar
    /// (RFC 7296, sections 1.4.1 and 2.21.3).
    pub fn is_closing(&self) -> bool
        ensures { result ≡ is_closing_verdict self.now }
    {
        match self {
            Verdict::BadSyntax => true,
            Verdict::Unsupported { .. } => false,
            Verdict::Closes => true,
            Verdict::Deletes(_) => false,
        }
    }
}

/// What is made of a request of INFORMATIONAL that came under the IKE SA with this serial (RFC 7296, sections
/// 1.4.1 and 3.11).
///
/// In this order: [`Verdict::BadSyntax`] where its payloads are not in the grammar (section 2.21.3),
/// [`Verdict::Unsupported`] for the first payload that is not known and marked as critical (section 2.5),
/// [`Verdict::BadSyntax`] where more than 512 SPIs are named. Then come [`Verdict::Closes`] where a Delete is
/// of IKE, and else [`Verdict::Deletes`]. Each SPI is counted as often as it is named, and whatever its
/// protocol.
///
/// The SPIs of ESP that are named are worked through in order, each on the table as it is without the SA
/// pairs that go for those before it. The pair of this IKE SA is meant that sends under the SPI, the oldest
/// where a peer gave one SPI to several. A Live pair goes, so an SPI that is named twice takes the next pair
/// under it too, if there is one. A Deleting one stays, since this end asked for that itself: it carries
/// nothing outward any more, and its inward half goes with the answer (section 1.4.1). An SPI of no pair is
/// passed over, as are a Delete of AH and all other payloads. The table itself is not changed. The only error
/// is an allocation failure.
pub fn decide(alloc: Global, plain: &Plain, ike: u32, table: &Table) -> Result<Verdict, AllocError>
    ensures verdict { IfOk result (IsVerdictOn table.now.pairs ike plain.now) }
    ensures sound { IfOk result (IsSoundVerdict table.now.pairs ike) }
{
    match read_chain(alloc, plain)? {
        None => Ok(Verdict::BadSyntax),
        Some(payloads) => judge(alloc, payloads.as_slice(), ike, table),
    }
}

fn judge(
    alloc: Global,
    payloads: &[Payload],
    ike: u32,
    table: &Table,
) -> Result<Verdict, AllocError>
    ensures { IfOk result (λ verdict. verdict ≡ verdict_of table.now.pairs ike payloads.now) }
{
    if let Some(kind) = unknown_critical(payloads) {
        return Ok(Verdict::Unsupported { kind });
    }
    if names_more_than(payloads, NAMED_LIMIT) {
        return Ok(Verdict::BadSyntax);
    }
    if deletes_association(payloads) {
        return Ok(Verdict::Closes);
    }
    let spis = esp_spis(alloc, payloads)?;
    let deleted = find_deleted(alloc, table, ike, spis.as_slice())?;
    Ok(Verdict::Deletes(deleted))
}
