//! What an initiator accepts of the answer to what it asked.
ghost use Rattle.std.specs.Prelude.{◌≡◌, None, Ok, IfErr, IfOk, MatchOption};
ghost use Rattle.replay.specs.Window.{IsBlockCount};
ghost use Rattle.children.specs.Accepting.{AreAcceptedTerms, IsAcceptedChild, IsUnacceptable};
ghost use Rattle.children.specs.Making.{terms_of};
ghost use Rattle.children.specs.Faults.{IsWantOfPair};

use crate::making::{AgreedTerms, make_pair, spi_of};
use crate::{Asked, MemoryFault, Setting};
use exchange::{Role, only_sa, only_ts_i, only_ts_r};
use policy::are_inside;
use sadb::Pair;
use std::alloc::Global;
use suite::Wanted;
use wire::Payload;

/// The initiator's SA pair by an answer (RFC 7296, sections 2.7 and 2.9), `None` where the answer is not
/// acceptable. An acceptable one has one SA payload, which [`suite::accept`] accepts by whether extended
/// sequence numbers were asked for, and one payload of selectors for each side, which are not empty and lie
/// inside those offered. The pair receives under its own SPI with the responder's key, and sends under the
/// answer's with the initiator's.
///
/// The only error is an allocation failure, for what the pair holds, and none comes for an answer that is not
/// acceptable.
pub fn accept(
    alloc: Global,
    answer: &[Payload],
    asked: &Asked,
    setting: &Setting,
) -> Result<Option<Pair>, MemoryFault>
    requires { IsBlockCount setting.now.blocks }
    ensures accepted { IfOk result (λ pair. MatchOption pair
        (IsUnacceptable asked.now answer.now)
        (IsAcceptedChild setting.now asked.now answer.now)) }
    ensures wanted { IfErr result IsWantOfPair }
    ensures early { IsUnacceptable asked.now answer.now → result ≡ Ok None }
{
    let Some(agreed) = accepted_terms(answer, asked) else {
        return Ok(None);
    };
    let pair = make_pair(alloc, Role::Initiator, setting, &agreed)?;
    Ok(Some(pair))
}

// The terms of an acceptable answer.
fn accepted_terms<'a>(answer: &'a [Payload], asked: &Asked) -> Option<AgreedTerms<'a>>
    ensures { MatchOption result (IsUnacceptable asked.now answer.now)
        (λ agreed. AreAcceptedTerms asked.now answer.now (terms_of agreed)) }
{
    let wanted = Wanted::Esp {
        extended: asked.extended,
    };
    let proposals = only_sa(answer)?;
    let chosen = suite::accept(proposals, &wanted)?;
    let ts_i = only_ts_i(answer)?;
    let ts_r = only_ts_r(answer)?;
    if !are_inside(ts_i, &[asked.local]) || !are_inside(ts_r, &[asked.remote]) {
        return None;
    }
    Some(AgreedTerms {
        spi_i: asked.spi,
        spi_r: spi_of(&proposals[0]),
        extended: chosen.extended,
        ts_i,
        ts_r,
    })
}
