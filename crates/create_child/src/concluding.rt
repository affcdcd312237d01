//! What an initiator makes of the answer to its request for an additional Child SA.
ghost use Rattle.std.specs.Prelude.{◌≡◌, Some, IfErr, IfOk, IsOk};
ghost use Rattle.replay.specs.Window.{IsBlockCount};
ghost use Rattle.exchange.specs.Chains.{TellsError};
ghost use Rattle.children.specs.Faults.{IsWantOfPair};
ghost use Rattle.further.specs.Concluding.{Concludes, IsConclusion, KeepsTo};
ghost use Rattle.create_child.specs.Concluding.{CanWantForAnswer, IsConcludedAtOnce};

use children::laws::what_is_accepted_was_asked;
use children::{Asked, MemoryFault, Setting, accept};
use exchange::{Plain, first_error, has_invalid_syntax, only_nonce, read_chain};
use further::Conclusion;
use std::alloc::Global;
use suite::{KeyRecord, child_keys};
use wire::Payload;

/// What an answer says.
#[derive(Drop)]
pub struct Concluded {
    /// What comes of it.
    pub conclusion: Conclusion,
    /// The error that it tells ([`first_error`]), also where a Child SA is made. `None` where it tells none,
    /// or is not in the grammar.
    pub error: Option<u16>,
}

/// What an initiator makes of the answer to what it asked by [`further::ask`] with its nonce (RFC 7296,
/// section 1.3.1), by the payloads that the answer opened to, under the IKE SA of this serial and these keys.
/// The first that applies, in this order:
///
/// 1. The payloads are not in the grammar: [`Conclusion::NoChild`], a rule of this implementation.
/// 2. A Notify payload INVALID_SYNTAX is there, also beside a complete Child SA: [`Conclusion::Closes`]
///    (section 2.21.3).
/// 3. There is not exactly one Nonce, or [`children::accept`] doesn't accept the answer:
///    [`Conclusion::NoChild`].
/// 4. [`Conclusion::Made`], under the keys that come of this end's nonce and of the answer's (section 2.17),
///    with a replay window of so many blocks, a count that [`replay::is_block_count`] allows. The SA pair
///    receives under the SPI that was asked with.
///
/// By rules of this implementation any other Notify payload brings about nothing, and a critical payload that
/// is not known is passed over, against section 2.5. The first error notification is told beside the
/// conclusion, whatever that is. The only error is an allocation failure, for the message or the pair and not
/// for its place in the table. None comes for the pair where the payloads make no Child SA.
pub fn conclude_response(
    alloc: Global,
    plain: &Plain,
    asked: &Asked,
    own_nonce: &[u8; 32],
    ike: u32,
    keys: &KeyRecord,
    blocks: u32,
) -> Result<Concluded, MemoryFault>
    requires { IsBlockCount blocks }
    ensures concluded { IfOk result
        (λ said. Concludes blocks ike keys.now asked.now own_nonce.now plain.now said.conclusion) }
    ensures told { IfOk result (λ said. TellsError plain.now said.error) }
    ensures keeps { IfOk result (λ said. KeepsTo asked.now said.conclusion) }
    ensures wanted { IfErr result (CanWantForAnswer asked.now plain.now) }
{
    match read_chain(alloc, plain)? {
        None => Ok(Concluded {
            conclusion: Conclusion::NoChild,
            error: None,
        }),
        Some(answer) => {
            let answer = answer.as_slice();
            let conclusion = conclude_on(alloc, answer, asked, own_nonce, ike, keys, blocks)?;
            Ok(Concluded {
                conclusion,
                error: first_error(answer),
            })
        }
    }
}

// What is made of these payloads.
fn conclude_on(
    alloc: Global,
    answer: &[Payload],
    asked: &Asked,
    own_nonce: &[u8; 32],
    ike: u32,
    keys: &KeyRecord,
    blocks: u32,
) -> Result<Conclusion, MemoryFault>
    requires { IsBlockCount blocks }
    ensures concluded { IfOk result
        (IsConclusion blocks ike keys.now asked.now own_nonce.now (Some answer.now)) }
    ensures keeps { IfOk result (KeepsTo asked.now) }
    ensures wanted { IfErr result IsWantOfPair }
    ensures early { IsConcludedAtOnce asked.now answer.now → IsOk result }
{
    what_is_accepted_was_asked();
    if has_invalid_syntax(answer) {
        return Ok(Conclusion::Closes);
    }
    let Some(nonce) = only_nonce(answer) else {
        return Ok(Conclusion::NoChild);
    };
    let setting = Setting {
        ike,
        keys: child_keys(&keys.sk_d, own_nonce, nonce),
        blocks,
    };
    match accept(alloc, answer, asked, &setting)? {
        Some(pair) => Ok(Conclusion::Made(pair)),
        None => Ok(Conclusion::NoChild),
    }
}
