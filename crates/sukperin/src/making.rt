//! Making a gateway, and its end.
ghost use Rattle.std.specs.Prelude.{◌≡◌, ◌≢◌, None, Some, IsNone, IfOk, IfErr};
ghost use Rattle.sukperin.specs.Terms.{IsMakingRefusal, IsSpellingRefusal, MakesGateway, SpellsGateway};

use crate::end::End;
use crate::handle::SukHandle;
use crate::hosted::{Hosted, Left};
use crate::refusal::Refusal;
use crate::target::LANES_FROM;
use crate::terms::{SukEntry, SukTerms, caller_of, config_of, is_start, policy_of};
use gateway::Gateway;
use std::alloc::Global;

/// Makes a gateway of these terms, with identities of 1 to 256 octets, the secrets by which both ends prove
/// who they are, and the entries of its policy in their order. An empty secret of the peer's proves
/// nothing.
///
/// Refused, with the handle as it was, in this order: 102 where it leads to an end already; 107 where the
/// inbound SPIs can't begin so; 104 where an identity, the window or the blocks can't be used; 106 where an
/// entry spells none, ends before it starts or mixes families, or there are more than 256. 20 where there
/// was no memory, which may come before 104 and 106.
#[unsafe(no_mangle)]
pub extern "C" fn suk_new(
    alloc: Global,
    handle: &mut SukHandle,
    terms: &SukTerms,
    own_id: &[u8],
    peer_id: &[u8],
    own_secret: &[u8],
    peer_secret: &[u8],
    entries: &[SukEntry],
) -> u32
    ensures made { result ≡ 0 → MakesGateway terms.now own_id.now peer_id.now own_secret.now peer_secret.now
        entries.now handle.old.held.state handle.new.held.state }
    ensures refused { result ≢ 0
        → IsMakingRefusal terms.now own_id.now peer_id.now entries.now handle.old.held.state result
        × (handle.new.held.state ≡ handle.old.held.state) }
{
    if handle.is_live() {
        return Refusal::InUse.code();
    }
    match hosted(
        alloc,
        terms,
        own_id,
        peer_id,
        own_secret,
        peer_secret,
        entries,
    ) {
        Ok(hosted) => make(alloc, handle, hosted),
        Err(refusal) => refusal.code(),
    }
}

/// Frees the gateway that the handle leads to, if any.
#[unsafe(no_mangle)]
pub extern "C" fn suk_end(alloc: Global, handle: &mut SukHandle)
    ensures { handle.new.held.state ≡ None }
{
    drop(handle.take(alloc));
}

// Makes a handle that leads to none lead to a gateway.
fn make(alloc: Global, handle: &mut SukHandle, hosted: Hosted) -> u32
    requires { IsNone handle.old.held.state }
    ensures made { result ≡ 0 → handle.new.held.state ≡ Some (End.Gateway hosted) }
    ensures refused { result ≢ 0 → (result ≡ 20) × (handle.new.held.state ≡ handle.old.held.state) }
{
    match handle.make(alloc, End::Gateway(hosted)) {
        Ok(()) => 0,
        Err(refusal) => refusal.code(),
    }
}

// The gateway of these terms, with no IKE SA.
fn hosted(
    alloc: Global,
    terms: &SukTerms,
    own_id: &[u8],
    peer_id: &[u8],
    own_secret: &[u8],
    peer_secret: &[u8],
    entries: &[SukEntry],
) -> Result<Hosted, Refusal>
    ensures made { IfOk result
        (SpellsGateway terms.now own_id.now peer_id.now own_secret.now peer_secret.now entries.now) }
    ensures refused { IfErr result (IsSpellingRefusal terms.now own_id.now peer_id.now entries.now) }
{
    if !is_start(terms.first_spi) {
        return Err(Refusal::Spi);
    }
    let config = match config_of(alloc, terms, own_id, peer_id) {
        Ok(config) => config,
        Err(refusal) => return Err(refusal),
    };
    let policy = match policy_of(alloc, entries) {
        Ok(policy) => policy,
        Err(refusal) => return Err(refusal),
    };
    match caller_of(alloc, terms, peer_id, own_secret, peer_secret) {
        Ok(caller) => {
            let mut gateway = Gateway::new(alloc, config, policy, terms.first_spi, caller);
            gateway.begin_lanes_at(LANES_FROM);
            Ok(Hosted {
                gateway,
                left: Left::Nothing,
                tells_keys: terms.tells_keys != 0,
            })
        }
        Err(refusal) => Err(refusal),
    }
}
