//! The keys of an IKE SA, for tests and for tools that read captured messages.
ghost use Rattle.std.specs.Prelude.{◌≡◌, Some};
ghost use Rattle.sukperin.specs.Keys.{keys_at, keys_told};
ghost use Rattle.sukperin.specs.Views.{TellsOf};

use crate::end::End;
use crate::handle::SukHandle;
use crate::hosted::Hosted;
use crate::refusal::Refusal;
use crate::views::tell;
use std::alloc::Global;
use suite::KeyRecord;

/// The seven keys of an IKE SA (RFC 7296, section 2.14).
#[repr(C)]
#[derive(Clone, Copy)]
pub struct SukKeys {
    /// The key from which those of Child SAs are made.
    pub sk_d: [u8; 32],
    /// The integrity key of what the original initiator sends.
    pub sk_ai: [u8; 32],
    /// The integrity key of what the responder sends.
    pub sk_ar: [u8; 32],
    /// The encryption key of what the original initiator sends.
    pub sk_ei: [u8; 32],
    /// The encryption key of what the responder sends.
    pub sk_er: [u8; 32],
    /// The key with which the original initiator's identity is proved.
    pub sk_pi: [u8; 32],
    /// The key with which the responder's identity is proved.
    pub sk_pr: [u8; 32],
}

/// The keys of the IKE SA with this serial, for tests and for a tool that reads captured messages. It tells
/// secrets. 108, with the keys as they were, where the gateway's terms didn't have `tells_keys`, where no
/// IKE SA has this serial, or where this one has no keys yet.
#[unsafe(no_mangle)]
pub extern "C" fn suk_keys(
    alloc: Global,
    handle: &mut SukHandle,
    ike: u32,
    keys: &mut SukKeys,
) -> u32
    ensures kept { handle.new.held.state ≡ handle.old.held.state }
    ensures told { TellsOf (keys_at ike) handle.old.held.state result keys.old keys.new }
{
    let Some(boxed) = handle.take(alloc) else {
        return Refusal::NoEnd.code();
    };
    let code = tell_keys(&boxed, ike, keys);
    handle.put_back(boxed);
    code
}

fn tell_keys(end: &End, ike: u32, keys: &mut SukKeys) -> u32
    ensures { TellsOf (keys_at ike) (Some end.now) result keys.old keys.new }
{
    let End::Gateway(hosted) = end else {
        return Refusal::NoEnd.code();
    };
    tell(keys_in(hosted, ike), keys)
}

// The keys of an IKE SA, where the gateway tells them.
fn keys_in(hosted: &Hosted, ike: u32) -> Option<SukKeys>
    ensures { result ≡ keys_at ike hosted.now }
{
    if !hosted.tells_keys {
        return None;
    }
    match hosted.gateway.keys_of(ike) {
        Some(keys) => Some(keys_of(keys)),
        None => None,
    }
}

// Keys, as they are told.
fn keys_of(keys: &KeyRecord) -> SukKeys
    ensures { result ≡ keys_told keys.now }
{
    SukKeys {
        sk_d: keys.sk_d,
        sk_ai: keys.sk_ai,
        sk_ar: keys.sk_ar,
        sk_ei: keys.sk_ei,
        sk_er: keys.sk_er,
        sk_pi: keys.sk_pi,
        sk_pr: keys.sk_pr,
    }
}
