//! Windows: how many requests an end takes at once (RFC 7296, section 2.3).
ghost use Rattle.std.specs.Prelude.{◌≡◌, ◌++◌, IfOk, OnOk};
ghost use Rattle.wire.specs.Numbers.{SET_WINDOW_SIZE};
ghost use Rattle.auth.specs.Windows.{peer_window, told_window, window_in, window_notices, window_payload};
ghost use Rattle.auth.specs.Windows.{window_within, IsWindow};

use base::Items;
use std::alloc::{AllocError, Global};
use wire::Payload;
use wire::numbers::SET_WINDOW_SIZE;

// The window of an end that tells none.
const WINDOW_LEAST: u8 = 1;

// The widest window that counts, a limit of this implementation.
const WINDOW_LIMIT: u8 = 16;

/// The SET_WINDOW_SIZE notification by which an end tells its window, 1 to 16 requests (RFC 7296, section
/// 2.3), with protocol 0 and no SPI. The only error is an allocation failure.
pub fn window_notice(alloc: Global, window: u8) -> Result<Payload, AllocError>
    requires { IsWindow window }
    ensures { IfOk result (λ payload. payload ≡ window_payload window) }
{
    Ok(Payload::Notify {
        protocol: 0,
        spi: Items::new(alloc),
        kind: SET_WINDOW_SIZE,
        data: Items::from_slice(alloc, &u32::from(window).to_be_bytes())?,
    })
}

// Adds the notification where the window is not the one that this end has untold.
pub(crate) fn push_window(
    alloc: Global,
    payloads: &mut Items<Payload>,
    window: u8,
) -> Result<(), AllocError>
    requires { IsWindow window }
    ensures { OnOk result (payloads.new ≡ payloads.old ++ window_notices window) }
{
    if window > WINDOW_LEAST {
        payloads.push(window_notice(alloc, window)?)?;
    }
    Ok(())
}

/// The window that the peer tells in these payloads (RFC 7296, section 2.3): that of the first
/// SET_WINDOW_SIZE notification with four octets of data, whatever protocol and SPI it names. A 0 counts as
/// 1, what is above 16 as 16, and no such notification as 1. Takes no memory.
pub fn peer_window(payloads: &[Payload]) -> u8
    ensures { result ≡ peer_window payloads.now }
{
    for payload in payloads {
        if let Some(window) = window_in(payload) {
            return window;
        }
    }
    WINDOW_LEAST
}

fn window_in(payload: &Payload) -> Option<u8>
    ensures { result ≡ window_in payload.now }
{
    match payload {
        Payload::Notify {
            kind: SET_WINDOW_SIZE,
            data,
            ..
        } => told_window(data.as_slice()),
        _ => None,
    }
}

fn told_window(octets: &[u8]) -> Option<u8>
    ensures { result ≡ told_window SET_WINDOW_SIZE octets.now }
{
    let octets: [u8; 4] = octets.try_into().ok()?;
    Some(window_within(u32::from_be_bytes(octets)))
}

fn window_within(number: u32) -> u8
    ensures { result ≡ window_within number }
{
    number.clamp(u32::from(WINDOW_LEAST), u32::from(WINDOW_LIMIT)) as u8
}
