//! An initiator's IKE SA as it begins.
ghost use Rattle.std.specs.Prelude.{◌≡◌, IfOk};
ghost use Rattle.initial.specs.Beginning.{begun, Begins};

use association::{
    AskedChild, Association, InitSent, Phase, Purpose, Request, issued, new_request,
};
use base::Items;
use exchange::Role;
use requests::{Incoming, Outgoing};
use sa_init::request;
use setup::Setup;
use std::alloc::{AllocError, Global};
use suite::{Agreement, Sealer};

/// The first request of an initiator, made before its Child SA has an SPI.
#[derive(Drop)]
pub struct Beginning {
    /// The request.
    pub octets: Items<u8>,
    /// This end's requests, of which it is the first.
    pub outgoing: Outgoing<Request>,
    /// This end's SPI.
    pub spi_i: u64,
    /// The secret of its key agreement.
    pub secret: [u8; 32],
    pub nonce: [u8; 32],
}

/// Makes the first request of an initiator (RFC 7296, section 1.2), with the SPI, the secret and the nonce
/// that are fresh. That the SPI is not zero and no SPI of this end in use is the caller's to see to. The only
/// error is an allocation failure.
pub fn begin<C: Sealer + Agreement>(
    alloc: Global,
    setup: &Setup<'_, C>,
) -> Result<Beginning, AllocError>
    ensures { IfOk result
        (Begins C.cipher C.group_number C.public_value setup.now.fresh.now setup.now.moment) }
{
    let fresh = setup.fresh;
    let octets = request(
        alloc,
        setup.caller,
        fresh.spi,
        None,
        &fresh.secret,
        &fresh.nonce,
    )?;
    let kept = Items::from_slice(alloc, octets.as_slice())?;
    let outgoing = issued(
        Outgoing::new(alloc),
        new_request(kept, Purpose::Begin, setup.moment),
    )?;
    Ok(Beginning {
        octets,
        outgoing,
        spi_i: fresh.spi,
        secret: fresh.secret,
        nonce: fresh.nonce,
    })
}

impl Beginning {
    /// The IKE SA that waits for the response, and the request that goes out. Takes no memory.
    pub fn into_association(
        self,
        alloc: Global,
        serial: u32,
        child: AskedChild,
    ) -> (Association, Items<u8>)
        ensures association { result.0 ≡ begun serial self child }
        ensures octets { result.1 ≡ self.octets }
    {
        let Beginning {
            octets,
            outgoing,
            spi_i,
            secret,
            nonce,
        } = self;
        let association = Association {
            serial,
            role: Role::Initiator,
            spi_i,
            spi_r: 0,
            incoming: Incoming::new(alloc),
            outgoing,
            phase: Phase::InitSent(InitSent {
                secret,
                nonce,
                cookie: None,
                cookies_taken: 0,
                child,
            }),
        };
        (association, octets)
    }
}
