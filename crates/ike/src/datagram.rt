//! A datagram that was read.
ghost use Rattle.std.specs.Prelude.{◌≡◌};
ghost use Rattle.wire.specs.Messages.{Spells};
ghost use Rattle.ike.specs.Receiving.{is_initial_request, is_sound_initial, sender_of, CanWantMemory};

use sa_init::Sender;
use std::marker::Model;
use wire::numbers::IKE_SA_INIT;
use wire::{Header, Message};

// A datagram that is a message: its octets spell it.
#[derive(Drop)]
pub(crate) struct Datagram<'a> {
    // The IPv4 address that it was sent from.
    pub from: [u8; 4],
    pub octets: &'a [u8],
    pub message: Message,
}

impl<'a> Model for Datagram<'a> {
    ghost use Rattle.std.specs.Coded.{codes};
    ghost use Rattle.wire.specs.Messages.{Spells};
    ghost use Rattle.wire.specs.contracts.message.Message as messages;
    ghost use Rattle.ike.specs.Datagrams as datagrams;

    ghost Value = { datagrams.Datagram };

    ghost coded = { Prim.hlevel (codes, messages.the_row.coded) };

    ghost view = { λ d. record { from = d.from; octets = d.octets.now; message = d.message } };

    ghost invariant = { λ d. Spells d.message d.octets.now };
}

impl Datagram<'_> {
    pub fn octets(&self) -> &[u8]
        ensures { result.now ≡ self.now.octets }
    {
        self.octets
    }

    pub fn message(&self) -> &Message
        ensures same { result.now ≡ self.now.message }
        ensures spelled { Spells result.now self.now.octets }
    {
        &self.message
    }

    pub fn header(&self) -> &Header
        ensures { result.now ≡ self.now.message.header }
    {
        &self.message.header
    }

    // Who sent it.
    pub fn sender(&self) -> Sender
        ensures { result ≡ sender_of self.now.from self.now.message.header }
    {
        Sender {
            address: self.from,
            spi_i: self.message.header.spi_i,
        }
    }

    // Whether it is a request of IKE_SA_INIT, by the responder's SPI, the flag R and the exchange alone.
    pub fn is_initial_request(&self) -> bool
        ensures { result ≡ is_initial_request self.now.message.header }
    {
        let header = self.header();
        header.spi_r == 0 && !header.flags.response && header.exchange == IKE_SA_INIT
    }

    // Whether such a request comes from the original initiator, has the number 0, and names an SPI (RFC 7296,
    // sections 2.2 and 3.1).
    pub fn is_sound_initial(&self) -> bool
        ensures { result ≡ is_sound_initial self.now.message.header }
    {
        let header = self.header();
        header.flags.initiator && header.id == 0 && !(header.spi_i == 0)
    }

    // Its octets spell the message, so memory may be wanted for it. Does nothing.
    pub fn is_whole(&self)
        ensures spelled { Spells self.now.message self.now.octets }
        ensures sound { CanWantMemory self.now.octets }
    {
        let _ = &self.octets;
    }
}
