//! What an end holds of one IKE SA.
ghost use Rattle.std.specs.Prelude.{◌≡◌, Some, None, MatchBool, MatchOption};
ghost use Rattle.std.specs.Option.{option_copied};
ghost use Rattle.std.specs.Prelude.{ℕ, IsSome};
ghost use Rattle.requests.specs.Outgoing.{GivesUpRequests, IsOutstanding};
ghost use Rattle.sadb.specs.Database.{IsReserved};
ghost use Rattle.association.specs.Closing.{Closes, GivesUpSpi, GivesUpSpis, HoldsNoSpi, HoldsReserved, HoldsSomeSpi};
ghost use Rattle.association.specs.GivingUp.{GivesUpRequest};
ghost use Rattle.association.specs.Phases.{established_of, established_spi, keys_in, spi_in};
ghost use Rattle.association.specs.Purposes.{AwaitsChild, AwaitsDeletion, AwaitsNone, AwaitsSome, AwaitsSpi};

use crate::{AskedChild, Purpose};
use base::Items;
use exchange::Role;
use requests::{Incoming, Outgoing, Timer};
use sadb::{Spi, Table};
use std::mem;
use suite::KeyRecord;

/// An IKE SA, as one end holds it.
#[derive(Drop)]
pub struct Association {
    /// Its serial at this end, from 1 on.
    pub serial: u32,
    /// Whether this end began it: its original initiator (RFC 7296, section 2.2).
    pub role: Role,
    /// The original initiator's SPI.
    pub spi_i: u64,
    /// The responder's SPI, 0 while the initiator doesn't know it.
    pub spi_r: u64,
    /// The peer's requests.
    pub incoming: Incoming,
    /// This end's requests.
    pub outgoing: Outgoing<Request>,
    /// How far it has come.
    pub phase: Phase,
}

/// A request of this end that waits for its answer.
#[derive(Drop)]
pub struct Request {
    /// The datagram, which goes out again as it is (RFC 7296, section 2.1).
    pub octets: Items<u8>,
    /// What it asks for.
    pub purpose: Purpose,
    /// When it goes out again.
    pub timer: Timer,
}

/// How far an IKE SA has come, with what that phase alone has.
#[derive(Drop)]
pub enum Phase {
    /// This end asked for an IKE SA by IKE_SA_INIT, and waits for the response.
    InitSent(InitSent),
    /// This end told who it is by IKE_AUTH, and waits for the response.
    AuthSent(AuthSent),
    /// This end answered IKE_SA_INIT, and waits for IKE_AUTH.
    HalfOpen(HalfOpen),
    /// Both ends know who the other is; these are the keys.
    Established(KeyRecord),
    /// It is over, and is held for a while to answer what the peer sends again.
    Closed {
        /// The keys, where both ends came to them.
        keys: Option<KeyRecord>,
        /// The time of closing, in milliseconds.
        at: u64,
    },
}

/// What an initiator keeps of its IKE_SA_INIT request (RFC 7296, sections 1.2 and 2.6).
#[derive(Drop)]
pub struct InitSent {
    /// The secret of the key agreement.
    pub secret: [u8; 32],
    pub nonce: [u8; 32],
    /// The cookie that the request carries.
    pub cookie: Option<Items<u8>>,
    /// How many cookies it has taken so far, that one included.
    pub cookies_taken: u8,
    /// The Child SA that IKE_AUTH is to ask for.
    pub child: AskedChild,
}

/// What an initiator keeps while it waits for the response of IKE_AUTH.
#[derive(Drop)]
pub struct AuthSent {
    pub keys: KeyRecord,
    /// The responder's first message, over which its AUTH is computed (RealMessage2; RFC 7296, section 2.15).
    pub first: Items<u8>,
    /// The Child SA that was asked for.
    pub child: AskedChild,
}

/// What a responder keeps until IKE_AUTH comes.
#[derive(Drop)]
pub struct HalfOpen {
    pub keys: KeyRecord,
    /// The initiator's first message, over which its AUTH is computed (RealMessage1; RFC 7296, section 2.15),
    /// and by which its retransmission is known.
    pub request: Items<u8>,
    /// This end's answer, over which its own AUTH is computed (RealMessage2), and which goes out again
    /// where the request comes again.
    pub reply: Items<u8>,
    /// The time at which it was made, in milliseconds.
    pub made: u64,
}

impl Association {
    /// The keys, where both ends have come to them.
    pub fn keys(&self) -> Option<&KeyRecord>
        ensures { MatchOption result (keys_in self.now.phase ≡ None)
            (λ keys. keys_in self.now.phase ≡ Some keys.now) }
    {
        match &self.phase {
            Phase::InitSent(_) => None,
            Phase::AuthSent(sent) => Some(&sent.keys),
            Phase::HalfOpen(open) => Some(&open.keys),
            Phase::Established(keys) => Some(keys),
            Phase::Closed { keys, .. } => keys.as_ref(),
        }
    }

    /// Whether a request of this end to delete it waits for its answer (RFC 7296, section 1.4.1). Takes no
    /// memory.
    pub fn is_deleting(&self) -> bool
        ensures { MatchBool result (AwaitsDeletion self.now.outgoing) (¬ AwaitsDeletion self.now.outgoing) }
    {
        self.outgoing.any(|request| request.purpose.asks_to_end())
    }

    /// Whether an SPI is reserved for a Child SA that it asked for and that is still to come. Takes no
    /// memory.
    pub fn holds_spi(&self) -> bool
        ensures { MatchBool result (HoldsSomeSpi self.now) (HoldsNoSpi self.now) }
    {
        asks_first(&self.phase) || asks_further(&self.outgoing)
    }

    /// Makes an IKE SA established whose IKE_AUTH is done; in any other phase than [`Phase::AuthSent`] and
    /// [`Phase::HalfOpen`] nothing changes. The SPI is answered that was reserved for the first Child SA,
    /// where this end asked for one. Takes no memory.
    pub fn establish(&mut self) -> Option<Spi>
        ensures spi { result ≡ established_spi self.old.phase }
        ensures content { self.new ≡ record self.old { phase = established_of self.old.phase } }
    {
        let (phase, spi) = established(mem::replace(&mut self.phase, Phase::ENDED));
        self.phase = phase;
        spi
    }

    /// Ends it at a time, in milliseconds: it waits for no answer any more, its Child SAs are taken out of
    /// the table, and the SPIs that were reserved for additional ones are given up. What it answered is kept
    /// to be sent again. Takes no memory.
    ///
    /// The caller asks only where these SPIs are reserved in the table, each for one child.
    pub fn close(&mut self, table: &mut Table, moment: u64)
        requires { HoldsReserved self.old table.old }
        ensures { Closes self.old table.old moment self.new table.new }
    {
        let (keys, spi) = ended(mem::replace(&mut self.phase, Phase::ENDED));
        self.phase = Phase::Closed { keys, at: moment };
        give_up_spi(table, spi);
        give_up_requests(&mut self.outgoing, table);
        table.remove_all_of(self.serial);
    }
}

impl Phase {
    // What stands in a place while its content is elsewhere.
    const ENDED: Phase = Phase::Closed { keys: None, at: 0 };
}

// The phase that follows where both ends have proved who they are, and the SPI that the first Child SA was to
// have.
fn established(phase: Phase) -> (Phase, Option<Spi>)
    ensures phase { result.0 ≡ established_of phase }
    ensures spi { result.1 ≡ established_spi phase }
{
    match phase {
        Phase::AuthSent(sent) => (Phase::Established(sent.keys), Some(sent.child.into_spi())),
        Phase::HalfOpen(open) => (Phase::Established(open.keys), None),
        other => (other, None),
    }
}

// Whether the first Child SA is still to come.
fn asks_first(phase: &Phase) -> bool
    ensures { MatchBool result (IsSome (spi_in phase.now)) (spi_in phase.now ≡ None) }
{
    match phase {
        Phase::InitSent(_) => true,
        Phase::AuthSent(_) => true,
        _ => false,
    }
}

// Whether an additional Child SA is still to come.
fn asks_further(requests: &Outgoing<Request>) -> bool
    ensures { MatchBool result (AwaitsSome requests.now) (AwaitsNone requests.now) }
{
    requests.any(|request| request.purpose.asks_for_child())
}

// The keys, and the SPI that the first Child SA was to have.
fn ended(phase: Phase) -> (Option<KeyRecord>, Option<Spi>)
    ensures keys { result.0 ≡ keys_in phase }
    ensures spi { result.1 ≡ spi_in phase }
{
    match phase {
        Phase::InitSent(sent) => (None, Some(sent.child.into_spi())),
        Phase::AuthSent(sent) => (Some(sent.keys), Some(sent.child.into_spi())),
        Phase::HalfOpen(open) => (Some(open.keys), None),
        Phase::Established(keys) => (Some(keys), None),
        Phase::Closed { keys, .. } => (keys, None),
    }
}

// None of them waits for its answer any more, and the SPIs of the Child SAs that they asked for are given up.
fn give_up_requests(requests: &mut Outgoing<Request>, table: &mut Table)
    requires reserved { (spi : ℕ) → AwaitsSpi requests.old spi → IsReserved table.old spi }
    requires one { (number other spi : ℕ)
        → AwaitsChild requests.old number spi → AwaitsChild requests.old other spi → number ≡ other }
    ensures requests { GivesUpRequests requests.old requests.new }
    ensures spis { GivesUpSpis (AwaitsSpi requests.old) table.old table.new }
{
    while let Some((number, _)) = requests.after(None) {
        give_up_request(requests, table, number);
    }
}

fn give_up_request(requests: &mut Outgoing<Request>, table: &mut Table, issued: u32)
    requires outstanding { IsOutstanding requests.old issued }
    requires reserved { (spi : ℕ) → AwaitsChild requests.old issued spi → IsReserved table.old spi }
    ensures { GivesUpRequest requests.old table.old issued requests.new table.new }
{
    let request = requests.withdraw(issued);
    give_up_spi(table, request.purpose.into_spi());
}

fn give_up_spi(table: &mut Table, given: Option<Spi>)
    requires { (spi : ℕ) → given ≡ Some spi → IsReserved table.old spi }
    ensures { GivesUpSpi given table.old table.new }
{
    if let Some(spi) = given {
        table.release(spi);
    }
}
