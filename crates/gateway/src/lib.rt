//! One gateway (RFC 4301): the IKE machine and the packet path, over one table of SA pairs (SAD) and one
//! policy (SPD). Inputs are datagrams, packets, commands and the time; outputs are datagrams, packets and
//! error codes.
//!
//! [`Gateway::step`] takes one input, [`run`] a list of them. What a step does is said by the crates below:
//! [`ike`] for IKE datagrams and commands, [`traffic`] for packets. This crate says which of them an input
//! goes to, and what stays unchanged: the policy and the provider always, the IKE machine where a packet
//! comes. Lemmas on the definitions are in [`laws`].
//!
//! [`World`] holds two gateways, for tests and proofs. [`run_world`] gives each its events in order, and
//! stores what they sent and made. Of both together it promises:
//!
//! - Message IDs keep in step, as [`lockstep`] says of two parties;
//! - neither end assumes a wider window than its peer is configured with;
//! - the Child SAs of one request mirror each other;
//! - what one end delivers, the other sealed.
//!
//! # Inputs and outputs
//!
//! A host gives each datagram and packet as an [`Input`] that lends its octets, commands (`Start`, `Probe`,
//! `DeleteChild`, `DeleteIke`), and times: milliseconds of a clock of its own, which never goes back. **All
//! timers run from the last `Tick`, at first from 0.** So a host gives one before each other input, whenever
//! its clock has moved, and one at [`next_moment`](Gateway::next_moment). One does all that is due.
//!
//! `Start` names an entry by its place in the policy; with `ike: None` it begins a new IKE SA, with an IKE
//! SA's serial it asks that one for an additional Child SA. Serials count from 1; `table().after(0)` is the
//! first child there is, if any, and has its own serial and its IKE SA's. [`Fresh`] is random octets, drawn
//! anew for each input. To replace a Child SA, `Start` a new one, and `DeleteChild` the old one once the new
//! one carries.
//!
//! What comes is an [`Output`], which prints as one line:
//!
//! - `Request`, `Reply`, `Repeat`, `Ticked` and `Sealed` have something to send:
//!   [`datagrams`](Output::datagrams) tells what, as `&[u8]`. Commands answer `Request`, a `Tick` answers
//!   `Ticked`, an outbound packet `Sealed`;
//! - `Up` has a packet for the inside, `Clear` one that the policy lets pass as it is;
//! - `Counted` is a response that was matched to its request, `Dummy` a packet to be thrown away, and `Done`
//!   the answer to `Secret`. Where `closed` tells the serial of an IKE SA, that one ended with all its Child
//!   SAs: a host that wants the tunnel gives `Start` again, and waits longer each time;
//! - nothing came of it: `Dropped` where what came or was to be sent doesn't fit (`dropped: E16: the number
//!   was taken already`), `Refused` where a command can't be carried out or memory ran out, `Discarded`
//!   where the policy says so, or no entry covers the packet.
//!
//! [`reason`](Output::reason) tells why nothing came of an input, and its `code` the number behind `E`. E10,
//! E20, E24 and E27 mean that memory ran out: nothing changed, and the same input may be given again. E32 and
//! E35 on a command mean later: the IKE SA isn't established, or an earlier request waits for its response.
//! E28 is the usual drop: there is no SA (yet, or any more) that the packet or the datagram is for.
//!
//! Three things are called a secret. That of [`Config::new`] makes cookies; `Fresh::secret` is this end's
//! half of one key agreement; the pre-shared secret of a peer is in the caller. `caller_peer::PeerCaller` is
//! made of this end's own pre-shared secret and a list of peers, each with the type and octets of its
//! identity and its secret. `Items::from_vec` takes over what a `Vec` holds.
//!
//! What the examples' errors are is `std::test::Fail`; a program may take `anyhow::Error`. Several gateways
//! of one host take first SPIs at least 65,536 apart.
//!
//! # Two hosts
//!
//! ```rust
//! use caller_script::ScriptCaller; // no encryption, for tests: real peers want caller_peer::PeerCaller
//! use gateway::{Address, Config, EndConfig, Entry, Fresh, Gateway, Identity, Input};
//! use gateway::{Items, Output, Policy, Range, Transmit, first_spi};
//! use std::alloc::Global;
//! use std::mem;
//! use std::test::Fail;
//!
//! // Site N has the addresses 10.N.0.0/16, and its gateway 192.0.2.N.
//! fn end_of(alloc: Global, site: u8) -> Result<EndConfig, Fail> {
//!     let address = [192, 0, 2, site];
//!     let identity = Identity::address(alloc, address)?; // or Identity::fqdn(alloc, "a.example")?
//!     Ok(EndConfig { identity, address })
//! }
//!
//! fn gateway_of(alloc: Global, site: u8, peer: u8) -> Result<Gateway<ScriptCaller>, Fail> {
//!     let secret = [site; 32]; // of cookies: random octets
//!     let config = Config::new(end_of(alloc, site)?, end_of(alloc, peer)?, &secret)?;
//!     let local = Range::prefix(Address::v4([10, site, 0, 0]), 16)?;
//!     let remote = Range::prefix(Address::v4([10, peer, 0, 0]), 16)?;
//!     let entry = Entry::protect(local, remote);
//!     let policy = Policy::new(Items::from_slice(alloc, &[entry])?)?;
//!     let spi = first_spi(4096)?;
//!     Ok(Gateway::new(alloc, config, policy, spi, ScriptCaller))
//! }
//!
//! // In place of the system's random octets, which a real host draws anew for each input that has them.
//! fn drawn(count: u8) -> Fresh {
//!     Fresh {
//!         spi: u64::from(count) + 1,
//!         nonce: [count; 32],
//!         secret: [count; 32],
//!         seal: [count; 16],
//!     }
//! }
//!
//! // What goes out: by UDP, from port 500 to port 500, or by IP, as protocol 50.
//! #[derive(Drop)]
//! enum Sent {
//!     Udp(Items<u8>),
//!     Ip(Items<u8>),
//! }
//!
//! // A real host has sockets in place of `sent`, and an interface in place of `up`.
//! #[derive(Drop)]
//! struct Host {
//!     gateway: Gateway<ScriptCaller>,
//!     address: [u8; 4],
//!     sent: Vec<Sent>,
//!     up: Vec<Items<u8>>,
//! }
//!
//! fn host_of(alloc: Global, site: u8, peer: u8) -> Result<Host, Fail> {
//!     Ok(Host {
//!         gateway: gateway_of(alloc, site, peer)?,
//!         address: [192, 0, 2, site],
//!         sent: Vec::new(alloc),
//!         up: Vec::new(alloc),
//!     })
//! }
//!
//! fn start(alloc: Global, host: &mut Host) -> Result<(), Fail> {
//!     let begin = Input::Start {
//!         ike: None,
//!         entry: 0,
//!         fresh: &drawn(0),
//!     };
//!     take(alloc, host, &begin)
//! }
//! ```
//!
//! # The loop of a host
//!
//! Two sites, and a wire between them that loses each third datagram. The first host begins, and sends a
//! packet to the other site at each turn. Nobody sends lost ESP again; lost messages of IKE go out again
//! when they are due.
//!
//! ```rust
//! // One input, and what comes of it.
//! fn take(alloc: Global, host: &mut Host, input: &Input<'_>) -> Result<(), Fail> {
//!     let output = host.gateway.step(alloc, input);
//!     for datagram in output.datagrams() {
//!         host.sent.push(match datagram {
//!             Transmit::Ike(octets) => Sent::Udp(Items::from_slice(alloc, octets)?),
//!             Transmit::Esp(octets) => Sent::Ip(Items::from_slice(alloc, octets)?),
//!         })?;
//!     }
//!     if let Output::Up { packet, .. } = output {
//!         host.up.push(Items::from_slice(alloc, packet)?)?;
//!     }
//!     Ok(())
//! }
//!
//! // The wire: what one end sent comes to the other one, but each third datagram is lost.
//! fn carry(alloc: Global, count: &mut u8, from: &mut Host, to: &mut Host) -> Result<(), Fail> {
//!     for datagram in mem::replace(&mut from.sent, Vec::new(alloc)) {
//!         *count = count.wrapping_add(1);
//!         let fresh = drawn(*count);
//!         let input = match &datagram {
//!             Sent::Udp(octets) => Input::Ike {
//!                 from: from.address,
//!                 octets: octets.as_slice(),
//!                 fresh: &fresh,
//!             },
//!             Sent::Ip(octets) => Input::Esp {
//!                 octets: octets.as_slice(),
//!             },
//!         };
//!         if *count % 3 != 0 {
//!             take(alloc, to, &input)?;
//!         }
//!     }
//!     Ok(())
//! }
//!
//! // A turn of the loop: a packet for the other site, what comes from the peer, and the time. Here it jumps
//! // to what is due next at the end that began, and both are told it. A real host sleeps until its own
//! // gateway's next moment, or until something comes, and tells its clock's time first.
//! fn turn(
//!     alloc: Global,
//!     count: &mut u8,
//!     packet: &[u8],
//!     a: &mut Host,
//!     b: &mut Host,
//! ) -> Result<(), Fail> {
//!     take(alloc, a, &Input::Outward { packet })?; // dropped as long as there is no tunnel
//!     carry(alloc, count, a, b)?;
//!     carry(alloc, count, b, a)?;
//!     if let Some(moment) = a.gateway.next_moment() {
//!         take(alloc, a, &Input::Tick { moment })?;
//!         take(alloc, b, &Input::Tick { moment })?;
//!     }
//!     Ok(())
//! }
//!
//! let alloc = rt.alloc();
//! let mut a = host_of(alloc, 1, 2)?;
//! let mut b = host_of(alloc, 2, 1)?;
//! // From 10.1.0.1 to 10.2.0.1.
//! let packet = [
//!     0x45, 0, 0, 20, 0, 0, 0, 0, 64, 1, 0, 0, 10, 1, 0, 1, 10, 2, 0, 1,
//! ];
//! start(alloc, &mut a)?;
//! let mut count = 0;
//! for _ in 0..20u32 {
//!     turn(alloc, &mut count, &packet, &mut a, &mut b)?;
//! }
//! let up = b.up.pop().ok_or("nothing went up")?;
//! assert_eq!(rt; up.as_slice(), packet.as_slice());
//! ```
//!
//! # How it is proved
//!
//! The loops of [`run`] have the run so far as their invariant: one input more within a group, then one
//! group more. `every_run_keeps_its_promises` does the rest, on lists alone. `proofs/HistoryLemmas` makes
//! transitions of a run, by induction on the inputs, and follows one IKE SA from one transition to a later
//! one, by induction on the later one's place. `PromiseLemmas` joins the parts:
//!
//! - requests and retransmissions (`RequestLemmas`), from what [`ike`] says of one step. They know no
//!   message, key or number beside;
//! - timers (`MomentLemmas`): each gateway is timely before and after each step (`IsTimely`), as [`ike`]
//!   shows;
//! - ESP packets (`DeliveryLemmas`): seen from its table, a run is a trail of [`deliveries`], whose theorem
//!   is carried back;
//! - who is established (`AuthenticationLemmas`), by induction on the place: each step keeps the keys, or
//!   its datagram proves the peer;
//! - for whom packets are carried (`KnownLemmas`): `EndingLemmas` shows of a message, and [`moments`] says of
//!   a tick, that an IKE SA which is closed takes its pairs along. `StandingLemmas` says of one step where
//!   each pair comes from, `CarryingLemmas` follows that over a list, `InsideLemmas` what is asked for, and
//!   `ClosingLemmas` an IKE SA that is closed or gone;
//! - what strangers change (`StrangerLemmas`, `KeylessLemmas`), by the way a datagram is taken;
//! - what can be left out (`AlikeLemmas`): `LeavingLemmas` goes along two runs at once, by the law that a
//!   step has one result, and `EffectLemmas` says of which part;
//! - inbound SPIs (`SpiLemmas`): no step brings one back that was given (`GivingLemmas`), so each table
//!   follows the one before, as [`sadb`] has it;
//! - what is refused changes nothing but spare capacity (`LawLemmas`).
//!
//! Of two gateways, a step is a turn of its party in [`lockstep`] (`TurnLemmas`), and by induction on the
//! events both parties stay sound (`SoundWorldLemmas`). Windows, Child SAs and pairs have invariants of their
//! own, kept event by event (`WindowWorldLemmas`, `ChildLemmas`, `PairLemmas`). `CarryLemmas` joins these,
//! with `MirrorLemmas` and what [`traffic`] says of mirrored pairs. `World` reserves all memory before a
//! step that may send (`FittingLemmas`), so nothing that was sent is lost; of the others there is nothing to
//! store (`StoringLemmas`). That what goes up had been sealed before it came is the promise of the list up to
//! that step (`OriginLemmas`).
#![tactic(auto)]

mod ahead;
mod fault;
mod given;
mod input;
pub mod laws;
mod laying;
mod line;
mod load;
mod machine;
mod output;
mod row;
mod running;
mod stepping;
mod transmit;
mod world;

// What a host needs to make a gateway, to read its outputs, and to name its refusals.
pub use association::{Association, MessageFault};
pub use auth::{Identity, IdentityFault};
pub use base::{Address, Items, PrefixFault, Range, Selector};
pub use children::MemoryFault;
pub use esp::{EspFault, Precomputed};
pub use fault::{Reason, RunFault};
pub use ike::{IkeFault, MadeChild, Mark, Trace};
pub use input::Input;
pub use machine::Gateway;
pub use moments::Resent;
pub use output::{Output, Traced};
pub use policy::{Action, Entry, InnerFault, Policy, PolicyFault};
pub use row::Span;
pub use running::run;
pub use sadb::{Pair, SpiFault, State, Table, first_spi};
pub use setup::{Config, ConfigFault, EndConfig};
pub use suite::{Agreement, Cipher, Fresh, KeyRecord, Keys, Proof, Sealer};
pub use traffic::{Arrival, Laid, PacketFault};
pub use transmit::{Datagrams, Transmit};
pub use wire::WireFault;
pub use world::{Child, Datagram, End, Event, Keyed, Protection, Simplex, World, run_world};
