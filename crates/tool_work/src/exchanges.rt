//! The exchanges of two gateways, step by step (RFC 7296, sections 1.2 to 1.4, 2.1 to 2.6 and 2.21).
use crate::kind::Kind;
use crate::pair::Pair;
use base::Items;
use gateway::{End, IkeFault, MessageFault, Reason};
use sa_init::COOKIE_THRESHOLD;
use std::alloc::Global;
use test_samples::{OwnedInput, fresh, further, packet_out, probe};

// The first octet of a message, of the initiator's SPI (RFC 7296, section 3.1).
const SPI_I: usize = 0;

// The octet of a message that has its version (section 3.1).
const VERSION: usize = 17;

// The last octet of a Message ID (section 3.1).
const MESSAGE_ID: usize = 23;

// The first octet of a body, behind the headers of the message and of its payload (section 3.14).
const BODY: usize = 32;

/// An IKE SA from the first request to its deletion.
pub fn live(alloc: Global, pair: &mut Pair) -> Option<()> {
    agree(pair)?;
    ask_whether_alive(alloc, pair)?;
    ask_among_others(alloc, pair)?;
    add_child(alloc, pair)?;
    delete_child(pair)?;
    ask_in_time(pair)?;
    close(alloc, pair)
}

/// Where many IKE SAs are half open, the responder wants a cookie before it computes anything (section 2.6).
pub fn bring_cookie(pair: &mut Pair) -> Option<()> {
    for _ in 0..COOKIE_THRESHOLD {
        pair.open_half()?;
    }
    let name = "IKE_SA_INIT in a crowd";
    let request = pair.begin(name)?;
    let cookie = pair.deliver(name, "answered by a cookie", End::B, &request, Kind::Reply)?;
    let again = pair.deliver(name, "asked again with it", End::A, &cookie, Kind::Request)?;
    let response = pair.deliver(name, "answered with it", End::B, &again, Kind::Reply)?;
    let words = "response taken, IKE_AUTH asked";
    pair.deliver(name, words, End::A, &response, Kind::Request)?;
    Some(())
}

/// The first request comes with another version, which nobody minds. So the ends have the same keys, but the
/// initiator proves other octets than the responder has, and is refused (sections 2.15 and 2.21.2).
pub fn prove_in_vain(alloc: Global, pair: &mut Pair) -> Option<()> {
    let name = "IKE_SA_INIT changed on its way";
    let request = pair.begin(name)?;
    let request = changed(alloc, &request, VERSION, 1)?;
    let response = pair.deliver(name, "answered", End::B, &request, Kind::Reply)?;
    let words = "response taken, IKE_AUTH asked";
    let request = pair.deliver(name, words, End::A, &response, Kind::Request)?;
    let name = "IKE_AUTH in vain";
    let refusal = pair.deliver(name, "refused", End::B, &request, Kind::LastReply)?;
    pair.deliver(name, "refusal taken", End::A, &refusal, Kind::CountedLast)?;
    Some(())
}

// IKE_SA_INIT, and IKE_AUTH with the first child (section 1.2).
fn agree(pair: &mut Pair) -> Option<()> {
    let name = "IKE_SA_INIT";
    let request = pair.begin(name)?;
    let response = pair.deliver(name, "answered", End::B, &request, Kind::Reply)?;
    pair.deliver(name, "request again", End::B, &request, Kind::Repeat)?;
    let words = "response taken, IKE_AUTH asked";
    let request = pair.deliver(name, words, End::A, &response, Kind::Request)?;
    respond_again(pair, name, &response)?;
    let name = "IKE_AUTH";
    let response = answer(pair, name, &request, Kind::Reply, Kind::CountedChild)?;
    respond_again(pair, name, &response)
}

// Liveness checks (section 2.4). With windows of one request, the first is left behind once the second is
// answered, which has the Message ID 3. A bit more makes it 7, and that lies past the window (section 2.3).
fn ask_whether_alive(alloc: Global, pair: &mut Pair) -> Option<()> {
    let (first, response) = exchange(pair, "probe", &probe(1), Kind::Reply, Kind::Counted)?;
    respond_again(pair, "probe", &response)?;
    let (second, _) = exchange(pair, "second probe", &probe(1), Kind::Reply, Kind::Counted)?;
    let forgotten = Kind::dropped(MessageFault::Forgotten);
    pair.deliver("probe", "left behind", End::B, &first, forgotten)?;
    let outside = Kind::dropped(MessageFault::OutsideWindow);
    let request = changed(alloc, &second, MESSAGE_ID, 4)?;
    pair.deliver("probe", "past the window", End::B, &request, outside)?;
    Some(())
}

// A liveness check among others: one that is too early, and datagrams that are no message of the peer.
fn ask_among_others(alloc: Global, pair: &mut Pair) -> Option<()> {
    let name = "third probe";
    let request = pair.step(name, "asked", End::A, &probe(1), Kind::Request)?;
    let busy = Kind::Refused(Reason::Ike(IkeFault::Busy));
    pair.step("fourth probe", "asked too early", End::A, &probe(1), busy)?;
    drop_others(alloc, pair, name, &request)?;
    let response = pair.deliver(name, "answered", End::B, &request, Kind::Reply)?;
    let unopened = Kind::dropped(MessageFault::NotOpened);
    let other = changed(alloc, &response, BODY, 1)?;
    pair.deliver(
        name,
        "response changed in its body",
        End::A,
        &other,
        unopened,
    )?;
    pair.deliver(name, "response taken", End::A, &response, Kind::Counted)?;
    Some(())
}

// What is no request of the peer: it doesn't open, has no IKE SA's SPIs, or is this end's own.
fn drop_others(
    alloc: Global,
    pair: &mut Pair,
    name: &'static str,
    request: &Items<u8>,
) -> Option<()> {
    let unopened = Kind::dropped(MessageFault::NotOpened);
    let other = changed(alloc, request, BODY, 1)?;
    pair.deliver(name, "changed in its body", End::B, &other, unopened)?;
    let unknown = Kind::dropped(MessageFault::UnknownAssociation);
    let other = changed(alloc, request, SPI_I, 1)?;
    pair.deliver(name, "changed in its SPI", End::B, &other, unknown)?;
    let reflected = Kind::dropped(MessageFault::WrongRole);
    pair.deliver(name, "reflected", End::A, request, reflected)?;
    Some(())
}

// A further child (section 1.3.1), and a packet.
fn add_child(alloc: Global, pair: &mut Pair) -> Option<()> {
    let name = "further child";
    exchange(pair, name, &further(1), Kind::Reply, Kind::CountedChild)?;
    let packet = packet_out(alloc, 7).ok()?;
    let octets = pair.step("packet", "out", End::A, &packet, Kind::Sealed)?;
    let packet = OwnedInput::Esp { octets };
    pair.step("packet", "in", End::B, &packet, Kind::Up)?;
    Some(())
}

// The deletion of the further child (section 1.4.1).
fn delete_child(pair: &mut Pair) -> Option<()> {
    let name = "deletion of the child";
    let deletion = OwnedInput::DeleteChild {
        child: 2,
        fresh: fresh(9),
    };
    exchange(pair, name, &deletion, Kind::Reply, Kind::Counted)?;
    Some(())
}

// A request that is late goes out again after a second (section 2.4).
fn ask_in_time(pair: &mut Pair) -> Option<()> {
    let name = "late probe";
    let request = pair.step(name, "asked", End::A, &probe(1), Kind::Request)?;
    tick(pair, "too early", 999, Kind::Ticked)?;
    let again = tick(pair, "at which it goes out again", 1000, Kind::Resent)?;
    let response = pair.deliver(name, "answered", End::B, &again, Kind::Reply)?;
    pair.deliver(name, "request again", End::B, &request, Kind::Repeat)?;
    pair.deliver(name, "response taken", End::A, &response, Kind::Counted)?;
    Some(())
}

// The deletion of the IKE SA (section 1.4.1), which has the Message ID 8. A bit more makes it 9, and so a new
// request, of which an IKE SA that is over takes none.
fn close(alloc: Global, pair: &mut Pair) -> Option<()> {
    let name = "deletion of the IKE SA";
    let deletion = OwnedInput::DeleteIke {
        ike: 1,
        fresh: fresh(9),
    };
    let (request, _) = exchange(pair, name, &deletion, Kind::LastReply, Kind::CountedLast)?;
    let next = changed(alloc, &request, MESSAGE_ID, 1)?;
    let over = Kind::dropped(MessageFault::WrongPhase);
    pair.deliver("request", "after the deletion", End::B, &next, over)?;
    Some(())
}

// An exchange by a command to A: its request, and its response.
fn exchange(
    pair: &mut Pair,
    name: &'static str,
    command: &OwnedInput,
    reply: Kind,
    taken: Kind,
) -> Option<(Items<u8>, Items<u8>)> {
    let request = pair.step(name, "asked", End::A, command, Kind::Request)?;
    let response = answer(pair, name, &request, reply, taken)?;
    Some((request, response))
}

// B answers A's request, and again where it comes again, and A takes the response.
fn answer(
    pair: &mut Pair,
    name: &'static str,
    request: &Items<u8>,
    reply: Kind,
    taken: Kind,
) -> Option<Items<u8>> {
    let response = pair.deliver(name, "answered", End::B, request, reply)?;
    pair.deliver(name, "request again", End::B, request, Kind::Repeat)?;
    pair.deliver(name, "response taken", End::A, &response, taken)?;
    Some(response)
}

// A response comes again, for which no request waits any more.
fn respond_again(pair: &mut Pair, name: &'static str, response: &Items<u8>) -> Option<()> {
    let outside = Kind::dropped(MessageFault::OutsideWindow);
    pair.deliver(name, "response again", End::A, response, outside)?;
    Some(())
}

// A is told the time.
fn tick(pair: &mut Pair, words: &'static str, moment: u64, wanted: Kind) -> Option<Items<u8>> {
    pair.step("tick", words, End::A, &OwnedInput::Tick { moment }, wanted)
}

// The message with these bits of one octet changed.
fn changed(alloc: Global, message: &Items<u8>, place: usize, bits: u8) -> Option<Items<u8>> {
    let mut octets = Items::from_slice(alloc, message.as_slice())
        .ok()?
        .into_vec();
    let octet = octets.get_mut(place)?;
    *octet ^= bits;
    Some(Items::from_vec(octets))
}
