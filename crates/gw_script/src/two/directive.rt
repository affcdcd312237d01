//! The directives of a script of kind `two`.
use super::side::{Side, named};
use crate::LineFault;
use crate::words::Words;
use base::{Items, Range};
use policy::{Action, Entry};
use std::alloc::Global;

/// What one line asks for.
#[derive(Debug, Drop)]
pub enum Directive {
    /// An end is set up, or both are.
    Set(Term),
    /// The gateways are given something, or asked for something.
    Act(Act),
}

/// What the gateways are made with.
#[derive(Clone, Copy, Debug)]
pub enum Term {
    /// `extended no`: the ends allow no extended sequence numbers.
    NotExtended,
    /// `window END N`: how many requests an end takes at once (RFC 7296 section 2.3), 1 to 16.
    Window { side: Side, requests: u8 },
    /// `entry END ACTION PROTO LO-HI PORT-PORT LO-HI PORT-PORT`: one more entry of an end's policy.
    Entry { side: Side, entry: Entry },
}

/// What is done with the gateways. Datagrams are named by their places among all that were sent, from 1.
#[derive(Debug, Drop)]
pub enum Act {
    /// `start END ENTRY`: a new IKE SA, with a child by an entry of the policy.
    Start {
        side: Side,
        entry: u32,
    },
    /// `child END IKE ENTRY`: an additional Child SA of an IKE SA, by an entry of the policy.
    Child {
        side: Side,
        ike: u32,
        entry: u32,
    },
    /// `probe END IKE`: the peer of an IKE SA is asked whether it is there.
    Probe {
        side: Side,
        ike: u32,
    },
    /// `delete END CHILD`: a child is to be deleted.
    Delete {
        side: Side,
        child: u32,
    },
    /// `close END IKE`: an IKE SA is to be deleted, with its children.
    Close {
        side: Side,
        ike: u32,
    },
    /// `tick END MOMENT`: the time at an end, in milliseconds.
    Tick {
        side: Side,
        moment: u64,
    },
    /// `secret END HEX`: another secret of cookies.
    Secret {
        side: Side,
        secret: [u8; 32],
    },
    /// `deliver K`: a datagram comes to the end that didn't send it.
    Deliver(Delivery),
    /// `raw END ike|esp HEX`: these octets come to an end.
    Raw {
        side: Side,
        protocol: Protocol,
        octets: Items<u8>,
    },
    /// `out END HEX`: a packet is on its way out.
    Out {
        side: Side,
        packet: Items<u8>,
    },
    /// `in END HEX`: a packet came in unprotected.
    In {
        side: Side,
        packet: Items<u8>,
    },
    /// `table END`: the pairs of an end are printed.
    Table {
        side: Side,
    },
    /// `same J K`: two datagrams are compared.
    Same {
        one: u64,
        other: u64,
    },
}

/// What a datagram belongs to.
#[derive(Clone, Copy, Debug, PartialEq, Eq)]
pub enum Protocol {
    Ike,
    Esp,
}

/// A datagram that was sent comes to an end.
#[derive(Clone, Copy, Debug)]
pub struct Delivery {
    /// The datagram's place.
    pub datagram: u64,
    /// What became of it on its way.
    pub way: Way,
}

/// What becomes of a datagram on its way.
#[derive(Clone, Copy, Debug)]
pub enum Way {
    /// `deliver K`: it comes as it was sent.
    Straight,
    /// `reflect K`: it comes back to the end that sent it.
    Back,
    /// `damage K OFFSET XOR`: one octet of it is changed.
    Damaged {
        /// Which octet, from 0.
        offset: u64,
        /// The bits of it that are changed.
        change: u8,
    },
    /// `cut K LENGTH`: only its first octets come.
    Cut {
        /// How many come.
        length: u64,
    },
}

impl Directive {
    /// The directive that a line spells.
    pub fn read(alloc: Global, line: &[u8]) -> Result<Directive, LineFault> {
        let mut words = Words::of(line);
        let directive = match words.word()? {
            b"extended" => Directive::Set(read_not_extended(&mut words)?),
            b"window" => Directive::Set(read_window(&mut words)?),
            b"entry" => Directive::Set(read_entry(&mut words)?),
            name => Directive::Act(read_act(alloc, name, &mut words)?),
        };
        words.end()?;
        Ok(directive)
    }
}

// ESN is what both ends allow where nothing is said: so there is no other word than `no`.
fn read_not_extended(words: &mut Words) -> Result<Term, LineFault> {
    match words.word()? {
        b"no" => Ok(Term::NotExtended),
        _ => Err(LineFault::Refused),
    }
}

fn read_window(words: &mut Words) -> Result<Term, LineFault> {
    let side = read_side(words)?;
    let requests = words.number(u64::from(u8::MAX))? as u8;
    Ok(Term::Window { side, requests })
}

fn read_entry(words: &mut Words) -> Result<Term, LineFault> {
    let side = read_side(words)?;
    let action = read_action(words)?;
    let protocol = words.number(u64::from(u8::MAX))? as u8;
    let (local, local_ports) = read_scope(words)?;
    let (remote, remote_ports) = read_scope(words)?;
    let entry = Entry {
        protocol,
        local,
        remote,
        local_ports,
        remote_ports,
        action,
    };
    Ok(Term::Entry { side, entry })
}

fn read_action(words: &mut Words) -> Result<Action, LineFault> {
    match words.word()? {
        b"protect" => Ok(Action::Protect),
        b"bypass" => Ok(Action::Bypass),
        b"discard" => Ok(Action::Discard),
        _ => Err(LineFault::Refused),
    }
}

// The addresses of one side, and its ports.
fn read_scope(words: &mut Words) -> Result<(Range, (u16, u16)), LineFault> {
    let addresses = words.addresses()?;
    let ports = words.ports()?;
    Ok((addresses, ports))
}

// One function for each: what drops at an exit is proved at each of them.
fn read_act(alloc: Global, name: &[u8], words: &mut Words) -> Result<Act, LineFault> {
    match name {
        b"start" => read_start(words),
        b"child" => read_child(words),
        b"probe" => read_probe(words),
        b"delete" => read_delete(words),
        b"close" => read_close(words),
        b"tick" => read_tick(words),
        b"secret" => read_secret(words),
        b"raw" => read_raw(alloc, words),
        b"out" => read_out(alloc, words),
        b"in" => read_in(alloc, words),
        b"table" => read_table(words),
        b"same" => read_same(words),
        name => read_delivery(name, words),
    }
}

fn read_start(words: &mut Words) -> Result<Act, LineFault> {
    let side = read_side(words)?;
    let entry = words.small_number()?;
    Ok(Act::Start { side, entry })
}

fn read_child(words: &mut Words) -> Result<Act, LineFault> {
    let side = read_side(words)?;
    let ike = words.small_number()?;
    let entry = words.small_number()?;
    Ok(Act::Child { side, ike, entry })
}

fn read_probe(words: &mut Words) -> Result<Act, LineFault> {
    let side = read_side(words)?;
    let ike = words.small_number()?;
    Ok(Act::Probe { side, ike })
}

fn read_delete(words: &mut Words) -> Result<Act, LineFault> {
    let side = read_side(words)?;
    let child = words.small_number()?;
    Ok(Act::Delete { side, child })
}

fn read_close(words: &mut Words) -> Result<Act, LineFault> {
    let side = read_side(words)?;
    let ike = words.small_number()?;
    Ok(Act::Close { side, ike })
}

fn read_tick(words: &mut Words) -> Result<Act, LineFault> {
    let side = read_side(words)?;
    let moment = words.number(u64::MAX)?;
    Ok(Act::Tick { side, moment })
}

fn read_secret(words: &mut Words) -> Result<Act, LineFault> {
    let side = read_side(words)?;
    let secret = words.array()?;
    Ok(Act::Secret { side, secret })
}

fn read_out(alloc: Global, words: &mut Words) -> Result<Act, LineFault> {
    let side = read_side(words)?;
    let packet = Items::from_vec(words.octets(alloc)?);
    Ok(Act::Out { side, packet })
}

fn read_in(alloc: Global, words: &mut Words) -> Result<Act, LineFault> {
    let side = read_side(words)?;
    let packet = Items::from_vec(words.octets(alloc)?);
    Ok(Act::In { side, packet })
}

fn read_table(words: &mut Words) -> Result<Act, LineFault> {
    let side = read_side(words)?;
    Ok(Act::Table { side })
}

fn read_same(words: &mut Words) -> Result<Act, LineFault> {
    let one = words.number(u64::MAX)?;
    let other = words.number(u64::MAX)?;
    Ok(Act::Same { one, other })
}

fn read_raw(alloc: Global, words: &mut Words) -> Result<Act, LineFault> {
    let side = read_side(words)?;
    let protocol = read_protocol(words)?;
    let octets = Items::from_vec(words.octets(alloc)?);
    Ok(Act::Raw {
        side,
        protocol,
        octets,
    })
}

fn read_protocol(words: &mut Words) -> Result<Protocol, LineFault> {
    match words.word()? {
        b"ike" => Ok(Protocol::Ike),
        b"esp" => Ok(Protocol::Esp),
        _ => Err(LineFault::Refused),
    }
}

fn read_delivery(name: &[u8], words: &mut Words) -> Result<Act, LineFault> {
    let datagram = words.number(u64::MAX)?;
    let way = read_way(name, words)?;
    Ok(Act::Deliver(Delivery { datagram, way }))
}

fn read_way(name: &[u8], words: &mut Words) -> Result<Way, LineFault> {
    match name {
        b"deliver" => Ok(Way::Straight),
        b"reflect" => Ok(Way::Back),
        b"damage" => {
            let offset = words.number(u64::MAX)?;
            let change = words.octet()?;
            Ok(Way::Damaged { offset, change })
        }
        b"cut" => {
            let length = words.number(u64::MAX)?;
            Ok(Way::Cut { length })
        }
        _ => Err(LineFault::Refused),
    }
}

fn read_side(words: &mut Words) -> Result<Side, LineFault> {
    named(words.word()?).ok_or(LineFault::Refused)
}
