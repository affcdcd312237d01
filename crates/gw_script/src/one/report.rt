//! What a directive prints.
use esp::EspFault;
use gw_console::hex_text;
use std::alloc::{AllocError, Global};

/// What a directive of a script of kind `one` prints.
#[derive(Debug, Drop)]
pub enum Report {
    /// No line.
    Nothing,
    /// The directive was followed, and has nothing more to say.
    Done,
    /// A packet was sealed.
    Sealed {
        /// Its place among all packets, from 1.
        packet: usize,
        /// Its sequence number.
        number: u64,
        /// Its length in octets.
        length: usize,
    },
    /// A packet was opened.
    Up {
        /// Its sequence number.
        number: u64,
        /// Its next header.
        next: u8,
        /// Its payload.
        payload: Vec<u8>,
    },
    /// A packet as it was sealed.
    Packet(Vec<u8>),
    /// No SA has the packet's index.
    UnknownAssociation,
    /// An end refused.
    Refused(EspFault),
}

impl Report {
    /// The lines that are printed.
    pub fn text(&self, alloc: Global) -> Result<String, AllocError> {
        match self {
            Report::Nothing => Ok(String::new(alloc)),
            Report::Done => String::from_str(alloc, "done\n"),
            Report::Sealed {
                packet,
                number,
                length,
            } => { format!(in alloc; "sealed {packet} number {number} length {length}\n") }
            Report::Up {
                number,
                next,
                payload,
            } => {
                let payload = hex_text(alloc, payload)?;
                format!(in alloc; "up number {number} next {next} {payload}\n")
            }
            Report::Packet(octets) => {
                let octets = hex_text(alloc, octets)?;
                format!(in alloc; "packet {octets}\n")
            }
            Report::UnknownAssociation => String::from_str(alloc, "E28\n"),
            Report::Refused(fault) => {
                let number = fault.code();
                format!(in alloc; "E{number}\n")
            }
        }
    }
}
