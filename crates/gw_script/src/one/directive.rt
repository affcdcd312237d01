//! The directives of a script of kind `one`.
use crate::LineFault;
use crate::words::Words;
use std::alloc::Global;

/// What one line asks for. Packets are named by their places among all that were sealed, from 1.
#[derive(Debug, Drop)]
pub enum Directive {
    /// `sa SPI KEY M yes|no`: the ends agree on these.
    Agree(Terms),
    /// `sender LAST`: the sender's last number becomes this.
    Sender {
        /// The number.
        last: u64,
    },
    /// `seal NEXT HEX`: the sender seals a payload.
    Seal {
        /// The next header, which names the payload's protocol.
        next: u8,
        /// The payload.
        payload: Vec<u8>,
    },
    /// `deliver K`: the receiver is given a packet.
    Deliver {
        /// The packet's place.
        packet: u64,
    },
    /// `damage K OFFSET XOR`: the receiver is given a packet with one octet changed.
    Damage {
        /// The packet's place.
        packet: u64,
        /// Which octet is changed, from 0.
        offset: u64,
        /// The bits of it that are changed.
        change: u8,
    },
    /// `print K`: a packet is printed.
    Print {
        /// The packet's place.
        packet: u64,
    },
}

/// What the two ends of an SA agree on.
#[derive(Clone, Copy, Debug)]
pub struct Terms {
    /// The security parameters index, at least 256 (RFC 4303 section 2.1).
    pub spi: u32,
    /// The integrity key.
    pub key: [u8; 32],
    /// How many blocks of 64 numbers the receiver's window has.
    pub blocks: u32,
    /// Whether sequence numbers have 64 bits, or 32.
    pub extended: bool,
}

impl Directive {
    /// The directive that a line spells.
    pub fn read(alloc: Global, line: &[u8]) -> Result<Directive, LineFault> {
        let mut words = Words::of(line);
        let directive = match words.word()? {
            b"sa" => Directive::Agree(Terms::read(&mut words)?),
            b"sender" => Directive::Sender {
                last: words.number(u64::MAX)?,
            },
            b"seal" => Directive::Seal {
                next: words.number(u64::from(u8::MAX))? as u8,
                payload: words.octets(alloc)?,
            },
            b"deliver" => Directive::Deliver {
                packet: words.number(u64::MAX)?,
            },
            b"damage" => Directive::Damage {
                packet: words.number(u64::MAX)?,
                offset: words.number(u64::MAX)?,
                change: words.octet()?,
            },
            b"print" => Directive::Print {
                packet: words.number(u64::MAX)?,
            },
            _ => return Err(LineFault::Refused),
        };
        words.end()?;
        Ok(directive)
    }
}

impl Terms {
    // The least index that an SA may have (RFC 4303 section 2.1).
    const SPI_LEAST: u32 = 256;

    fn read(words: &mut Words) -> Result<Terms, LineFault> {
        let spi = words.number(u64::from(u32::MAX))? as u32;
        let key = words.array()?;
        let blocks = words.number(u64::from(u32::MAX))? as u32;
        let extended = words.yes_or_no()?;
        if spi < Terms::SPI_LEAST {
            return Err(LineFault::Refused);
        }
        Ok(Terms {
            spi,
            key,
            blocks,
            extended,
        })
    }
}
