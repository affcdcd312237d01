//! What a plain program writes down of a world: which packet was sealed under which number, which went
//! up, and how many requests were issued under which keys.
use gateway::{Child, Datagram, End, Protection, Simplex};
use std::alloc::{AllocError, Global};
use std::collections::{BTreeMap, BTreeSet};
use suite::KeyRecord;

/// How many requests an end issued under the keys of these SPIs, the one of number 0 counted.
#[derive(Drop)]
struct Issued {
    end: End,
    spi_i: u64,
    spi_r: u64,
    count: u32,
}

#[derive(Drop)]
pub struct Book {
    /// By SPI and sequence number, which packet was sealed.
    sealed: BTreeMap<(u32, u64), u64>,
    /// By SPI and sequence number.
    went_up: BTreeSet<(u32, u64)>,
    issued: Vec<Issued>,
}

/// The child that an end made under this serial.
pub fn child_of(children: &[Child], end: End, serial: u32) -> Option<&Child> {
    children
        .iter()
        .rev()
        .find(|child| child.end == end && child.serial == serial)
}

/// The child of the same request at the other end.
pub fn twin_of<'a>(children: &'a [Child], child: &Child) -> Option<&'a Child> {
    children.iter().find(|other| is_twin(child, other))
}

fn is_twin(child: &Child, other: &Child) -> bool {
    other.end != child.end
        && other.asked != child.asked
        && other.number == child.number
        && other.keys == child.keys
}

impl Book {
    pub fn new(alloc: Global) -> Book {
        Book {
            sealed: BTreeMap::new(alloc),
            went_up: BTreeSet::new(alloc),
            issued: Vec::new(alloc),
        }
    }

    /// This packet was sealed.
    pub fn seal(&mut self, by: &Simplex, number: u64, packet: u64) -> Result<(), AllocError> {
        self.sealed.insert((by.spi, number), packet)?;
        Ok(())
    }

    /// A packet goes up, as this number of this IKE SA: which packet was sealed so, if none went up so
    /// before.
    pub fn hand_up(&mut self, by: &Simplex, number: u64) -> Result<Option<u64>, AllocError> {
        let is_new = self.went_up.insert((by.spi, number))?;
        let packet = self.sealed.get(&(by.spi, number)).copied();
        Ok(if is_new { packet } else { None })
    }

    /// A datagram was sent.
    pub fn send(&mut self, datagram: &Datagram) -> Result<(), AllocError> {
        match &datagram.mark {
            Protection::Ike {
                keys,
                response: false,
                number,
            } => self.issue(datagram.end, keys, number.saturating_add(1)),
            _ => Ok(()),
        }
    }

    /// So many requests were issued.
    fn issue(&mut self, end: End, keys: &KeyRecord, count: u32) -> Result<(), AllocError> {
        for issued in &mut self.issued {
            if issued.end == end && issued.spi_i == keys.spi_i && issued.spi_r == keys.spi_r {
                issued.count = issued.count.max(count);
                return Ok(());
            }
        }
        self.issued.push(Issued {
            end,
            spi_i: keys.spi_i,
            spi_r: keys.spi_r,
            count,
        })?;
        Ok(())
    }

    /// How many requests an end issued under keys, that of IKE_SA_INIT not counted.
    pub fn issued(&self, end: End, keys: &KeyRecord) -> u32 {
        for issued in &self.issued {
            if issued.end == end && issued.spi_i == keys.spi_i && issued.spi_r == keys.spi_r {
                return issued.count;
            }
        }
        0
    }
}
