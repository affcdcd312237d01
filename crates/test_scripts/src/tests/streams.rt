//! Readers and writers that fail.
use std::alloc::Global;
use std::io::{Error, ErrorKind, Read, Result, Write};

/// Gives one octet at each second read, and is interrupted at the others; fails where `fails_at` octets
/// are left.
#[derive(Drop)]
pub struct Slow<'a> {
    left: &'a [u8],
    fails_at: Option<usize>,
    is_interrupted: bool,
}

impl Slow<'_> {
    pub fn new(left: &[u8], fails_at: Option<usize>) -> Slow<'_> {
        Slow {
            left,
            fails_at,
            is_interrupted: false,
        }
    }
}

impl Read for Slow<'_> {
    fn read(&mut self, buffer: &mut [u8]) -> Result<usize> {
        self.is_interrupted = !self.is_interrupted;
        if self.is_interrupted {
            return Err(Error::from(ErrorKind::Interrupted));
        }
        if self.fails_at == Some(self.left.len()) {
            return Err(Error::from(ErrorKind::BrokenPipe));
        }
        match (self.left.split_first(), buffer.first_mut()) {
            (Some((octet, left)), Some(place)) => {
                *place = *octet;
                self.left = left;
                Ok(1)
            }
            _ => Ok(0),
        }
    }
}

/// Takes at most three octets at each second write, and is interrupted at the others; once `room`
/// octets were written, the next write fails, or takes nothing, and all after it would succeed.
#[derive(Drop)]
pub struct Narrow {
    pub written: Vec<u8>,
    room: usize,
    gives_up: bool,
    is_interrupted: bool,
}

impl Narrow {
    pub fn new(alloc: Global, room: usize, gives_up: bool) -> Narrow {
        Narrow {
            written: Vec::new(alloc),
            room,
            gives_up,
            is_interrupted: false,
        }
    }
}

impl Write for Narrow {
    fn write(&mut self, text: &[u8]) -> Result<usize> {
        self.is_interrupted = !self.is_interrupted;
        if self.is_interrupted {
            return Err(Error::from(ErrorKind::Interrupted));
        }
        if self.room == 0 {
            self.room = usize::MAX;
            return if self.gives_up {
                Ok(0)
            } else {
                Err(Error::from(ErrorKind::BrokenPipe))
            };
        }
        let count = text.len().min(3).min(self.room);
        self.written.extend_from_slice(&text[..count])?;
        self.room -= count;
        Ok(count)
    }

    fn flush(&mut self) -> Result<()> {
        Ok(())
    }
}
