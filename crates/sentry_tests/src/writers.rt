//! Writers and readers that fail.

use std::alloc::Global;
use std::io;
use std::io::{ErrorKind, Read, Write};

/// Takes some bytes, a few at a time, and then fails: by an error, or by taking none.
#[derive(Drop)]
pub(crate) struct Full {
    room: usize,
    at_once: usize,
    by_error: bool,
    pub(crate) taken: Vec<u8>,
}

impl Full {
    pub(crate) fn new(alloc: Global, room: usize, at_once: usize, by_error: bool) -> Full {
        Full {
            room,
            at_once,
            by_error,
            taken: Vec::new(alloc),
        }
    }

    /// Whether it took the first bytes of a text, so many.
    pub(crate) fn holds(&self, text: &[u8], length: usize) -> bool {
        match text.split_at_checked(length) {
            Some((front, _)) => self.taken.as_slice() == front,
            None => false,
        }
    }
}

impl Write for Full {
    fn write(&mut self, bytes: &[u8]) -> io::Result<usize> {
        let count = bytes.len().min(self.at_once).min(self.room);
        if count == 0 && !bytes.is_empty() && self.by_error {
            return Err(io::Error::from(ErrorKind::Interrupted));
        }
        self.room -= count;
        self.taken.extend_from_slice(&bytes[..count])?;
        Ok(count)
    }

    fn flush(&mut self) -> io::Result<()> {
        Ok(())
    }
}

/// Gives one byte, and then fails.
#[derive(Drop)]
pub(crate) struct Broken {
    pub(crate) given: bool,
}

impl Read for Broken {
    fn read(&mut self, buffer: &mut [u8]) -> io::Result<usize> {
        match buffer.first_mut() {
            Some(byte) if !self.given => {
                self.given = true;
                *byte = b'e';
                Ok(1)
            }
            _ => Err(io::Error::from(ErrorKind::Interrupted)),
        }
    }
}
