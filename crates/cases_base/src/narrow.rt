use std::alloc::Global;
use std::io::{self, ErrorKind, Write};

/// A writer that takes two bytes at a time, and nothing more once it is full.
#[derive(Drop)]
pub struct Narrow {
    taken: Vec<u8>,
    room: usize,
    flushes: bool,
}

impl Narrow {
    /// One that has room for so many bytes.
    pub fn new(alloc: Global, room: usize, flushes: bool) -> Narrow {
        Narrow {
            taken: Vec::new(alloc),
            room,
            flushes,
        }
    }

    /// What it has taken.
    pub fn taken(&self) -> &[u8] {
        self.taken.as_slice()
    }
}

impl Write for Narrow {
    fn write(&mut self, buf: &[u8]) -> io::Result<usize> {
        let left = self.room.saturating_sub(self.taken.len());
        let count = buf.len().min(left).min(2);
        self.taken.extend_from_slice(&buf[..count])?;
        Ok(count)
    }

    fn flush(&mut self) -> io::Result<()> {
        if self.flushes {
            Ok(())
        } else {
            Err(io::Error::from(ErrorKind::BrokenPipe))
        }
    }
}
