// A stream in memory.
use std::alloc::{AllocError, Global};
use std::io::{self, ErrorKind, Read, Write};

/// A stream whose bytes come as they are put there, and which takes as many as it has room for.
#[derive(Drop)]
pub struct Pipe {
    coming: Vec<u8>,
    // How many of those bytes were read.
    at: usize,
    has_ended: bool,
    sent: Vec<u8>,
    room: usize,
}

impl Pipe {
    /// A stream over which nothing has come, and which takes everything.
    pub fn new(alloc: Global) -> Pipe {
        Pipe {
            coming: Vec::new(alloc),
            at: 0,
            has_ended: false,
            sent: Vec::new(alloc),
            room: usize::MAX,
        }
    }

    /// These bytes come.
    pub fn put(&mut self, bytes: &[u8]) -> Result<(), AllocError> {
        self.coming.extend_from_slice(bytes)
    }

    /// Nothing comes behind what has come.
    pub fn end(&mut self) {
        self.has_ended = true;
    }

    /// It takes so many bytes from now on.
    pub fn set_room(&mut self, room: usize) {
        self.room = room;
    }

    /// What was sent.
    pub fn sent(&self) -> &[u8] {
        &self.sent
    }

    /// What was sent is kept no longer.
    pub fn forget(&mut self) {
        self.sent.clear();
    }
}

impl Read for Pipe {
    fn read(&mut self, buf: &mut [u8]) -> io::Result<usize> {
        if self.at >= self.coming.len() {
            self.coming.clear();
            self.at = 0;
            return if self.has_ended {
                Ok(0)
            } else {
                Err(io::Error::from(ErrorKind::WouldBlock))
            };
        }
        let count = buf.len().min(self.coming.len() - self.at);
        buf[..count].copy_from_slice(&self.coming[self.at..self.at + count]);
        self.at += count;
        Ok(count)
    }
}

impl Write for Pipe {
    fn write(&mut self, buf: &[u8]) -> io::Result<usize> {
        if self.room == 0 {
            return Err(io::Error::from(ErrorKind::WouldBlock));
        }
        let count = buf.len().min(self.room);
        self.sent.extend_from_slice(&buf[..count])?;
        self.room -= count;
        Ok(count)
    }

    fn flush(&mut self) -> io::Result<()> {
        Ok(())
    }
}
