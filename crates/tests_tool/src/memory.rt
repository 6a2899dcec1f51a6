use std::alloc::{AllocError, Global};
use std::io::{self, Read, Write};

/// The end of a hub's side of a conversation.
#[derive(Clone, Copy, Debug, PartialEq, Eq)]
pub(crate) enum Rest {
    /// It closes the connection.
    Closes,
    /// It says nothing more.
    Waits,
    /// The connection fails.
    Fails,
}

/// A connection to a hub whose words are known beforehand.
#[derive(Drop)]
pub(crate) struct Memory<'a> {
    left: &'a [u8],
    rest: Rest,
    pub(crate) said: Vec<u8>,
}

impl<'a> Memory<'a> {
    /// One on which the hub says this.
    pub fn new(alloc: Global, heard: &'a [u8], rest: Rest) -> Result<Memory<'a>, AllocError> {
        Ok(Memory {
            left: heard,
            rest,
            said: Vec::with_capacity(alloc, 1024)?,
        })
    }
}

impl Read for Memory<'_> {
    fn read(&mut self, buf: &mut [u8]) -> io::Result<usize> {
        if !self.left.is_empty() {
            // Pieces that end within lines.
            let count = self.left.len().min(buf.len()).min(7);
            buf[..count].copy_from_slice(&self.left[..count]);
            self.left = &self.left[count..];
            return Ok(count);
        }
        match self.rest {
            Rest::Closes => Ok(0),
            Rest::Waits => Err(io::ErrorKind::WouldBlock.into()),
            Rest::Fails => Err(io::ErrorKind::ConnectionReset.into()),
        }
    }
}

impl Write for Memory<'_> {
    fn write(&mut self, buf: &[u8]) -> io::Result<usize> {
        self.said.extend_from_slice(buf)?;
        Ok(buf.len())
    }

    fn flush(&mut self) -> io::Result<()> {
        Ok(())
    }
}
