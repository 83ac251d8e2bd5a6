//! Devices that give and take a few bytes a call, and refuse.

use std::alloc::Global;
use std::io::{self, ErrorKind, Read, Write};

/// A reader that gives at most `piece` bytes a call. At the end of its text it answers 0 bytes, or a fault of this
/// kind. It counts reads.
#[derive(Drop)]
pub struct PieceReader<'a> {
    left: &'a [u8],
    piece: usize,
    fault: Option<ErrorKind>,
    pub reads: u32,
}

impl<'a> PieceReader<'a> {
    pub fn new(left: &'a [u8], piece: usize, fault: Option<ErrorKind>) -> PieceReader<'a> {
        PieceReader {
            left,
            piece,
            fault,
            reads: 0,
        }
    }
}

impl<'a> Read for PieceReader<'a> {
    fn read(&mut self, buf: &mut [u8]) -> io::Result<usize> {
        self.reads = self.reads.saturating_add(1);
        let count = self.left.len().min(self.piece).min(buf.len());
        match self.fault {
            Some(kind) if count == 0 => return Err(io::Error::from(kind)),
            _ => (),
        }
        buf[..count].copy_from_slice(&self.left[..count]);
        self.left = &self.left[count..];
        Ok(count)
    }
}

/// A writer that takes at most `piece` bytes a call. Where it holds `room` bytes, a write or a flush is a fault of this
/// kind, or, without a kind, writes take nothing. It counts both.
#[derive(Drop)]
pub struct PieceWriter {
    pub held: Vec<u8>,
    piece: usize,
    room: usize,
    fault: Option<ErrorKind>,
    pub writes: u32,
    pub flushes: u32,
}

impl PieceWriter {
    pub fn new(alloc: Global, piece: usize, room: usize, fault: Option<ErrorKind>) -> PieceWriter {
        PieceWriter {
            held: Vec::new(alloc),
            piece,
            room,
            fault,
            writes: 0,
            flushes: 0,
        }
    }

    /// The fault, where no room is left.
    fn check(&self) -> io::Result<()> {
        match self.fault {
            Some(kind) if self.held.len() >= self.room => Err(io::Error::from(kind)),
            _ => Ok(()),
        }
    }
}

impl Write for PieceWriter {
    fn write(&mut self, buf: &[u8]) -> io::Result<usize> {
        self.writes = self.writes.saturating_add(1);
        self.check()?;
        let room = self.room.saturating_sub(self.held.len());
        let count = buf.len().min(self.piece).min(room);
        self.held.extend_from_slice(&buf[..count])?;
        Ok(count)
    }

    fn flush(&mut self) -> io::Result<()> {
        self.flushes = self.flushes.saturating_add(1);
        self.check()
    }
}
