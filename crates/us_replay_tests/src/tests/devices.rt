use std::io::{self, ErrorKind, Read, Write};

/// A writer that takes at most `piece` bytes a call. Where it took `room` bytes, it takes none or fails. It is told
/// which bytes are wanted and keeps none, so that it asks for no memory.
#[derive(Clone, Copy)]
pub(super) struct FakeWriter {
    pub(super) wanted: &'static [u8],
    pub(super) piece: usize,
    pub(super) room: usize,
    pub(super) fails: bool,
    /// Whether a flush fails.
    pub(super) sticks: bool,
    /// How many bytes it took, and whether they are those that are wanted so far.
    pub(super) took: usize,
    pub(super) as_wanted: bool,
    /// How often it was called without room, and how often it was flushed.
    pub(super) refused: usize,
    pub(super) flushes: usize,
}

impl Write for FakeWriter {
    fn write(&mut self, buf: &[u8]) -> io::Result<usize> {
        let room = self.room.saturating_sub(self.took);
        if room == 0 {
            self.refused = self.refused.saturating_add(1);
            if self.fails {
                return Err(io::Error::from(ErrorKind::StorageFull));
            }
        }
        let count = buf.len().min(self.piece).min(room);
        let left = self.wanted.get(self.took..).unwrap_or(&[]);
        self.as_wanted = self.as_wanted && left.starts_with(&buf[..count]);
        self.took = self.took.saturating_add(count);
        Ok(count)
    }

    fn flush(&mut self) -> io::Result<()> {
        self.flushes = self.flushes.saturating_add(1);
        if self.sticks {
            return Err(io::Error::from(ErrorKind::BrokenPipe));
        }
        Ok(())
    }
}

/// A writer with room for all, that takes so many bytes a call.
pub(super) fn writer(wanted: &'static [u8], piece: usize) -> FakeWriter {
    FakeWriter {
        wanted,
        piece,
        room: usize::MAX,
        fails: false,
        sticks: false,
        took: 0,
        as_wanted: true,
        refused: 0,
        flushes: 0,
    }
}

/// A writer with room for so many bytes, that then takes none or fails.
pub(super) fn short_writer(wanted: &'static [u8], room: usize, fails: bool) -> FakeWriter {
    let mut short = writer(wanted, 7);
    short.room = room;
    short.fails = fails;
    short
}

/// A writer with room for all, whose flush fails.
pub(super) fn stuck_writer(wanted: &'static [u8]) -> FakeWriter {
    let mut stuck = writer(wanted, 100);
    stuck.sticks = true;
    stuck
}

/// A reader that gives `piece` bytes a call, and fails at the end of its text if it is to. It counts the calls at its end.
#[derive(Clone, Copy)]
pub(super) struct FakeReader<'a> {
    left: &'a [u8],
    pub(super) piece: usize,
    fails: bool,
    pub(super) ends: usize,
}

impl<'a> Read for FakeReader<'a> {
    fn read(&mut self, buf: &mut [u8]) -> io::Result<usize> {
        let count = self.left.len().min(self.piece).min(buf.len());
        if count == 0 {
            self.ends = self.ends.saturating_add(1);
            if self.fails {
                return Err(io::Error::from(ErrorKind::BrokenPipe));
            }
        }
        buf[..count].copy_from_slice(&self.left[..count]);
        self.left = &self.left[count..];
        Ok(count)
    }
}

/// A reader that gives 5 bytes a call.
pub(super) fn reader(left: &[u8], fails: bool) -> FakeReader<'_> {
    FakeReader {
        left,
        piece: 5,
        fails,
        ends: 0,
    }
}
