ghost use Rattle.std.specs.Prelude.{◌≡◌, ◌||◌, ℕ, Bool, false, List, Option, is_err, is_ok};
ghost use Rattle.std.specs.Io.{WritesAtMost};
ghost use Rattle.std.specs.Io.KnownBytes.{Keeps, WriteAppends};
ghost use Rattle.us_slots.specs.Devices.{WriteDevice, is_failed_write};

use super::Failed;
use std::io::Write;
use std::marker::Model;

/// A writer that says whether it failed.
pub trait Sink {
    // The bytes that the sink has taken, where it tells them.
    ghost contents: { Self → Option (List ℕ) };

    // Whether a write or a flush failed.
    ghost failed: { Self → Bool };

    // Whether the last call was a flush that didn't fail.
    ghost flushed: { Self → Bool };

    /// Whether a write or a flush answered [`Failed`], or a write took 0 bytes of a piece that wasn't empty.
    fn has_failed(&self) -> bool
        ensures { result ≡ failed self.now };

    /// Writes the first bytes of `buf` and answers how many.
    /// After [`Failed`] nothing was written. Every fault of the device is one, an interrupted write too, and it
    /// isn't tried again.
    fn write(&mut self, buf: &[u8]) -> Result<usize, Failed>
        ensures bound { WritesAtMost result buf.now }
        ensures bytes { WriteAppends (contents self.old) (contents self.new) result buf.now }
        ensures fails { failed self.new ≡ (failed self.old || is_failed_write result buf.now) }
        ensures unflushed { flushed self.new ≡ false };

    /// Passes on what the device holds back.
    fn flush(&mut self) -> Result<(), Failed>
        ensures bytes { Keeps (contents self.old) (contents self.new) }
        ensures fails { failed self.new ≡ (failed self.old || is_err result) }
        ensures flushed { flushed self.new ≡ is_ok result };
}

/// A [`Sink`] over a writer of std.
#[derive(Drop)]
pub struct FromWrite<W: Write> {
    inner: W,
    failed: bool,
    flushed: bool,
}

impl<W: Write> Model for FromWrite<W> {
    ghost Value = { WriteDevice W };

    ghost view = { λ d. record { inner = d.inner; failed = d.failed; flushed = d.flushed } };
}

impl<W: Write> FromWrite<W> {
    /// A sink that hasn't failed, and wasn't flushed.
    pub fn new(inner: W) -> FromWrite<W>
        ensures { result ≡ record { inner = inner; failed = false; flushed = false } }
    {
        FromWrite {
            inner,
            failed: false,
            flushed: false,
        }
    }

    /// Gives the writer back.
    pub fn into_inner(self) -> W
        ensures { result ≡ self.inner }
    {
        let FromWrite {
            inner,
            failed: _,
            flushed: _,
        } = self;
        inner
    }
}

impl<W: Write> Sink for FromWrite<W> {
    ghost contents = { λ d. W.contents d.inner };

    ghost failed = { λ d. d.failed };

    ghost flushed = { λ d. d.flushed };

    fn has_failed(&self) -> bool {
        self.failed
    }

    fn write(&mut self, buf: &[u8]) -> Result<usize, Failed> {
        self.flushed = false;
        match self.inner.write(buf) {
            Ok(0) if !buf.is_empty() => {
                self.failed = true;
                Ok(0)
            }
            Ok(count) => Ok(count),
            Err(_) => {
                self.failed = true;
                Err(Failed)
            }
        }
    }

    fn flush(&mut self) -> Result<(), Failed> {
        match self.inner.flush() {
            Ok(()) => {
                self.flushed = true;
                Ok(())
            }
            Err(_) => {
                self.failed = true;
                self.flushed = false;
                Err(Failed)
            }
        }
    }
}
