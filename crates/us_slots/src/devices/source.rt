ghost use Rattle.std.specs.Prelude.{◌≡◌, ◌||◌, ℕ, Bool, false, List, Option, is_err};
ghost use Rattle.std.specs.Io.{ReadsAtMost};
ghost use Rattle.std.specs.Io.KnownBytes.{ReadConsumes};
ghost use Rattle.us_slots.specs.Devices.{Device};

use super::Failed;
use std::io::Read;
use std::marker::Model;

/// A reader that says whether it failed.
pub trait Source {
    // The bytes that reads will give from here on, where the source tells them.
    ghost remaining: { Self → Option (List ℕ) };

    // Whether a read failed.
    ghost failed: { Self → Bool };

    /// Whether a read answered [`Failed`].
    fn has_failed(&self) -> bool
        ensures { result ≡ failed self.now };

    /// Reads into `buf` and answers how many bytes, 0 only at the end or where `buf` has no room.
    /// After [`Failed`] nothing was read. Every fault of the device is one, an interrupted read too, and it isn't
    /// tried again.
    fn read(&mut self, buf: &mut [u8]) -> Result<usize, Failed>
        ensures bound { ReadsAtMost result buf.new }
        ensures bytes { ReadConsumes (remaining self.old) (remaining self.new) result buf.new }
        ensures fails { failed self.new ≡ (failed self.old || is_err result) };
}

/// A [`Source`] over a reader of std.
#[derive(Drop)]
pub struct FromRead<R: Read> {
    inner: R,
    failed: bool,
}

impl<R: Read> Model for FromRead<R> {
    ghost Value = { Device R };

    ghost view = { λ d. record { inner = d.inner; failed = d.failed } };
}

impl<R: Read> FromRead<R> {
    /// A source that hasn't failed.
    pub fn new(inner: R) -> FromRead<R>
        ensures { result ≡ record { inner = inner; failed = false } }
    {
        FromRead {
            inner,
            failed: false,
        }
    }

    /// Gives the reader back.
    pub fn into_inner(self) -> R
        ensures { result ≡ self.inner }
    {
        let FromRead { inner, failed: _ } = self;
        inner
    }
}

impl<R: Read> Source for FromRead<R> {
    ghost remaining = { λ d. R.remaining d.inner };

    ghost failed = { λ d. d.failed };

    fn has_failed(&self) -> bool {
        self.failed
    }

    fn read(&mut self, buf: &mut [u8]) -> Result<usize, Failed> {
        match self.inner.read(buf) {
            Ok(count) => Ok(count),
            Err(_) => {
                self.failed = true;
                Err(Failed)
            }
        }
    }
}
