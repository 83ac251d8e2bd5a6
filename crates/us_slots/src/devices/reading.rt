ghost use Rattle.std.specs.Prelude.{◌≡◌, ◌↔◌, ◌≤◌, ◌<◌, length, true, false, Err, IfOk, IfSome};
ghost use Rattle.us_slots.specs.Devices.{TookAtMost};

use super::{Failed, Source};
use std::alloc::{AllocError, AllocFailed, Global};
use std::error::Error;
use std::fmt;

/// Bytes that a source is asked for at once.
const PIECE: usize = 8_192;

/// Why a source was not read to its end.
#[derive(Clone, Copy, Debug, PartialEq, Eq, Hash)]
pub enum ReadFault {
    /// The source has more bytes than were wanted.
    TooLarge,
    /// A read failed.
    Failed,
    /// Want of memory.
    NoMemory,
}

impl fmt::Display for ReadFault {
    ghost use Rattle.std.specs.Prelude.{Some};
    ghost use Rattle.us_slots.specs.Devices.{read_fault_text};

    ghost output = { λ fault. Some (read_fault_text fault) };

    fn fmt<W: fmt::Write>(&self, f: &mut fmt::Formatter<W>) -> fmt::Result {
        f.write_str(match self {
            ReadFault::TooLarge => "too many bytes",
            ReadFault::Failed => "the device failed",
            ReadFault::NoMemory => "out of memory",
        })
    }
}

impl Error for ReadFault {}

impl From<Failed> for ReadFault {
    ghost use Rattle.std.specs.Prelude.{◌≡◌};
    ghost use Rattle.us_slots.specs.declared.devices.reading.ReadFault.TheVariants.{Failed};

    ghost from_gives = { λ _ fault. fault ≡ Failed };

    fn from(_failed: Failed) -> ReadFault {
        ReadFault::Failed
    }
}

impl From<AllocError> for ReadFault {
    ghost use Rattle.std.specs.Prelude.{◌≡◌};
    ghost use Rattle.us_slots.specs.declared.devices.reading.ReadFault.TheVariants.{NoMemory};

    ghost from_gives = { λ _ fault. fault ≡ NoMemory };

    fn from(_refused: AllocError) -> ReadFault {
        ReadFault::NoMemory
    }
}

impl<T: Drop> From<AllocFailed<T>> for ReadFault {
    ghost use Rattle.std.specs.Prelude.{◌≡◌};
    ghost use Rattle.us_slots.specs.declared.devices.reading.ReadFault.TheVariants.{NoMemory};

    ghost from_gives = { λ _ fault. fault ≡ NoMemory };

    fn from(_refused: AllocFailed<T>) -> ReadFault {
        ReadFault::NoMemory
    }
}

/// All bytes of `source`, of which there are at most `most`. Reading stops where a byte past `most` is met, so a read
/// that fails comes before it: at most `most` bytes are taken, unless the source has more.
pub fn read_all<S: Source>(alloc: Global, source: &mut S, most: usize) -> Result<Vec<u8>, ReadFault>
    requires { S.failed source.old ≡ false }
    ensures value { IfOk result (λ v. IfSome (S.remaining source.old) (λ bytes. v.items ≡ bytes)) }
    ensures bound { IfOk result (λ v. length v.items ≤ most) }
    ensures whole { IfOk result (λ _. TookAtMost most (S.remaining source.old) (S.remaining source.new)) }
    ensures large { result ≡ Err ReadFault.TooLarge → IfSome (S.remaining source.old) (λ bytes. most < length bytes) }
    ensures taken { result ≡ Err ReadFault.Failed →
        TookAtMost most (S.remaining source.old) (S.remaining source.new) }
    ensures wanting { result ≡ Err ReadFault.NoMemory →
        TookAtMost most (S.remaining source.old) (S.remaining source.new) }
    ensures failed { (S.failed source.new ≡ true) ↔ (result ≡ Err ReadFault.Failed) }
{
    let mut bytes = Vec::new(alloc);
    let mut piece = [0u8; PIECE];
    loop {
        let count = source.read(&mut piece)?;
        if count == 0 {
            return Ok(bytes);
        }
        if count > most - bytes.len() {
            return Err(ReadFault::TooLarge);
        }
        bytes.extend_from_slice(&piece[..count])?;
    }
}
