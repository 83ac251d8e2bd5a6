ghost use Rattle.std.specs.Prelude.{◌≡◌, true, false, OnOk, OnErr, is_err};
ghost use Rattle.std.specs.Io.KnownBytes.{Appends};
ghost use Rattle.us_slots.specs.Devices.{AppendsFront};

use super::{Failed, Sink};

/// Writes all of `bytes`. A write that takes none of them is a fault. After one, the sink took fewer than all,
/// from the front. The sink is not flushed.
pub fn write_all<S: Sink>(sink: &mut S, bytes: &[u8]) -> Result<(), Failed>
    requires { S.failed sink.old ≡ false }
    ensures ok { OnOk result (Appends (S.contents sink.old) (S.contents sink.new) bytes.now) }
    ensures err { OnErr result (AppendsFront (S.contents sink.old) (S.contents sink.new) bytes.now) }
    ensures failed { S.failed sink.new ≡ is_err result }
    ensures unflushed { S.failed sink.new ≡ true → S.flushed sink.new ≡ false }
    ensures still_unflushed { S.flushed sink.old ≡ false → S.flushed sink.new ≡ false }
{
    let mut done = 0;
    while done < bytes.len() {
        let count = sink.write(&bytes[done..])?;
        if count == 0 {
            return Err(Failed);
        }
        done += count;
    }
    Ok(())
}
