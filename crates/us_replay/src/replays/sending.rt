ghost use Rattle.std.specs.Prelude.{◌≡◌, ◌+◌, ◌^◌, ◌<◌, ◌≤◌, true, false, length, nat_lt, take, IfErr, OnOk};
ghost use Rattle.std.specs.Io.KnownBytes.{Appends};
ghost use Rattle.us_replay.specs.Batches.{AreInside, Sent};
ghost use Rattle.us_replay.specs.Endings.{ended};
ghost use Rattle.us_replay.specs.Progress.{Flushed};
ghost use Rattle.us_replay.specs.Replays.{AreLeft, AreLeftBy, grown, writing};

use super::batches::Batch;
use crate::faults::RunFault;
use us_slots::Sink;

/// Writes the records of a batch to the maps file, and then its lines to the report, behind so many rounds. Where the maps
/// file fails, the lines of the rounds whose records it took are still written. Neither writer is flushed.
pub(crate) fn send<W1: Sink, W2: Sink>(
    batch: &Batch,
    before: u32,
    maps: &mut W1,
    report: &mut W2,
) -> Result<(), RunFault>
    requires few { before + length batch.now.ends < 2 ^ 32 }
    requires inside { AreInside batch.now }
    requires maps_ready { W1.failed maps.old ≡ false }
    requires report_ready { W2.failed report.old ≡ false }
    ensures sent { Sent batch.now before (grown (W1.contents maps.old) (W1.contents maps.new))
        (grown (W2.contents report.old) (W2.contents report.new)) (W2.failed report.new) (ended result) }
    ensures left { IfErr result (λ f. AreLeftBy f
        (writing (W1.failed maps.new) (W1.flushed maps.old) (W1.flushed maps.new))
        (writing (W2.failed report.new) (W2.flushed report.old) (W2.flushed report.new))) }
    ensures ready { OnOk result ((W1.failed maps.new ≡ false) × (W2.failed report.new ≡ false)) }
    ensures maps_still_unflushed { W1.flushed maps.old ≡ false → W1.flushed maps.new ≡ false }
    ensures report_still_unflushed { W2.flushed report.old ≡ false → W2.flushed report.new ≡ false }
{
    let record_bytes = write_front(maps, batch.records());
    if record_bytes < batch.records().len() {
        let recorded = batch.rounds_within(record_bytes, batch.lines().len());
        let line_bytes = write_front(report, batch.lines_of(recorded));
        let done = batch.rounds_within(record_bytes, line_bytes);
        return Err(RunFault::WriteMaps(before + done as u32));
    }
    let line_bytes = write_front(report, batch.lines());
    if line_bytes < batch.lines().len() {
        let done = batch.rounds_within(record_bytes, line_bytes);
        return Err(RunFault::WriteReport(before + done as u32));
    }
    Ok(())
}

/// Writes bytes until all are taken or a write fails, and answers how many were taken: fewer than all where one failed. A
/// write that takes none of them fails.
fn write_front<S: Sink>(sink: &mut S, bytes: &[u8]) -> usize
    requires { S.failed sink.old ≡ false }
    ensures inside { result ≤ length bytes.now }
    ensures taken { Appends (S.contents sink.old) (S.contents sink.new) (take result bytes.now) }
    ensures failed { S.failed sink.new ≡ nat_lt result (length bytes.now) }
    ensures unflushed { S.failed sink.new ≡ true → S.flushed sink.new ≡ false }
    ensures still_unflushed { S.flushed sink.old ≡ false → S.flushed sink.new ≡ false }
{
    let mut done = 0;
    while done < bytes.len() {
        let Ok(count) = sink.write(&bytes[done..]) else {
            return done;
        };
        if count == 0 {
            return done;
        }
        done += count;
    }
    done
}

/// Flushes the maps file, and then the report, after `done` rounds.
pub(crate) fn flush<W1: Sink, W2: Sink>(
    done: u32,
    maps: &mut W1,
    report: &mut W2,
) -> Result<(), RunFault>
    requires maps_ready { W1.failed maps.old ≡ false }
    requires report_ready { W2.failed report.old ≡ false }
    ensures flushed { Flushed done (grown (W1.contents maps.old) (W1.contents maps.new))
        (grown (W2.contents report.old) (W2.contents report.new)) (ended result) }
    ensures left { AreLeft
        (writing (W1.failed maps.new) (W1.flushed maps.old) (W1.flushed maps.new))
        (writing (W2.failed report.new) (W2.flushed report.old) (W2.flushed report.new))
        result }
{
    match maps.flush() {
        Ok(()) => {}
        Err(_) => return Err(RunFault::WriteMaps(done)),
    }
    match report.flush() {
        Ok(()) => Ok(()),
        Err(_) => Err(RunFault::WriteReport(done)),
    }
}
