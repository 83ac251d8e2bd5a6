use super::base::{base, same};
use super::devices::reader;
use std::io::{self, Write};
use std::process::Abort;
use us_crew::OpenGate;
use us_replay::{replay, replay_alone};
use us_slots::{FromRead, FromWrite};

/// A writer that takes all, and tells how often it was called and with how many bytes: of each call five digits of a number.
#[derive(Drop)]
struct CountingWriter {
    calls: usize,
    bytes: usize,
}

impl Write for CountingWriter {
    fn write(&mut self, buf: &[u8]) -> io::Result<usize> {
        self.calls = self.calls.saturating_add(1);
        self.bytes = self.bytes.saturating_mul(100_000).saturating_add(buf.len());
        Ok(buf.len())
    }

    fn flush(&mut self) -> io::Result<()> {
        Ok(())
    }
}

fn counting() -> CountingWriter {
    CountingWriter { calls: 0, bytes: 0 }
}

/// A trace without a request: each round of it has a record of 34 bytes and no line.
const NO_REQUEST: &[u8] = b"tick,channel,sid,units\n";

/// Of 600 such rounds 256 are written at once, 256 more, and 88 with the lines at the end of the report: 8,704 bytes of
/// records twice and 2,992, and 18 bytes of lines.
fn expect(rt: &impl Abort, maps: FromWrite<CountingWriter>, report: FromWrite<CountingWriter>) {
    let (maps, report) = (maps.into_inner(), report.into_inner());
    let found = (maps.calls, maps.bytes, report.calls, report.bytes);
    let wanted = (3, 87_040_870_402_992, 1, 18);
    same(rt, &found, &wanted, "600 rounds");
}

#[test]
fn three_batches(rt: HostRuntime) {
    let mut trace = FromRead::new(reader(NO_REQUEST, false));
    let mut maps = FromWrite::new(counting());
    let mut report = FromWrite::new(counting());
    if let Ok(config) = base(rt.alloc()) {
        let _ = replay(
            &rt,
            rt.alloc(),
            &config,
            &mut trace,
            600,
            1,
            &OpenGate,
            &mut maps,
            &mut report,
        );
    }
    expect(&rt, maps, report);
}

#[test]
fn three_batches_alone(rt: HostRuntime) {
    let mut trace = FromRead::new(reader(NO_REQUEST, false));
    let mut maps = FromWrite::new(counting());
    let mut report = FromWrite::new(counting());
    if let Ok(config) = base(rt.alloc()) {
        let _ = replay_alone(rt.alloc(), &config, &mut trace, 600, &mut maps, &mut report);
    }
    expect(&rt, maps, report);
}
