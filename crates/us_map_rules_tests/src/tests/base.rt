use std::alloc::Global;
use std::fmt::Debug;
use std::process::Abort;
use us_flows::Config;
use us_map_rules::{MapRegions, MapsFault, Taken, headings_breach};
use us_reports::{Place, earlier};
use us_requests::Trace;
use us_round::Row;
use us_samples::put_channel;
use us_slots::{FromRead, NoMemory};

/// The one assertion of these tests, since each costs the proof of the function that it stands in. `place` says where
/// in a test.
pub fn same<T: PartialEq + Debug>(rt: &impl Abort, found: &T, wanted: &T, place: &str) {
    assert_eq!(rt; *found, *wanted, "{place}");
}

/// The maps file of the stored run: a record of 34 bytes and one of 38.
pub static STORED: [u8; 72] = [
    0, 0, 0, 0, 0, 28, 1, 0, 3, 0, 0, 0, 0, 0, 0, 0, 0, 0, 2, 6, 3, 8, 0xff, 0xfc, 0x40, 0, 0xff,
    0xfc, 0x40, 150, 0, 1, 0xc0, 160, 0, 0, 0, 1, 0, 32, 1, 0, 4, 0, 0, 0, 0, 160, 0, 0, 0, 80, 2,
    6, 3, 8, 0x04, 0x8e, 0x80, 0, 0xff, 0xfc, 0x40, 0x20, 0xff, 0xfc, 0x40, 150, 0, 1, 0xc0, 160,
];

/// A configuration with these channels, like that of the stored run; `None` for want of memory.
fn config_of(alloc: Global, channels: &[u8]) -> Option<Config> {
    let mut text = String::new(alloc);
    for id in channels {
        put_channel(&mut text, *id).ok()?;
    }
    Config::read(alloc, text.as_bytes()).ok()
}

/// A trace without requests for a run of 2 rounds; `None` for want of memory.
fn trace_of(alloc: Global, config: &Config) -> Option<Trace> {
    if !config.rounds_fit(2) {
        return None;
    }
    let records: &[u8] = b"tick,channel,sid,units\n";
    Trace::read(alloc, &mut FromRead::new(records), config, 2).ok()
}

/// The first MAP of a file that isn't that of a run with these channels.
pub fn heading_of(
    alloc: Global,
    channels: &[u8],
    file: &[u8],
) -> Result<Result<Option<Place>, MapsFault>, NoMemory> {
    let config = config_of(alloc, channels).ok_or(NoMemory)?;
    let trace = trace_of(alloc, &config).ok_or(NoMemory)?;
    if config.rounds_fit(trace.rounds()) {
        Ok(headings_breach(&config, &trace, file))
    } else {
        Err(NoMemory)
    }
}

/// The first place of these lines that a run with these channels lacks.
pub fn place_of(alloc: Global, channels: &[u8], lines: &[Row]) -> Result<Option<Place>, NoMemory> {
    let config = config_of(alloc, channels).ok_or(NoMemory)?;
    let trace = trace_of(alloc, &config).ok_or(NoMemory)?;
    let mut regions = MapRegions::new(alloc);
    let mut first = None;
    for line in lines {
        if let Taken::Lacked(place) = regions.take(&config, &trace, &[], line)? {
            first = earlier(config.channels(), first, Some(place));
        }
    }
    Ok(first)
}
