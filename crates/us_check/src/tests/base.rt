use crate::{CheckFault, Rule, Verdict, check};
use std::alloc::Global;
use std::fmt::Debug;
use std::process::Abort;
use us_flows::Config;
use us_requests::Trace;
use us_samples::{base, stored_input};
use us_slots::FromRead;

/// The rounds of the stored run.
const ROUNDS: u32 = 2;

/// What the stored run wrote: the maps file, of a record of 34 bytes and one of 38,
pub static MAPS: [u8; 72] = [
    0, 0, 0, 0, 0, 28, 1, 0, 3, 0, 0, 0, 0, 0, 0, 0, 0, 0, 2, 6, 3, 8, 0xff, 0xfc, 0x40, 0, 0xff,
    0xfc, 0x40, 150, 0, 1, 0xc0, 160, 0, 0, 0, 1, 0, 32, 1, 0, 4, 0, 0, 0, 0, 160, 0, 0, 0, 80, 2,
    6, 3, 8, 0x04, 0x8e, 0x80, 0, 0xff, 0xfc, 0x40, 0x20, 0xff, 0xfc, 0x40, 150, 0, 1, 0xc0, 160,
];

/// and the report.
pub static REPORT: &str = "G,1,1,req,1,0,0,291,10,0,32,1000\nF,1,0,0,-\nU,0,0,0\n";

/// The one assertion of these tests, since each costs the proof of the function that it stands in. `place` says where
/// in a test.
pub fn same<T: PartialEq + Debug>(rt: &impl Abort, found: &T, wanted: &T, place: &str) {
    assert_eq!(rt; *found, *wanted, "{place}");
}

/// Where a rule is broken.
pub fn broken(rule: Rule, round: u64, channel: u64, place: u64) -> Result<Verdict, CheckFault> {
    Ok(Verdict::Broken {
        rule,
        round,
        channel,
        place,
    })
}

/// The verdict on files, for these tables and the requests of the stored run. Whatever else can't be read is told as
/// want of memory.
pub fn verdict_with(
    alloc: Global,
    tables: &str,
    maps: &[u8],
    report: &str,
) -> Result<Verdict, CheckFault> {
    verdict_in(alloc, tables, ROUNDS, maps, report)
}

/// The same in so many rounds.
pub fn verdict_in(
    alloc: Global,
    tables: &str,
    rounds: u32,
    maps: &[u8],
    report: &str,
) -> Result<Verdict, CheckFault> {
    match Config::read(alloc, tables.as_bytes()) {
        Ok(config) => verdict_of(alloc, &config, rounds, maps, report),
        Err(_) => Err(CheckFault::NoMemory),
    }
}

/// The same for tables that were read.
fn verdict_of(
    alloc: Global,
    config: &Config,
    rounds: u32,
    maps: &[u8],
    report: &str,
) -> Result<Verdict, CheckFault> {
    if !config.rounds_fit(rounds) {
        return Err(CheckFault::NoMemory);
    }
    match Trace::read(alloc, &mut FromRead::new(requests()), config, rounds) {
        Ok(trace) => check(alloc, config, &trace, maps, report.as_bytes()),
        Err(_) => Err(CheckFault::NoMemory),
    }
}

/// The requests of the stored run.
fn requests() -> &'static [u8] {
    let (_, requests) = stored_input().split_once("%%\n").unwrap_or(("", ""));
    requests.as_bytes()
}

/// The verdict on files, for the stored run.
pub fn verdict_on(alloc: Global, maps: &[u8], report: &str) -> Result<Verdict, CheckFault> {
    verdict_with(alloc, base(), maps, report)
}
