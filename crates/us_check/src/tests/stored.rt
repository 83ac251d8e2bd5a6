use super::base::{MAPS, REPORT, broken, same, verdict_on, verdict_with};
use crate::{CheckFault, Rule, Verdict};
use std::alloc::{AllocError, Global};
use us_samples::base;

/// What the stored run wrote is lawful.
#[test]
fn stored_run_holds(rt: HostRuntime) {
    let found = verdict_on(rt.alloc(), &MAPS, REPORT);
    same(&rt, &found, &Ok(Verdict::Holds), "the stored run");
}

/// Reports with one thing changed, and which rule that breaks where.
static REPORTS: [(&str, Rule, u64, u64, u64); 10] = [
    ("F,1,0,0,-\nU,0,0,0\n", Rule::Minislots, 1, 1, 0),
    // a line of an earlier round behind one of a later round
    (
        "G,1,1,req,1,0,0,291,10,0,32,1000\nG,0,1,req,1,0,0,291,10,0,32,1000\nF,1,0,0,-\nU,0,0,0\n",
        Rule::Minislots,
        0,
        1,
        0,
    ),
    (
        "M,0,1,station,7,0,0\nG,1,1,req,1,0,0,291,10,0,32,1000\nF,1,0,0,-\nU,0,0,0\n",
        Rule::Occurrences,
        0,
        1,
        7,
    ),
    (
        "G,1,1,req,1,0,0,291,10,0,32,0\nF,1,0,1000,-\nU,0,0,0\n",
        Rule::Credits,
        1,
        1,
        1,
    ),
    (
        "G,1,1,req,1,0,0,291,10,0,32,999\nF,1,0,0,-\nU,0,0,0\n",
        Rule::Credits,
        2,
        0,
        1,
    ),
    (
        "G,1,1,req,1,0,0,291,10,0,32,1000\nU,0,0,0\n",
        Rule::Credits,
        2,
        0,
        1,
    ),
    (
        "G,1,1,req,1,0,0,291,10,0,32,1000\nF,1,0,0,-\n",
        Rule::Credits,
        2,
        0,
        0,
    ),
    // an A line of a flow that makes requests, one that goes before the U line, which lacks, and one behind an F line that lacks
    (
        "G,1,1,req,1,0,0,291,10,0,32,1000\nF,1,0,0,-\nA,1,1\nU,0,0,0\n",
        Rule::Credits,
        2,
        0,
        1,
    ),
    (
        "G,1,1,req,1,0,0,291,10,0,32,1000\nF,1,0,0,-\nA,7,0\n",
        Rule::Credits,
        2,
        0,
        7,
    ),
    (
        "G,1,1,req,1,0,0,291,10,0,32,1000\nA,0,1\nU,0,0,0\n",
        Rule::Credits,
        2,
        0,
        1,
    ),
];

#[test]
fn changed_reports_break_a_rule(rt: HostRuntime) {
    for &(report, rule, round, channel, place) in &REPORTS {
        let found = verdict_on(rt.alloc(), &MAPS, report);
        same(&rt, &found, &broken(rule, round, channel, place), report);
    }
}

/// A line that is none comes before all rules.
#[test]
fn lines_of_no_report(rt: HostRuntime) {
    let found = verdict_on(
        rt.alloc(),
        &[0],
        "G,1,1,req,1,0,0,291,10,0,32,1000\nF,1,0,0,-\nU,0,0\n",
    );
    same(&rt, &found, &Err(CheckFault::Report(3)), "a field left out");
}

/// Bytes of the maps file and what stands there in their place, and which rule that breaks where: Reserved, a round,
/// and where the gap behind the grant starts.
static BYTES: [(usize, u8, Rule, u64, u64, u64); 3] = [
    (43, 1, Rule::Records, 0, 0, 1),
    (3, 5, Rule::Headings, 0, 0, 0),
    (63, 0x21, Rule::Minislots, 1, 1, 0),
];

/// The maps file with this byte there.
fn maps_with(alloc: Global, at: usize, byte: u8) -> Result<Vec<u8>, AllocError> {
    let mut maps = Vec::from_slice(alloc, &MAPS)?;
    if at < maps.len() {
        maps[at] = byte;
    }
    Ok(maps)
}

#[test]
fn changed_maps_break_a_rule(rt: HostRuntime) -> Result<(), AllocError> {
    for &(at, byte, rule, round, channel, place) in &BYTES {
        let maps = maps_with(rt.alloc(), at, byte)?;
        let found = verdict_on(rt.alloc(), &maps, REPORT);
        same(
            &rt,
            &found,
            &broken(rule, round, channel, place),
            "a byte of the maps file",
        );
    }
    Ok(())
}

/// A grant at the end of the second MAP, over its contention reserve,
pub(super) static TWO_OWNERS: [u8; 68] = [
    0, 0, 0, 0, 0, 28, 1, 0, 3, 0, 0, 0, 0, 0, 0, 0, 0, 0, 2, 6, 3, 8, 0xff, 0xfc, 0x40, 0, 0xff,
    0xfc, 0x40, 150, 0, 1, 0xc0, 160, 0, 0, 0, 1, 0, 28, 1, 0, 3, 0, 0, 0, 0, 160, 0, 0, 0, 80, 2,
    6, 3, 8, 0xff, 0xfc, 0x40, 0, 0x04, 0x8e, 0x80, 0x80, 0, 1, 0xc0, 160,
];

/// and the report with it.
pub(super) static REPORT_OF_TWO_OWNERS: &str =
    "G,1,1,req,1,0,0,291,10,128,32,1000\nF,1,0,0,-\nU,0,0,0\n";

#[test]
fn two_owners(rt: HostRuntime) {
    let found = verdict_on(rt.alloc(), &TWO_OWNERS, REPORT_OF_TWO_OWNERS);
    same(
        &rt,
        &found,
        &broken(Rule::Minislots, 1, 1, 150),
        "the start of the reserve",
    );
}

/// The tables of the stored run, where its flow may have 999 bytes at once.
fn slow_tables(alloc: Global) -> Result<String, AllocError> {
    let (front, back) = base()
        .split_once("rate = 0\nburst = 3044")
        .unwrap_or(("", ""));
    let mut text = String::new(alloc);
    text.push_str(front)?;
    text.push_str("rate = 8\nburst = 999")?;
    text.push_str(back)?;
    Ok(text)
}

#[test]
fn too_much_at_once(rt: HostRuntime) -> Result<(), AllocError> {
    let tables = slow_tables(rt.alloc())?;
    let found = verdict_with(rt.alloc(), &tables, &MAPS, REPORT);
    same(&rt, &found, &broken(Rule::Rates, 1, 0, 1), "1,000 bytes");
    Ok(())
}
