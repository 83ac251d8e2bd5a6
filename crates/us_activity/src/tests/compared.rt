//! Random traces, beside a plain program that goes over the rounds.

ghost use Rattle.std.specs.Prelude.{◌<◌};

use super::base::{FLOWS, activity_of, config_of, same};
use super::plain::{Row, plainly, put_rows};
use std::alloc::Global;
use std::process::Abort;
use std::test::Fail;
use us_flows::Config;

#[test]
fn random_traces(rt: HostRuntime) -> Result<(), Fail> {
    let mut seed = 1;
    if let Some(config) = config_of(rt.alloc(), FLOWS) {
        for _trace in 0..400 {
            compare(&rt, rt.alloc(), &config, &mut seed);
        }
    }
    Ok(())
}

/// Compares both at a random trace of ten rows.
fn compare(rt: &impl Abort, alloc: Global, config: &Config, seed: &mut u32) {
    let mut rows = [Row {
        round: 1,
        sid: 291,
        kind: 0,
    }; 10];
    for row in rows.iter_mut() {
        *row = random_row(seed);
    }
    let mut text = String::new(alloc);
    let mut wanted = String::new(alloc);
    if put_rows(&mut text, &rows).is_err() || plainly(&mut wanted, &rows).is_err() {
        return;
    }
    match activity_of(alloc, config, text.as_str()) {
        Some(found) => same(rt, text.as_str(), found.as_str(), wanted.as_str()),
        None => same(rt, text.as_str(), "none", wanted.as_str()),
    }
}

/// A random row: mostly a mark of one of the two flows, in a round of the run or just behind it.
fn random_row(seed: &mut u32) -> Row {
    let sid = match next(seed, 8) {
        0 => 291,
        1 => 701,
        2..=4 => 702,
        _ => 700,
    };
    Row {
        round: 1 + next(seed, 7),
        sid,
        kind: if sid == 291 { 0 } else { 1 + next(seed, 2) },
    }
}

/// The next number below a limit, of a fixed row of numbers that look random.
fn next(seed: &mut u32, below: u32) -> u32
    requires { 0 < below }
    ensures { result < below }
{
    *seed = seed.wrapping_mul(1_664_525).wrapping_add(1_013_904_223);
    (*seed >> 16) % below
}
