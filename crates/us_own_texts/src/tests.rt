//! The law as a program uses it that calls `replay` and `check`.

ghost use Rattle.std.specs.Prelude.{IfOk};
ghost use Rattle.us_check.specs.Laws.{HoldsUnlessNoMemory};

use crate::own_texts_hold;
use std::alloc::{AllocError, Global};
use std::process::Abort;
use std::sync::Wait;
use std::thread::Threads;
use us_check::{CheckFault, Verdict, check};
use us_crew::OpenGate;
use us_flows::Config;
use us_replay::{RunFault, replay};
use us_requests::Trace;
use us_samples::put_channel;
use us_slots::{FromRead, FromWrite};

/// A flow with a minimum rate, and a call that tells its activity.
const FLOWS: &str = "[[flow]]
id = 1
type = 2
channels = [1]
clusters = [[291]]
priority = 0
rate = 0
burst = 1522
min_rate = 1280000
unit = 4
headers = true

[[flow]]
id = 2
type = 5
channels = [1]
clusters = [[513]]
start_us = 0
interval_us = 2000
jitter_us = 1000
grant_bytes = 16
grants_per_interval = 2
";

/// A request, and the marks of the call: it falls silent in round 1, and is active again in round 2.
const TRACE: &str = "tick,channel,sid,units,kind\n0,1,291,2500,0\n0,1,513,0,1\n400,1,513,0,2\n";

/// What `check` answers of the texts that `replay` writes of a trace: that they hold, by the law alone. No clause but those
/// of the three calls is used.
fn verdict_on_own<H: Threads + Wait + Sync>(
    threads: &H,
    alloc: Global,
    config: &Config,
    text: &[u8],
    rounds: u32,
    workers: usize,
) -> Result<Result<Verdict, CheckFault>, RunFault>
    ensures { IfOk result HoldsUnlessNoMemory }
{
    let mut maps = FromWrite::new(Vec::new(alloc));
    let mut report = FromWrite::new(Vec::new(alloc));
    replay(
        threads,
        alloc,
        config,
        &mut FromRead::new(text),
        rounds,
        workers,
        &OpenGate,
        &mut maps,
        &mut report,
    )?;
    let trace = Trace::read(alloc, &mut FromRead::new(text), config, rounds)?;
    let maps = maps.into_inner();
    let report = report.into_inner();
    own_texts_hold();
    Ok(check(alloc, config, &trace, &maps, &report))
}

/// One channel with both flows.
fn tables(alloc: Global) -> Result<String, AllocError> {
    let mut text = String::new(alloc);
    put_channel(&mut text, 1)?;
    text.push_str(FLOWS)?;
    Ok(text)
}

/// The verdict on three rounds of them; no configuration is told as want of memory, which no case expects.
fn found<H: Threads + Wait + Sync>(
    threads: &H,
    alloc: Global,
    workers: usize,
) -> Result<Result<Verdict, CheckFault>, RunFault> {
    let Ok(text) = tables(alloc) else {
        return Err(RunFault::NoMemory(0));
    };
    let Ok(config) = Config::read(alloc, text.as_bytes()) else {
        return Err(RunFault::NoMemory(0));
    };
    verdict_on_own(threads, alloc, &config, TRACE.as_bytes(), 3, workers)
}

fn same(rt: &impl Abort, found: &Result<Result<Verdict, CheckFault>, RunFault>) {
    assert_eq!(rt; *found, Ok(Ok(Verdict::Holds)), "own texts");
}

/// It holds, with memory enough, by one worker and by several.
#[test]
fn own_texts_of_all_kinds_hold(rt: HostRuntime) {
    for workers in [1, 2, 16] {
        same(&rt, &found(&rt, rt.alloc(), workers));
    }
}
