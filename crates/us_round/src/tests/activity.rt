use super::base::{Case, compare, config_of, next_round, same};
use super::rounds::BONDED;
use crate::{RoundFault, State};
use std::alloc::Global;
use std::sync::Wait;
use std::test::Fail;
use std::thread::Threads;
use us_crew::OpenGate;
use us_slots::NoMemory;

/// A flow with two grants in each interval of a round, or a poll while it is silent: it is marked as silent in round 1, and
/// as active in round 2.
const SILENT_ONCE: Case<'static> = Case {
    name: "silent in round 1",
    channels: 1,
    flow: "type = 5
channels = [1]
clusters = [[513]]
start_us = 0
interval_us = 2000
jitter_us = 1000
grant_bytes = 16
grants_per_interval = 2",
    whole: true,
    rounds: 3,
    asks: (1, 0),
    asks_next: (0, 1),
    answer: "G,0,1,Activity,1,0,0,513,11,0,1,0 G,0,1,Activity,1,0,1,513,11,1,1,0 \
        0806c000 0806c001 fffc4002 fffc4096 0001c0a0 ; \
        G,1,1,Activity,1,1,0,513,1,0,2,0 08044000 fffc4002 fffc4096 0001c0a0 ; \
        G,2,1,Activity,1,2,0,513,11,0,1,0 G,2,1,Activity,1,2,1,513,11,1,1,0 \
        0806c000 0806c001 fffc4002 fffc4096 0001c0a0 ; flow 1 active 1, ",
    ..BONDED
};

/// Of both marks in one round that as active counts.
const BOTH_MARKS: Case<'static> = Case {
    name: "both marks in round 1",
    rounds: 2,
    asks: (1, 1),
    answer: "G,0,1,Activity,1,0,0,513,11,0,1,0 G,0,1,Activity,1,0,1,513,11,1,1,0 \
        0806c000 0806c001 fffc4002 fffc4096 0001c0a0 ; \
        G,1,1,Activity,1,1,0,513,11,0,1,0 G,1,1,Activity,1,1,1,513,11,1,1,0 \
        0806c000 0806c001 fffc4002 fffc4096 0001c0a0 ; flow 1 active 1, ",
    ..SILENT_ONCE
};

/// A flow that nobody marks again stays silent.
const STAYS_SILENT: Case<'static> = Case {
    name: "silent from round 1 on",
    asks_next: (0, 0),
    answer: "G,0,1,Activity,1,0,0,513,11,0,1,0 G,0,1,Activity,1,0,1,513,11,1,1,0 \
        0806c000 0806c001 fffc4002 fffc4096 0001c0a0 ; \
        G,1,1,Activity,1,1,0,513,1,0,2,0 08044000 fffc4002 fffc4096 0001c0a0 ; \
        G,2,1,Activity,1,2,0,513,1,0,2,0 08044000 fffc4002 fffc4096 0001c0a0 ; flow 1 active 0, ",
    ..SILENT_ONCE
};

/// A flow of each kind behind one that falls silent, which is alone on channel 2: F lines first, and A lines behind them.
const LAST_LINES: Case<'static> = Case {
    name: "last lines",
    channels: 2,
    flow: "type = 5
channels = [2]
clusters = [[513]]
start_us = 0
interval_us = 2000
jitter_us = 1000
grant_bytes = 16
grants_per_interval = 2",
    more: "[[flow]]
id = 4
type = 2
channels = [1, 2]
clusters = [[291, 292]]
priority = 0
rate = 0
burst = 3044
unit = 4
headers = true
[[flow]]
id = 3
type = 6
channels = [1]
clusters = [[514]]
start_us = 0
interval_us = 2000
jitter_us = 1000
grant_bytes = 16
grants_per_interval = 1
[[flow]]
id = 2
type = 5
channels = [1]
clusters = [[515]]
start_us = 0
interval_us = 2000
jitter_us = 1000
grant_bytes = 16
grants_per_interval = 1
",
    whole: false,
    rounds: 1,
    answer: "0: 1 0+1 0, 1 1+1 0, 2 0+1 0, 2 1+1 0, MAP 5 0; MAP 5 0; left 0 None, flow 1 active 1, flow 2 active 1, ",
    ..SILENT_ONCE
};

/// The same flows, of which the first one falls silent.
const OTHERS_MARKED: Case<'static> = Case {
    name: "last lines of a silent flow",
    asks: (1, 0),
    rounds: 2,
    answer: "0: 1 0+1 0, 1 1+1 0, 2 0+1 0, 2 1+1 0, MAP 5 0; MAP 5 0; \
        1: 1 0+1 0, 1 1+1 0, 2 0+2 0, MAP 5 0; MAP 4 0; left 0 None, flow 1 active 0, flow 2 active 1, ",
    ..LAST_LINES
};

const CASES: &[Case<'static>] = &[
    SILENT_ONCE,
    BOTH_MARKS,
    STAYS_SILENT,
    LAST_LINES,
    OTHERS_MARKED,
];

#[test]
fn rounds_with_marks(rt: HostRuntime) -> Result<(), Fail> {
    Ok(compare(&rt, rt.alloc(), CASES)?)
}

/// What is outstanding after a round with this cut, from round 0 on.
fn left_of(
    threads: &(impl Threads + Wait + Sync),
    alloc: Global,
    case: &Case<'_>,
    cut: &[u64],
) -> Result<String, RoundFault> {
    let Ok(config) = config_of(alloc, case) else {
        return Err(RoundFault::NoMemory);
    };
    let state = State::new(alloc, config)?;
    let (next, _) = next_round(threads, alloc, state, cut, 1, &OpenGate)?;
    Ok(text_of(alloc, next.core().outstanding())?)
}

/// Numbers, one behind another.
fn text_of(alloc: Global, numbers: &[u64]) -> Result<String, NoMemory> {
    let mut text = String::new(alloc);
    for number in numbers {
        write!(text, "{number} ")?;
    }
    Ok(text)
}

/// Marks ask for nothing, also where a cluster's request stays.
#[test]
fn marks_are_not_outstanding(rt: HostRuntime) {
    let wanted = "0 0 252716 0 0 ";
    match left_of(&rt, rt.alloc(), &LAST_LINES, &[7, 9, 262_140, 3, 1]) {
        Ok(left) => same(&rt, "outstanding", left.as_str(), wanted),
        Err(_) => same(&rt, "outstanding", "refused", wanted),
    }
}
