use super::steps::{same, tell_play};
use crate::{Step, play};
use std::alloc::{AllocError, Global};
use std::test::Fail;
use us_flows::Config;
use us_requests::Ask;
use us_round::{RoundFault, RoundOut, State};
use us_samples::put_channel;

/// A call alone: two grants of a minislot in each round, or a poll of two while it is silent. Word 0 marks it as silent,
/// word 1 as active.
const CALL: &str = "[[flow]]
id = 1
type = 5
channels = [1]
clusters = [[513]]
start_us = 0
interval_us = 2000
jitter_us = 1000
grant_bytes = 16
grants_per_interval = 2
";

/// Seat 0 adds the mark as silent, or that as active.
const SILENT: Step = Step::Add { row: 0, seat: 0 };

const ACTIVE: Step = Step::Add { row: 1, seat: 0 };

const TAKE_SILENT: Step = Step::Take { word: 0, seat: 0 };

const TAKE_ACTIVE: Step = Step::Take { word: 1, seat: 0 };

const OPEN: Step = Step::Open { channel: 0 };

const BUILT: Step = Step::Built { channel: 0 };

/// Steps, and what they come to. With both marks in the cut the call is active, as without a mark; with that as silent alone
/// it has a poll. A mark that comes behind the Take of its word is left there.
static PLAYS: [(&str, &[Step], &str); 4] = [
    (
        "both marks",
        &[ACTIVE, SILENT, TAKE_SILENT, TAKE_ACTIVE, OPEN, BUILT],
        "round 0, elements at 0 1 2 150 160; left [0, 0]",
    ),
    (
        "a late mark as active",
        &[SILENT, TAKE_ACTIVE, ACTIVE, TAKE_SILENT, OPEN, BUILT],
        "round 0, elements at 0 2 150 160; left [0, 1]",
    ),
    (
        "late marks",
        &[TAKE_SILENT, TAKE_ACTIVE, OPEN, SILENT, ACTIVE, BUILT],
        "round 0, elements at 0 1 2 150 160; left [1, 1]",
    ),
    (
        "a word that isn't taken",
        &[SILENT, ACTIVE, TAKE_SILENT, OPEN, BUILT],
        "",
    ),
];

fn config_of(alloc: Global) -> Option<Config> {
    let mut text = String::new(alloc);
    put_channel(&mut text, 1).ok()?;
    text.push_str(CALL).ok()?;
    Config::read(alloc, text.as_bytes()).ok()
}

/// What can only be wrong with the configuration is said to be want of memory.
fn first_play(
    alloc: Global,
    steps: &[Step],
) -> Result<Option<(State, Vec<u64>, RoundOut)>, RoundFault> {
    let Some(config) = config_of(alloc) else {
        return Err(RoundFault::NoMemory);
    };
    if config.clusters() != 2 || config.round_ticks() > 4096 {
        return Err(RoundFault::NoMemory);
    }
    let rows = [
        Ask {
            cluster: 0,
            bytes: 1,
        },
        Ask {
            cluster: 1,
            bytes: 1,
        },
    ];
    let state = State::new(alloc, config)?;
    play(alloc, state, &[0, 0], &rows, steps)
}

fn tell_first(alloc: Global, answer: &mut String, steps: &[Step]) -> Result<(), RoundFault> {
    let Some((_state, words, out)) = first_play(alloc, steps)? else {
        return Ok(());
    };
    tell_play(answer, &words, &out)?;
    Ok(())
}

fn answer_of(alloc: Global, steps: &[Step]) -> Result<String, AllocError> {
    let mut answer = String::new(alloc);
    if let Err(fault) = tell_first(alloc, &mut answer, steps) {
        write!(answer, "{fault}")?;
    }
    Ok(answer)
}

#[test]
fn marks_of_a_call(rt: HostRuntime) -> Result<(), Fail> {
    for (name, steps, wanted) in &PLAYS {
        let found = answer_of(rt.alloc(), steps)?;
        same(&rt, name, found.as_str(), wanted);
    }
    Ok(())
}
