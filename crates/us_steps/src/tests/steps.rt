use crate::{Step, play};
use std::alloc::{AllocError, Global};
use std::process::Abort;
use std::test::Fail;
use us_flows::Config;
use us_requests::Ask;
use us_round::{RoundFault, RoundOut, State};
use us_samples::base;
use us_slots::NoMemory;

/// Seat 0 adds the row of 500 bytes, or that of 700.
const ADD_500: Step = Step::Add { row: 0, seat: 0 };

const ADD_700: Step = Step::Add { row: 1, seat: 0 };

const TAKE: Step = Step::Take { word: 0, seat: 0 };

const OPEN: Step = Step::Open { channel: 0 };

const BUILT: Step = Step::Built { channel: 0 };

/// Steps by which all rows are in the cut, and the round: 1,200 bytes are granted, 39 minislots.
static WHOLE_STEPS: [Step; 5] = [ADD_700, ADD_500, TAKE, OPEN, BUILT];

const WHOLE: &str = "round 0, elements at 0 39 150 160; left [0]";

/// Those by which the row of 500 bytes comes too late: 700 bytes are granted, 23 minislots.
static LATE_STEPS: [Step; 5] = [ADD_700, TAKE, OPEN, ADD_500, BUILT];

const LATE: &str = "round 0, elements at 0 23 150 160; left [500]";

/// The one comparison of these tests.
pub(super) fn same(rt: &impl Abort, name: &str, found: &str, wanted: &str) {
    assert_eq!(rt; found, wanted, "{name}");
}

/// What the first round of the base configuration comes to by these steps, with rows of 500 and 700 bytes.
fn answer_of(alloc: Global, steps: &[Step]) -> Result<String, AllocError> {
    let mut answer = String::new(alloc);
    match Config::read(alloc, base().as_bytes()) {
        Ok(config) => {
            if let Err(fault) = tell_first(alloc, &mut answer, config, steps) {
                write!(answer, "{fault}")?;
            }
        }
        Err(fault) => write!(answer, "{fault}")?,
    }
    Ok(answer)
}

/// What can only be wrong with the configuration is said to be want of memory.
fn first_play(
    alloc: Global,
    config: Config,
    steps: &[Step],
) -> Result<Option<(State, Vec<u64>, RoundOut)>, RoundFault> {
    if config.clusters() != 1 || config.round_ticks() > 4096 {
        return Err(RoundFault::NoMemory);
    }
    let rows = [
        Ask {
            cluster: 0,
            bytes: 500,
        },
        Ask {
            cluster: 0,
            bytes: 700,
        },
    ];
    let state = State::new(alloc, config)?;
    play(alloc, state, &[0], &rows, steps)
}

fn tell_first(
    alloc: Global,
    answer: &mut String,
    config: Config,
    steps: &[Step],
) -> Result<(), RoundFault> {
    let Some((_state, words, out)) = first_play(alloc, config, steps)? else {
        return Ok(());
    };
    tell_play(answer, &words, &out)?;
    Ok(())
}

/// Where the elements of the round's MAPs start, and what is left in the words.
pub(super) fn tell_play(
    answer: &mut String,
    words: &[u64],
    out: &RoundOut,
) -> Result<(), NoMemory> {
    write!(answer, "round {}, elements at", out.round())?;
    for map in out.maps() {
        for element in map.elements() {
            write!(answer, " {}", element.offset())?;
        }
    }
    write!(answer, "; left {words:?}")?;
    Ok(())
}

#[test]
fn worked_steps(rt: HostRuntime) -> Result<(), Fail> {
    let whole = answer_of(rt.alloc(), &WHOLE_STEPS)?;
    same(&rt, "all rows", whole.as_str(), WHOLE);
    let late = answer_of(rt.alloc(), &LATE_STEPS)?;
    same(&rt, "a late row", late.as_str(), LATE);
    let open = answer_of(rt.alloc(), &[ADD_700, ADD_500, TAKE, OPEN])?;
    same(&rt, "a channel that isn't built", open.as_str(), "");
    let twice = answer_of(rt.alloc(), &[ADD_700, ADD_500, ADD_500, TAKE, OPEN, BUILT])?;
    same(&rt, "a row that is added twice", twice.as_str(), "");
    Ok(())
}

/// Run by `tools/refuse-memory` too, where each allocation is refused in turn: a play is answered whole, or as want of
/// memory.
#[test]
fn refused_memory(rt: HostRuntime) {
    for (steps, wanted) in [(&WHOLE_STEPS, WHOLE), (&LATE_STEPS, LATE)] {
        // else it was refused to the answer's text
        if let Ok(answer) = answer_of(rt.alloc(), steps) {
            if !answer.as_str().ends_with("out of memory") {
                same(&rt, "a play", answer.as_str(), wanted);
            }
        }
    }
}
