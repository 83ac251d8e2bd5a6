ghost use Rattle.std.specs.Prelude.{◌+◌, ◌^◌, ◌<◌, zip, IsTrue};
ghost use Rattle.std.specs.List.{AllByRecursion};

use crate::{RoundFault, RoundOut, Row, State, round};
use std::alloc::{AllocError, Global};
use std::process::Abort;
use std::sync::Wait;
use std::thread::Threads;
use us_codec::Map;
use us_crew::{Gate, OpenGate};
use us_flows::{Config, ConfigFault};
use us_samples::put_channel;
use us_slots::NoMemory;

/// The one comparison of these tests.
pub(super) fn same(rt: &impl Abort, name: &str, found: &str, wanted: &str) {
    assert_eq!(rt; found, wanted, "{name}");
}

/// A run, in which clusters ask for bytes and flows are marked in rounds 1 and 2 only.
#[derive(Clone, Copy)]
pub(super) struct Case<'a> {
    pub(super) name: &'a str,
    /// The ids go from 1 to this.
    pub(super) channels: u8,
    /// The first flow, but for its id, which is 1.
    pub(super) flow: &'a str,
    /// The id of the last flow. The others are on channel 1, and without limit.
    pub(super) flows: u16,
    /// Whether they have two clusters each, or one.
    pub(super) two_clusters: bool,
    /// What else stands in the configuration, behind these flows.
    pub(super) more: &'a str,
    /// Whether lines are told whole, and MAPs by the words of their elements.
    pub(super) whole: bool,
    pub(super) rounds: u32,
    /// The bytes of the first word in round 1, and of each other one,
    pub(super) asks: (u64, u64),
    /// and the same in round 2.
    pub(super) asks_next: (u64, u64),
    pub(super) answer: &'a str,
}

/// Makes the run of each case with one worker, and compares what is answered.
pub(super) fn compare(
    rt: &(impl Abort + Threads + Wait + Sync),
    alloc: Global,
    cases: &[Case<'_>],
) -> Result<(), AllocError> {
    for case in cases {
        let answer = answer_of(rt, alloc, case, 1, &OpenGate)?;
        same(rt, case.name, answer.as_str(), case.answer);
    }
    Ok(())
}

/// What is answered: of each round its first grants, how many there are, and how many elements and pendings each MAP
/// has; then the first final lines. A fault stands behind what was answered before it.
pub(super) fn answer_of<H: Threads + Wait + Sync, G: Gate + Sync>(
    threads: &H,
    alloc: Global,
    case: &Case<'_>,
    workers: usize,
    gate: &G,
) -> Result<String, AllocError> {
    let mut answer = String::new(alloc);
    match config_of(alloc, case) {
        Ok(config) => {
            if let Err(fault) = run(threads, alloc, &mut answer, config, case, workers, gate) {
                write!(answer, "{fault}")?;
            }
        }
        Err(fault) => write!(answer, "{fault}")?,
    }
    Ok(answer)
}

/// The configuration of a case.
pub(super) fn config_of(alloc: Global, case: &Case<'_>) -> Result<Config, ConfigFault> {
    let text = text_of(alloc, case)?;
    Config::read(alloc, text.as_bytes())
}

fn text_of(alloc: Global, case: &Case<'_>) -> Result<String, AllocError> {
    let mut text = String::new(alloc);
    for id in 1..=case.channels {
        put_channel(&mut text, id)?;
    }
    write!(text, "[[flow]]\nid = 1\n{}\n", case.flow)?;
    for id in 2..=case.flows {
        push_flow(&mut text, id, case.two_clusters)?;
    }
    text.push_str(case.more)?;
    Ok(text)
}

/// A flow on channel 1 with one cluster or two, of SIDs above 1,000.
fn push_flow(text: &mut String, id: u16, two_clusters: bool) -> Result<(), AllocError> {
    let sid = 1000 + 2 * u32::from(id);
    write!(
        text,
        "[[flow]]\nid = {id}\ntype = 2\nchannels = [1]\npriority = 0\nrate = 0\nburst = 3044\nunit = 4\nheaders = true\n"
    )?;
    if two_clusters {
        write!(text, "clusters = [[{sid}], [{}]]\n", sid + 1)
    } else {
        write!(text, "clusters = [[{sid}]]\n")
    }
}

/// The cut of a round.
fn cut_of(alloc: Global, case: &Case<'_>, number: u32, words: usize) -> Result<Vec<u64>, NoMemory> {
    let (first, others) = match number {
        1 => case.asks,
        2 => case.asks_next,
        _ => (0, 0),
    };
    let mut cut = vec![in alloc; others; words]?;
    if let Some(bytes) = cut.get_mut(0) {
        *bytes = first;
    }
    Ok(cut)
}

/// Makes the rounds of a case. What can only be wrong with the case is said to be want of memory.
fn run<H: Threads + Wait + Sync, G: Gate + Sync>(
    threads: &H,
    alloc: Global,
    answer: &mut String,
    config: Config,
    case: &Case<'_>,
    workers: usize,
    gate: &G,
) -> Result<(), RoundFault> {
    let words = config.clusters();
    let mut state = State::new(alloc, config)?;
    for number in 0..case.rounds {
        let cut = cut_of(alloc, case, number, words)?;
        let (next, out) = next_round(threads, alloc, state, &cut, workers, gate)?;
        state = next;
        if case.whole {
            tell_whole(answer, out)?;
        } else {
            tell_round(answer, &out)?;
        }
    }
    let finals = state.finals(alloc)?;
    tell_rows(answer, &finals)?;
    Ok(())
}

/// The round of a state, if it may be made.
pub(super) fn next_round<H: Threads + Wait + Sync, G: Gate + Sync>(
    threads: &H,
    alloc: Global,
    state: State,
    cut: &[u64],
    workers: usize,
    gate: &G,
) -> Result<(State, RoundOut), RoundFault> {
    let core = state.core();
    let config = core.config();
    let end = (u64::from(state.round()) + 1) * u64::from(config.round_ticks());
    if cut.len() == config.clusters() && end <= 1 << 26 && have_room(core.outstanding(), cut) {
        round(threads, alloc, state, cut, workers, gate)
    } else {
        Err(RoundFault::NoMemory)
    }
}

/// Whether what is outstanding and what a cut has are below 2^62 of each word.
fn have_room(outstanding: &[u64], cut: &[u64]) -> bool
    ensures { IsTrue result → AllByRecursion (λ pair. pair.0 + pair.1 < 2 ^ 62) (zip outstanding.now cut.now) }
{
    if outstanding.len() != cut.len() {
        return false;
    }
    for place in 0..cut.len() {
        if outstanding[place] >= 1 << 62 || cut[place] >= (1 << 62) - outstanding[place] {
            return false;
        }
    }
    true
}

/// The round's first grants, how many there are, and of each MAP its elements and its pendings.
pub(super) fn tell_round(answer: &mut String, out: &RoundOut) -> Result<(), NoMemory> {
    write!(answer, "{}: ", out.round())?;
    tell_rows(answer, out.rows())?;
    for map in out.maps() {
        tell_map(answer, map)?;
    }
    Ok(())
}

/// How many elements a MAP has, and how many of them stand at its length behind the Null.
fn tell_map(answer: &mut String, map: &Map) -> Result<(), NoMemory> {
    let elements = map.elements();
    let mut pendings = 0_u32;
    for element in elements {
        if element.offset() == 160 && element.iuc().number() == 10 {
            pendings = pendings.saturating_add(1);
        }
    }
    write!(answer, "MAP {} {pendings}; ", elements.len())?;
    Ok(())
}

/// The first of these lines, and how many there are.
fn tell_rows(answer: &mut String, rows: &[Row]) -> Result<(), NoMemory> {
    for row in &rows[..rows.len().min(4)] {
        tell_row(answer, row)?;
    }
    if rows.len() > 4 {
        write!(answer, ".. {}, ", rows.len())?;
    }
    Ok(())
}

/// Of a grant its channel, start, minislots and credit; of a final line what is outstanding, and the units, or the flow and
/// whether it is active.
fn tell_row(answer: &mut String, row: &Row) -> Result<(), AllocError> {
    match row {
        Row::Granted(g) => write!(
            answer,
            "{} {}+{} {}, ",
            g.channel, g.start, g.slots, g.credit
        ),
        Row::Final(state) => write!(answer, "left {} {:?}, ", state.outstanding, state.units),
        Row::Activity(state) => write!(answer, "flow {} active {}, ", state.flow, state.active),
        _ => write!(answer, "{row:?}, "),
    }
}

/// The round's lines, the first four and the last three of many, and of each MAP the words of its elements.
fn tell_whole(answer: &mut String, out: RoundOut) -> Result<(), NoMemory> {
    let (maps, rows) = out.into_parts();
    for row in &rows[..rows.len().min(4)] {
        tell_line(answer, row)?;
    }
    if rows.len() > 4 {
        write!(answer, ".. {} ", rows.len())?;
        for row in &rows[rows.len() - 3..] {
            tell_line(answer, row)?;
        }
    }
    for map in &maps {
        tell_words(answer, map)?;
    }
    Ok(())
}

/// A G or an M line, but for the word of its entry.
fn tell_line(answer: &mut String, row: &Row) -> Result<(), AllocError> {
    match row {
        Row::Granted(g) => {
            write!(answer, "G,{},{},{:?},", g.round, g.channel, g.entry)?;
            write!(answer, "{},{},{},{},{},", g.id, g.i, g.k, g.sid, g.iuc)?;
            write!(answer, "{},{},{} ", g.start, g.slots, g.credit)
        }
        Row::Missed(m) => {
            write!(answer, "M,{},{},{:?},", m.round, m.channel, m.entry)?;
            write!(answer, "{},{},{} ", m.id, m.i, m.k)
        }
        _ => write!(answer, "{row:?} "),
    }
}

/// The words of a MAP's elements, at most six.
fn tell_words(answer: &mut String, map: &Map) -> Result<(), NoMemory> {
    let elements = map.elements();
    for element in &elements[..elements.len().min(6)] {
        let owner = u64::from(element.sid()) * 16 + u64::from(element.iuc().number());
        write!(
            answer,
            "{:08x} ",
            owner * 16384 + u64::from(element.offset())
        )?;
    }
    write!(answer, "; ")?;
    Ok(())
}
