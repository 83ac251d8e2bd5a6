ghost use Rattle.std.specs.Prelude.{◌≡◌, ◌++◌, filter_map, IfOk, OnOk};
ghost use Rattle.us_activity.specs.Kept as spec;

use std::alloc::{AllocError, Global};
use us_requests::{Ask, Trace};

/// What a flow says of its activity in a round.
#[derive(Clone, Copy)]
pub(crate) struct Mark {
    /// The number of the word that marks the flow as silent. The next one marks it as active.
    pub(crate) word: u16,
    /// The number of the round.
    pub(crate) round: u32,
    /// Whether it is active; else it is silent.
    pub(crate) active: bool,
}

/// The marks of a trace, round by round, where these words mark flows as silent.
pub(crate) fn marks_in(
    alloc: Global,
    silent: &[bool],
    trace: &Trace,
) -> Result<Vec<Mark>, AllocError>
    ensures { IfOk result (λ marks. marks.items ≡ spec.marks_in silent.now trace.now) }
{
    let mut marks = Vec::new(alloc);
    for round in 0..trace.rounds() {
        push_round(&mut marks, silent, round, trace.asks(round))?;
    }
    Ok(marks)
}

/// Puts the marks of a round behind those before them.
fn push_round(
    marks: &mut Vec<Mark>,
    silent: &[bool],
    round: u32,
    asks: &[Ask],
) -> Result<(), AllocError>
    ensures { OnOk result (marks.new.items ≡ marks.old.items ++ filter_map (spec.mark_of silent.now round) asks.now) }
{
    for ask in asks {
        if let Some(mark) = mark_of(silent, round, ask) {
            marks.push(mark)?;
        }
    }
    Ok(())
}

/// The mark that an ask of a round is. One of no bytes marks nothing.
fn mark_of(silent: &[bool], round: u32, ask: &Ask) -> Option<Mark>
    ensures { result ≡ spec.mark_of silent.now round ask.now }
{
    if ask.bytes == 0 {
        return None;
    }
    if is_silent(silent, ask.cluster) {
        return Some(Mark {
            word: ask.cluster,
            round,
            active: false,
        });
    }
    let word = ask.cluster.checked_sub(1)?;
    if is_silent(silent, word) {
        return Some(Mark {
            word,
            round,
            active: true,
        });
    }
    None
}

/// Whether a word marks a flow as silent.
fn is_silent(silent: &[bool], word: u16) -> bool
    ensures { result ≡ spec.silent_at silent.now word }
{
    match silent.get(usize::from(word)) {
        Some(is) => *is,
        None => false,
    }
}
