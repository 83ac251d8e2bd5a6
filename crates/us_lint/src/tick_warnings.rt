use crate::backward_rows::{BackwardRows, FAR_LEADS};
use crate::late_rows::LateRows;
use crate::parts::Part;
use crate::warnings::{Subject, Warnings};
use us_flows::Config;

/// Rows that are late in a run of so many rounds.
pub(crate) fn push_late(
    warnings: &mut Warnings,
    config: &Config,
    rounds: u32,
    late_rows: &LateRows,
) {
    let late = late_rows.late;
    if late.rows == 0 {
        return;
    }
    let (words, number) = match late_rows.rounds_that_fit(config) {
        Some(wanted) => (
            "tick: too late for a run that ends with round #, --rounds # takes all rows in: #",
            wanted,
        ),
        None => (
            "tick: too late for a run that ends with round #, and no run has more than # rounds: #",
            config.most_rounds(),
        ),
    };
    let (last, number) = (rounds.saturating_sub(1) as u64, number as u64);
    warnings.add(
        Subject::Row(late.line),
        words,
        &[Part::Number(last), Part::Number(number), late.counted()],
    );
}

/// Ticks that look like microseconds.
pub(crate) fn push_microseconds(warnings: &mut Warnings, config: &Config, late_rows: &LateRows) {
    let late = late_rows.late;
    if !late_rows.look_like_microseconds(config) {
        return;
    }
    warnings.add(
        Subject::Row(late.line),
        "tick: if these ticks are microseconds, 4/25 of each is wanted, since a tick is 6.25 microseconds; \
        no row would be late then: #",
        &[late.counted()],
    );
}

/// Rows that go back far behind a row before them.
pub(crate) fn push_backward(warnings: &mut Warnings, backward: &BackwardRows) {
    let Some((row, before)) = backward.first else {
        return;
    };
    warnings.add(
        Subject::Row(row.line),
        "tick: # goes back by more than # leads from # in line #; rows may stand in any order, but is this another \
        trace put behind the first? #",
        &[
            Part::Number(row.tick as u64),
            Part::Number(FAR_LEADS as u64),
            Part::Number(before.tick as u64),
            Part::Number(before.line as u64),
            backward.back.counted(),
        ],
    );
}
