use super::base::{ROUNDS, SILENT, letter};
use std::alloc::AllocError;

/// A row of a trace, for a round, or past the run.
#[derive(Clone, Copy)]
pub(super) struct Row {
    pub(super) round: u32,
    pub(super) sid: u16,
    /// 1 for silent, 2 for active, and 0 for a request.
    pub(super) kind: u32,
}

/// Whether one of the rows is this.
fn stands(rows: &[Row], round: u32, sid: u16, kind: u32) -> bool {
    for row in rows {
        if (row.round, row.sid, row.kind) == (round, sid, kind) {
            return true;
        }
    }
    false
}

/// Tells of each flow the rounds, one after another, and then what stays.
pub(super) fn plainly(answer: &mut String, rows: &[Row]) -> Result<(), AllocError> {
    for (_, sid) in SILENT {
        write!(answer, "{sid}: ")?;
        let mut active = true;
        for round in 0..ROUNDS + 3 {
            if round < ROUNDS && stands(rows, round, sid, 2) {
                active = true;
            } else if round < ROUNDS && stands(rows, round, sid, 1) {
                active = false;
            }
            answer.push(letter(active))?;
        }
        answer.push('\n')?;
    }
    Ok(())
}

/// The text of a trace with these rows. A mark has no units.
pub(super) fn put_rows(text: &mut String, rows: &[Row]) -> Result<(), AllocError> {
    text.push_str("tick,channel,sid,units,kind\n")?;
    for row in rows {
        let tick = row.round.saturating_sub(1).saturating_mul(320);
        let units = if row.kind == 0 { 5 } else { 0 };
        writeln!(text, "{tick},1,{},{units},{}", row.sid, row.kind)?;
    }
    Ok(())
}
