ghost use Rattle.std.specs.Prelude.{◌≡◌, ◌+◌, ◌^◌, ◌<◌, ◌++◌, length, flat_map, count_by, IfOk, OnOk};
ghost use Rattle.std.specs.Bool.{OnTrue};
ghost use Rattle.std.specs.List.{AllByRecursion};
ghost use Rattle.us_output.specs.Files.{lines, is_granted, is_missed};
ghost use Rattle.us_output.specs.Leftovers.{AreInside};
ghost use Rattle.us_output.specs.Lines.{HasFields};
ghost use Rattle.us_output.specs.Orders.{ordered_spots};
ghost use Rattle.us_output.specs.Outputs as spec;

use crate::buffers::TextBuffers;
use crate::channel_lines::ChannelLines;
use crate::channels_with_text::ChannelWithText;
use crate::rows::Row;
use crate::sinks::LineSink;
use crate::tallies::LineTally;
use us_slots::NoMemory;

/// Adds the lines of a round, and counts them: channels in table order, and on each the grants by their start, then what
/// was missed. The one fault is want of memory, and then nothing is said of the count.
pub fn push_lines(
    text: &mut Vec<u8>,
    buffers: &mut TextBuffers,
    tally: &mut LineTally,
    round: u32,
    channels: &[ChannelWithText],
) -> Result<(), NoMemory>
    requires inside { AllByRecursion AreInside channels.now }
    requires granted_room { tally.old.granted + length (flat_map (spec.rows_on round) channels.now) < 2 ^ 64 }
    requires missed_room { tally.old.missed + length (flat_map (spec.rows_on round) channels.now) < 2 ^ 64 }
    ensures lines { OnOk result
        (text.new.items ≡ text.old.items ++ lines (flat_map (spec.rows_on round) channels.now)) }
    ensures fields { OnOk result (AllByRecursion HasFields (flat_map (spec.rows_on round) channels.now)) }
    ensures granted { OnOk result (tally.new.granted ≡
        tally.old.granted + count_by is_granted (flat_map (spec.rows_on round) channels.now)) }
    ensures missed { OnOk result (tally.new.missed ≡
        tally.old.missed + count_by is_missed (flat_map (spec.rows_on round) channels.now)) }
{
    for part in channels {
        push_part(text, buffers, tally, round, part)?;
    }
    Ok(())
}

/// Adds the lines of a channel, and counts them. In many rounds there are none, and then nothing is called.
fn push_part(
    text: &mut Vec<u8>,
    buffers: &mut TextBuffers,
    tally: &mut LineTally,
    round: u32,
    part: &ChannelWithText,
) -> Result<(), NoMemory>
    requires inside { AreInside part.now }
    requires granted_room { tally.old.granted + length (spec.rows_on round part.now) < 2 ^ 64 }
    requires missed_room { tally.old.missed + length (spec.rows_on round part.now) < 2 ^ 64 }
    ensures lines { OnOk result (text.new.items ≡ text.old.items ++ lines (spec.rows_on round part.now)) }
    ensures fields { OnOk result (AllByRecursion HasFields (spec.rows_on round part.now)) }
    ensures granted { OnOk result
        (tally.new.granted ≡ tally.old.granted + count_by is_granted (spec.rows_on round part.now)) }
    ensures missed { OnOk result
        (tally.new.missed ≡ tally.old.missed + count_by is_missed (spec.rows_on round part.now)) }
{
    if is_quiet(part) {
        return Ok(());
    }
    let granted = push_written(text, buffers, round, part)?;
    tally.add(granted, missed_lines(part, granted));
    Ok(())
}

/// Adds the lines of a channel, and answers how many of them are of grants. Lines that were written ahead are copied.
fn push_written(
    text: &mut Vec<u8>,
    buffers: &mut TextBuffers,
    round: u32,
    part: &ChannelWithText,
) -> Result<usize, NoMemory>
    requires inside { AreInside part.now }
    ensures lines { OnOk result (text.new.items ≡ text.old.items ++ lines (spec.rows_on round part.now)) }
    ensures fields { OnOk result (AllByRecursion HasFields (spec.rows_on round part.now)) }
    ensures granted { IfOk result (λ granted. granted ≡ length (ordered_spots part.now)) }
{
    if let Some(ahead) = part.ahead(round) {
        text.extend_from_slice(ahead.lines.text.text())?;
        return Ok(ahead.lines.order.spots.len());
    }
    let lines = &mut buffers.lines;
    lines.write(round, part.channel_round())?;
    text.extend_from_slice(lines.text.text())?;
    Ok(lines.order.spots.len())
}

/// Whether nothing was settled or granted on a channel, so that it has no line.
fn is_quiet(part: &ChannelWithText) -> bool
    ensures { OnTrue result ((length part.now.settled ≡ 0) × (length part.now.grants ≡ 0)) }
{
    let part = part.channel_round();
    part.settled().is_empty() && part.grants().is_empty()
}

/// How many M lines a channel has beside so many G lines: one for each occurrence that its calendar settled and didn't
/// grant.
fn missed_lines(part: &ChannelWithText, granted: usize) -> usize
    requires inside { AreInside part.now }
    requires granted { granted ≡ length (ordered_spots part.now) }
    ensures { result + granted ≡ length part.now.settled + length part.now.grants }
{
    let part = part.channel_round();
    part.settled().len() + part.grants().len() - granted
}

/// Adds the lines of some rows, such as those at the end of a report: F lines, A lines, the U line. The one fault is want of
/// memory.
#[tactic(auto, unfolding(crate::specs::Files::lines))]
pub fn push_rows(
    text: &mut Vec<u8>,
    buffers: &mut TextBuffers,
    rows: &[Row],
) -> Result<(), NoMemory>
    ensures lines { OnOk result (text.new.items ≡ text.old.items ++ lines rows.now) }
    ensures fields { OnOk result (AllByRecursion HasFields rows.now) }
{
    let ChannelLines { text: lines, .. } = &mut buffers.lines;
    for row in rows {
        lines.clear();
        lines.line(*row)?;
        text.extend_from_slice(lines.text())?;
    }
    Ok(())
}
