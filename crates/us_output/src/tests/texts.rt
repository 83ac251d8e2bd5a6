ghost use Rattle.std.specs.Prelude.{◌≡◌, ◌≤◌};
ghost use Rattle.std.specs.List.{AllByRecursion};
ghost use Rattle.us_flows.specs.Tables.{max_run_ticks};
ghost use Rattle.us_output.specs.Leftovers.{AreInside, IsBuiltFor, told};
ghost use Rattle.us_output.specs.Outputs.{out_of};

use crate::{
    ChannelWithText, LineTally, PendingSid, RoundOut, TextBuffers, push_lines, push_records,
    push_rows,
};
use std::alloc::Global;
use us_codec::{MAX_BODY_BYTES, Map, encode_into};
use us_flows::Config;
use us_slots::NoMemory;

/// Whether the texts of round 0 straight from its channels, twice over, the second time over what the first left in the lists
/// that are kept, are those of what it gives by a plain writer.
pub(super) fn texts_alike(
    alloc: Global,
    config: &Config,
    channels: &[ChannelWithText],
    pendings: &[PendingSid],
    out: &RoundOut,
) -> Result<bool, NoMemory>
    requires built { AllByRecursion (IsBuiltFor config.now) channels.now }
    requires inside { AllByRecursion AreInside channels.now }
    requires time { config.now.round_ticks ≤ max_run_ticks }
    requires out { out.now ≡ out_of config.now (told 0 channels.now pendings.now) }
{
    let mut text = Vec::new(alloc);
    let mut buffers = TextBuffers::new(alloc);
    push_texts(&mut text, &mut buffers, config, channels, pendings, out)?;
    push_texts(&mut text, &mut buffers, config, channels, pendings, out)?;
    push_plain(&mut text, &mut buffers, out)?;
    Ok(are_alike(&text))
}

/// Whether a text is one text three times over.
fn are_alike(text: &[u8]) -> bool {
    let third = text.len() / 3;
    &text[..third] == &text[third..2 * third] && &text[third..2 * third] == &text[2 * third..]
}

/// Adds the records and the lines. What the round gives says that its lines can be counted, which are three of grants and one
/// of what was missed: else a byte stands behind them.
#[tactic(auto, unfolding(crate::specs::Outputs::out_of))]
fn push_texts(
    text: &mut Vec<u8>,
    buffers: &mut TextBuffers,
    config: &Config,
    channels: &[ChannelWithText],
    pendings: &[PendingSid],
    out: &RoundOut,
) -> Result<(), NoMemory>
    requires built { AllByRecursion (IsBuiltFor config.now) channels.now }
    requires inside { AllByRecursion AreInside channels.now }
    requires time { config.now.round_ticks ≤ max_run_ticks }
    requires out { out.now ≡ out_of config.now (told 0 channels.now pendings.now) }
{
    let mut tally = LineTally {
        granted: 0,
        missed: 0,
    };
    push_records(text, buffers, config, 0, channels, pendings)?;
    if out.rows().len() < 100 {
        push_lines(text, buffers, &mut tally, 0, channels)?;
    }
    if (tally.granted, tally.missed) != (3, 1) {
        text.push(b'?')?;
    }
    Ok(())
}

/// Adds the records of these MAPs, and these lines.
pub(super) fn push_plain(
    text: &mut Vec<u8>,
    buffers: &mut TextBuffers,
    out: &RoundOut,
) -> Result<(), NoMemory> {
    for map in out.maps() {
        push_map(text, out.round(), map)?;
    }
    push_rows(text, buffers, out.rows())
}

fn push_map(text: &mut Vec<u8>, round: u32, map: &Map) -> Result<(), NoMemory> {
    let mut body = [0; MAX_BODY_BYTES];
    let length = encode_into(map, &mut body);
    text.extend_from_slice(&round.to_be_bytes())?;
    text.extend_from_slice(&(length as u16).to_be_bytes())?;
    text.extend_from_slice(&body[..length])?;
    Ok(())
}
