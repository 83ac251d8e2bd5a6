ghost use Rattle.std.specs.Prelude.{◌≡◌, ◌≤◌};
ghost use Rattle.std.specs.List.{AllByRecursion};
ghost use Rattle.us_flows.specs.Tables.{max_run_ticks};
ghost use Rattle.us_output.specs.Leftovers.{AreInside, IsBuiltFor};

use super::base::built_of;
use super::texts::{push_plain, texts_alike};
use crate::{
    ChannelWithText, PendingSid, TextBuffers, activity_rows, final_rows, out_by, push_rows,
    round_out,
};
use std::alloc::Global;
use std::slice::from_ref;
use us_bucket::Bucket;
use us_flows::Config;
use us_slots::NoMemory;

/// The bytes that are outstanding of each cluster before the round, and after it.
const OUTSTANDING: [u64; 3] = [1_000, 2_500, 5];

const LEFT: [u64; 3] = [0, 500, 5];

/// What is told of each flow's activity: the second one is silent.
const TOLD: [Option<bool>; 3] = [None, Some(false), None];

/// The record of the MAP. A minislot has 32 bytes, and a grant 16 of them beside its own. The unsolicited grant is put in
/// between the two that the calendar left room for. The third cluster alone has as many bytes left as before, and is pending.
static RECORD: [u8; 54] = [
    0x00, 0x00, 0x00, 0x00, 0x00, 0x30, 0x01, 0x00, 0x08, 0x00, 0x00, 0x00, 0x00, 0x00, 0x00, 0x00,
    0x00, 0x00, 0x02, 0x06, 0x03, 0x08, 0x04, 0x8e, 0x80, 0x00, 0xff, 0xfc, 0x40, 0x20, 0x08, 0x06,
    0xc0, 0x46, 0x04, 0x92, 0x80, 0x47, 0xff, 0xfc, 0x40, 0x86, 0xff, 0xfc, 0x40, 0x96, 0x00, 0x01,
    0xc0, 0xa0, 0x04, 0x96, 0x80, 0xa0,
];

/// The lines. The unsolicited grant that found its minislot taken is missed.
static LINES: &str = "\
G,0,1,req,1,0,0,291,10,0,32,1000
G,0,1,ugs,2,0,0,513,11,70,1,0
G,0,1,req,1,1,0,292,10,71,63,2000
M,0,1,ugs,2,0,1
F,1,0,0,-
F,1,1,500,-
F,3,0,5,1948160000
A,2,0
";

/// Whether round 0 comes out right in each way: as values, as texts, and as texts of which the channel's was written ahead.
/// The fault is want of memory, or that the round may not be made.
pub(super) fn is_round_told(alloc: Global, config: &Config) -> Result<bool, NoMemory> {
    let mut built = built_of(alloc, config)?;
    is_told(alloc, config, &mut built)
}

fn is_told(alloc: Global, config: &Config, built: &mut ChannelWithText) -> Result<bool, NoMemory>
    requires built { IsBuiltFor config.now built.old }
    requires inside { AreInside built.old }
    requires time { config.now.round_ticks ≤ max_run_ticks }
{
    let values = is_worked(alloc, config, from_ref(built))?;
    let texts = is_alike(alloc, config, from_ref(built))?;
    built.write_ahead(0)?;
    let copied = is_alike(alloc, config, from_ref(built))?;
    Ok(values && texts && copied && built.ahead(0).is_some() && built.ahead(1).is_none())
}

/// Whether the channels give that record and those lines.
fn is_worked(alloc: Global, config: &Config, channels: &[ChannelWithText]) -> Result<bool, NoMemory>
    requires built { AllByRecursion (IsBuiltFor config.now) channels.now }
    requires inside { AllByRecursion AreInside channels.now }
    requires time { config.now.round_ticks ≤ max_run_ticks }
{
    let mut text = Vec::new(alloc);
    push_worked(alloc, &mut text, config, channels)?;
    Ok(is_in_two(&text, &RECORD, LINES.as_bytes()))
}

/// Whether a text is one part and behind it another.
fn is_in_two(text: &[u8], one: &[u8], other: &[u8]) -> bool {
    let at = one.len();
    at <= text.len() && &text[..at] == one && &text[at..] == other
}

/// Adds what the round gives as values, and the final lines.
fn push_worked(
    alloc: Global,
    text: &mut Vec<u8>,
    config: &Config,
    channels: &[ChannelWithText],
) -> Result<(), NoMemory>
    requires built { AllByRecursion (IsBuiltFor config.now) channels.now }
    requires inside { AllByRecursion AreInside channels.now }
    requires time { config.now.round_ticks ≤ max_run_ticks }
{
    let mut buffers = TextBuffers::new(alloc);
    let out = round_out(alloc, config, 0, &OUTSTANDING, &LEFT, channels)?;
    push_plain(text, &mut buffers, &out)?;
    push_ends(alloc, text, &mut buffers, config)
}

/// Adds the final lines.
fn push_ends(
    alloc: Global,
    text: &mut Vec<u8>,
    buffers: &mut TextBuffers,
    config: &Config,
) -> Result<(), NoMemory> {
    let buckets = full_buckets(alloc, config)?;
    push_rows(text, buffers, &final_rows(alloc, config, &LEFT, &buckets)?)?;
    push_activity(alloc, text, buffers, config)
}

/// A bucket of each flow, which is full.
fn full_buckets(alloc: Global, config: &Config) -> Result<Vec<Bucket>, NoMemory> {
    let mut buckets = Vec::new(alloc);
    for flow in config.flows() {
        buckets.push(Bucket::full(flow.rate(), flow.burst()))?;
    }
    Ok(buckets)
}

fn push_activity(
    alloc: Global,
    text: &mut Vec<u8>,
    buffers: &mut TextBuffers,
    config: &Config,
) -> Result<(), NoMemory> {
    push_rows(text, buffers, &activity_rows(alloc, config, &TOLD)?)
}

/// Whether the channels have the same texts straight and by the plain writer, where more SIDs are pending than a MAP lists.
fn is_alike(alloc: Global, config: &Config, channels: &[ChannelWithText]) -> Result<bool, NoMemory>
    requires built { AllByRecursion (IsBuiltFor config.now) channels.now }
    requires inside { AllByRecursion AreInside channels.now }
    requires time { config.now.round_ticks ≤ max_run_ticks }
{
    let pendings = pendings();
    let out = out_by(alloc, config, 0, channels, &pendings)?;
    texts_alike(alloc, config, channels, &pendings, &out)
}

/// 40 SIDs that are pending on channel 1, and as many on channel 2 among them.
fn pendings() -> [PendingSid; 80] {
    let mut pendings = [PendingSid::new(1, 1); 80];
    for (place, pending) in pendings.iter_mut().enumerate() {
        let channel = if place % 2 == 0 { 1 } else { 2 };
        *pending = PendingSid::new(channel, 1 + (place / 2) as u16);
    }
    pendings
}
