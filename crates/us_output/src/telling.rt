ghost use Rattle.std.specs.Prelude.{◌≡◌, ◌++◌, length, flat_map, IfSome, OnOk};
ghost use Rattle.std.specs.List.{AllByRecursion};
ghost use Rattle.us_output.specs.Leftovers.{AreInside};
ghost use Rattle.us_output.specs.Lines.{HasFields};
ghost use Rattle.us_output.specs.Orders.{each_made, missed_of, ordered_spots, row_at, rows_at, settled_grant, settled_missed};
ghost use Rattle.us_output.specs.Outputs.{rows_on};

use crate::orders::{LineOrder, Spot, grant_row, order_lines, settled_row};
use crate::sinks::LineSink;
use us_calendar::Settled;
use us_channel::{ChannelRound, PlacedClaim};
use us_flows::Channel;
use us_slots::NoMemory;

/// Tells the lines of a channel, each once: those of grants by their start, then those of what was missed. In `order` are left
/// the spots of its G lines.
pub(crate) fn tell_lines<S: LineSink>(
    sink: &mut S,
    order: &mut LineOrder,
    round: u32,
    part: &ChannelRound,
) -> Result<(), NoMemory>
    ensures ordered { OnOk result (AreInside part.now → order.new.spots.items ≡ ordered_spots part.now) }
    ensures lines { OnOk result
        (AreInside part.now → S.taken sink.new ≡ S.taken sink.old ++ flat_map S.made (rows_on round part.now)) }
    ensures fields { OnOk result (AreInside part.now → AllByRecursion HasFields (rows_on round part.now)) }
{
    order_lines(order, part)?;
    tell_spots(
        sink,
        round,
        part.channel(),
        part.settled(),
        part.grants(),
        &order.spots,
    )?;
    tell_missed(sink, round, part, order.spots.len())?;
    Ok(())
}

/// Tells the lines at some spots.
fn tell_spots<S: LineSink>(
    sink: &mut S,
    round: u32,
    channel: &Channel,
    settled: &[Settled],
    grants: &[PlacedClaim],
    spots: &[Spot],
) -> Result<(), NoMemory>
    ensures lines { OnOk result (S.taken sink.new ≡ S.taken sink.old ++
        flat_map S.made (rows_at round channel.now settled.now grants.now spots.now)) }
    ensures fields { OnOk result
        (AllByRecursion HasFields (rows_at round channel.now settled.now grants.now spots.now)) }
{
    for spot in spots {
        tell_spot(sink, round, channel, settled, grants, *spot)?;
    }
    Ok(())
}

/// Tells the line at a spot, if there is one.
#[inline(always)]
fn tell_spot<S: LineSink>(
    sink: &mut S,
    round: u32,
    channel: &Channel,
    settled: &[Settled],
    grants: &[PlacedClaim],
    spot: Spot,
) -> Result<(), NoMemory>
    ensures lines { OnOk result (S.taken sink.new ≡
        S.taken sink.old ++ each_made S.made (row_at round channel.now settled.now grants.now spot)) }
    ensures fields { OnOk result (IfSome (row_at round channel.now settled.now grants.now spot) HasFields) }
{
    match settled.get(spot.at) {
        Some(one) => tell_one_granted(sink, round, channel, one),
        None => match grants.get(spot.at - settled.len()) {
            Some(placed) => sink.line(grant_row(round, channel, *placed)),
            None => Ok(()),
        },
    }
}

/// Tells the G line of what a calendar settled, if it was granted.
#[inline(always)]
fn tell_one_granted<S: LineSink>(
    sink: &mut S,
    round: u32,
    channel: &Channel,
    settled: &Settled,
) -> Result<(), NoMemory>
    ensures lines { OnOk result
        (S.taken sink.new ≡ S.taken sink.old ++ each_made S.made (settled_grant round channel.now settled.now)) }
    ensures fields { OnOk result (IfSome (settled_grant round channel.now settled.now) HasFields) }
{
    match settled {
        Settled::Granted { .. } => sink.line(settled_row(round, channel, *settled)),
        Settled::Missed { .. } => Ok(()),
    }
}

/// Tells the M lines of a channel that has so many G lines. Where these are all that was settled and granted nothing was
/// missed, and no M line is looked for.
fn tell_missed<S: LineSink>(
    sink: &mut S,
    round: u32,
    part: &ChannelRound,
    granted: usize,
) -> Result<(), NoMemory>
    ensures lines { OnOk result (AreInside part.now → granted ≡ length (ordered_spots part.now) →
        S.taken sink.new ≡ S.taken sink.old ++ flat_map S.made (missed_of round part.now.channel part.now.settled)) }
    ensures fields { OnOk result (AreInside part.now → granted ≡ length (ordered_spots part.now) →
        AllByRecursion HasFields (missed_of round part.now.channel part.now.settled)) }
{
    let settled = part.settled();
    if granted == settled.len() + part.grants().len() {
        return Ok(());
    }
    tell_all_missed(sink, round, part.channel(), settled)
}

/// Tells the M lines of what a calendar settled.
fn tell_all_missed<S: LineSink>(
    sink: &mut S,
    round: u32,
    channel: &Channel,
    settled: &[Settled],
) -> Result<(), NoMemory>
    ensures lines { OnOk result
        (S.taken sink.new ≡ S.taken sink.old ++ flat_map S.made (missed_of round channel.now settled.now)) }
    ensures fields { OnOk result (AllByRecursion HasFields (missed_of round channel.now settled.now)) }
{
    for one in settled {
        tell_one_missed(sink, round, channel, one)?;
    }
    Ok(())
}

/// Tells the M line of what a calendar settled, if it was missed.
#[inline(always)]
fn tell_one_missed<S: LineSink>(
    sink: &mut S,
    round: u32,
    channel: &Channel,
    settled: &Settled,
) -> Result<(), NoMemory>
    ensures lines { OnOk result
        (S.taken sink.new ≡ S.taken sink.old ++ each_made S.made (settled_missed round channel.now settled.now)) }
    ensures fields { OnOk result (IfSome (settled_missed round channel.now settled.now) HasFields) }
{
    match settled {
        Settled::Missed { .. } => sink.line(settled_row(round, channel, *settled)),
        Settled::Granted { .. } => Ok(()),
    }
}
