ghost use Rattle.std.specs.Prelude.{◌≡◌, ℕ, ◌+◌, ◌*◌, ◌<◌, ◌≤◌, length, map, zip, sum, slice_index, OnOk};
ghost use Rattle.std.specs.Bool.{OnTrue};
ghost use Rattle.std.specs.List.{All, AllByRecursion};
ghost use Rattle.us_slots.specs.Times.{minislot_ticks};
ghost use Rattle.us_flows.specs.Ranges.{max_channels_of_flow, max_round_ticks};
ghost use Rattle.us_flows.specs.Tables.{segment_header_bytes};
ghost use Rattle.us_split.specs.Plans.{max_burst_bytes};
ghost use Rattle.us_split.specs.PartialPlans.{IsFull, returned, taken, with_share};
ghost use Rattle.us_split.specs.TurnRows.{changed, cleared, put_from, returned_at, taken_at, weight_at};

use crate::channel_plans::{Asker, ChannelPlan};
use crate::turn_rows::Seat;
use us_slots::NoMemory;

/// Gives the claims of all channels up, and has so many minislots of each.
pub(crate) fn clear_all(channels: &mut [ChannelPlan], idle: &[u32])
    requires one_each { length idle.now ≡ length channels.old }
    requires within { AllByRecursion (λ pair. pair.1 * minislot_ticks pair.0.channel.bursts.time ≤ max_round_ticks)
        (zip channels.old idle.now) }
    ensures { channels.new ≡ cleared channels.old idle.now }
{
    for place in 0..idle.len() {
        channels[place].clear(idle[place]);
    }
}

/// The most bytes that the channel at this place can carry behind a header.
fn weight_of(channels: &[ChannelPlan], place: usize, header: u32) -> u32
    requires place { place < length channels.now }
    requires header { header ≤ segment_header_bytes }
    ensures value { result ≡ weight_at header channels.now place }
    ensures burst { result + header ≤ max_burst_bytes }
{
    channels[place].weight(header)
}

/// Writes the most bytes that the channels at these seats can carry behind a header, and answers all of them together.
#[tactic(auto, using(crate::proofs::DivisionLemmas::sum_more))]
pub(crate) fn weigh_at(
    channels: &[ChannelPlan],
    seats: &[Seat],
    header: u32,
    weights: &mut [u32],
) -> u64
    requires inside { AllByRecursion (λ seat. seat.place < length channels.now) seats.now }
    requires few { length seats.now ≤ max_channels_of_flow }
    requires same_length { length weights.old ≡ length seats.now }
    requires header { header ≤ segment_header_bytes }
    ensures value { weights.new ≡ map (λ seat. weight_at header channels.now seat.place) seats.now }
    ensures bursts { (k : ℕ) → slice_index weights.new k + header ≤ max_burst_bytes }
    ensures total { result ≡ sum weights.new }
{
    let mut total = 0;
    for i in 0..seats.len() {
        let weight = weight_of(channels, usize::from(seats[i].place), header);
        weights[i] = weight;
        total += u64::from(weight);
    }
    total
}

/// Whether no channel carries a byte: then no turn gets one.
pub(crate) fn are_full(channels: &[ChannelPlan]) -> bool
    ensures { OnTrue result (All IsFull channels.now) }
{
    channels.iter().all(|channel| channel.is_full())
}

/// Claims a share on the channel at this place, if it is above 0.
fn put_one(
    channels: &mut [ChannelPlan],
    asker: Asker,
    position: u8,
    seat: Seat,
    share: u32,
) -> Result<(), NoMemory>
    requires inside { seat.place < length channels.old }
    requires burst { share + asker.header ≤ max_burst_bytes }
    ensures share { OnOk result (channels.new ≡
        changed (with_share asker position seat.sid share) channels.old seat.place) }
    ensures kept { map (λ c. c.channel) channels.new ≡ map (λ c. c.channel) channels.old }
{
    if share == 0 {
        return Ok(());
    }
    channels[usize::from(seat.place)].claim(asker, position, seat.sid, share)?;
    Ok(())
}

/// Claims shares at these seats, one after another.
#[inline(always)]
pub(crate) fn put_all(
    channels: &mut [ChannelPlan],
    asker: Asker,
    seats: &[Seat],
    shares: &[u32],
) -> Result<(), NoMemory>
    requires inside { AllByRecursion (λ seat. seat.place < length channels.old) seats.now }
    requires few { length seats.now ≤ max_channels_of_flow }
    requires one_each { length shares.now ≡ length seats.now }
    requires bursts { (k : ℕ) → slice_index shares.now k + asker.header ≤ max_burst_bytes }
    ensures shares { OnOk result (channels.new ≡ put_from asker 0 seats.now shares.now channels.old) }
    ensures kept { map (λ c. c.channel) channels.new ≡ map (λ c. c.channel) channels.old }
{
    for i in 0..seats.len() {
        put_one(channels, asker, i as u8, seats[i], shares[i])?;
    }
    Ok(())
}

/// Takes off what a share costs on the channel at this seat, and claims nothing.
fn take_one(channels: &mut [ChannelPlan], header: u8, seat: Seat, share: u32)
    requires inside { seat.place < length channels.old }
    requires burst { share + header ≤ max_burst_bytes }
    ensures share { channels.new ≡ changed (taken header share) channels.old seat.place }
    ensures kept { map (λ c. c.channel) channels.new ≡ map (λ c. c.channel) channels.old }
{
    channels[usize::from(seat.place)].take(header, share);
}

/// Takes off what shares cost at these seats, one after another.
pub(crate) fn take_all(channels: &mut [ChannelPlan], header: u8, seats: &[Seat], shares: &[u32])
    requires inside { AllByRecursion (λ seat. seat.place < length channels.old) seats.now }
    requires one_each { length shares.now ≡ length seats.now }
    requires bursts { (k : ℕ) → slice_index shares.now k + header ≤ max_burst_bytes }
    ensures shares { channels.new ≡ taken_at header shares.now seats.now channels.old }
    ensures kept { map (λ c. c.channel) channels.new ≡ map (λ c. c.channel) channels.old }
{
    for i in 0..seats.len() {
        take_one(channels, header, seats[i], shares[i]);
    }
}

/// Gives back what a share cost on the channel at this seat.
fn give_back_one(channels: &mut [ChannelPlan], header: u8, seat: Seat, share: u32)
    requires inside { seat.place < length channels.old }
    requires burst { share + header ≤ max_burst_bytes }
    ensures share { channels.new ≡ changed (returned header share) channels.old seat.place }
    ensures kept { map (λ c. c.channel) channels.new ≡ map (λ c. c.channel) channels.old }
{
    channels[usize::from(seat.place)].give_back(header, share);
}

/// Gives back what shares cost at these seats, one after another.
pub(crate) fn give_back_all(
    channels: &mut [ChannelPlan],
    header: u8,
    seats: &[Seat],
    shares: &[u32],
)
    requires inside { AllByRecursion (λ seat. seat.place < length channels.old) seats.now }
    requires one_each { length shares.now ≡ length seats.now }
    requires bursts { (k : ℕ) → slice_index shares.now k + header ≤ max_burst_bytes }
    ensures shares { channels.new ≡ returned_at header shares.now seats.now channels.old }
    ensures kept { map (λ c. c.channel) channels.new ≡ map (λ c. c.channel) channels.old }
{
    for i in 0..seats.len() {
        give_back_one(channels, header, seats[i], shares[i]);
    }
}
