ghost use Rattle.std.specs.Prelude.{◌≡◌, ℕ, ◌+◌, ◌<◌, ◌≤◌, length, map, replicate, take, slice_index, sum, List};
ghost use Rattle.std.specs.List.{AllByRecursion};
ghost use Rattle.us_flows.specs.Ranges.{max_channels_of_flow};
ghost use Rattle.us_flows.specs.Tables.{segment_header_bytes};
ghost use Rattle.us_split.specs.Divisions.{divided};
ghost use Rattle.us_slots.specs.Lists.{added};
ghost use Rattle.us_split.specs.Plans.{max_burst_bytes, minus};
ghost use Rattle.us_split.specs.TurnRows.{weight_at};

use crate::by_places::weigh_at;
use crate::channel_plans::ChannelPlan;
use crate::divisions::{MAX_CHANNELS_OF_FLOW, sum_of, top_up};
use crate::turn_rows::Seat;
use std::marker::Model;

/// Bytes for each channel of a flow, in the flow's order: what it can carry, or its share; and all of them together. It has
/// no memory of its own.
#[derive(Drop)]
pub(crate) struct Shares {
    bytes: [u32; MAX_CHANNELS_OF_FLOW],
    count: usize,
    total: u64,
}

impl Model for Shares {
    ghost Value = { List ℕ };

    ghost view = { λ shares. take shares.count shares.bytes };

    ghost invariant = { λ shares. (shares.count ≤ max_channels_of_flow)
        × (shares.total ≡ sum (take shares.count shares.bytes)) };
}

impl Shares {
    /// The bytes.
    pub(crate) fn bytes(&self) -> &[u32]
        ensures value { result.now ≡ self.now }
        ensures few { length self.now ≤ max_channels_of_flow }
    {
        &self.bytes[..self.count]
    }

    /// All of them together.
    pub(crate) fn total(&self) -> u64
        ensures { result ≡ sum self.now }
    {
        self.total
    }

    /// No bytes, for so many channels.
    pub(crate) fn none(count: usize) -> Shares
        requires { count ≤ max_channels_of_flow }
        ensures { result ≡ replicate count 0 }
    {
        Shares {
            bytes: [0; MAX_CHANNELS_OF_FLOW],
            count,
            total: 0,
        }
    }

    /// The first so many of these bytes.
    fn of(bytes: [u32; MAX_CHANNELS_OF_FLOW], count: usize) -> Shares
        requires { count ≤ max_channels_of_flow }
        ensures { result ≡ take count bytes }
    {
        let total = sum_of(&bytes[..count]);
        Shares {
            bytes,
            count,
            total,
        }
    }

    /// Has the bytes that the channels at these seats can carry behind a header.
    pub(crate) fn weigh(&mut self, channels: &[ChannelPlan], seats: &[Seat], header: u32)
        requires inside { AllByRecursion (λ seat. seat.place < length channels.now) seats.now }
        requires few { length seats.now ≤ max_channels_of_flow }
        requires header { header ≤ segment_header_bytes }
        ensures value { self.new ≡ map (λ seat. weight_at header channels.now seat.place) seats.now }
        ensures bursts { (k : ℕ) → slice_index self.new k + header ≤ max_burst_bytes }
    {
        let count = seats.len();
        self.total = weigh_at(channels, seats, header, &mut self.bytes[..count]);
        self.count = count;
    }

    /// Has so many bytes, divided over these weights.
    pub(crate) fn divide(&mut self, bytes: u64, weights: &Shares)
        requires bursts { AllByRecursion (λ weight. weight ≤ max_burst_bytes) weights.now }
        ensures value { self.new ≡ divided bytes weights.now }
    {
        if bytes >= weights.total {
            self.bytes = weights.bytes;
            self.count = weights.count;
            self.total = weights.total;
            return;
        }
        let all = weights.bytes();
        top_up(bytes, weights.total, all, &mut self.bytes[..all.len()]);
        self.count = all.len();
        self.total = bytes;
    }

    /// What is left of these bytes beside others, channel by channel.
    pub(crate) fn beside(&self, others: &Shares) -> Shares
        requires { length others.now ≡ length self.now }
        ensures { result ≡ minus self.now others.now }
    {
        let mut bytes = [0; MAX_CHANNELS_OF_FLOW];
        take_off(self.bytes(), others.bytes(), &mut bytes[..self.count]);
        Shares::of(bytes, self.count)
    }

    /// These bytes and others, channel by channel.
    pub(crate) fn with(&self, others: &Shares) -> Shares
        requires same_length { length others.now ≡ length self.now }
        requires few { (k : ℕ) → slice_index self.now k + slice_index others.now k ≤ max_burst_bytes }
        ensures { result ≡ added self.now others.now }
    {
        let mut bytes = [0; MAX_CHANNELS_OF_FLOW];
        add_up(self.bytes(), others.bytes(), &mut bytes[..self.count]);
        Shares::of(bytes, self.count)
    }
}

/// Writes numbers less others, place by place.
fn take_off(numbers: &[u32], others: &[u32], left: &mut [u32])
    requires others { length others.now ≡ length numbers.now }
    requires left { length left.old ≡ length numbers.now }
    ensures { left.new ≡ minus numbers.now others.now }
{
    for i in 0..numbers.len() {
        left[i] = numbers[i].saturating_sub(others[i]);
    }
}

/// Writes numbers and others together, place by place.
fn add_up(numbers: &[u32], others: &[u32], sums: &mut [u32])
    requires others { length others.now ≡ length numbers.now }
    requires sums { length sums.old ≡ length numbers.now }
    requires few { (k : ℕ) → slice_index numbers.now k + slice_index others.now k ≤ max_burst_bytes }
    ensures { sums.new ≡ added numbers.now others.now }
{
    for i in 0..numbers.len() {
        sums[i] = numbers[i] + others[i];
    }
}
