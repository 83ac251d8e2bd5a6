ghost use Rattle.std.specs.Prelude.{◌≡◌, ◌/◌, nat_lt};
ghost use Rattle.us_slots.specs.Times.{minislot_ticks};

use crate::channels::Channel;

/// The minislots of a channel's MAPs, where a round has so many ticks.
pub(crate) fn map_len(round_ticks: u32, channel: &Channel) -> u32
    ensures { result ≡ round_ticks / minislot_ticks channel.now.bursts.time }
{
    round_ticks / channel.bursts.time().minislot_ticks()
}

/// Whether so many minislots pass the length of a channel's MAPs.
pub(crate) fn is_too_long(round_ticks: u32, channel: &Channel, slots: u32) -> bool
    ensures { result ≡ nat_lt (round_ticks / minislot_ticks channel.now.bursts.time) slots }
{
    slots > map_len(round_ticks, channel)
}
