ghost use Rattle.std.specs.Prelude.{◌≡◌, ◌+◌, ◌≤◌, length};
ghost use Rattle.us_channel.specs.Reserves as spec;

use us_flows::Channel;
use us_holes::{Board, Owner};
use us_slots::Iuc;

/// The SID that addresses all modems (the standard's).
pub(crate) const BROADCAST: u16 = 0x3fff;

/// Clears a board for the MAP of a round, whose length it has, and puts the reserves on it: Initial Maintenance at the
/// start in each `maintenance_every`-th round, and contention at the end. It needs no memory.
#[tactic(auto, using(crate::proofs::ReserveLemmas::reserve_facts))]
pub(crate) fn reserves(board: &mut Board, channel: &Channel, round: u32)
    requires every { 1 ≤ channel.now.maintenance_every }
    requires room { channel.now.maintenance_minislots + channel.now.contention_minislots ≤ length board.old.cells }
    ensures board { board.new ≡ spec.reserves channel.now (length board.old.cells) round }
    ensures len { length board.new.cells ≡ length board.old.cells }
{
    board.reserve_ends(
        maintenance_in(channel, round),
        Owner::new(BROADCAST, Iuc::initial_maintenance()),
        u32::from(channel.contention_minislots),
        Owner::new(BROADCAST, Iuc::request()),
    );
}

/// How many minislots the Initial Maintenance of a round has.
fn maintenance_in(channel: &Channel, round: u32) -> u32
    requires { 1 ≤ channel.now.maintenance_every }
    ensures value { result ≡ spec.maintenance_in channel.now round }
    ensures few { result ≤ channel.now.maintenance_minislots }
{
    if round % channel.maintenance_every == 0 {
        u32::from(channel.maintenance_minislots)
    } else {
        0
    }
}
