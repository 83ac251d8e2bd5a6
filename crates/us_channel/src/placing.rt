ghost use Rattle.std.specs.Prelude.{◌≡◌, ◌+◌, ◌-◌, ◌*◌, ◌^◌, ◌<◌, ◌≤◌, true, length, IfSome, option_map};
ghost use Rattle.us_slots.specs.Bursts as bursts_spec;
ghost use Rattle.us_slots.specs.Times.{minislot_ticks};
ghost use Rattle.us_holes.specs.Boards.{fits, max_assignments};
ghost use Rattle.us_holes.specs.Placements.{HasNoRoom};
ghost use Rattle.us_channel.specs.Placements as spec;

use crate::assigning::assign;
use std::marker::Model;
use us_holes::{Board, Owner, Placed};
use us_slots::{BurstSet, MAX_BURST_BYTES, MAX_MAP_TICKS, capacity, grant_cost};
use us_split::{Claim, Claimant};

/// A claim that was placed.
#[derive(Clone, Copy)]
pub struct PlacedClaim {
    /// Whose it is.
    pub claimant: Claimant,
    /// The offset of its first minislot.
    pub start: u32,
    /// How many minislots it has.
    pub slots: u32,
    /// The SID, and a short or a long data grant.
    pub owner: Owner,
    /// The bytes that it credits, without the header.
    pub credit: u32,
}

impl Model for PlacedClaim {
    ghost Value = { spec.PlacedClaim };

    ghost view = { λ g. record {
      claimant = g.claimant;
      assignment = record { start = g.start; slots = g.slots; owner = g.owner };
      credit = g.credit;
    } };

    ghost inverse = { λ g. record {
      claimant = g.claimant;
      start = g.assignment.start;
      slots = g.assignment.slots;
      owner = g.assignment.owner;
      credit = g.credit;
    } };
}

impl PlacedClaim {
    /// The number of its cluster's word.
    pub fn cluster(self) -> usize
        ensures { result ≡ self.claimant.cluster }
    {
        usize::from(self.claimant.cluster)
    }

    /// The place of its flow.
    pub fn place(self) -> usize
        ensures { result ≡ self.claimant.place }
    {
        usize::from(self.claimant.place)
    }

    /// The bytes that it credits, without the header.
    pub fn credit(self) -> u32
        ensures { result ≡ self.credit }
    {
        self.credit
    }
}

/// Where a grant starts, and the bytes that it credits.
#[derive(Clone, Copy)]
struct Spot {
    start: u32,
    credit: u32,
}

impl Model for Spot {
    ghost Value = { spec.Spot };

    ghost view = { λ s. record { start = s.start; credit = s.credit } };

    ghost inverse = { λ s. record { start = s.start; credit = s.credit } };
}

/// Grants a claim: its whole share at the earliest start where that fits, else at the start of the first longest idle
/// run as much as that carries; `None` where neither is to be had, or the board is full. It needs no memory.
pub(crate) fn place(board: &mut Board, bursts: &BurstSet, claim: &Claim) -> Option<PlacedClaim>
    requires sid { claim.now.sid < 2 ^ 14 }
    requires some { 1 ≤ claim.now.share }
    requires minislots { 1 ≤ claim.now.slots }
    requires slots { claim.now.slots ≡ (bursts_spec.grant_cost bursts.now (claim.now.share + claim.now.header)).0 }
    requires iuc { claim.now.iuc ≡ (bursts_spec.grant_cost bursts.now (claim.now.share + claim.now.header)).1 }
    requires ticks { length board.old.cells * minislot_ticks bursts.now.time ≤ MAX_MAP_TICKS }
    ensures grant { result ≡ spec.grant_of bursts.now board.old claim.now }
    ensures board { board.new ≡ spec.with_grant board.old (spec.grant_of bursts.now board.old claim.now) }

    // At least a byte is credited and no more than the share, inside the MAP, whose length stays.
    ensures len { length board.new.cells ≡ length board.old.cells }
    ensures some { IfSome result (λ grant. 1 ≤ grant.credit) }
    ensures few { IfSome result (λ grant. grant.credit ≤ claim.now.share) }
    ensures inside { IfSome result (λ grant. grant.assignment.start < length board.old.cells) }

    // It is one more assignment.
    ensures one { IfSome result (λ _. board.old.standing < max_assignments) }
{
    let owner = Owner::new(claim.sid, claim.iuc);
    match board.place_earliest(0, board.len() - 1, claim.slots, owner) {
        Placed::At(start, slots) => Some(PlacedClaim {
            claimant: claim.claimant,
            start,
            slots,
            owner,
            credit: claim.share,
        }),
        Placed::Full => None,
        Placed::NoRoom => place_part(board, bursts, claim),
    }
}

/// Grants what the first longest idle run carries, where the whole share has no room.
fn place_part(board: &mut Board, bursts: &BurstSet, claim: &Claim) -> Option<PlacedClaim>
    requires sid { claim.now.sid < 2 ^ 14 }
    requires ticks { length board.old.cells * minislot_ticks bursts.now.time ≤ MAX_MAP_TICKS }
    requires room { HasNoRoom board.old 0 (length board.old.cells - 1)
        (bursts_spec.grant_cost bursts.now (claim.now.share + claim.now.header)).0 }
    ensures grant { result ≡ option_map (spec.grant_at bursts.now claim.now) (spec.part_spot bursts.now claim.now.header board.old) }
    ensures board { board.new ≡ spec.with_grant board.old (option_map (spec.grant_at bursts.now claim.now) (spec.part_spot bursts.now claim.now.header board.old)) }
    ensures len { length board.new.cells ≡ length board.old.cells }
    ensures some { IfSome result (λ grant. 1 ≤ grant.credit) }
    ensures few { IfSome result (λ grant. grant.credit ≤ claim.now.share) }
    ensures inside { IfSome result (λ grant. grant.assignment.start < length board.old.cells) }
{
    let spot = carried(board, bursts, claim)?;
    let (slots, iuc) = grant_cost(bursts, spot.credit + u32::from(claim.header));
    let owner = Owner::new(claim.sid, iuc);
    assign(board, spot.start, slots, owner);
    Some(PlacedClaim {
        claimant: claim.claimant,
        start: spot.start,
        slots,
        owner,
        credit: spot.credit,
    })
}

/// What the first longest idle run carries behind a header, if that is a byte at least.
fn carried(board: &Board, bursts: &BurstSet, claim: &Claim) -> Option<Spot>
    requires ticks { length board.now.cells * minislot_ticks bursts.now.time ≤ MAX_MAP_TICKS }
    requires room { HasNoRoom board.now 0 (length board.now.cells - 1)
        (bursts_spec.grant_cost bursts.now (claim.now.share + claim.now.header)).0 }
    ensures value { result ≡ spec.part_spot bursts.now claim.now.header board.now }
    ensures some { IfSome result (λ spot. 1 ≤ spot.credit) }
    ensures few { IfSome result (λ spot. spot.credit ≤ claim.now.share) }
    ensures bytes { IfSome result (λ spot. spot.credit + claim.now.header ≤ MAX_BURST_BYTES) }
    ensures inside { IfSome result (λ spot. spot.start < length board.now.cells) }
    ensures fits { IfSome result (λ spot.
        fits board.now (bursts_spec.grant_cost bursts.now (spot.credit + claim.now.header)).0 spot.start ≡ true) }
{
    let (start, slots) = board.longest()?;
    let credit = capacity(bursts.time(), bursts.long(), slots).saturating_sub(u32::from(
        claim.header,
    ));
    if credit == 0 {
        None
    } else {
        Some(Spot { start, credit })
    }
}
