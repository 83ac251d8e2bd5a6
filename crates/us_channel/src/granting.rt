ghost use Rattle.std.specs.Prelude.{◌≡◌, ◌*◌, ◌++◌, ◌≤◌, [], length, option_to_list, vec_capacity, vec_len};
ghost use Rattle.std.specs.List.{AllByRecursion};
ghost use Rattle.us_slots.specs.Times.{minislot_ticks};
ghost use Rattle.us_holes.specs.Boards.{assign_all, max_assignments};
ghost use Rattle.us_split.specs.Claims.{IsClaimOn};
ghost use Rattle.us_channel.specs.Placements.{grant_of, grants_of, assignments, with_grant};

use crate::placing::{PlacedClaim, place};
use us_flows::Channel;
use us_holes::Board;
use us_slots::MAX_MAP_TICKS;
use us_split::Claim;

/// Grants claims on a channel, one after another. The list, which has room for as many grants as a MAP has assignments,
/// gets these in place of what it had. Where nothing is claimed, nothing is called.
#[inline(always)]
pub(crate) fn grant_all(
    channel: &Channel,
    claims: &[Claim],
    board: &mut Board,
    grants: &mut Vec<PlacedClaim>,
)
    requires claims { AllByRecursion (IsClaimOn channel.now) claims.now }
    requires ticks { length board.old.cells * minislot_ticks channel.now.bursts.time ≤ MAX_MAP_TICKS }
    requires room { max_assignments ≤ vec_capacity grants.old }
    ensures grants { grants.new.items ≡ grants_of channel.now.bursts board.old claims.now }
    ensures board { board.new ≡ assign_all board.old (assignments (grants_of channel.now.bursts board.old claims.now)) }
    ensures len { length board.new.cells ≡ length board.old.cells }
    ensures room { max_assignments ≤ vec_capacity grants.new }
{
    grants.clear();
    if !claims.is_empty() {
        grant_each(channel, claims, board, grants);
    }
}

/// Grants each of these claims, into a list that is empty.
#[inline(never)]
fn grant_each(channel: &Channel, claims: &[Claim], board: &mut Board, grants: &mut Vec<PlacedClaim>)
    requires claims { AllByRecursion (IsClaimOn channel.now) claims.now }
    requires ticks { length board.old.cells * minislot_ticks channel.now.bursts.time ≤ MAX_MAP_TICKS }
    requires none { grants.old.items ≡ [] }
    requires room { max_assignments ≤ vec_capacity grants.old }
    ensures grants { grants.new.items ≡ grants_of channel.now.bursts board.old claims.now }
    ensures board { board.new ≡ assign_all board.old (assignments (grants_of channel.now.bursts board.old claims.now)) }
    ensures len { length board.new.cells ≡ length board.old.cells }
    ensures room { max_assignments ≤ vec_capacity grants.new }
{
    for claim in claims {
        grant_one(channel, claim, board, grants);
    }
}

/// Grants a claim on a channel, if it has a place there. The grants so far are among the board's assignments, so there is
/// room for one more.
fn grant_one(channel: &Channel, claim: &Claim, board: &mut Board, grants: &mut Vec<PlacedClaim>)
    requires claim { IsClaimOn channel.now claim.now }
    requires ticks { length board.old.cells * minislot_ticks channel.now.bursts.time ≤ MAX_MAP_TICKS }
    requires among { vec_len grants.old ≤ board.old.standing }
    requires room { max_assignments ≤ vec_capacity grants.old }
    ensures grants { grants.new.items ≡
        grants.old.items ++ option_to_list (grant_of channel.now.bursts board.old claim.now) }
    ensures board { board.new ≡ with_grant board.old (grant_of channel.now.bursts board.old claim.now) }
    ensures len { length board.new.cells ≡ length board.old.cells }
    ensures among { vec_len grants.new ≤ board.new.standing }
    ensures room { max_assignments ≤ vec_capacity grants.new }
{
    if let Some(grant) = place(board, &channel.bursts, claim) {
        grants.push_reserved(grant);
    }
}
