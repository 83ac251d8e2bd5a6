ghost use Rattle.std.specs.Prelude.{◌≡◌, ◌<◌, ◌≤◌, length, vec_capacity};
ghost use Rattle.us_holes.specs.Boards as spec;
ghost use Rattle.us_holes.specs.Lists as lists;
ghost use Rattle.us_holes.specs.Runs as runs;

use crate::assignments::Assignment;
use crate::holes::{self, Hole};
use crate::placed::Assignments;
use crate::rank_keys::RankKey;
use crate::ranks;

/// Adds an assignment that takes its minislots from the hole at a place. It needs no memory.
pub(crate) fn assign(
    assigned: &mut Assignments,
    holes: &mut Vec<Hole>,
    ranked: &mut Vec<RankKey>,
    place: usize,
    one: Assignment,
)
    requires few { length assigned.old < spec.max_assignments }
    requires holes { length holes.old.items ≤ spec.max_assignments }
    requires by_rank { ranked.old.items ≡ lists.rank holes.old.items }
    requires order { runs.InOrder 0 (lists.put one assigned.old) spec.max_minislots }
    requires some { 1 ≤ one.slots }
    requires has { lists.HasAt holes.old.items place one.start one.slots }
    requires room { lists.HaveRoom (vec_capacity holes.old) (vec_capacity ranked.old) }
    ensures assigned { assigned.new ≡ lists.put one assigned.old }
    ensures holes { holes.new.items ≡ lists.narrowed_at place one.start one.slots holes.old.items }
    ensures by_rank { ranked.new.items ≡ lists.rank holes.new.items }
    ensures room { lists.HaveRoom (vec_capacity holes.new) (vec_capacity ranked.new) }
{
    let hole = holes[place];
    ranks::narrow(ranked, hole, one.start(), one.slots());
    holes::narrow(holes, place, hole, one.start(), one.slots());
    assigned.put(one);
}
