ghost use Rattle.std.specs.Prelude.{◌≡◌, ◌≤◌, true, length};
ghost use Rattle.us_holes.specs.Boards as spec;

use us_holes::{Board, Owner, Placed};

/// Assigns the `slots` minislots from `start` on to `owner`, where they fit.
pub(crate) fn assign(board: &mut Board, start: u32, slots: u32, owner: Owner)
    requires some { 1 ≤ slots }
    requires fits { spec.fits board.old slots start ≡ true }
    ensures board { board.new ≡ spec.assign board.old start slots owner }
    ensures len { length board.new.cells ≡ length board.old.cells }
{
    match board.place_earliest(start, start, slots, owner) {
        Placed::At(_, _) => {}
        Placed::Full | Placed::NoRoom => unreachable!(),
    }
}
