ghost use Rattle.std.specs.Prelude.{◌≤◌};

use super::base::{Told, Wish, is_told, place, same};
use crate::Board;
use crate::Placed::{At, NoRoom};
use std::alloc::Global;

/// A wish, and what the board tells after it.
type Row = (Wish, Told<'static>);

/// How many rows hold, one after another, on a board of so many minislots.
fn rows_told(alloc: Global, len: u32, rows: &[Row]) -> usize
    requires { (1 ≤ len) × (len ≤ 4096) }
{
    let Ok(mut board) = Board::new(alloc, len) else {
        return 0;
    };
    for (i, (wish, wanted)) in rows.iter().enumerate() {
        let answer = place(&mut board, *wish);
        if !is_told(alloc, &board, answer, wanted) {
            return i;
        }
    }
    rows.len()
}

/// A contention reserve, a grant that is too long, and one that leaves no minislot.
static RESERVE: [Row; 3] = [
    (
        ((150, 150), 10, 16_383),
        (
            At(150, 10),
            150,
            Some((0, 150)),
            &[(0, 150, None), (150, 10, Some(16_383))],
        ),
    ),
    (
        ((0, 159), 151, 291),
        (
            NoRoom,
            150,
            Some((0, 150)),
            &[(0, 150, None), (150, 10, Some(16_383))],
        ),
    ),
    (
        ((0, 159), 150, 291),
        (
            At(0, 150),
            0,
            None,
            &[(0, 150, Some(291)), (150, 10, Some(16_383))],
        ),
    ),
];

/// The earliest start counts, and a window ends what is looked for, also where there is room before or behind it.
/// Assignments of one owner stay two runs side by side.
static TURNS: [Row; 8] = [
    (
        ((6, 7), 2, 1),
        (At(6, 2), 6, Some((0, 6)), &[(0, 6, None), (6, 2, Some(1))]),
    ),
    (
        ((1, 7), 2, 2),
        (
            At(1, 2),
            4,
            Some((3, 3)),
            &[(0, 1, None), (1, 2, Some(2)), (3, 3, None), (6, 2, Some(1))],
        ),
    ),
    (
        ((2, 4), 4, 3),
        (
            NoRoom,
            4,
            Some((3, 3)),
            &[(0, 1, None), (1, 2, Some(2)), (3, 3, None), (6, 2, Some(1))],
        ),
    ),
    (
        ((5, 7), 2, 4),
        (
            NoRoom,
            4,
            Some((3, 3)),
            &[(0, 1, None), (1, 2, Some(2)), (3, 3, None), (6, 2, Some(1))],
        ),
    ),
    (
        ((0, 7), 2, 2),
        (
            At(3, 2),
            2,
            Some((0, 1)),
            &[
                (0, 1, None),
                (1, 2, Some(2)),
                (3, 2, Some(2)),
                (5, 1, None),
                (6, 2, Some(1)),
            ],
        ),
    ),
    (
        ((0, 7), 3, 5),
        (
            NoRoom,
            2,
            Some((0, 1)),
            &[
                (0, 1, None),
                (1, 2, Some(2)),
                (3, 2, Some(2)),
                (5, 1, None),
                (6, 2, Some(1)),
            ],
        ),
    ),
    (
        ((7, 7), 1, 6),
        (
            NoRoom,
            2,
            Some((0, 1)),
            &[
                (0, 1, None),
                (1, 2, Some(2)),
                (3, 2, Some(2)),
                (5, 1, None),
                (6, 2, Some(1)),
            ],
        ),
    ),
    (
        ((0, 4), 1, 7),
        (
            At(0, 1),
            1,
            Some((5, 1)),
            &[
                (0, 1, Some(7)),
                (1, 2, Some(2)),
                (3, 2, Some(2)),
                (5, 1, None),
                (6, 2, Some(1)),
            ],
        ),
    ),
];

/// As many minislots as there are, one more, and as many as any number.
static LONGEST: [Row; 3] = [
    (
        ((0, 4_095), 4_097, 1),
        (NoRoom, 4_096, Some((0, 4_096)), &[(0, 4_096, None)]),
    ),
    (
        ((4_095, 4_095), 4_294_967_295, 1),
        (NoRoom, 4_096, Some((0, 4_096)), &[(0, 4_096, None)]),
    ),
    (
        ((0, 4_095), 4_096, 1),
        (At(0, 4_096), 0, None, &[(0, 4_096, Some(1))]),
    ),
];

#[test]
fn worked_boards(rt: HostRuntime) {
    same(&rt, rows_told(rt.alloc(), 160, &RESERVE), 3);
    same(&rt, rows_told(rt.alloc(), 8, &TURNS), 8);
    same(&rt, rows_told(rt.alloc(), 4_096, &LONGEST), 3);
}
