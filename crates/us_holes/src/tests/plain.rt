ghost use Rattle.std.specs.Prelude.{◌≤◌, ◌<◌};

use super::base::{Triple, Wish, is_told, place, same};
use crate::{Board, Owner, Placed};
use std::alloc::Global;
use us_slots::Iuc;

/// The minislots of a plain program, a list of owners: the number of the assignment that holds each, and 0 where it is
/// idle.
type Cells = [u32; 64];

/// The next number below a limit, of a fixed row of numbers that look random.
fn next(seed: &mut u32, below: u32) -> u32
    requires { 0 < below }
    ensures { result < below }
{
    *seed = seed.wrapping_mul(1_664_525).wrapping_add(1_013_904_223);
    (*seed >> 24) % below
}

/// The SID of the assignment of this number: of three, so that some stand beside one of their own.
fn sid_of(number: u32) -> u16 {
    match number % 3 {
        0 => 1,
        1 => 291,
        _ => 16_383,
    }
}

/// How many minislots from `start` on have this number.
fn same_from(cells: &Cells, start: u32, number: u32) -> u32 {
    let mut count = 0u32;
    for i in start as usize..64 {
        if cells[i] != number {
            return count;
        }
        count = count.saturating_add(1);
    }
    count
}

/// The first start of a wish's window with so many idle minislots behind it.
fn plain_start(cells: &Cells, wish: Wish) -> Option<u32> {
    let ((from, to), slots, _) = wish;
    for start in from..64 {
        if start <= to && same_from(cells, start, 0) >= slots {
            return Some(start);
        }
    }
    None
}

/// Gives minislots to the assignment of this number.
fn write(cells: &mut Cells, start: u32, slots: u32, number: u32) {
    for (i, cell) in cells.iter_mut().enumerate() {
        if i >= start as usize && i - (start as usize) < slots as usize {
            *cell = number;
        }
    }
}

/// Places what is wished for, for the assignment of this number.
fn plain_place(cells: &mut Cells, wish: Wish, number: u32) -> Placed {
    match plain_start(cells, wish) {
        Some(start) => {
            write(cells, start, wish.1, number);
            Placed::At(start, wish.1)
        }
        None => Placed::NoRoom,
    }
}

/// The longest idle run, the first of several.
fn plain_longest(cells: &Cells) -> Option<(u32, u32)> {
    let mut best = None;
    let mut most = 0;
    for start in 0..64u32 {
        let count = same_from(cells, start, 0);
        if count > most {
            most = count;
            best = Some((start, count));
        }
    }
    best
}

/// The run that starts at a minislot, told by the change of the number; `None` where none does.
fn run_at(cells: &Cells, start: u32) -> Option<Triple>
    requires { start < 64 }
{
    let number = cells[start as usize];
    if start > 0 && cells[start as usize - 1] == number {
        return None;
    }
    let sid = if number > 0 {
        Some(sid_of(number))
    } else {
        None
    };
    Some((start, same_from(cells, start, number), sid))
}

/// Writes the runs into the front of a list, and says how many there are.
fn plain_runs(cells: &Cells, found: &mut [Triple; 64]) -> usize
    ensures { result ≤ 64 }
{
    let mut count = 0;
    for start in 0..64u32 {
        if let Some(run) = run_at(cells, start) {
            if count < 64 {
                found[count] = run;
                count += 1;
            }
        }
    }
    count.min(64)
}

/// A wish of up to 5 minislots, and the window of its starts.
fn wish_of(seed: &mut u32, number: u32) -> Wish {
    let (one, other) = (next(seed, 64), next(seed, 64));
    (
        (one.min(other), one.max(other)),
        1 + next(seed, 5),
        sid_of(number),
    )
}

/// Whether a board and a plain list tell the same after a wish.
fn agree(alloc: Global, board: &mut Board, cells: &mut Cells, wish: Wish, number: u32) -> bool {
    let answer = place(board, wish);
    let placed = plain_place(cells, wish, number);
    let mut runs = [(0, 0, None); 64];
    let count = plain_runs(cells, &mut runs);
    let idle = cells.iter().filter(|cell| **cell == 0).count() as u32;
    is_told(
        alloc,
        board,
        answer,
        &(placed, idle, plain_longest(cells), &runs[..count]),
    )
}

/// After how many of 30 wishes an idle board and a plain list tell the same.
fn wishes_agree(alloc: Global, board: &mut Board, seed: &mut u32) -> usize {
    let mut cells = [0; 64];
    let mut count = 0usize;
    for number in 1..31u32 {
        let wish = wish_of(seed, number);
        count = count.saturating_add(usize::from(agree(alloc, board, &mut cells, wish, number)));
    }
    count
}

/// One board, which is cleared for each next row of wishes.
#[test]
fn plain_program_agrees(rt: HostRuntime) {
    let Ok(mut board) = Board::new(rt.alloc(), 64) else {
        return same(&rt, 0, 64);
    };
    let mut seed = 1;
    for _ in 0..40u32 {
        same(&rt, wishes_agree(rt.alloc(), &mut board, &mut seed), 30);
        let nobody = Owner::new(0, Iuc::request());
        board.reserve_ends(0, nobody, 0, nobody);
    }
}
