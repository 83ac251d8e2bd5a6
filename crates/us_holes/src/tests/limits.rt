use super::base::{place, same};
use crate::{Board, Placed};
use std::alloc::Global;

/// Assigns each second minislot from minislot 1 on, here and there among the others, and says how many could be.
fn assign_many(board: &mut Board) -> usize {
    let mut count = 0usize;
    for number in 0..100u32 {
        let at = 2 * (number * 37 % 100) + 1;
        if place(board, ((at, at), 1, 16_383)) == Placed::At(at, 1) {
            count = count.saturating_add(1);
        }
    }
    count
}

/// Whether a board is told as full, of one minislot and of more than there are.
fn is_told_full(board: &mut Board) -> bool {
    board.is_full()
        && place(board, ((0, 200), 1, 1)) == Placed::Full
        && place(board, ((0, 200), 4_294_967_295, 1)) == Placed::Full
}

/// How many runs there are.
fn run_count(alloc: Global, board: &Board) -> usize {
    match board.runs(alloc) {
        Ok(runs) => runs.len(),
        Err(_) => 0,
    }
}

/// The most assignments, with an idle minislot round each: so there are as many holes as there may be.
#[test]
fn most_assignments(rt: HostRuntime) {
    let Ok(mut board) = Board::new(rt.alloc(), 201) else {
        return same(&rt, 0, 201);
    };
    same(&rt, assign_many(&mut board), 100);
    same(&rt, usize::from(is_told_full(&mut board)), 1);
    same(&rt, board.free_count() as usize, 101);
    same(&rt, run_count(rt.alloc(), &board), 201);
}
