//! The board of one MAP: which assignment holds each minislot, and where one more fits.
//!
//! ```
//! let mut board = Board::new(alloc, 160)?; // 160 idle minislots
//! let reserve = Owner::new(16_383, Iuc::request());
//! board.place_earliest(150, 150, 10, reserve); // At(150, 10)
//! board.longest(); // Some((0, 150))
//! ```
//!
//! What these words mean stands in `specs/`, in the order of its `Lib.antt`.
#![tactic(auto)]

// To whom minislots are assigned.
mod owners;

// What becomes of an assignment that is to be placed.
mod placements;

// An assignment, and all of a board by start.
mod assignments;
mod placed;

// Idle minislots between them, by start, and how one is taken out of a list.
mod holes;
mod shifting;

// The same by length, each as one number.
mod rank_keys;
mod ranks;

// One more assignment in all three.
mod assigning;

// Minislots side by side with one holder,
mod runs;

// and all of them one after another.
mod run_walks;

// The board, which keeps these lists.
mod boards;

// What follows of the definitions alone.
mod laws;

pub use boards::{Board, MAX_ASSIGNMENTS, MAX_MINISLOTS};
pub use laws::assignments_stand_in_order;
pub use owners::Owner;
pub use placements::Placed;
pub use run_walks::RunWalk;
pub use runs::Run;

#[cfg(test)]
mod tests;
