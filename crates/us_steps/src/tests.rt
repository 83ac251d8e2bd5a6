//! What no clause says: worked lists of steps, and each allocation refused in turn.

mod marks;
mod steps;
