//! What no clause says: that each call does its work with memory to spare, and each allocation refused in turn.

mod base;
mod memory;
mod rounds;
