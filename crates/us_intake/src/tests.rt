//! What no clause says: worked numbers, threads that submit while another cuts, texts, and memory that is refused.

mod base;
mod faults;
mod memory;
mod numbers;
mod threads;
