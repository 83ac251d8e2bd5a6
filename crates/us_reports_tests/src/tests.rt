//! What no clause says: reports as bytes, numbers at their limits, memory that is refused, and that the order of places is
//! that of the rules' table, at a table whose ids don't rise.

mod base;
mod memory;
mod numbers;
mod order;
mod plain;
mod reports;
mod words;
