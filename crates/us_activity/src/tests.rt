//! What no clause says: worked traces, a plain program beside the marks, and memory that is refused.

mod base;
mod compared;
mod memory;
mod plain;
mod traces;
