//! What no clause says: outside bytes, texts, memory, and a plain program.

mod base;
mod bodies;
mod faults;
mod files;
mod limits;
mod memory;
mod plain;
mod values;
