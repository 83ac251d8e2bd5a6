//! What no clause says: worked numbers, as many assignments as there may be, a plain program, and memory that is
//! refused.

mod base;
mod limits;
mod memory;
mod numbers;
mod plain;
