//! What no clause says: worked numbers, the plain programs, and devices that refuse.

mod base;
mod calls;
mod clones;
mod devices;
mod fakes;
mod numbers;
mod plain;
mod texts;
mod transfers;
