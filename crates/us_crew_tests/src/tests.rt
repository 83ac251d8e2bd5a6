//! What no clause says: that the work is done where there is memory, that workers are at work at the same time, that
//! one worker is one thread, that kept workers do the same from round to round and are woken, and that a fault can be
//! written.

mod answers;
mod base;
mod counting;
mod gates;
mod kept_base;
mod memory;
mod plain;
mod sleepers;
