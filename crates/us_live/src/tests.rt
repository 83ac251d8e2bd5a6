//! What no clause says: that rounds are made where there is memory, that a cut holds what other seats submit, threads
//! that submit while rounds are made, a scheduler that goes from thread to thread, workers that are at work at the same
//! time, each allocation refused in turn, and that a fault can be written.

mod base;
mod faults;
mod threads;
mod workers;
