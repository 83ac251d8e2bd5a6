use std::hint::spin_loop;
use std::thread::yield_now;

/// So many turns are spun before the processor is given to others (ours): an answer mostly comes sooner, and on a busy
/// machine whoever spins longer holds up the one that it waits for.
const SPUN_TURNS: u32 = 20;

/// So many turns the processor is given to others before one sleeps (ours): some 90 microseconds.
const YIELDED_TURNS: u32 = 300;

/// How long one has waited for something.
#[derive(Clone, Copy)]
pub(crate) struct Patience {
    turns: u32,
}

impl Patience {
    /// Nobody has waited yet.
    pub(crate) fn new() -> Patience {
        Patience { turns: 0 }
    }

    /// Waits for a turn, awake. Whether it did: it doesn't where it is time to sleep.
    pub(crate) fn waits(&mut self) -> bool {
        if self.turns >= SPUN_TURNS + YIELDED_TURNS {
            return false;
        }
        if self.turns < SPUN_TURNS {
            spin_loop();
        } else {
            yield_now();
        }
        self.turns += 1;
        true
    }
}
