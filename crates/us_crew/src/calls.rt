use super::patience::Patience;
use std::sync::Wait;
use std::sync::atomic::{AtomicU64, Ordering};

/// The bit of a call that says that there will be no other one.
const IS_LAST: u64 = 1;

/// What one call adds.
const ONE_CALL: u64 = 2;

/// How the owner calls its helpers: by a word that changes at each call, on which those sleep who wait long.
#[derive(Drop)]
pub(crate) struct Calls {
    last: AtomicU64,
    asleep: AtomicU64,
}

impl Calls {
    /// Nobody was called yet.
    pub(crate) fn new() -> Calls {
        Calls {
            last: AtomicU64::new(0),
            asleep: AtomicU64::new(0),
        }
    }

    /// Calls all helpers to look for tasks.
    pub(crate) fn call(&self) {
        self.change(ONE_CALL);
    }

    /// Calls all helpers for the last time.
    pub(crate) fn end(&self) {
        self.change(ONE_CALL + IS_LAST);
    }

    /// Changes the word, and wakes those who sleep. Whoever is about to sleep sees the new word, and doesn't.
    fn change(&self, more: u64) {
        self.last.fetch_add(more, Ordering::SeqCst);
        if self.asleep.load(Ordering::SeqCst) != 0 {
            self.last.wake_all();
        }
    }

    /// Waits for a call behind this one, and answers it.
    pub(crate) fn next<H: Wait>(&self, threads: &H, seen: u64) -> u64 {
        let mut patience = Patience::new();
        for _ in threads.forever() {
            let last = self.last.load(Ordering::SeqCst);
            if last != seen {
                return last;
            }
            if !patience.waits() {
                self.sleep(threads, seen);
            }
        }
        unreachable!()
    }

    /// Sleeps until the word changes. It may end sooner.
    fn sleep<H: Wait>(&self, threads: &H, seen: u64) {
        self.asleep.fetch_add(1, Ordering::SeqCst);
        self.last.park(threads, (seen % (1 << 32)) as u32);
        self.asleep.fetch_sub(1, Ordering::SeqCst);
    }

    /// Whether a call is the last one.
    pub(crate) fn is_last(call: u64) -> bool {
        call % ONE_CALL == IS_LAST
    }
}
