use super::base::{Case, KEPT};
use super::gates::{Held, all_meet};
use super::kept_base::LONG;

/// One helper and the owner, who has item 0. It is held until the last item has entered, and that one stays long then.
const SLEEPY: Case = Case {
    rounds: 20,
    pause: LONG,
    helpers: 1,
    ..KEPT
};

/// Two numbers by two workers, and three by three.
static SLEEPERS: &[Held] = &[
    Held {
        case: Case {
            numbers: 2,
            workers: 2,
            answer: Ok(0x24_01),
            ..SLEEPY
        },
        items: 0b11,
        staying: 0b10,
        times: 1,
        alone: 0,
    },
    Held {
        case: Case {
            numbers: 3,
            workers: 3,
            answer: Ok(0x246_011),
            ..SLEEPY
        },
        items: 0b101,
        staying: 0b100,
        times: 1,
        alone: 0,
    },
];

/// Helpers fall asleep before each round, and the owner does while the last item stays: each is woken. And one helper
/// takes what lies in another's mailbox too, who has no thread.
#[test]
fn sleepers_are_woken(rt: HostRuntime) {
    all_meet(&rt, rt.alloc(), SLEEPERS, 10_000_000);
}
