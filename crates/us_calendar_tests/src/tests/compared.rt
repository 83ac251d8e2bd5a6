use super::base::{rounds_alike, rounds_settled, same};
use super::entries::{chosen_entries, far_entries, random_entries, rare_entries};
use std::alloc::Global;

/// The rounds of a comparison, of 2,000 microseconds.
const ROUNDS: u64 = 5;

/// And those of one with long intervals.
const FAR_ROUNDS: u64 = 6_000;

/// How many lists of entries a calendar settles as the plain program does, up to the first that it doesn't: the chosen ones,
/// and then random ones.
fn lists_alike(alloc: Global, lists: u64) -> u64 {
    let mut numbers = 1;
    let mut entries = chosen_entries();
    for list in 0..lists {
        if rounds_alike(alloc, &mut entries, list, ROUNDS) != Some(ROUNDS) {
            return list;
        }
        entries = random_entries(&mut numbers);
    }
    lists
}

/// The same with intervals of 1 to 5,000 rounds.
fn far_lists_alike(alloc: Global, lists: u64) -> u64 {
    let mut numbers = 1;
    for list in 0..lists {
        let mut entries = far_entries(&mut numbers);
        if rounds_alike(alloc, &mut entries, list, FAR_ROUNDS) != Some(FAR_ROUNDS) {
            return list;
        }
    }
    lists
}

#[test]
fn as_the_plain_program(rt: HostRuntime) {
    same(&rt, lists_alike(rt.alloc(), 21), 21);
}

#[test]
fn far_ones_as_the_plain_program(rt: HostRuntime) {
    same(&rt, far_lists_alike(rt.alloc(), 3), 3);
}

/// Rounds after those that are compared are settled too.
#[test]
fn later_rounds(rt: HostRuntime) {
    same(&rt, rounds_settled(rt.alloc(), &chosen_entries(), 50), 50);
}

/// Run by `tools/refuse-memory` too, where each allocation is refused in turn: a calendar and its rounds are answered
/// whole or as want of memory.
#[test]
fn refused_memory(rt: HostRuntime) {
    if let Some(rounds) = rounds_alike(rt.alloc(), &mut chosen_entries(), 0, ROUNDS) {
        same(&rt, rounds, ROUNDS);
    }
}

/// The same where what is settled is due again in rounds that aren't near.
#[test]
fn refused_memory_far(rt: HostRuntime) {
    if let Some(rounds) = rounds_alike(rt.alloc(), &mut rare_entries(), 0, ROUNDS) {
        same(&rt, rounds, ROUNDS);
    }
}
