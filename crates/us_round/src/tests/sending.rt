use super::base::config_of;
use super::rounds::BONDED;
use crate::{RoundFault, State};
use std::alloc::Global;
use std::process::Abort;
use std::thread::{Threads, join};

/// A caller's own value, which has a state and something else.
#[derive(Drop)]
struct Kept {
    state: State,
    number: u32,
}

/// Another thread has it, and gives it back.
fn there_and_back<R: Threads>(rt: &R, kept: Kept) -> Kept {
    let (kept, ()) = join(rt, move || kept, || ());
    kept
}

fn sent<R: Threads>(rt: &R, alloc: Global) -> Result<u32, RoundFault> {
    let Ok(config) = config_of(alloc, &BONDED) else {
        return Err(RoundFault::NoMemory);
    };
    let state = State::new(alloc, config)?;
    let Kept { state: _, number } = there_and_back(rt, Kept { state, number: 7 });
    Ok(number)
}

fn same(rt: &impl Abort, found: Result<u32, RoundFault>) {
    assert_eq!(rt; found, Ok(7), "a state in a struct");
}

/// A state goes to another thread inside of a struct of a caller's.
#[test]
fn states_in_structs_go(rt: HostRuntime) {
    same(&rt, sent(&rt, rt.alloc()));
}
