use super::base::{count_of, same};
use super::faults::{BODIES, fault_of};
use super::files::{TWO_RECORDS, count_of_records};
use super::limits::count_built;
use crate::{MapFault, decode};
use std::alloc::Global;

/// Whether this count is answered, or want of memory.
fn is_count_or_refused(answer: Result<usize, MapFault>, count: usize) -> bool {
    match answer {
        Ok(found) => found == count,
        Err(fault) => fault == MapFault::NoMemory,
    }
}

/// Run by `tools/refuse-memory` too, where each allocation is refused in turn. A refused one is answered as
/// want of memory, and never as another fault or a wrong MAP.
#[test]
fn refused_memory(rt: HostRuntime) {
    let alloc = rt.alloc();
    let read = count_of(decode(alloc, &TWO_RECORDS[6..34]));
    let built = count_built(alloc, 1, 160, 0);
    let found = count_of_records(alloc, &TWO_RECORDS[..34]);
    let answers = [
        is_count_or_refused(read, 3),
        is_count_or_refused(built, 2),
        is_count_or_refused(found, 1),
    ];
    same(&rt, &answers, &[true; 3], "read, built, found");
}

/// Whether a body in words is answered by this fault, or by none where it is read; or memory was wanting, for it or for its
/// bytes.
fn is_fault_or_refused(alloc: Global, words: &[u32], fault: Option<MapFault>) -> bool {
    match fault_of(alloc, words) {
        Ok(found) => found == fault || found == Some(MapFault::NoMemory),
        Err(_) => true,
    }
}

/// The same with faulty bodies, and a maps file that is cut: none is answered by another fault than with ample memory, but
/// for want of memory. One that ends in the first six bytes of a record is cut whatever memory there is.
#[test]
fn refused_memory_of_faults(rt: HostRuntime) {
    let alloc = rt.alloc();
    for (fault, words) in &BODIES {
        let found = is_fault_or_refused(alloc, words, *fault);
        same(&rt, &(words, found), &(words, true), "bodies");
    }
    let cut = match count_of_records(alloc, &TWO_RECORDS[..71]) {
        Ok(_) => false,
        Err(fault) => fault == MapFault::RecordCut || fault == MapFault::NoMemory,
    };
    same(&rt, &cut, &true, "a cut record");
    let early = count_of_records(alloc, &TWO_RECORDS[..5]);
    same(&rt, &early, &Err(MapFault::RecordCut), "a cut head");
}
