use super::base::same;
use super::fakes::PieceReader;
use crate::{FromRead, ReadFault, Source, read_all};
use std::alloc::Global;
use std::io::{self, ErrorKind, Read};

/// A text longer than each of the pieces but the last.
const TEXT: &[u8] = b"tick,channel,sid,units";

/// Whether all of the text was read, and whether the source failed. It gives the text in such pieces, and behind it the
/// end or a fault.
fn read_text(
    alloc: Global,
    piece: usize,
    most: usize,
    fault: Option<ErrorKind>,
) -> (Result<bool, ReadFault>, bool) {
    let mut source = FromRead::new(PieceReader::new(TEXT, piece, fault));
    let whole = match read_all(alloc, &mut source, most) {
        Ok(found) => Ok(found.as_slice() == TEXT),
        Err(fault) => Err(fault),
    };
    (whole, source.has_failed())
}

/// Limits, and whether a fault is behind the text, with the answers: a limit under the text's 22 bytes is passed before
/// the fault is met.
static READS: [(usize, Option<ErrorKind>, (Result<bool, ReadFault>, bool)); 9] = [
    (0, None, (Err(ReadFault::TooLarge), false)),
    (1, None, (Err(ReadFault::TooLarge), false)),
    (21, None, (Err(ReadFault::TooLarge), false)),
    (22, None, (Ok(true), false)),
    (23, None, (Ok(true), false)),
    (100, None, (Ok(true), false)),
    (
        21,
        Some(ErrorKind::BrokenPipe),
        (Err(ReadFault::TooLarge), false),
    ),
    (
        22,
        Some(ErrorKind::BrokenPipe),
        (Err(ReadFault::Failed), true),
    ),
    (
        100,
        Some(ErrorKind::BrokenPipe),
        (Err(ReadFault::Failed), true),
    ),
];

/// How many bytes were read of a source of so many, with no more allowed, and whether the source failed.
fn read_repeated(alloc: Global, count: u32) -> (Result<usize, ReadFault>, bool) {
    let mut source = FromRead::new(io::repeat(b'm').take(u64::from(count)));
    let length = match read_all(alloc, &mut source, count as usize) {
        Ok(found) => Ok(found.len()),
        Err(fault) => Err(fault),
    };
    (length, source.has_failed())
}

#[test]
fn reads(rt: HostRuntime) {
    let alloc = rt.alloc();
    for piece in [1, 2, 7, 22, 100] {
        for (most, fault, wanted) in &READS {
            let found = read_text(alloc, piece, *most, *fault);
            same(&rt, &(piece, most, found), &(piece, most, *wanted), "reads");
        }
    }
    same(&rt, &read_repeated(alloc, 0), &(Ok(0), false), "nothing");
    let mebibyte = read_repeated(alloc, 1_048_576);
    same(&rt, &mebibyte, &(Ok(1_048_576), false), "a mebibyte");
}

/// Run by `tools/refuse-memory` too, where each allocation is refused in turn.
#[test]
fn refused_memory(rt: HostRuntime) {
    let (answer, failed) = read_repeated(rt.alloc(), 100_000);
    let wanted = match answer {
        Ok(_) => Ok(100_000),
        Err(_) => Err(ReadFault::NoMemory),
    };
    same(&rt, &(answer, failed), &(wanted, false), "without memory");
}
