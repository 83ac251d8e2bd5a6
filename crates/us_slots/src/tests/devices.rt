use super::base::same;
use super::fakes::{PieceReader, PieceWriter};
use crate::{Failed, FromRead, FromWrite, Sink, Source};
use std::alloc::Global;
use std::io::ErrorKind;

/// What a call answered, and whether the device has failed behind it. A flush counts no bytes.
type Answer = (Result<usize, Failed>, bool);

const FAULT: Answer = (Err(Failed), true);

/// A read of at most four bytes, and what it read.
fn read<S: Source>(source: &mut S) -> (Answer, [u8; 4]) {
    let mut piece = [0; 4];
    let answer = source.read(&mut piece);
    ((answer, source.has_failed()), piece)
}

/// Three reads.
fn read_pieces<S: Source>(source: &mut S) -> [(Answer, [u8; 4]); 3] {
    let first = read(source);
    let second = read(source);
    [first, second, read(source)]
}

/// In memory, and how many bytes are left behind them.
fn reads_in_memory() -> ([(Answer, [u8; 4]); 3], usize) {
    let text = b"trace";
    let mut source = FromRead::new(&text[..]);
    let answers = read_pieces(&mut source);
    (answers, source.into_inner().len())
}

static TO_THE_END: [(Answer, [u8; 4]); 3] = [
    ((Ok(4), false), *b"trac"),
    ((Ok(1), false), *b"e\0\0\0"),
    ((Ok(0), false), [0; 4]),
];

/// Of a reader that has one byte, and how many calls reached it.
fn reads_past_a_fault(kind: ErrorKind) -> ([(Answer, [u8; 4]); 3], u32) {
    let mut source = FromRead::new(PieceReader::new(b"m", 1, Some(kind)));
    let answers = read_pieces(&mut source);
    (answers, source.into_inner().reads)
}

static TO_A_FAULT: [(Answer, [u8; 4]); 3] = [
    ((Ok(1), false), *b"m\0\0\0"),
    (FAULT, [0; 4]),
    (FAULT, [0; 4]),
];

/// A text as long as the longest piece.
static LONG_TEXT: [u8; 5_000] = [b'm'; 5_000];

/// A read of a whole piece of this size, at most 5,000.
fn read_whole(size: usize) -> Answer {
    let mut room = [0; 5_000];
    let (piece, _) = room.split_at_mut(size.min(5_000));
    let mut source = FromRead::new(&LONG_TEXT[..]);
    let answer = source.read(piece);
    (answer, source.has_failed())
}

#[test]
fn readers(rt: HostRuntime) {
    same(&rt, &reads_in_memory(), &(TO_THE_END, 0), "in memory");
    for kind in [ErrorKind::Interrupted, ErrorKind::BrokenPipe] {
        same(&rt, &reads_past_a_fault(kind), &(TO_A_FAULT, 3), "fault");
    }
    for size in [0, 1, 7, 4_096, 5_000] {
        same(&rt, &read_whole(size), &(Ok(size), false), "whole");
    }
}

fn write<S: Sink>(sink: &mut S, piece: &[u8]) -> Answer {
    let answer = sink.write(piece);
    (answer, sink.has_failed())
}

fn flush<S: Sink>(sink: &mut S) -> Answer {
    match sink.flush() {
        Ok(()) => (Ok(0), sink.has_failed()),
        Err(fault) => (Err(fault), sink.has_failed()),
    }
}

/// A write, a flush, two writes and a flush.
fn write_pieces<S: Sink>(sink: &mut S, first: &[u8], second: &[u8], third: &[u8]) -> [Answer; 5] {
    let first = write(sink, first);
    let flushed = flush(sink);
    let second = write(sink, second);
    let third = write(sink, third);
    [first, flushed, second, third, flush(sink)]
}

/// In memory, and whether the bytes are those written.
fn writes_in_memory(alloc: Global) -> ([Answer; 5], bool) {
    let mut sink = FromWrite::new(Vec::new(alloc));
    let answers = write_pieces(&mut sink, b"map", b"", b"s");
    let held = sink.into_inner();
    (answers, held.as_slice() == b"maps".as_slice())
}

static TAKEN: [Answer; 5] = [
    (Ok(3), false),
    (Ok(0), false),
    (Ok(0), false),
    (Ok(1), false),
    (Ok(0), false),
];

/// To a writer that takes one byte a call and this many in all. Whether it holds these bytes, and how many writes and
/// flushes reached it.
fn writes_past_a_fault(
    alloc: Global,
    kind: ErrorKind,
    text: &[u8],
) -> ([Answer; 5], bool, u32, u32) {
    let mut sink = FromWrite::new(PieceWriter::new(alloc, 1, text.len(), Some(kind)));
    let answers = write_pieces(&mut sink, b"map", b"ap", b"p");
    let device = sink.into_inner();
    let is_text = device.held.as_slice() == text;
    (answers, is_text, device.writes, device.flushes)
}

static TO_A_FAULT_OF_WRITE: [Answer; 5] = [
    (Ok(1), false),
    (Ok(0), false),
    (Ok(1), false),
    FAULT,
    FAULT,
];

static TO_A_FAULT_OF_FLUSH: [Answer; 5] = [(Ok(1), false), FAULT, FAULT, FAULT, FAULT];

/// To a buffer of one byte, whose third write is one byte too many.
fn writes_past_the_room() -> [Answer; 5] {
    let mut full = [0u8; 1];
    write_pieces(&mut FromWrite::new(&mut full[..]), b"", b"m", b"a")
}

static TO_A_STUCK_WRITE: [Answer; 5] = [
    (Ok(0), false),
    (Ok(0), false),
    (Ok(1), false),
    (Ok(0), true),
    (Ok(0), true),
];

/// A write of a whole piece of this size, at most 5,000, and how many bytes were written.
fn write_whole(alloc: Global, size: usize) -> (Answer, usize) {
    let (piece, _) = LONG_TEXT.split_at(size.min(5_000));
    let mut sink = FromWrite::new(Vec::new(alloc));
    let answer = write(&mut sink, piece);
    (answer, sink.into_inner().len())
}

#[test]
fn writers(rt: HostRuntime) {
    let alloc = rt.alloc();
    same(&rt, &writes_in_memory(alloc), &(TAKEN, true), "in memory");
    for kind in [ErrorKind::Interrupted, ErrorKind::StorageFull] {
        let found = writes_past_a_fault(alloc, kind, b"ma");
        same(&rt, &found, &(TO_A_FAULT_OF_WRITE, true, 3, 2), "write");
        let found = writes_past_a_fault(alloc, kind, b"m");
        same(&rt, &found, &(TO_A_FAULT_OF_FLUSH, true, 3, 2), "flush");
    }
    same(&rt, &writes_past_the_room(), &TO_A_STUCK_WRITE, "no room");
    for size in [0, 1, 7, 4_096, 5_000] {
        let found = write_whole(alloc, size);
        same(&rt, &found, &((Ok(size), false), size), "whole");
    }
}
