//! How often a transfer of a whole text calls its device. No clause tells that.

use super::base::same;
use super::fakes::{PieceReader, PieceWriter};
use crate::{FromRead, FromWrite, read_all, write_all};
use std::alloc::Global;
use std::io::ErrorKind;

/// A text of 22 bytes.
const TEXT: &[u8] = b"tick,channel,sid,units";

/// How many reads of 7 bytes it took to read the text, if that many bytes were allowed.
fn reads_of_text(alloc: Global, most: usize, fault: Option<ErrorKind>) -> u32 {
    let mut source = FromRead::new(PieceReader::new(TEXT, 7, fault));
    let _ = read_all(alloc, &mut source, most);
    source.into_inner().reads
}

/// Nothing is read behind the end, behind a fault and behind what is too large.
#[test]
fn reads_of_a_text(rt: HostRuntime) {
    let alloc = rt.alloc();
    let fault = Some(ErrorKind::BrokenPipe);
    let found = [
        reads_of_text(alloc, 100, None),
        reads_of_text(alloc, 100, fault),
        reads_of_text(alloc, 8, None),
    ];
    same(&rt, &found, &[5, 5, 2], "reads");
}

/// How many writes and flushes it took to write the text to a writer that takes so many bytes a call and so many in all,
/// and how many it took.
fn writes_of_text(
    alloc: Global,
    piece: usize,
    room: usize,
    fault: Option<ErrorKind>,
) -> (u32, u32, usize) {
    let mut sink = FromWrite::new(PieceWriter::new(alloc, piece, room, fault));
    let _ = write_all(&mut sink, TEXT);
    let device = sink.into_inner();
    (device.writes, device.flushes, device.held.len())
}

/// All that is left is offered each time; nothing is written behind a fault; and nothing is flushed.
#[test]
fn writes_of_a_text(rt: HostRuntime) {
    let alloc = rt.alloc();
    let fault = Some(ErrorKind::StorageFull);
    let found = [
        writes_of_text(alloc, 100, 100, None),
        writes_of_text(alloc, 7, 100, None),
        writes_of_text(alloc, 7, 8, None),
        writes_of_text(alloc, 7, 8, fault),
    ];
    same(
        &rt,
        &found,
        &[(1, 0, 22), (4, 0, 22), (3, 0, 8), (3, 0, 8)],
        "writes",
    );
}
