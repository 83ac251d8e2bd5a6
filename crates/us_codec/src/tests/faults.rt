use super::base::{BASE_HEAD, Fields, build, bytes_of, same};
use super::files::TWO_RECORDS;
use crate::{Head, MapFault, decode};
use std::alloc::{AllocError, Global};

/// The fault of a body in words, `None` where it is read.
pub(super) fn fault_of(alloc: Global, words: &[u32]) -> Result<Option<MapFault>, AllocError> {
    let bytes = bytes_of(alloc, words)?;
    Ok(decode(alloc, &bytes).err())
}

/// Bodies in words, each with its first fault, if it has one.
pub(super) static BODIES: [(Option<MapFault>, &[u32]); 17] = [
    // the Null alone, of a MAP without minislots
    (None, &[0x0100_0100, 0, 0, 0, 0x0001_c000]),
    // a pending behind it
    (None, &[0x0100_0200, 0, 0, 0, 0x0001_c000, 0x0006_8000]),
    // every field at its greatest, but for the first offset
    (
        None,
        &[
            0xffff_0300,
            0xffff_ffff,
            0xffff_ffff,
            0x0f0f_0f0f,
            0xfffb_c000,
            0x0001_ffff,
            0xfffe_ffff,
        ],
    ),
    (Some(MapFault::Short), &[]),
    // no element at all
    (Some(MapFault::NoNull), &[0, 0, 0, 0]),
    (
        Some(MapFault::LengthMismatch),
        &[
            0x0100_0400,
            0,
            0,
            0x0206_0308,
            0xfffc_4000,
            0xfffc_4096,
            0x0001_c0a0,
        ],
    ),
    (
        Some(MapFault::Reserved),
        &[
            0x0100_0301,
            0,
            0,
            0x0206_0308,
            0xfffc_4000,
            0xfffc_4096,
            0x0001_c0a0,
        ],
    ),
    (
        Some(MapFault::NoNull),
        &[
            0x0100_0300,
            0,
            0,
            0x0206_0308,
            0xfffc_4000,
            0xfffc_4096,
            0x0000_c0a0,
        ],
    ),
    // IUC 7 of another SID, with a Null behind it
    (
        Some(MapFault::NoNull),
        &[
            0x0100_0300,
            0,
            0,
            0x0206_0308,
            0xfffc_4000,
            0x0005_c096,
            0x0001_c0a0,
        ],
    ),
    (
        Some(MapFault::Order),
        &[
            0x0100_0300,
            0,
            0,
            0x0206_0308,
            0xfffc_4000,
            0xfffc_4000,
            0x0001_c0a0,
        ],
    ),
    (
        Some(MapFault::Order),
        &[
            0x0100_0300,
            0,
            0,
            0x0206_0308,
            0xfffc_4000,
            0xfffc_4096,
            0x0001_c096,
        ],
    ),
    (
        Some(MapFault::AfterNull),
        &[
            0x0100_0400,
            0,
            0,
            0x0206_0308,
            0xfffc_4000,
            0xfffc_4096,
            0x0001_c0a0,
            0x0006_809f,
        ],
    ),
    (
        Some(MapFault::AfterNull),
        &[
            0x0100_0400,
            0,
            0,
            0x0206_0308,
            0xfffc_4000,
            0xfffc_4096,
            0x0001_c0a0,
            0x0001_c0a0,
        ],
    ),
    (
        Some(MapFault::Backoff),
        &[
            0x0100_0300,
            0,
            0,
            0x1006_0308,
            0xfffc_4000,
            0xfffc_4096,
            0x0001_c0a0,
        ],
    ),
    (
        Some(MapFault::Backoff),
        &[
            0x0100_0300,
            0,
            0,
            0x0206_0310,
            0xfffc_4000,
            0xfffc_4096,
            0x0001_c0a0,
        ],
    ),
    (
        Some(MapFault::FirstOffset),
        &[
            0x0100_0300,
            0,
            0,
            0x0206_0308,
            0xfffc_4001,
            0xfffc_4096,
            0x0001_c0a0,
        ],
    ),
    (
        Some(MapFault::FirstOffset),
        &[0x0100_0100, 0, 0, 0x0206_0308, 0x0001_c0a0],
    ),
];

#[test]
fn first_faults_of_bodies(rt: HostRuntime) {
    let alloc = rt.alloc();
    for (fault, words) in &BODIES {
        let found = fault_of(alloc, words);
        same(&rt, &(words, found), &(words, Ok(*fault)), "bodies");
    }
    // fifteen bytes, and the base body without its last one
    let found = [
        decode(alloc, &[0; 15]).err(),
        decode(alloc, &TWO_RECORDS[6..33]).err(),
    ];
    let wanted = [Some(MapFault::Short), Some(MapFault::LengthMismatch)];
    same(&rt, &found, &wanted, "cut bodies");
}

/// The first fault of parts with this third backoff.
fn fault_of_parts(
    alloc: Global,
    backoff: u8,
    elements: &[Fields],
    pendings: &[Fields],
) -> Option<MapFault> {
    let head = Head {
        backoffs: [2, 6, backoff, 8],
        ..BASE_HEAD
    };
    build(alloc, head, elements, pendings).err()
}

/// Elements and pendings, each with a third backoff and with their first fault.
static PARTS: [(MapFault, u8, &[Fields], &[Fields]); 12] = [
    (MapFault::NoNull, 3, &[(5, 10, 0), (0, 7, 150)], &[]),
    (
        MapFault::NoNull,
        3,
        &[(5, 10, 0), (9, 7, 150)],
        &[(7, 10, 160)],
    ),
    (MapFault::Order, 3, &[(6, 9, 10), (5, 10, 0)], &[]),
    (
        MapFault::Order,
        3,
        &[(5, 10, 0), (6, 9, 160)],
        &[(7, 10, 160)],
    ),
    (MapFault::AfterNull, 3, &[(5, 10, 0)], &[(7, 10, 159)]),
    (
        MapFault::AfterNull,
        3,
        &[(5, 10, 0)],
        &[(7, 10, 160), (0, 7, 160)],
    ),
    (MapFault::Backoff, 16, &[(6, 9, 10)], &[]),
    (MapFault::FirstOffset, 3, &[(6, 9, 10)], &[]),
    (MapFault::FirstOffset, 3, &[], &[]),
    // the first of several
    (
        MapFault::NoNull,
        16,
        &[(6, 9, 10), (5, 10, 0), (0, 7, 150)],
        &[(7, 10, 159)],
    ),
    (
        MapFault::Order,
        16,
        &[(6, 9, 10), (5, 10, 0)],
        &[(7, 10, 159)],
    ),
    (MapFault::AfterNull, 16, &[(6, 9, 10)], &[(7, 10, 159)]),
];

#[test]
fn first_faults_of_parts(rt: HostRuntime) {
    for (fault, backoff, elements, pendings) in &PARTS {
        let found = fault_of_parts(rt.alloc(), *backoff, elements, pendings);
        same(&rt, &(elements, found), &(elements, Some(*fault)), "parts");
    }
}

/// Whether a fault has this text.
fn says(alloc: Global, fault: MapFault, text: &str) -> Result<bool, AllocError> {
    Ok(fault.to_string(alloc)?.as_str() == text)
}

static TEXTS: [(MapFault, &str); 11] = [
    (MapFault::Short, "M1: the body has under 16 bytes"),
    (
        MapFault::LengthMismatch,
        "M2: the length is not that of the counted elements",
    ),
    (MapFault::Reserved, "M3: Reserved is not 0"),
    (MapFault::TooManyElements, "M4: over 240 elements"),
    (MapFault::NoNull, "M5: no Null, or one out of place"),
    (MapFault::Order, "M6: offsets do not rise up to the Null"),
    (
        MapFault::AfterNull,
        "M7: an element after the Null has its IUC or another offset",
    ),
    (MapFault::Backoff, "M8: a backoff is over 15"),
    (MapFault::FirstOffset, "M9: the first offset is not 0"),
    (MapFault::NoMemory, "M10: out of memory"),
    (MapFault::RecordCut, "M11: the file ends inside a record"),
];

#[test]
fn texts_of_faults(rt: HostRuntime) {
    for (fault, text) in &TEXTS {
        let found = says(rt.alloc(), *fault, text);
        same(&rt, &(text, found), &(text, Ok(true)), "texts");
    }
}
