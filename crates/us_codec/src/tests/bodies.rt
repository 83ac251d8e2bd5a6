use super::base::{BASE_HEAD, Fields, build, elements_of, same};
use super::files::TWO_RECORDS;
use crate::{Head, MAX_BODY_BYTES, Map, MapFault, decode, encode_into};
use std::alloc::Global;

/// The head of a MAP, how many elements it has, whether it is written as these bytes, and whether what is behind them
/// stays.
fn written(map: &Map, body: &[u8]) -> (Head, usize, bool, bool) {
    let mut out = [0xee; MAX_BODY_BYTES];
    let length = encode_into(map, &mut out);
    let (found, rest) = out.split_at(length);
    let stays = rest.iter().all(|byte| *byte == 0xee);
    (*map.head(), map.elements().len(), found == body, stays)
}

/// The same of the MAP of these parts.
fn built(
    alloc: Global,
    head: Head,
    elements: &[Fields],
    pendings: &[Fields],
    body: &[u8],
) -> Result<(Head, usize, bool, bool), MapFault> {
    let map = build(alloc, head, elements, pendings)?;
    Ok(written(&map, body))
}

/// The same of the MAP that the same parts make where they aren't judged again.
fn made(
    alloc: Global,
    head: Head,
    elements: &[Fields],
    pendings: &[Fields],
    body: &[u8],
) -> Result<(Head, usize, bool, bool), MapFault> {
    let elements = elements_of(alloc, elements)?;
    let pendings = elements_of(alloc, pendings)?;
    let _judged = Map::new(alloc, head, &elements, 160, &pendings)?;
    match Map::from_parts(head, elements, 160, &pendings) {
        Ok(map) => Ok(written(&map, body)),
        Err(_) => Err(MapFault::NoMemory),
    }
}

/// The head of a body that is read, and whether its elements are these.
fn read(alloc: Global, body: &[u8], elements: &[Fields]) -> Result<(Head, bool), MapFault> {
    let elements = elements_of(alloc, elements)?;
    let map = decode(alloc, body)?;
    Ok((*map.head(), map.elements() == elements.as_slice()))
}

/// The elements of the base body.
static LIST: [Fields; 3] = [(0x3fff, 1, 0), (0x3fff, 1, 150), (0, 7, 160)];

/// A head of which each field has a value of its own.
const MARKED_HEAD: Head = Head {
    channel: 2,
    ucd_count: 7,
    alloc_start: 0x0102_0304,
    ack: 0xa0b0_c0d0,
    backoffs: [0, 15, 1, 14],
};

/// Elements with pendings behind the Null.
static MARKED_LIST: [Fields; 4] = [(291, 10, 0), (0, 7, 160), (2, 10, 160), (3, 10, 160)];

/// The body of these.
static MARKED: [u8; 32] = [
    0x02, 0x07, 0x04, 0x00, 0x01, 0x02, 0x03, 0x04, 0xa0, 0xb0, 0xc0, 0xd0, 0x00, 0x0f, 0x01, 0x0e,
    0x04, 0x8e, 0x80, 0x00, 0x00, 0x01, 0xc0, 0xa0, 0x00, 0x0a, 0x80, 0xa0, 0x00, 0x0e, 0x80, 0xa0,
];

static BUILT: [Result<(Head, usize, bool, bool), MapFault>; 2] = [
    Ok((BASE_HEAD, 3, true, true)),
    Ok((MARKED_HEAD, 4, true, true)),
];

static READ: [Result<(Head, bool), MapFault>; 2] = [Ok((BASE_HEAD, true)), Ok((MARKED_HEAD, true))];

/// The base body, and one with pendings.
#[test]
fn bodies(rt: HostRuntime) {
    let alloc = rt.alloc();
    let base = &TWO_RECORDS[6..34];
    let found = [
        built(alloc, BASE_HEAD, &LIST[..2], &[], base),
        built(
            alloc,
            MARKED_HEAD,
            &MARKED_LIST[..1],
            &MARKED_LIST[2..],
            &MARKED,
        ),
    ];
    same(&rt, &found, &BUILT, "built");
    let found = [
        made(alloc, BASE_HEAD, &LIST[..2], &[], base),
        made(
            alloc,
            MARKED_HEAD,
            &MARKED_LIST[..1],
            &MARKED_LIST[2..],
            &MARKED,
        ),
    ];
    same(&rt, &found, &BUILT, "made of known parts");
    let found = [read(alloc, base, &LIST), read(alloc, &MARKED, &MARKED_LIST)];
    same(&rt, &found, &READ, "read");
}
