use crate::{Element, Head, MAX_BODY_BYTES, Map, MapFault, decode, encode_into};
use std::alloc::{AllocError, Global};
use std::fmt::Debug;
use std::process::Abort;
use us_slots::Iuc;

/// The one assertion of these tests, since each costs the proof of the function that it stands in. `place` says where
/// in a test.
pub fn same<T: PartialEq + Debug>(rt: &impl Abort, found: &T, wanted: &T, place: &str) {
    assert_eq!(rt; *found, *wanted, "{place}");
}

/// A body of 150 and 10 minislots of broadcast request in a MAP of 160, in words of four bytes.
pub const BASE: [u32; 7] = [
    0x0100_0300,
    0x0000_0000,
    0x0000_0000,
    0x0206_0308,
    0xfffc_4000,
    0xfffc_4096,
    0x0001_c0a0,
];

/// Its head.
pub const BASE_HEAD: Head = Head {
    channel: 1,
    ucd_count: 0,
    alloc_start: 0,
    ack: 0,
    backoffs: [2, 6, 3, 8],
};

/// The SID, the IUC and the offset of an element.
pub type Fields = (u16, u8, u16);

/// The element of these fields.
pub fn element(fields: Fields) -> Option<Element> {
    let (sid, iuc, offset) = fields;
    Element::new(sid, Iuc::new(iuc)?, offset)
}

/// The elements of these fields, without those that are none.
pub fn elements_of(alloc: Global, rows: &[Fields]) -> Result<Vec<Element>, AllocError> {
    let mut elements = Vec::new(alloc);
    for fields in rows {
        elements.extend(element(*fields))?;
    }
    Ok(elements)
}

/// Words, big-endian, one behind another.
pub fn bytes_of(alloc: Global, words: &[u32]) -> Result<Vec<u8>, AllocError> {
    let mut bytes = Vec::new(alloc);
    for word in words {
        bytes.extend_from_slice(&word.to_be_bytes())?;
    }
    Ok(bytes)
}

/// The MAP of 160 minislots of these parts, or its fault.
pub fn build(
    alloc: Global,
    head: Head,
    elements: &[Fields],
    pendings: &[Fields],
) -> Result<Map, MapFault> {
    let elements = elements_of(alloc, elements)?;
    let pendings = elements_of(alloc, pendings)?;
    Map::new(alloc, head, &elements, 160, &pendings)
}

/// Whether a body that is read is written as the same bytes, or its fault.
pub fn is_written_again(alloc: Global, body: &[u8]) -> Result<bool, MapFault> {
    let map = decode(alloc, body)?;
    let mut out = [0; MAX_BODY_BYTES];
    let length = encode_into(&map, &mut out);
    let (written, _) = out.split_at(length);
    Ok(written == body)
}

/// How many elements an answer has.
pub fn count_of(answer: Result<Map, MapFault>) -> Result<usize, MapFault> {
    match answer {
        Ok(map) => Ok(map.elements().len()),
        Err(fault) => Err(fault),
    }
}
