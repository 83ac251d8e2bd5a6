//! The bodies of version 1 MAPs, read from any bytes and written exactly, and the records of maps files.
//!
//! ```
//! let grant = Element::new(291, Iuc::long_data_grant(), 0).ok_or("out of range")?; // from minislot 0 on
//! let map = Map::new(alloc, head, &[grant], 160, &[])?; // the Null is put at 160, the length of the MAP
//! let mut out = [0; MAX_BODY_BYTES];
//! let length = encode_into(&map, &mut out);
//! let same = decode(alloc, &out[..length])?;
//! ```
//!
//! Whoever holds a [`Map`] holds a lawful body. A caller whose own contract says that the parts are sound takes
//! [`Element::from_fields`] and [`Map::from_parts`], which judge nothing. What is lawful stands in `specs/`, in the order
//! of its `Lib.antt`.
// An attribute of a function's own says what its proof needs beside: `unfolding` opens the definitions that it computes,
// which are closed elsewhere, and `using` names lemmas.
#![tactic(auto)]

// To whom minislots are assigned, what for, and from where on.
mod elements;

// What stands before the elements of a body.
mod heads;

// Every refusal of this crate, in order.
mod faults;

// Elements as they come, judged one by one.
mod drafts;

// Bodies that keep the grammar.
mod maps;

// From a body to bytes.
mod encoding;

// From bytes to a body.
mod decoding;

// Files of bodies.
mod maps_files;

// Laws of the definitions.
mod laws;

pub use decoding::decode;
pub use elements::{ELEMENT_BYTES, Element};
pub use encoding::{MAX_BODY_BYTES, encode_into, front_bytes, put_element};
pub use faults::MapFault;
pub use heads::{HEAD_BYTES, Head};
pub use laws::{one_reading, one_spelling};
pub use maps::{MAX_ELEMENTS, MAX_LEN, Map};
pub use maps_files::{Record, records};

#[cfg(test)]
mod tests;
