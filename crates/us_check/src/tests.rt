//! What no clause says: that memory is enough for the stored run, which holds; a file changed for each rule; lines in other
//! orders; and memory that is refused.

mod base;
mod memory;
mod orders;
mod stored;
