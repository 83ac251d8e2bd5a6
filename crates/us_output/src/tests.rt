//! What no clause says: that there are answers at all. A worked round's MAP and lines, and its texts beside a plain writer.

mod base;
mod memory;
mod rounds;
mod texts;
