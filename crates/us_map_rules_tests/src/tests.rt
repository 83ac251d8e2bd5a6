//! What no clause says: maps files as bytes, and what is answered of runs at their edges.

mod base;
mod files;
mod headings;
mod minislots;
mod places;
