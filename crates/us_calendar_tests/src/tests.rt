//! What no clause says: that there are answers at all, and that they are those of a plain program.

mod base;
mod compared;
mod entries;
mod plain;
mod rooms;
mod tables;
