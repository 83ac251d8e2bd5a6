//! The tests of the rule of calendars' lines, of `us_map_rules`. A crate's tests are proved with its code once more, so these
//! stand in a crate of their own.
#![tactic(auto)]

#[cfg(test)]
mod tests;
