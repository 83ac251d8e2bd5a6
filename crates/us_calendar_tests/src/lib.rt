//! The tests of `us_calendar`, and of where `us_lint` says that a grant has room. A crate's tests are proved with its
//! code once more, so these stand in a crate of their own.
#![tactic(auto)]

#[cfg(test)]
mod tests;
