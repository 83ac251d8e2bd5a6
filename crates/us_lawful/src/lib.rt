//! Lawful output: the rules by which the MAPs and the lines of a run are judged, whoever made them.
//!
//! A rule says at a place what has to hold there. No rule knows of plans, or of how places are chosen. What the rules are
//! stands in `specs/`, in the order of its `Lib.antt`; `us_check` judges by them.
#![tactic(auto)]

// Laws of the rules, and of reports.
mod laws;

pub use laws::{
    lines_have_fields, ordered_assignments_hold, reports_read_back, schedules_are_lawful,
    texts_of_schedules_are_lawful, texts_of_traces_are_lawful,
};
