//! A law of the definitions of this crate, as the contract of a function that does nothing.

ghost use Rattle.us_holes.specs.Laws.{AssignmentsStandInOrder};

/// Assignments that fitted on idle minislots, one after another and each with a minislot, are apart and inside by their
/// starts, and the runs of the board are they and the gaps between them.
pub fn assignments_stand_in_order()
    ensures { AssignmentsStandInOrder }
{}
