//! Laws, each as the contract of a function that does nothing. Schedules are those of accepted tables, of rounds that fit
//! into a run, and of cuts with a number for each word.

ghost use Rattle.us_lawful.specs.Laws.{LinesHaveFields, OrderedAssignmentsHold, ReportsReadBack, SchedulesAreLawful, TextsOfSchedulesAreLawful, TextsOfTracesAreLawful};

/// All that a schedule gives is lawful.
pub fn schedules_are_lawful()
    ensures { SchedulesAreLawful }
{}

/// So are the maps file and the report of a schedule, where all numbers of its lines have 64 bits.
pub fn texts_of_schedules_are_lawful()
    ensures { TextsOfSchedulesAreLawful }
{}

/// All numbers of the lines of a schedule have 64 bits, where those of its counts have, and of each word all cuts together.
pub fn lines_have_fields()
    ensures { LinesHaveFields }
{}

/// The maps file and the report of the schedule of any trace without a fault are lawful.
pub fn texts_of_traces_are_lawful()
    ensures { TextsOfTracesAreLawful }
{}

/// The report of a schedule reads back as its lines.
pub fn reports_read_back()
    ensures { ReportsReadBack }
{}

/// Assignments in order, with the gaps between them, are lawful at every minislot.
pub fn ordered_assignments_hold()
    ensures { OrderedAssignmentsHold }
{}
