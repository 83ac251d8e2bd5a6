//! Laws, each as the contract of a function that does nothing.

ghost use Rattle.us_reports.specs.Reports.{OneReading};

/// Bytes have one reading: the rows whose lines they are, or the number of the first line that is of no row.
pub fn one_reading()
    ensures { OneReading }
{}
