//! Laws of the grammars, each as the contract of a function that does nothing.

ghost use Rattle.us_codec.specs.Laws.{OneReading, OneSpelling};

/// No bytes are the bodies of two MAPs.
pub fn one_spelling()
    ensures { OneSpelling }
{}

/// No bytes are two maps files.
pub fn one_reading()
    ensures { OneReading }
{}
