//! Laws of the definitions of what a round gives, each as the contract of a function that does nothing.

ghost use Rattle.us_output.specs.OutputLaws.{ByStartMoves, LinesBearRound};

/// Lines of grants in the order of their starts are the same lines, each once.
pub fn lines_are_of_grants()
    ensures { ByStartMoves }
{}

/// Each line of a channel bears the number of the round and the id of the channel.
pub fn lines_bear_round()
    ensures { LinesBearRound }
{}
