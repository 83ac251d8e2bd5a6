//! Laws of the definitions of steps and plays, each as the contract of a function that does nothing. Where they speak of
//! words, each row is of one of the words.

ghost use Rattle.us_steps.specs.Laws.{MachineMakesRounds, EachChannelIsFilled, SeatsChangeNothing, PlaysAreRounds, NothingIsLost};
ghost use Rattle.us_steps.specs.MachinePlays.{MachineRunsAreSchedules};
ghost use Rattle.us_steps.specs.Replaying.{TakingNothing, ReplaysAreComplete};

/// The machine goes through complete lists of steps alone. It ends with the words and the cut that `play` tells, and each
/// channel as the round of that cut has it, in whichever order channels were opened and built; and what the seats added
/// and took balances.
pub fn machine_makes_rounds()
    ensures { MachineMakesRounds }
{}

/// The channels that the machine opens and builds are all that the tables have.
pub fn each_channel_is_filled()
    ensures { EachChannelIsFilled }
{}

/// Whoever adds and takes, all but what is told of seats comes out the same.
pub fn seats_change_nothing()
    ensures { SeatsChangeNothing }
{}

/// Plays one after another, each from the state and the words that the last one left, are the schedule over their cuts.
pub fn plays_are_rounds()
    ensures { PlaysAreRounds }
{}

/// Where all plays are complete, the cuts of a word and what is left in it are what it had at first, and all its rows.
pub fn nothing_is_lost()
    ensures { NothingIsLost }
{}

/// The machine goes, play after play, through plays whose steps are all complete, and through no others. From the opening on
/// its rounds are the schedule over the cuts that the plays tell, and leave its state; and a word's cuts and what is left in
/// it are what it had at first, and all its rows.
pub fn machine_runs_are_schedules()
    ensures { MachineRunsAreSchedules }
{}

/// Where no channel is open, to take a word that holds nothing and wasn't taken changes neither words nor cut nor what seats
/// took; it counts as taken then.
pub fn taking_nothing()
    ensures { TakingNothing }
{}

/// A replay takes the words that its rows name, and no others. With a take of each other word, and of each named one where it
/// comes first, its steps are a complete list, with the same cut, and leave nothing in any word.
pub fn replays_are_complete()
    ensures { ReplaysAreComplete }
{}
