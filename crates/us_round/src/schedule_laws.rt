//! Laws of the schedule, each as the contract of a function that does nothing. Rounds from the opening on are those of
//! accepted tables, which end in time, and of cuts with a number for each word.

ghost use Rattle.us_round.specs.MinimumRates.{MinimumRatesAreKept};
ghost use Rattle.us_round.specs.ScheduleLaws.{BytesAreKept, CalendarsRun, ChannelsStay, MapsAreLawful, OnePassDoes, RoundsAreNumbered, RoundsAreSound, ScheduleIsOfBegunRounds, TablesStay};

/// A schedule is what its rounds come to, each from the state that it begins with. They are numbered one after another,
/// and are of the same tables.
pub fn rounds_follow_on()
    ensures begun { ScheduleIsOfBegunRounds }
    ensures numbers { RoundsAreNumbered }
    ensures tables { TablesStay }
{}

/// Every round from the opening on is sound.
pub fn rounds_are_sound()
    ensures { RoundsAreSound }
{}

/// Where no flow has a minimum rate, every round from the opening on is planned in one pass.
pub fn one_pass_does()
    ensures { OnePassDoes }
{}

/// What is planned first of a flow with a minimum rate keeps the bound of that rate over every span of rounds, and its reserve
/// is in each round the most that keeps it.
pub fn minimum_rates_are_kept()
    ensures { MinimumRatesAreKept }
{}

/// A round's channels are those of the tables, and the calendar of each goes over the boards of its reserves, with the cuts of
/// the rounds.
pub fn calendars_run()
    ensures channels { ChannelsStay }
    ensures settled { CalendarsRun }
{}

/// After any rounds from the opening on, each byte that a cluster asked for is outstanding or was credited.
pub fn bytes_are_kept()
    ensures { BytesAreKept }
{}

/// The MAP of every channel in every round from the opening on is lawful.
pub fn maps_are_lawful()
    ensures { MapsAreLawful }
{}
