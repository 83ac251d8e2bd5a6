//! Laws of the definitions of the calendar, each as the contract of a function that does nothing. Channels, entries and
//! rounds are those of accepted tables.

ghost use Rattle.us_calendar.specs.ByCuts.{SettlesByCuts};
ghost use Rattle.us_calendar.specs.Laws.{AreOccurrences, EntriesAreApart, EntriesAreLawful, EntriesHaveWords, FirstOnes, GrantsFit, KindsAsHeard, RowsStandFirst, SettledOnce};

/// An entry of a kind and an id stands on one channel, and is one.
pub fn entries_are_apart()
    ensures { EntriesAreApart }
{}

/// Entries of accepted tables are lawful, and their grants have room in a MAP.
pub fn entries_are_lawful()
    ensures { EntriesAreLawful }
{}

/// An entry whose activity is detected has the words of its flow.
pub fn entries_have_words()
    ensures { EntriesHaveWords }
{}

/// What is settled of an entry are its first occurrences, and so they are after a round, of which one interval is open at most.
pub fn first_ones()
    ensures { FirstOnes }
{}

/// After any number of rounds the first occurrences of each entry of a channel are settled, and no others.
pub fn rows_stand_first()
    ensures { RowsStandFirst }
{}

/// A round leaves the board with what it granted, each where it fitted.
pub fn grants_fit()
    ensures { GrantsFit }
{}

/// What is kept of which flows are silent is what the cuts say.
pub fn kinds_as_heard()
    ensures { KindsAsHeard }
{}

/// After any rounds the next one settles what all cuts so far say: each interval is of the kind that they tell at its ideal
/// time, and each grant starts at the least minislot of its window in this MAP where it fits.
pub fn settles_by_cuts()
    ensures { SettlesByCuts }
{}

/// Each occurrence that comes is granted in its window or missed, once, where its window ends in a run.
pub fn settled_once()
    ensures { SettledOnce }
{}

/// All that the rounds of a channel settle are occurrences of its entries.
pub fn all_are_occurrences()
    ensures { AreOccurrences }
{}
