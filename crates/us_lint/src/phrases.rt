use std::fmt;

/// Words with numbers among them: a name, and behind it a text that has a number in the place of each `#`. Of these words it
/// has only which they are, so that it holds no reference.
#[derive(Clone, Copy)]
pub(crate) struct Phrase(Name, Text, [u64; 4]);

/// Nothing is said.
pub(crate) const NOTHING: Phrase = Phrase(Name::Nothing, Text::Nothing, [0; 4]);

impl Phrase {
    /// A text with up to four numbers.
    pub(crate) fn new(text: Text, numbers: [u64; 4]) -> Phrase {
        Phrase(Name::Nothing, text, numbers)
    }

    /// A text with one number.
    pub(crate) fn of(text: Text, number: u64) -> Phrase {
        Phrase(Name::Nothing, text, [number, 0, 0, 0])
    }

    /// That one number is wanted, and another is there.
    pub(crate) fn wanted(name: Name, wanted: u64, there: u64) -> Phrase {
        Phrase(name, Text::Wanted, [wanted, there, 0, 0])
    }

    /// That a number between two is wanted, these among them, and another is there.
    pub(crate) fn between(name: Name, least: u64, most: u64, there: u64) -> Phrase {
        if least == most {
            Phrase(name, Text::Wanted, [least, there, 0, 0])
        } else {
            Phrase(name, Text::RangeWanted, [least, most, there, 0])
        }
    }
}

impl fmt::Display for Phrase {
    fn fmt<W: fmt::Write>(&self, f: &mut fmt::Formatter<W>) -> fmt::Result {
        let Phrase(name, text, numbers) = *self;
        let text = us_findings::Sentence(TEXTS[text as usize], numbers);
        write!(f, "{}{text}", NAMES[name as usize])
    }
}

/// What a number is called.
#[derive(Clone, Copy)]
pub(crate) enum Name {
    Nothing,
    Round,
    Channel,
    UcdCount,
    AllocStart,
    AckTime,
    RangingStart,
    RangingEnd,
    DataStart,
    DataEnd,
    Length,
    Records,
    RoundOfRun,
    Channels,
    Entries,
    K,
    Sid,
    Iuc,
    Slots,
    Credit,
    Start,
    ClosingRound,
    Flows,
    RequestingFlows,
    FlowsOnChannel,
    I,
    SlotsOfCredit,
    Outstanding,
    NumbersWithoutRate,
    NumbersWithRate,
    Units,
    Active,
    Unknown,
    NotRequestable,
    Late,
}

/// These, in the same order.
static NAMES: [&str; 35] = [
    "",
    "round",
    "channel",
    "UCD Count",
    "Alloc Start Time",
    "Ack Time",
    "Ranging Backoff Start",
    "Ranging Backoff End",
    "Data Backoff Start",
    "Data Backoff End",
    "length in minislots",
    "records",
    "round, below --rounds",
    "channels with this id",
    "flows or stations with this entry and id",
    "k",
    "SID",
    "IUC",
    "slots",
    "credit",
    "start, counted from round 0",
    "round in which the window closes",
    "flows with this id",
    "flows of types 2, 3 and 4 with this id",
    "flows on this channel with this id",
    "i",
    "slots of the credit",
    "outstanding",
    "numbers in the place of -, as the rate is 0",
    "numbers in the place of -, as the flow has a rate",
    "units",
    "active",
    "unknown",
    "not_requestable",
    "late",
];

/// What is said, or is said of a number that has a name.
#[derive(Clone, Copy)]
pub(crate) enum Text {
    Nothing,
    Wanted,
    RangeWanted,
    NoLine,
    OneLine,
    TwoLines,
    ThreeLines,
    FourLines,
    FiveLines,
    MoreLines,
    Place,
    Map,
    Flow,
    Cluster,
    Record,
    RecordOfMap,
    FinalLine,
    FinalLinesFrom,
    ActivityLine,
    CountsLine,
    FileEnd,
    Rounds,
    Minislot,
    LineSpan,
    MaintenanceSpan,
    ContentionSpan,
    Gap,
    MapSpan,
    Occurrence,
    Starts,
    Credited,
    Bucket,
    Left,
    Lines,
}

/// These, in the same order.
static TEXTS: [&str; 34] = [
    "",
    ": # is wanted, # is there",
    ": # to # is wanted, # is there",
    "no line",
    "this line",
    "this line and line #",
    "this line and line # and line #",
    "this line and line # and line # and line #",
    "this line and line # and line # and line # and line #",
    " and # more",
    "round #, channel #, id #: ",
    "round #, channel #: ",
    "round #, flow #: ",
    "round #, flow #, cluster #: ",
    "record #, at byte #: ",
    "record #, at byte # (round #, channel #): ",
    "F line of flow #, cluster #: ",
    "F line of flow #, cluster # or higher: ",
    "A line of flow #: ",
    "U line: ",
    ", at byte #",
    "the file has # rounds, --rounds says #",
    "minislot # of #: granted by ",
    "; this line has start #, slots #, SID #, IUC #",
    "; the maintenance reserve has start #, slots #, SID #, IUC #",
    "; the contention reserve has start #, slots #, SID #, IUC #",
    "; wanted is a gap, start #, slots #, SID #, IUC #",
    "; the MAP has start #, slots #, SID #, IUC #",
    "interval #, k #: lines wanted: 1; there is ",
    "; it may start from minislot # on, before #, counted from round 0",
    "# bytes are credited by ",
    "; the bucket has #",
    "; outstanding are #",
    "lines wanted: #; there is ",
];
