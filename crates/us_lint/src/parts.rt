use crate::names::TableId;
use std::alloc::{AllocError, Global};
use us_findings::{Sentence, table_words};

/// What stands among the words of a warning. It holds no reference.
#[derive(Clone, Copy)]
pub(crate) enum Part {
    Number(u64),
    Text(Text),
    Table(TableId),
    /// So many of something.
    Counted(u64, Noun),
}

/// Words that not every warning of a kind has.
#[derive(Clone, Copy)]
pub(crate) enum Text {
    Nothing,
    First,
    WhileActive,
    Requests,
    Marks,
    NoRows,
}

/// These, in the same order.
static TEXTS: [&str; 6] = [
    "",
    "the first ",
    " while it is active",
    "requests alone, which are rows of kind 0",
    "marks alone, which are rows of kind 1 or 2",
    "no rows, since its grants come unasked",
];

/// What is counted.
#[derive(Clone, Copy)]
pub(crate) enum Noun {
    Row,
    Line,
    Window,
    Minislot,
    BusyChannel,
    UnknownSid,
    UnusedSid,
    SilentFlow,
    FlowWithoutMinislot,
    FlowWithoutRoom,
    StationWithoutMinislot,
    StationWithoutRoom,
}

/// These, in the same order: what one of them is called, and several, with `#` for how many there are.
static NOUNS: [[&str; 2]; 12] = [
    ["# row", "# rows, the first here"],
    ["# line", "# lines"],
    ["# window", "# windows"],
    ["# minislot", "# minislots"],
    [
        "# more channel whose calendar asks for too much",
        "# more channels whose calendars ask for too much, the first here",
    ],
    [
        "# more SID that no flow has",
        "# more SIDs that no flow has, the first here",
    ],
    [
        "# more SID with rows of a kind that its flow doesn't take",
        "# more SIDs with rows of kinds that their flows don't take, the first here",
    ],
    [
        "# more flow that no row of the trace names",
        "# more flows that no row of the trace names, the first here",
    ],
    [
        "# more flow with windows in which no minislot begins",
        "# more flows with windows in which no minislot begins, the first here",
    ],
    [
        "# more flow with windows that have no room for a grant",
        "# more flows with windows that have no room for a grant, the first here",
    ],
    [
        "# more station with windows in which no minislot begins",
        "# more stations with windows in which no minislot begins, the first here",
    ],
    [
        "# more station with windows that have no room for a grant",
        "# more stations with windows that have no room for a grant, the first here",
    ],
];

impl Part {
    /// What it is in words.
    fn words(self) -> Sentence {
        match self {
            Part::Number(number) => Sentence::of("#", number),
            Part::Text(text) => Sentence::plain(TEXTS[text as usize]),
            Part::Table(table) => table_words(table.place, Some(table.id as u64)),
            Part::Counted(count, noun) => {
                let is_one = count == 1;
                Sentence::of(NOUNS[noun as usize][!is_one as usize], count)
            }
        }
    }
}

/// Words with a part in the place of each `#`.
pub(crate) fn text_of(alloc: Global, words: &str, parts: &[Part]) -> Result<String, AllocError> {
    let mut text = String::new(alloc);
    let mut rest = words;
    for part in parts {
        let (before, behind) = rest.split_once('#').unwrap_or((rest, ""));
        write!(text, "{before}{}", part.words())?;
        rest = behind;
    }
    text.push_str(rest)?;
    Ok(text)
}
