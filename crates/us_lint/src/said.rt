use crate::findings::VerdictFile;
use crate::lines::Lines;
use crate::phrases::{NOTHING, Name, Phrase, Text};
use std::fmt;
use us_codec::MapFault;
use us_reports::Place;

/// What is said of a broken rule: the file, the place, and what is wrong there: the fault of a record, or phrases that follow
/// one another.
#[derive(Clone, Copy)]
pub(crate) struct Said {
    pub(crate) file: VerdictFile,
    pub(crate) place: Phrase,
    pub(crate) fault: Option<MapFault>,
    pub(crate) wrong: [Phrase; 6],
}

/// Writes the place, and what is wrong there.
impl fmt::Display for Said {
    fn fmt<W: fmt::Write>(&self, f: &mut fmt::Formatter<W>) -> fmt::Result {
        write!(f, "{}", self.place)?;
        if let Some(fault) = self.fault {
            write!(f, "{fault}")?;
        }
        for phrase in &self.wrong {
            write!(f, "{phrase}")?;
        }
        Ok(())
    }
}

impl Said {
    /// What is wrong at a place, in one phrase.
    pub(crate) fn at(file: VerdictFile, place: Phrase, wrong: Phrase) -> Said {
        let mut phrases = [NOTHING; 6];
        phrases[0] = wrong;
        Said {
            file,
            place,
            fault: None,
            wrong: phrases,
        }
    }

    /// What is said of lines before and behind them.
    pub(crate) fn of_lines(
        file: VerdictFile,
        place: Phrase,
        before: Phrase,
        lines: Lines,
        behind: [Phrase; 3],
    ) -> Said {
        let [a, b, c] = behind;
        Said {
            file,
            place,
            fault: None,
            wrong: [before, lines.named(), lines.more(), a, b, c],
        }
    }

    /// The same at the first of them, with one phrase behind.
    pub(crate) fn at_lines(place: Phrase, before: Phrase, lines: Lines, behind: Phrase) -> Said {
        let behind = [behind, NOTHING, NOTHING];
        Said::of_lines(lines.file(), place, before, lines, behind)
    }

    /// There are these lines, in place of so many.
    pub(crate) fn count(wanted: u64, lines: Lines, place: Phrase) -> Said {
        Said::at_lines(place, Phrase::of(Text::Lines, wanted), lines, NOTHING)
    }
}

/// The round, the channel and the id of a verdict.
pub(crate) fn place_of(at: Place) -> Phrase {
    Phrase::new(Text::Place, [at.round, at.channel, at.third, 0])
}

/// The first of some numbers that isn't between the least and the most that are wanted, these among them.
pub(crate) fn first_other(
    names: &[Name],
    least: &[u64],
    most: &[u64],
    there: &[u64],
) -> Option<Phrase> {
    for (place, name) in names.iter().enumerate() {
        let (least, most) = (number_at(least, place), number_at(most, place));
        let there = number_at(there, place);
        if (there < least) | (most < there) {
            return Some(Phrase::between(*name, least, most, there));
        }
    }
    None
}

/// The number at a place, 0 behind all of them.
fn number_at(numbers: &[u64], place: usize) -> u64 {
    numbers.get(place).copied().unwrap_or(0)
}
