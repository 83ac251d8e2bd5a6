use std::fmt;
use us_reports::{Breach, Place, Rule};

/// What is answered of a maps file and a report.
#[derive(Clone, Copy, Debug, PartialEq, Eq)]
pub enum Verdict {
    /// Both are lawful.
    Holds,
    /// This rule is broken there, and each rule before it holds. Of its parts, if it has several, those before the
    /// broken one hold everywhere, and that one holds at all places that go before this one: by round, then by channel
    /// (0 first, then those of the table in its order, then others by number), then by place.
    Broken {
        /// The rule.
        rule: Rule,
        /// The round; 0 where the rule is of no round.
        round: u64,
        /// The id of the channel; 0 where the rule is of no channel, or of all.
        channel: u64,
        /// The index of a record (P1, P2), a minislot (P3), or the id of a flow or of a station that a line or the tables
        /// name (P4, P5, P6); 0 of a line whose round or channel the run lacks (P3), and of the U line (P6).
        place: u64,
    },
}

impl Verdict {
    ghost use Rattle.std.specs.Prelude.{◌≡◌};
    ghost use Rattle.us_check.specs.Verdicts.{breach_of};

    /// The rule that is broken, and where; none where both are lawful.
    pub fn breach(self) -> Option<Breach>
        ensures { result ≡ breach_of self }
    {
        match self {
            Verdict::Holds => None,
            Verdict::Broken {
                rule,
                round,
                channel,
                place,
            } => Some(Breach {
                rule,
                place: Place {
                    round,
                    channel,
                    third: place,
                },
            }),
        }
    }
}

/// The verdict as it is printed: `holds`, or `broken`, the rule's code and the three numbers.
impl fmt::Display for Verdict {
    ghost use Rattle.std.specs.Prelude.{Some};
    ghost use Rattle.us_check.specs.Verdicts.{verdict_text};

    ghost output = { λ verdict. Some (verdict_text verdict) };

    fn fmt<W: fmt::Write>(&self, f: &mut fmt::Formatter<W>) -> fmt::Result {
        match *self {
            Verdict::Holds => f.write_str("holds"),
            Verdict::Broken {
                rule,
                round,
                channel,
                place,
            } => write!(f, "broken {} {round} {channel} {place}", rule.code()),
        }
    }
}

impl From<Breach> for Verdict {
    ghost use Rattle.std.specs.Prelude.{◌≡◌};
    ghost use Rattle.us_check.specs.declared.verdicts.Verdict.TheVariants as verdicts;

    ghost from_gives = { λ breach verdict. verdict ≡
        verdicts.Broken breach.rule breach.place.round breach.place.channel breach.place.third };

    fn from(breach: Breach) -> Verdict {
        Verdict::Broken {
            rule: breach.rule,
            round: breach.place.round,
            channel: breach.place.channel,
            place: breach.place.third,
        }
    }
}
