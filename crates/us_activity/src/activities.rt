ghost use Rattle.std.specs.Prelude.{◌≡◌, IfOk};
ghost use Rattle.us_activity.specs.Marks as spec;
ghost use Rattle.us_activity.specs.Activities.{AreMarksOf};
ghost use Rattle.us_activity.specs.Kept.{AreInOrder};

use crate::marks::{Mark, marks_in};
use crate::orders::{count_up_to, ordered};
use crate::silent_words::silent_words;
use std::alloc::Global;
use std::marker::Model;
use us_flows::Config;
use us_requests::Trace;
use us_slots::NoMemory;

/// Which of the flows that tell their activity are active in which rounds of a trace.
#[derive(Drop)]
pub struct Activities {
    marks: Vec<Mark>,
}

impl Model for Activities {
    ghost Value = { spec.Marks };

    ghost view = { λ a. a.marks.items };

    ghost invariant = { λ a. AreInOrder a.marks.items };
}

impl Activities {
    /// Those of a configuration, in the rounds of a trace. An ask by a cluster's word is no mark.
    pub fn of(alloc: Global, config: &Config, trace: &Trace) -> Result<Activities, NoMemory>
        ensures { IfOk result (AreMarksOf config.now trace.now) }
    {
        let silent = silent_words(alloc, config)?;
        if !silent.contains(&true) {
            return Ok(Activities {
                marks: Vec::new(alloc),
            });
        }
        let marks = marks_in(alloc, &silent, trace)?;
        Ok(Activities {
            marks: ordered(marks),
        })
    }

    /// Whether the flow that this word marks as silent is active in a round. Behind the last round it is as in that one. By
    /// a word that marks no flow as silent the answer is always that it is.
    pub fn is_active(&self, word: u16, round: u128) -> bool
        ensures { result ≡ spec.is_active self.now word round }
    {
        let count = count_up_to(&self.marks, word, round);
        if count == 0 {
            return true;
        }
        let last = self.marks[count - 1];
        last.word != word || last.active
    }
}
