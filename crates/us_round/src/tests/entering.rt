ghost use Rattle.std.specs.Prelude.{⊤};

use super::base::{answer_of, same};
use super::rounds::BONDED;
use std::alloc::{AllocError, Global};
use std::sync::atomic::{AtomicUsize, Ordering};
use std::test::Fail;
use us_crew::{Gate, Phase};

/// A gate that holds nobody, and counts who enters: by phase, and in it by the number of the channel.
#[derive(Drop)]
struct Counting {
    collects: Vec<AtomicUsize>,
    fills: Vec<AtomicUsize>,
    builds: Vec<AtomicUsize>,
    /// For numbers that no channel has.
    others: AtomicUsize,
}

/// A counter for each of two channels.
fn counters(alloc: Global) -> Result<Vec<AtomicUsize>, AllocError> {
    let mut counters = Vec::new(alloc);
    counters.push(AtomicUsize::new(0))?;
    counters.push(AtomicUsize::new(0))?;
    Ok(counters)
}

impl Counting {
    fn new(alloc: Global) -> Result<Counting, AllocError> {
        Ok(Counting {
            collects: counters(alloc)?,
            fills: counters(alloc)?,
            builds: counters(alloc)?,
            others: AtomicUsize::new(0),
        })
    }

    /// What was counted, phase by phase, a digit for each channel.
    fn tell(&self, alloc: Global) -> Result<String, AllocError> {
        let mut text = String::new(alloc);
        for counters in [&self.collects, &self.fills, &self.builds] {
            for counter in counters {
                write!(text, "{}", counter.load(Ordering::SeqCst))?;
            }
            text.push(' ')?;
        }
        write!(text, "{}", self.others.load(Ordering::SeqCst))?;
        Ok(text)
    }
}

impl Gate for Counting {
    ghost entered = { λ _ _ _. ⊤ };

    fn enter(&self, phase: Phase, index: usize) {
        let counters = match phase {
            Phase::Collect => &self.collects,
            Phase::Fill => &self.fills,
            Phase::Build => &self.builds,
        };
        let counter = counters.get(index).unwrap_or(&self.others);
        counter.fetch_add(1, Ordering::SeqCst);
    }
}

/// In each of two rounds each of two channels is entered for once in both phases, also by one worker, for whom no thread
/// is started.
#[test]
fn entered_once(rt: HostRuntime) -> Result<(), Fail> {
    for workers in [1, 2, 64] {
        let gate = Counting::new(rt.alloc())?;
        let answer = answer_of(&rt, rt.alloc(), &BONDED, workers, &gate)?;
        same(&rt, BONDED.name, answer.as_str(), BONDED.answer);
        let told = gate.tell(rt.alloc())?;
        same(&rt, "entered once", told.as_str(), "00 22 22 0");
    }
    Ok(())
}
