ghost use Rattle.std.specs.Prelude.{◌/◌, ⊤};

use super::base::{Case, Doubling, Told, numbers_to, tell};
use std::alloc::Global;
use std::sync::Wait;
use std::thread::{Parker, Threads, yield_now};
use us_crew::{Beside, Crew, CrewFault, Gate, Mail, Mailboxes, Phase, Work, map_kept, with_crew};

/// Halves numbers, and refuses none.
#[derive(Clone, Copy)]
pub(super) struct Halving;

impl Work<u64, u64, u64> for Halving {
    ghost accepts = { λ _ _ _. ⊤ };

    ghost value = { λ _ _ number. number / 2 };

    ghost may_fail = { λ _ _ _ _. ⊥ };

    ghost must_fail = { λ _ _ _. ⊥ };

    fn run(&self, _alloc: Global, _index: usize, number: u64) -> Result<u64, u64> {
        Ok(number / 2)
    }
}

type Tasks<W, G> = Mailboxes<W, G, u64, u64, u64>;

/// Where helpers find the tasks of both.
#[derive(Drop)]
struct BothMail<'a, G: Gate> {
    doubles: &'a Tasks<Doubling, G>,
    halves: &'a Tasks<Halving, G>,
}

impl<'a, G: Gate + Drop> Mail for BothMail<'a, G> {
    fn serve(&self, worker: usize, owner: &Parker) {
        self.doubles.serve(worker, owner);
        self.halves.serve(worker, owner);
    }
}

/// The rounds of a case by a crew that is kept: two phases, of different works.
#[derive(Drop)]
struct Rounds<'a, G: Gate> {
    alloc: Global,
    case: &'a Case,
    gate: G,
    mail: &'a BothMail<'a, G>,
}

/// The turns in which whoever waits falls asleep, and more.
pub(super) const LONG: u32 = 5_000;

/// Takes so many turns in which nothing is called.
pub(super) fn pause(turns: u32) {
    for _ in 0..turns {
        yield_now();
    }
}

impl<'a, G: Gate + Copy + Drop> Rounds<'a, G> {
    /// What the first phase tells.
    fn doubled<H: Wait>(&self, crew: &Crew<'_, H>) -> Told {
        let Ok(numbers) = numbers_to(self.alloc, self.case.numbers) else {
            return Err(CrewFault::NoMemory);
        };
        let most = self.case.most;
        let answer = map_kept(
            crew,
            self.mail.doubles,
            self.alloc,
            Doubling { most },
            self.case.phase,
            numbers,
            self.gate,
        );
        tell(Ok(0), answer, self.case.base)
    }

    /// What both tell, the digits of the second behind those of the first.
    fn halved<H: Wait>(&self, crew: &Crew<'_, H>, front: Told) -> Told {
        let Ok(numbers) = numbers_to(self.alloc, self.case.numbers) else {
            return Err(CrewFault::NoMemory);
        };
        let answer = map_kept(
            crew,
            self.mail.halves,
            self.alloc,
            Halving,
            Phase::Build,
            numbers,
            self.gate,
        );
        tell(front, answer, self.case.base)
    }
}

impl<'a, G: Gate + Copy + Drop, H: Wait> Beside<H> for Rounds<'a, G> {
    /// The first round that isn't answered as it has to be, or the last.
    type Output = Told;

    ghost can_run = { λ _. ⊤ };

    ghost gives = { λ _ _. ⊤ };

    fn run(self, crew: &Crew<'_, H>) -> Told {
        let mut told = self.case.answer;
        for _ in 0..self.case.rounds {
            pause(self.case.pause);

            // A fault of the first phase keeps nobody from the second.
            let front = self.doubled(crew);
            told = self.halved(crew, front);
            if told != self.case.answer {
                break;
            }
        }
        told
    }
}

/// Rounds by parts for the workers of the case, whatever threads there are.
pub(super) fn by_kept<H: Threads + Wait + Sync, G: Gate + Copy + Sync + Send + Drop>(
    threads: &H,
    alloc: Global,
    case: &Case,
    gate: G,
) -> Told {
    let others = case.workers.saturating_sub(1);
    let Ok(doubles) = Mailboxes::open(alloc, others) else {
        return Err(CrewFault::NoMemory);
    };
    let Ok(halves) = Mailboxes::open(alloc, others) else {
        return Err(CrewFault::NoMemory);
    };
    let mail = BothMail {
        doubles: &doubles,
        halves: &halves,
    };
    with_crew(
        threads,
        others.min(case.helpers),
        &mail,
        Rounds {
            alloc,
            case,
            gate,
            mail: &mail,
        },
    )
}
