ghost use Rattle.std.specs.Prelude.{◌≡◌, ◌<◌, ◌≤◌, ◌⊎◌, ◌↔◌, ℕ, [], Option, Err, IsOk, OnOk, IfOk, IfErr};
ghost use Rattle.us_crew.specs.Items.{AreAccepted};
ghost use Rattle.us_crew.specs.Values.{values_of};
ghost use Rattle.us_crew.specs.Faults.{AreFaults, AreSound, NamesFault, SaysFirst, first_fault};
ghost use Rattle.us_crew.specs.Tasks.{IsReadyTask, TellsTask};

use super::answers::{Answered, together};
use super::parts::{Parts, by_halves, in_equal_parts};
use super::tasks::Task;
use crate::{Beside, Crew, CrewFault, Gate, Mailboxes, Phase, Work, with_crew};
use std::alloc::Global;
use std::sync::Wait;
use std::thread::Threads;

/// The most workers (ours).
pub const MAX_WORKERS: usize = 64;

/// Moves items to workers, which do the work with them, and answers what it gives for each, in the order of the items.
///
/// Workers get items that stand side by side: half of the workers the first half, and so on. Each enters the gate
/// before each item. A worker is whoever does one of these parts: the calling thread the first, and then what no other
/// thread has begun; so it does all where no thread can be started.
///
/// On a fault the items are given up. Before anything is answered, every worker is done.
pub fn map_owned<
    W: Work<T, R, E> + Sync,
    G: Gate + Sync,
    H: Threads + Wait + Sync,
    T: Send + Drop,
    R: Send + Drop,
    E: Send + Drop,
>(
    threads: &H,
    alloc: Global,
    work: &W,
    phase: Phase,
    items: Vec<T>,
    workers: usize,
    gate: &G,
) -> Result<Vec<R>, CrewFault<E>>
    requires { AreAccepted (G.entered gate.now phase) (W.accepts work.now) items.items }
    ensures workers { (result ≡ Err CrewFault.Workers) ↔ ((workers ≡ 0) ⊎ (64 < workers)) }
    ensures values { IfOk result (λ answers. answers.items ≡ values_of (W.value work.now) items.items) }
    ensures sound { OnOk result (AreSound (W.must_fail work.now) items.items) }
    ensures first { IfErr result (λ said. SaysFirst (W.may_fail work.now) (W.must_fail work.now) items.items said) }

    // Where the faults are a function of the items, so is what is answered, unless memory runs out.
    ensures named { (fault_of : ℕ → T → Option E) → AreFaults fault_of (W.may_fail work.now) (W.must_fail work.now) →
        NamesFault (first_fault fault_of items.items) result }

    // No memory is taken for no items.
    ensures none { items.items ≡ [] → 1 ≤ workers → workers ≤ 64 → IsOk result }

    // The limit that the clauses name.
    ensures limit { MAX_WORKERS ≡ 64 }
{
    if workers == 0 || workers > MAX_WORKERS {
        return Err(CrewFault::Workers);
    }
    if items.is_empty() {
        return Ok(Vec::new(alloc));
    }
    let parts = by_halves(workers, items.len());
    let task = Task {
        alloc,
        work,
        gate,
        phase,
        start: 0,
        items,
    };
    by_own_crew(threads, task, &parts)
}

/// Does a task in these parts, by a crew of its own.
fn by_own_crew<
    W: Work<T, R, E> + Copy + Sync + Send + Drop,
    G: Gate + Copy + Sync + Send + Drop,
    H: Threads + Wait + Sync,
    T: Send + Drop,
    R: Send + Drop,
    E: Send + Drop,
>(threads: &H, task: Task<W, G, T>, parts: &Parts) -> Answered<R, E>
    requires { IsReadyTask G.entered W.accepts task }
    ensures { TellsTask W.value W.may_fail W.must_fail task result }
{
    let helpers = parts.len().saturating_sub(1);
    if helpers == 0 {
        return task.run();
    }
    let mailboxes = Mailboxes::open(task.alloc, helpers)?;
    let mailboxes = &mailboxes;
    with_crew(
        threads,
        helpers,
        mailboxes,
        InParts {
            mailboxes,
            parts,
            task,
        },
    )
}

/// A task that a crew does in parts.
#[derive(Drop)]
struct InParts<'a, W: Work<T, R, E>, G: Gate, T, R, E> {
    mailboxes: &'a Mailboxes<W, G, T, R, E>,
    parts: &'a Parts,
    task: Task<W, G, T>,
}

impl<
    'a,
    W: Work<T, R, E> + Copy + Drop,
    G: Gate + Copy + Drop,
    T: Drop,
    R: Drop,
    E: Drop,
    H: Wait,
> Beside<H> for InParts<'a, W, G, T, R, E> {
    type Output = Answered<R, E>;

    ghost can_run = { λ run. IsReadyTask G.entered W.accepts run.task };

    ghost gives = { λ run result. TellsTask W.value W.may_fail W.must_fail run.task result };

    fn run(self, crew: &Crew<'_, H>) -> Answered<R, E> {
        in_parts(crew, self.mailboxes, self.parts.as_slice(), self.task)
    }
}

/// Does the work with items as `map_owned` does, by a crew: no thread is started. Its workers get items that stand side
/// by side, as equal parts as can be, and the owner the first: one part for each mailbox and the owner, or for each item
/// where these are fewer. Each enters the gate before each item.
///
/// Each part beside the first costs a list of its items and a ring for its answer, and all together one call. The owner
/// waits for all parts, and does those that nobody has begun. So all are done when this returns, also after want of
/// memory, and the crew may go on. After that the helpers may not have been called, and the owner does what they would.
///
/// On a fault the items are given up.
pub fn map_kept<
    W: Work<T, R, E> + Copy + Drop,
    G: Gate + Copy + Drop,
    H: Wait,
    T: Drop,
    R: Drop,
    E: Drop,
>(
    crew: &Crew<'_, H>,
    mailboxes: &Mailboxes<W, G, T, R, E>,
    alloc: Global,
    work: W,
    phase: Phase,
    items: Vec<T>,
    gate: G,
) -> Result<Vec<R>, CrewFault<E>>
    requires { AreAccepted (G.entered gate phase) (W.accepts work) items.items }
    ensures values { IfOk result (λ answers. answers.items ≡ values_of (W.value work) items.items) }
    ensures sound { OnOk result (AreSound (W.must_fail work) items.items) }
    ensures first { IfErr result (λ said. SaysFirst (W.may_fail work) (W.must_fail work) items.items said) }
    ensures named { (fault_of : ℕ → T → Option E) → AreFaults fault_of (W.may_fail work) (W.must_fail work) →
        NamesFault (first_fault fault_of items.items) result }

    // No memory is taken for no items.
    ensures none { items.items ≡ [] → IsOk result }

    // The workers that there are can't be blamed.
    ensures workers { ¬ (result ≡ Err CrewFault.Workers) }
{
    if items.is_empty() {
        return Ok(Vec::new(alloc));
    }
    let workers = mailboxes.len().min(MAX_WORKERS - 1) + 1;
    let parts = in_equal_parts(workers.min(items.len()), items.len());
    let task = Task {
        alloc,
        work,
        gate,
        phase,
        start: 0,
        items,
    };
    in_parts(crew, mailboxes, parts.as_slice(), task)
}

/// Does a task in parts of these lengths, of which the owner does the first.
fn in_parts<
    W: Work<T, R, E> + Copy + Drop,
    G: Gate + Copy + Drop,
    H: Wait,
    T: Drop,
    R: Drop,
    E: Drop,
>(
    crew: &Crew<'_, H>,
    mailboxes: &Mailboxes<W, G, T, R, E>,
    lengths: &[usize],
    mut task: Task<W, G, T>,
) -> Answered<R, E>
    requires { IsReadyTask G.entered W.accepts task }
    ensures { TellsTask W.value W.may_fail W.must_fail task result }
{
    if lengths.len() < 2 {
        return task.run();
    }
    let others = lengths.len() - 1;
    let last = task.cut_off(lengths[others])?;
    let pending = mailboxes.put(others - 1, last)?;
    if others == 1 {
        crew.call();
    }
    let front = in_parts(crew, mailboxes, &lengths[..others], task);
    let Some(back) = pending.answer(crew, mailboxes) else {
        return Err(CrewFault::NoMemory);
    };
    together(front, back)
}
