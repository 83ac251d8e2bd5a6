//! Work moved to worker threads and back: owned items go out, and answers come back in the order of the items.
//!
//! ```
//! // `Doubling` answers twice its item
//! map_owned(threads, alloc, &Doubling, Phase::Build, items, 3, &OpenGate)? // of 1, 2, 3, 4, 5: 2, 4, 6, 8, 10
//!
//! // the same within a crew of three, which may be given more work: `Run` is a value that is run with the crew
//! let mailboxes = Mailboxes::open(alloc, 2)?;
//! with_crew(threads, 2, &mailboxes, Run { .. })
//! // and in its `run`
//! map_kept(crew, mailboxes, alloc, Doubling, Phase::Build, items, OpenGate)
//! ```
//!
//! What these words mean stands in `specs/`, in the order of its `Lib.antt`.
//!
//! May wait, and take a handle or a crew that has one: [`map_owned`], [`with_crew`], [`map_kept`], `run` of a [`Beside`].
#![tactic(auto)]

// What is done with an item.
mod works;

// Where workers may be held before an item.
mod gates;

// Why there are no answers.
mod faults;

// How many items each worker gets.
mod parts;

// Items that stand side by side, with what is to be done with them,
mod tasks;

// done one after the other.
mod turns;

// What is answered for two parts together.
mod answers;

// A task on its way to a worker, and its answer on the way back.
mod orders;

// Where a worker finds its task.
mod mailboxes;

// How one waits.
mod patience;

// How workers are called.
mod calls;

// The owner and its helpers.
mod crews;

// A task that was handed out.
mod pendings;

// Items by the workers of a crew.
mod mapping;

pub use crews::{Beside, Crew, with_crew};
pub use faults::CrewFault;
pub use gates::{Gate, OpenGate, Phase};
pub use mailboxes::{Mail, Mailboxes};
pub use mapping::{MAX_WORKERS, map_kept, map_owned};
pub use works::Work;
