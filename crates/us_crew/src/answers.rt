ghost use Rattle.std.specs.Prelude.{◌≡◌, ◌++◌, IfOk};
ghost use Rattle.us_crew.specs.Parts.{Together};

use crate::CrewFault;
use us_slots::NoMemory;

/// What is answered for items that stand side by side: an answer for each, or the first fault.
pub(crate) type Answered<R, E> = Result<Vec<R>, CrewFault<E>>;

/// The answers of two parts, or the first fault.
pub(crate) fn together<R: Drop, E: Drop>(
    front: Answered<R, E>,
    back: Answered<R, E>,
) -> Answered<R, E>
    ensures { Together (λ answers. answers.items) front back result }
{
    let front = front?;
    let back = back?;
    Ok(appended(front, back)?)
}

/// One list behind the other.
fn appended<R: Drop>(mut front: Vec<R>, mut back: Vec<R>) -> Result<Vec<R>, NoMemory>
    ensures { IfOk result (λ all. all.items ≡ front.items ++ back.items) }
{
    front.append(&mut back)?;
    Ok(front)
}
