//! What a replay writes, the checker holds: a law over `us_replay` and `us_check`, which know nothing of each other.
//!
//! ```
//! own_texts_hold(); // in a proof: the answer of `check` to what `replay` wrote is `Verdict::Holds`, or want of memory
//! ```
#![tactic(auto)]

ghost use Rattle.us_own_texts.specs.OwnTexts.{OwnTextsHold};

/// What a replay wrote that answered Ok holds, with the same tables and rounds, and a trace that was read of the same bytes,
/// unless memory is wanting. It takes what the clauses of `replay` (`lawful`), `Trace::read` (`read`) and `check` say, of a
/// source and of writers that tell their bytes, and nothing else.
pub fn own_texts_hold()
    ensures { OwnTextsHold }
{}

#[cfg(test)]
mod tests;
