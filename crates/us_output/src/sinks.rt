ghost use Rattle.std.specs.Prelude.{◌≡◌, ◌++◌, List, OnOk};
ghost use Rattle.us_output.specs.Lines.{HasFields};
ghost use Rattle.us_output.specs.declared.rows.Row.{Row};

use crate::rows::Row;
use us_slots::NoMemory;

/// Whoever is told lines, one after another.
pub(crate) trait LineSink {
    /// What lines are made into.
    type Item;

    // what was taken so far, and what a line comes to
    ghost taken: { Self → List Self.Item };

    ghost made: { Row → List Self.Item };

    /// Takes a line. The fault is want of memory.
    fn line(&mut self, row: Row) -> Result<(), NoMemory>
        ensures taken { OnOk result (taken self.new ≡ taken self.old ++ made row) }
        ensures fields { OnOk result (HasFields row) };
}

/// Lines as rows, one behind another.
impl LineSink for Vec<Row> {
    ghost use Rattle.std.specs.Prelude.{[], ◌∷◌};

    type Item = Row;

    ghost taken = { λ rows. rows.items };

    ghost made = { λ row. row ∷ [] };

    fn line(&mut self, row: Row) -> Result<(), NoMemory> {
        self.push(row)?;
        Ok(())
    }
}
