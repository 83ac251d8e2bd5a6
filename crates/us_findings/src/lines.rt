ghost use Rattle.std.specs.Prelude.{◌≡◌, ◌≤◌, length, take};
ghost use Rattle.us_findings.specs.Lines as spec;

/// The line and the column of a place in a text, both from 1. A line ends with a line feed, and a column is a character.
pub fn line_and_column(text: &[u8], at: usize) -> (usize, usize)
    requires { at ≤ length text.now }
    ensures line { result.0 ≡ spec.line_behind (take at text.now) }
    ensures column { result.1 ≡ spec.column_behind (take at text.now) }
{
    let before = &text[..at];
    let mut line = 1;
    let mut column = 1;
    for byte in before {
        if *byte == b'\n' {
            line += 1;
            column = 1;
        } else if *byte / 64 != 2 {
            column += 1;
        }
    }
    (line, column)
}
