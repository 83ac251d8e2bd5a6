use std::fmt;

/// Words with a number in the place of each `#`.
#[derive(Clone, Copy)]
pub struct Sentence(pub &'static str, pub [u64; 4]);

impl fmt::Display for Sentence {
    fn fmt<W: fmt::Write>(&self, f: &mut fmt::Formatter<W>) -> fmt::Result {
        let mut rest = self.0;
        for number in &self.1 {
            match rest.split_once('#') {
                Some((before, behind)) => {
                    write!(f, "{before}{number}")?;
                    rest = behind;
                }
                None => break,
            }
        }
        f.write_str(rest)
    }
}

impl Sentence {
    /// Words without a number.
    pub fn plain(words: &'static str) -> Sentence {
        Sentence(words, [0; 4])
    }

    /// Words with one number.
    pub fn of(words: &'static str, number: u64) -> Sentence {
        Sentence(words, [number, 0, 0, 0])
    }
}
