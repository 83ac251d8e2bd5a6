use std::fmt;

/// The most characters of the input that a finding shows.
const MAX_SHOWN: usize = 40;

/// The most bytes of a character.
const MAX_CHARACTER: usize = 4;

/// A text of the input as a finding shows it: its first 40 characters, with two dots where there are more. Control characters
/// and others that may not be seen by themselves are escaped, as are bytes that are no UTF-8.
#[derive(Clone, Copy)]
pub struct Shown<'a>(pub &'a [u8]);

impl fmt::Display for Shown<'_> {
    fn fmt<W: fmt::Write>(&self, f: &mut fmt::Formatter<W>) -> fmt::Result {
        let mut rest = self.0;
        for _ in 0..MAX_SHOWN {
            let character = first_character(rest);
            write_first(f, rest, character)?;
            let length = match character {
                Some(character) => character.len_utf8(),
                None => 1,
            };
            rest = rest.get(length..).unwrap_or(&[]);
        }
        if rest.is_empty() {
            Ok(())
        } else {
            f.write_str("..")
        }
    }
}

/// A key of the input as a finding shows it: in quotes, where it has others than letters, digits, `_` and `-`, or none.
#[derive(Clone, Copy)]
pub(crate) struct ShownKey<'a>(pub(crate) &'a str);

impl fmt::Display for ShownKey<'_> {
    fn fmt<W: fmt::Write>(&self, f: &mut fmt::Formatter<W>) -> fmt::Result {
        let key = self.0.as_bytes();
        let quote = if is_bare(key) { "" } else { "\"" };
        write!(f, "{quote}{}{quote}", Shown(key))
    }
}

/// Whether a key may stand without quotes.
fn is_bare(key: &[u8]) -> bool {
    for byte in key {
        if !byte.is_ascii_alphanumeric() & (*byte != b'_') & (*byte != b'-') {
            return false;
        }
    }
    !key.is_empty()
}

/// Writes the character with which a text begins, or else its first byte, if it has one.
fn write_first<W: fmt::Write>(
    f: &mut fmt::Formatter<W>,
    text: &[u8],
    character: Option<char>,
) -> fmt::Result {
    match (character, text.first()) {
        (Some(character), _) => write_character(f, character),
        (None, Some(byte)) => write!(f, "\\x{byte:02x}"),
        (None, None) => Ok(()),
    }
}

/// The character with which a text begins, if it begins with one.
fn first_character(text: &[u8]) -> Option<char> {
    let start = text.get(..MAX_CHARACTER).unwrap_or(text);
    match start.utf8_chunks().next() {
        Some(chunk) => chunk.valid().chars().next(),
        None => None,
    }
}

/// Writes a character, or its escape if it has one. Quotes and backslashes stand as they do in the input.
fn write_character<W: fmt::Write>(f: &mut fmt::Formatter<W>, character: char) -> fmt::Result {
    match character {
        '"' | '\'' | '\\' => f.write_char(character),
        _ => write!(f, "{}", character.escape_debug()),
    }
}
