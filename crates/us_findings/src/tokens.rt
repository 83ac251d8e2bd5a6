use std::alloc::Global;
use toml_parser::text::{first, skip_blank};
use toml_parser::{ErrorKind, Key, ParseError, dotted_key, quoted, starts_string};

/// What stands behind the first byte of a text, which is an ASCII character.
pub(crate) fn past(text: &str) -> &str {
    match text.split_at_checked(1) {
        Some((_, rest)) => rest,
        None => "",
    }
}

/// A key at the front of a text, and what stands behind the ASCII character that has to follow it.
pub(crate) fn key_before(
    alloc: Global,
    text: &str,
    follows: u8,
) -> Result<(Key, &str), ParseError> {
    let (key, rest) = dotted_key(alloc, text)?;
    if first(rest) == follows {
        Ok((key, past(rest)))
    } else {
        Err(ParseError::at(ErrorKind::Content, rest))
    }
}

/// What stands behind the value at the front of a text. Brackets are counted, so lists and tables in braces are passed
/// over with all that they have.
pub(crate) fn behind_value(alloc: Global, text: &str) -> Result<&str, ParseError> {
    let mut open = 0_usize;
    let mut rest = text;
    for _ in 0..text.len() {
        match first(rest) {
            b'[' | b'{' => open = open.saturating_add(1),
            b']' | b'}' => open = open.saturating_sub(1),
            _ => {}
        }
        rest = behind_token(alloc, rest)?;
        if open == 0 {
            return Ok(rest);
        }
        rest = skip_blank(rest, true);
    }
    Err(ParseError::at(ErrorKind::Content, rest))
}

/// What stands behind a string, a sign, or other words.
fn behind_token(alloc: Global, text: &str) -> Result<&str, ParseError> {
    if starts_string(text) {
        return Ok(quoted(alloc, text)?.1);
    }
    match first(text) {
        b'[' | b']' | b'{' | b'}' | b',' | b'=' => Ok(past(text)),
        _ => Ok(behind_words(text)),
    }
}

/// What stands behind bare keys, numbers and other words, up to a sign, a comment or the end of the line. Blanks at their
/// end are none of them.
fn behind_words(text: &str) -> &str {
    let mut len = 0;
    for (place, byte) in text.as_bytes().iter().enumerate() {
        match *byte {
            b' ' | b'\t' => {}
            b'[' | b']' | b'{' | b'}' | b',' | b'=' | b'#' | b'\r' | b'\n' => break,
            _ => len = place.saturating_add(1),
        }
    }
    match text.split_at_checked(len) {
        Some((_, rest)) => rest,
        None => text,
    }
}
