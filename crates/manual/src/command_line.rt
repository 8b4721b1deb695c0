//! Command lines of the forms that the page shows.
use std::alloc::{AllocError, Global};

/// A word that may stand where a form has this one. None comes where the page has no such word.
fn example_of(word: &str) -> Option<&'static str> {
    match word {
        "TEXT" | "TEXT\\fR.." => Some("=2025b,africa,asia"),
        "ZONE" => Some("Europe/Paris"),
        "T" | "FROM" | "X" => Some("-1"),
        "TO" => Some("1700000000"),
        "L" => Some("2024-03-31T02:30:00"),
        "CHOICE" => Some("none"),
        "FIRST" | "COUNT" => Some("1970"),
        "LAST" => Some("2037"),
        "LEAPS" => Some("leapseconds"),
        "CONV" => Some("utc-tai"),
        "SCRIPT" => Some("script"),
        "SLOTS" => Some("2"),
        _ => None,
    }
}

/// The words of a command line of a form: the word of the command, and an example of each other. None comes where one of
/// them has no example.
pub fn line_of(alloc: Global, form: &str) -> Result<Option<Vec<String>>, AllocError> {
    let mut words = Vec::new(alloc);
    for word in form.split(' ') {
        let example = if words.is_empty() {
            Some(word)
        } else {
            example_of(word)
        };
        match example {
            Some(example) => words.push(String::from_str(alloc, example)?)?,
            None => return Ok(None),
        }
    }
    Ok(Some(words))
}
