//! Words that name the files of a text.
//!
//! A word is a list of parts with commas between. Where it begins with `=`, what follows that in the first part is the
//! version of the text; every other part is the name of a file. A name with a comma can't be given, nor one that begins
//! with `=` as the first.
ghost use Rattle.std.specs.Prelude.{◌≡◌, ◌<◌, ◌∷◌, length, IfSome, IsTrue, option_map};
ghost use Rattle.tz_specs.specs.Reads.{is_version};
ghost use Rattle.tz_words.specs.NamedText.{parts_of, parts_left, are_file_names, may_be_given};

use tz_types::{Items, MOST_FILES, Source, Text, VersionText};

/// What a word names: the version that is given, and the names of the files with commas between.
#[derive(Clone, Copy)]
pub struct TextWord<'w> {
    pub version: Option<&'w str>,
    pub names: &'w str,
    pub ghost version_fits: { IsTrue (may_be_given (option_map (λ version. version.now) version)) },
    pub ghost names_fit: { IsTrue (are_file_names (parts_of names.now)) },
}

impl<'w> TextWord<'w> {
    ghost use Rattle.std.specs.Prelude.{◌≤◌};
    ghost use Rattle.tz_types.specs.declared.limit.TheConstants.{MOST_BYTES};
    ghost use Rattle.tz_types.specs.Source.{bytes_together};
    ghost use Rattle.tz_words.specs.NamedText.{IsSourceOf, text_with_names, text_with_version, named_text_of};
    ghost use Rattle.tz_words.specs.Command.{named};

    /// What the word names. None comes exactly where it names no text.
    pub fn new(word: &'w str) -> Option<Self>
        ensures { option_map named result ≡ named_text_of word.now }
    {
        match word.strip_prefix('=') {
            Some(parts) => TextWord::with_version(parts),
            None => TextWord::with_names(None, word),
        }
    }

    /// What the parts of a word name whose first is a version.
    fn with_version(parts: &'w str) -> Option<Self>
        ensures { option_map named result ≡ text_with_version (parts_of parts.now) }
    {
        let (version, Some(names)) = first_name(parts) else {
            return None;
        };
        if VersionText::new(version.as_bytes()).is_err() {
            return None;
        }
        TextWord::with_names(Some(version), names)
    }

    /// What names of files name, with a version that may be given.
    fn with_names(version: Option<&'w str>, names: &'w str) -> Option<Self>
        requires { IsTrue (may_be_given (option_map (λ version. version.now) version)) }
        ensures { option_map named result ≡ text_with_names (option_map (λ version. version.now) version.entry) (parts_of names.now) }
    {
        if !are_file_names(names) {
            return None;
        }
        Some(TextWord { version, names })
    }

    /// The source of the text named, by the contents of its files.
    pub fn source(self, contents: Items<Text>) -> Source
        requires each { length contents ≡ length (named self).files }
        requires few_bytes { bytes_together contents ≤ MOST_BYTES }
        ensures { IsSourceOf (named self.entry) contents result }
    {
        let version = match self.version {
            Some(version) => Some(version_text(version)),
            None => None,
        };
        Source {
            version,
            files: contents,
        }
    }
}

/// The version of these bytes.
fn version_text(version: &str) -> VersionText
    requires { IsTrue (is_version version.now) }
    ensures { result ≡ version.now }
{
    match VersionText::new(version.as_bytes()) {
        Ok(version) => version,
        Err(_) => unreachable!(),
    }
}

/// The first name, and the names behind its comma.
pub fn first_name(names: &str) -> (&str, Option<&str>)
    ensures parts { parts_of names.now ≡ result.0.now ∷ parts_left result.1 }
    ensures shorter { IfSome result.1 (λ later. length later.now < length names.now) }
{
    match names.split_once(',') {
        Some((name, later)) => (name, Some(later)),
        None => (names, None),
    }
}

/// Whether these are one to sixteen names of files, none of them empty.
fn are_file_names(names: &str) -> bool
    ensures { result ≡ are_file_names (parts_of names.now) }
{
    let mut rest = Some(names);
    let mut count = 0;
    while let Some(names) = rest {
        let (name, later) = first_name(names);
        if name.is_empty() || count == MOST_FILES {
            return false;
        }
        count += 1;
        rest = later;
    }
    true
}
