//! What a database is read from: the files of a release, which zic(8) reads one after another.
ghost use Rattle.std.specs.Prelude.{◌≡◌, ◌≤◌, ◌↔◌, None, [], ◌∷◌, length, IsTrue, IsSome, IfSome, IfOk};
ghost use Rattle.tz_types.specs.declared.limit.TheConstants.{MOST_FILES, MOST_BYTES};
ghost use Rattle.tz_types.specs.Source.{bytes_together, FitsSource};

use crate::limit::{MOST_BYTES, MOST_FILES};
use crate::{Items, NoMemory, VersionText};
use std::alloc::Global;

/// The bytes of a file.
pub type Text = Items<u8>;

/// One to sixteen files, with at most 4,194,304 bytes together, in the order in which they are read. A version that is given
/// stands in place of the one that the first file names.
#[derive(Debug, PartialEq, Drop)]
pub struct Source {
    pub version: Option<VersionText>,
    pub files: Items<Text>,
    pub ghost some_file: { 1 ≤ length files },
    pub ghost few_files: { length files ≤ MOST_FILES },
    pub ghost few_bytes: { bytes_together files ≤ MOST_BYTES },
}

impl Source {
    ghost use Rattle.tz_types.specs.declared.source.Source.{Source};

    /// The source of these files. None comes exactly where there are no files, more than 16, or more than 4,194,304 bytes in them
    /// together.
    pub fn new(version: Option<VersionText>, files: Items<Text>) -> Option<Self>
        ensures version { IfSome result (λ (source : Source). source.version ≡ version) }
        ensures files { IfSome result (λ (source : Source). source.files ≡ files) }
        ensures exactly { IsSome result ↔ FitsSource files }
    {
        if files.is_empty() || files.len() > MOST_FILES || !are_few_bytes(files.as_slice()) {
            return None;
        }
        Some(Source { version, files })
    }

    /// The source of one file, without a version given.
    pub fn of_text(alloc: Global, text: Vec<u8>) -> Result<Self, NoMemory>
        requires { length text.items ≤ MOST_BYTES }
        ensures version { IfOk result (λ (source : Source). source.version ≡ None) }
        ensures files { IfOk result (λ (source : Source). source.files ≡ text.items ∷ []) }
    {
        let mut files = Items::new(alloc);
        files.push(Items::from_vec(text))?;
        Ok(Source {
            version: None,
            files,
        })
    }
}

/// Whether the texts have at most 4,194,304 bytes together.
fn are_few_bytes(texts: &[Text]) -> bool
    ensures { IsTrue result ↔ (bytes_together texts.now ≤ MOST_BYTES) }
{
    let mut left = MOST_BYTES;
    for text in texts {
        match left.checked_sub(text.len()) {
            Some(less) => left = less,
            None => return false,
        }
    }
    true
}
