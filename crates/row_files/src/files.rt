//! Files in memory.
ghost use Rattle.std.specs.Prelude.{◌≡◌, ◌++◌, ◌∷◌, [], Some, map, IfOk, OnOk};
ghost use Rattle.tz_io.specs.Entries.{entry_contents};
ghost use Rattle.tz_io.specs.MemoryFiles.{files_state, files_calls, files_failing};
ghost use Rattle.row_files.specs.Entries.{names_and_bytes};

use crate::texts::TEXTS;
use std::alloc::{AllocError, Global};
use tz_io::MemoryFiles;
use tz_types::NoMemory;

/// Files of these names and contents, of which those reads fail whose numbers are told, counted from 1.
pub fn failing_files(
    alloc: Global,
    list: Vec<(String, Vec<u8>)>,
    failing: Vec<u32>,
) -> Result<MemoryFiles, AllocError>
    ensures contents { IfOk result (λ files. (files_state files).contents ≡ Some (entry_contents list.items)) }
    ensures failing { IfOk result (λ files. files_failing files ≡ failing.items) }
    ensures calls { IfOk result (λ files. files_calls files ≡ 0) }
{
    match MemoryFiles::new(alloc, list, failing) {
        Ok(files) => Ok(files),
        Err(NoMemory) => Err(AllocError),
    }
}

/// Files of these names and contents, of which no read fails but of a name that isn't there.
pub fn files_of(alloc: Global, list: Vec<(String, Vec<u8>)>) -> Result<MemoryFiles, AllocError>
    ensures contents { IfOk result (λ files. (files_state files).contents ≡ Some (entry_contents list.items)) }
    ensures failing { IfOk result (λ files. files_failing files ≡ []) }
{
    failing_files(alloc, list, Vec::new(alloc))
}

/// The file of that name and text.
fn file_of(alloc: Global, name: &str, text: &str) -> Result<(String, Vec<u8>), AllocError>
    ensures { IfOk result (λ file. names_and_bytes (file ∷ []) ≡ (name.now, text.now) ∷ []) }
{
    let name = String::from_str(alloc, name)?;
    Ok((name, text.as_bytes().to_vec(alloc)?))
}

/// Adds texts to a list of files, each under its name.
pub fn add_texts(
    alloc: Global,
    list: &mut Vec<(String, Vec<u8>)>,
    texts: &[(&str, &str)],
) -> Result<(), AllocError>
    ensures { OnOk result (names_and_bytes list.new.items ≡ names_and_bytes list.old.items ++ map (λ row. (row.0.now, row.1.now)) texts.now) }
{
    for (name, text) in texts {
        list.push(file_of(alloc, name, text)?)?;
    }
    Ok(())
}

/// The texts of the rows, each in the file of its name.
pub fn named_texts(alloc: Global) -> Result<Vec<(String, Vec<u8>)>, AllocError> {
    let mut list = Vec::new(alloc);
    add_texts(alloc, &mut list, TEXTS.as_slice())?;
    Ok(list)
}
