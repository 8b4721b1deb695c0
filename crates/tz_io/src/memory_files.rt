//! Files in memory, for tests and for proofs that speak of contents.
ghost use Rattle.std.specs.Prelude.{◌≡◌, ◌≢◌, ◌+◌, ◌-◌, ◌^◌, ◌≤◌, ◌<◌, ℕ, List, Option, Some, IfOk, OnOk, IfSome, IsErrOf, min, take, vec_len, length};
ghost use Rattle.tz_io.specs.Entries.{entry_contents, entry_place, entry_count};

use crate::calls::is_failing;
use crate::{FileError, Files};
use std::alloc::{AllocError, Global};
use tz_types::NoMemory;

/// Files in memory, which tell all that they hold.
#[derive(Debug, Drop)]
pub struct MemoryFiles {
    list: Vec<(String, Vec<u8>)>,
    failing: Vec<u32>,
    calls: u64,
    counts: Vec<u64>,
    others: u64,
    ghost one_count_each: { vec_len counts ≡ vec_len list },
}

impl MemoryFiles {
    ghost use Rattle.tz_io.specs.MemoryFiles.{files_state, files_calls, files_failing};

    /// Files of these names and contents. Of a name that stands more than once the first entry
    /// counts. `failing` has the numbers of the reads that fail, counted from 1.
    pub fn new(
        alloc: Global,
        list: Vec<(String, Vec<u8>)>,
        failing: Vec<u32>,
    ) -> Result<MemoryFiles, NoMemory>
        ensures told { IfOk result (λ files. (files_state files).contents ≡ Some (entry_contents list.items)) }
        ensures failing { IfOk result (λ files. files_failing files ≡ failing.items) }
        ensures calls { IfOk result (λ files. files_calls files ≡ 0) }
        ensures unharmed { IfOk result (λ files. (name : List ℕ) → (files_state files).faults name ≡ 0) }
    {
        let mut counts = Vec::new(alloc);
        counts.resize(list.len(), 0)?;
        Ok(MemoryFiles {
            list,
            failing,
            calls: 0,
            counts,
            others: 0,
        })
    }
}

// Where the first entry of that name stands.
fn place_of(list: &[(String, Vec<u8>)], name: &str) -> Option<usize>
    ensures first { result ≡ entry_place list.now name.now }
    ensures within { IfSome result (λ place. place < length list.now) }
{
    list.iter().position(|(known, _)| known.as_str() == name)
}

fn count_fault(counts: &mut [u64], others: &mut u64, place: Option<usize>)
    requires { IfSome place (λ at. at < length counts.old) }
    ensures len { length counts.new ≡ length counts.old }
    ensures counted { entry_count counts.new others.new place ≡ min (entry_count counts.old others.old place + 1) (2 ^ 64 - 1) }
    ensures alone { (other : Option ℕ) → other ≢ place → entry_count counts.new others.new other ≡ entry_count counts.old others.old other }
    ensures later { (other : Option ℕ) → entry_count counts.old others.old other ≤ entry_count counts.new others.new other }
{
    match place {
        Some(place) => counts[place] = counts[place].saturating_add(1),
        None => *others = others.saturating_add(1),
    }
}

// The first `limit + 1` bytes, or all of them.
fn front_of(alloc: Global, content: &[u8], limit: usize) -> Result<Vec<u8>, AllocError>
    ensures { IfOk result (λ bytes. bytes.items ≡ take (limit + 1) content.now) }
{
    content[..content.len().min(limit.saturating_add(1))].to_vec(alloc)
}

impl Files for MemoryFiles {
    ghost use Rattle.std.specs.Prelude.{◌⊎◌, IsTrue, IsNone};
    ghost use Rattle.tz_io.specs.Calls.{next_call};
    ghost use Rattle.tz_io.specs.Files.{IsFront, FileFailed, KeepsFiles};
    ghost use Rattle.tz_io.specs.MemoryFiles.{files_state, files_calls, files_failing, read_fails_next, files_place};

    ghost state = { files_state };

    fn read(&mut self, alloc: Global, name: &str, limit: usize) -> Result<Vec<u8>, FileError>
        // What the trait promises.
        ensures bytes { IfOk result (λ bytes. IsFront (files_state self.old) name.now limit bytes.items) }
        ensures unharmed { OnOk result (files_state self.new ≡ files_state self.old) }
        ensures kept { KeepsFiles (files_state self.old) (files_state self.new) }
        ensures failed { IsErrOf result FileError.Failed → FileFailed (files_state self.old) (files_state self.new) name.now }

        // Which reads fail, and whose count then rises.
        ensures counted { IsErrOf result FileError.Failed →
            (files_state self.new).faults name.now ≡ min ((files_state self.old).faults name.now + 1) (2 ^ 64 - 1) }
        ensures hungry { IsErrOf result FileError.NoMemory → files_state self.new ≡ files_state self.old }
        ensures alone { (other : List ℕ) → files_place self.old other ≢ files_place self.old name.now →
            (files_state self.new).faults other ≡ (files_state self.old).faults other }
        ensures fails { IsTrue (read_fails_next self.old) → IsErrOf result FileError.Failed }
        ensures absent { IsNone (files_place self.old name.now) → IsErrOf result FileError.Failed }
        ensures fails_only { IsErrOf result FileError.Failed → IsTrue (read_fails_next self.old) ⊎ IsNone (files_place self.old name.now) }
        ensures calls { files_calls self.new ≡ next_call (files_calls self.old) }
        ensures failing { files_failing self.new ≡ files_failing self.old }
    {
        self.calls = self.calls.saturating_add(1);
        let place = place_of(&self.list, name);
        match place {
            Some(place) if !is_failing(&self.failing, self.calls) => {
                Ok(front_of(alloc, &self.list[place].1, limit)?)
            }
            _ => {
                count_fault(&mut self.counts, &mut self.others, place);
                Err(FileError::Failed)
            }
        }
    }
}
