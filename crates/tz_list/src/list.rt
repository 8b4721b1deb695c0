//! The list, from when it is opened until it is closed.
ghost use Rattle.std.specs.Prelude.{◌≡◌, ◌≤◌, ◌↔◌, Err, IfOk, length};
ghost use Rattle.tz_types.specs.declared.fault.Fault.{Fault};
ghost use Rattle.pin_book.specs.declared.limits.TheConstants.{FEWEST_SLOTS, MOST_SLOTS, MOST_WRITES, READER_NUMBERS};
ghost use Rattle.pin_table.specs.Table.{plan};
ghost use Rattle.tz_version.specs.Release.{IsVersionOf};

use crate::OpenError;
use pin_book::Book;
use pin_table::{Main, PinTable, Pinned, Reader};
use std::alloc::Global;
use std::sync::Arc;
use tz_types::Shared;
use tz_version::{MakeError, Sources, Version};

/// What a thread works on the list with.
pub type ListReader<'t> = Reader<'t, Version>;

/// What the thread has that opened the list. It sends the readers out.
pub type ListMain = Main<Version>;

/// A version that a reader has pinned.
pub type ListHandle = Pinned<Version>;

/// A list of versions, each of one of the sources that the list was opened with.
#[derive(Drop)]
pub struct TzdbList {
    pub(crate) table: PinTable<Version>,
    pub(crate) sources: Shared<Sources>,
    pub ghost home: { (plan table).first.sources ≡ sources },
    pub ghost first: { ∥ IsVersionOf sources 0 (plan table).first ∥₁ },
}

impl TzdbList {
    ghost use Rattle.pin_core.specs.Step.{main_at_first};
    ghost use Rattle.pin_table.specs.Closing.{IsWhole};
    ghost use Rattle.pin_table.specs.Main.{main_view};
    ghost use Rattle.pin_table.specs.Sources.{book_of};
    ghost use Rattle.pin_table.specs.Table.{IsMainOf};
    ghost use Rattle.tz_version.specs.Refusal.{RefusesLeapText, RefusesSource};
    ghost use Rattle.tz_version.specs.Release.{version_name};
    ghost use Rattle.tz_list.specs.Opening.{IsOpened};

    /// Opens a list of these sources whose first version is that of the first source, with so many slots, reader numbers,
    /// and room for so many writes. No reader is out.
    ///
    /// `NoMemory` may come at any time. Memory aside, `Leaps` comes exactly where the leap text is refused, with its fault,
    /// and `Text` exactly where the leap text is accepted and the first source refused, with the source's.
    pub fn open(
        alloc: Global,
        sources: Shared<Sources>,
        slots: u32,
        readers: u32,
        writes: u32,
    ) -> Result<(Self, ListMain), OpenError>
        requires slots { (FEWEST_SLOTS ≤ slots) × (slots ≤ MOST_SLOTS) }
        requires readers { (1 ≤ readers) × (readers ≤ READER_NUMBERS) }
        requires writes { (1 ≤ writes) × (writes ≤ MOST_WRITES) }
        ensures opened { IfOk result (λ opened. IsOpened sources slots readers writes opened.0) }
        ensures main { IfOk result (λ opened. IsMainOf opened.0.table opened.1) }
        ensures knows { IfOk result (λ opened. main_view opened.1 ≡ main_at_first readers writes) }
        ensures leaps { (fault : Fault) → ¬ (result ≡ Err MakeError.NoMemory) → (result ≡ Err (MakeError.Leaps fault)) ↔ RefusesLeapText sources.leaps fault }
        ensures text { (fault : Fault) → ¬ (result ≡ Err MakeError.NoMemory) → (result ≡ Err (MakeError.Text fault)) ↔ RefusesSource sources 0 fault }
    {
        let version = Version::read(alloc, &sources, 0)?;
        let Ok(first) = Arc::new(alloc, version) else {
            return Err(MakeError::NoMemory);
        };
        let Ok((table, main)) = PinTable::new(alloc, first, slots, readers, writes) else {
            return Err(MakeError::NoMemory);
        };
        Ok((TzdbList { table, sources }, main))
    }

    /// Returns the table of the list. The main splits readers off for it.
    pub fn table(&self) -> &PinTable<Version>
        ensures { result.now ≡ self.now.table }
    {
        &self.table
    }

    /// Closes the list once no reader is out, and returns its book. Each version there has the version text of its source.
    pub fn close(self, main: ListMain) -> Book
        requires own { IsMainOf self.table main }
        requires whole { length (main_view main).numbers ≡ (plan self.table).readers }
        ensures book { result ≡ book_of version_name self.sources (plan self.table).slots (plan self.table).room result.journal }
        ensures journal { IsWhole (plan self.table).readers (main_view main) result.journal }
    {
        let TzdbList { table, sources: _ } = self;
        table.close(main)
    }
}
