//! Reloads: the version of a source, made anew and pushed.
ghost use Rattle.std.specs.Prelude.{◌≡◌, ◌+◌, ◌<◌, ◌↔◌, ℕ, length, Err, IfOk, IfErr, OnOk, OnErr};
ghost use Rattle.std.specs.Arc.{arc_value};
ghost use Rattle.tz_types.specs.declared.fault.Fault.{Fault};
ghost use Rattle.pin_table.specs.Kept.{KeepsHandles};
ghost use Rattle.pin_table.specs.Reader.{reader_view};
ghost use Rattle.pin_table.specs.Table.{plan};
ghost use Rattle.tz_version.specs.Refusal.{RefusesSource};
ghost use Rattle.tz_version.specs.Release.{IsVersionOf};
ghost use Rattle.tz_list.specs.Reload.{release_home, release_source, LacksVersion, Reloads, ReloadKeeps};

use crate::{ListReader, ReloadError, TzdbList};
use pin_table::{PushWhy, Pushed};
use std::alloc::Global;
use std::sync::{Arc, Wait};
use tz_version::{MakeError, Version};

/// The error of a reload whose version isn't made. The leap text was accepted when the list was opened.
fn error_of_make(error: MakeError) -> ReloadError
    requires { (fault : Fault) → ¬ (error ≡ MakeError.Leaps fault) }
    ensures memory { error ≡ MakeError.NoMemory → result ≡ ReloadError.NoMemory }
    ensures text { (fault : Fault) → error ≡ MakeError.Text fault → result ≡ ReloadError.Text fault }
{
    match error {
        MakeError::NoMemory => ReloadError::NoMemory,
        MakeError::Text(fault) => ReloadError::Text(fault),
        MakeError::Leaps(_) => unreachable!(),
    }
}

/// The error of a reload whose push is refused. One that waits for its turn isn't told that another reader has it.
fn error_of_push(why: PushWhy) -> ReloadError
    requires { (holder : ℕ) → ¬ (why ≡ PushWhy.Busy holder) }
    ensures same { (w n : ℕ) → why ≡ PushWhy.Same w n → result ≡ ReloadError.Same w n }
    ensures journal_full { (w : ℕ) → why ≡ PushWhy.JournalFull w → result ≡ ReloadError.JournalFull w }
    ensures full { (w : ℕ) → why ≡ PushWhy.Full w → result ≡ ReloadError.Full w }
{
    match why {
        PushWhy::Same { w, n } => ReloadError::Same { w, n },
        PushWhy::JournalFull { w } => ReloadError::JournalFull { w },
        PushWhy::Full { w } => ReloadError::Full { w },
        PushWhy::Busy { holder: _ } => unreachable!(),
    }
}

impl TzdbList {
    /// Makes the version of the source at a place, to be pushed.
    fn version_of(&self, alloc: Global, src: u32) -> Result<Arc<Version>, ReloadError>
        requires { src < length self.now.sources.texts }
        ensures ok { IfOk result (λ version. IsVersionOf self.now.sources src (arc_value version)) }
        ensures refused { IfErr result (λ e. LacksVersion self.now.sources src e) }
    {
        match Version::read(alloc, &self.sources, src) {
            Ok(version) => match Arc::new(alloc, version) {
                Ok(version) => Ok(version),
                Err(_) => Err(ReloadError::NoMemory),
            },
            Err(error) => Err(error_of_make(error)),
        }
    }

    /// Reloads the source at a place: reads it whole, and pushes its version once no other reader has the turn.
    ///
    /// The version and its copies are made before the turn is taken. So a source that is refused and want of memory leave
    /// the list, the turn and the reader as they were. Memory aside, `Text` comes exactly where the source is refused, with
    /// its fault. `Same`, `JournalFull` and `Full` come as a push of that version answers them. The reader's handles stay its
    /// own, whatever is answered.
    pub fn reload<R: Wait>(
        &self,
        rt: &R,
        alloc: Global,
        reader: &mut ListReader<'_>,
        src: u32,
    ) -> Result<Pushed, ReloadError>
        requires of_list { reader.old.table.now ≡ self.now.table }
        requires there { src < length self.now.sources.texts }
        ensures reloads { Reloads (plan self.now.table) self.now.sources src reader.old.number (reader_view reader.old) (reader_view reader.new) result }
        ensures text { (fault : Fault) → ¬ (result ≡ Err ReloadError.NoMemory) → (result ≡ Err (ReloadError.Text fault)) ↔ RefusesSource self.now.sources src fault }
        ensures keeps { ReloadKeeps (reader_view reader.old) (reader_view reader.new) }
        ensures handles { KeepsHandles release_home release_source reader.old reader.new }
        ensures spends_one { OnOk result ((reader_view reader.new).allowance + 1 ≡ (reader_view reader.old).allowance) }
        ensures spends_none { OnErr result ((reader_view reader.new).allowance ≡ (reader_view reader.old).allowance) }
        ensures table { reader.new.table.now ≡ reader.old.table.now }
        ensures number { reader.new.number ≡ reader.old.number }
    {
        let version = self.version_of(alloc, src)?;
        let Ok(copies) = self.table.copies(alloc, version) else {
            return Err(ReloadError::NoMemory);
        };
        match reader.push(rt, copies) {
            Ok(pushed) => Ok(pushed),
            Err(refused) => Err(error_of_push(refused.why)),
        }
    }
}
