//! The zones of a database made ready for questions, each with cells for its windows.
ghost use Rattle.std.specs.Prelude.{◌≡◌, ◌<◌, List, [], ◌∷◌, ◌++◌, length, Some, slice_get, IsTrue, IfOk, OnOk};
ghost use Rattle.std.specs.List.{AllZip};
ghost use Rattle.tz_types.specs.declared.zone.Zone.{Zone};
ghost use Rattle.tz_specs.specs.Sound.{is_sound};
ghost use Rattle.tz_expand.specs.Zone.{IsCompiled};

use std::alloc::Global;
use std::sync::Arc;
use tz_expand::{CompiledZone, compile};
use tz_types::{Db, Items, NoMemory, Shared};
use tz_windows::Cells;

/// Puts one more zone behind those before it.
fn push_compiled(
    alloc: Global,
    compiled: &mut Items<Shared<CompiledZone>>,
    db: &Db,
    place: u32,
) -> Result<(), NoMemory>
    requires sound { IsTrue (is_sound db.now) }
    requires known { place < length db.now.zones }
    ensures { OnOk result ((before : List Zone) (zone : Zone) → slice_get db.now.zones place ≡ Some zone →
        AllZip (IsCompiled db.now) before compiled.old → AllZip (IsCompiled db.now) (before ++ zone ∷ []) compiled.new) }
{
    let zone = compile(alloc, db, place)?;
    compiled.push(Shared::from_arc(Arc::new(alloc, zone)?))?;
    Ok(())
}

/// All zones of a sound database, in their order. Rule sets are shared with the database.
pub fn compiled_zones(alloc: Global, db: &Db) -> Result<Items<Shared<CompiledZone>>, NoMemory>
    requires { IsTrue (is_sound db.now) }
    ensures { IfOk result (λ compiled. AllZip (IsCompiled db.now) db.now.zones compiled) }
{
    let mut compiled = Items::new(alloc);
    for place in 0..db.zones.len() as u32 {
        push_compiled(alloc, &mut compiled, db, place)?;
    }
    Ok(compiled)
}

/// Empty cells for so many zones.
pub fn empty_cells(alloc: Global, count: usize) -> Result<Items<Cells>, NoMemory>
    ensures { IfOk result (λ cells. length cells ≡ count) }
{
    let mut cells = Vec::with_capacity(alloc, count)?;
    for _ in 0..count {
        cells.push(Cells::new(alloc)?)?;
    }
    Ok(Items::from_vec(cells))
}
