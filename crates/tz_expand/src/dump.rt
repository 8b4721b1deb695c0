//! The ranges of many zones at once, in as many threads as there are processors.
ghost use Rattle.std.specs.Prelude.{◌≡◌, IfOk};
ghost use Rattle.std.specs.List.{AllZip};
ghost use Rattle.tz_expand.specs.Stretch.{IsStretch, ranges_between};

use crate::{CompiledZone, expand_uncounted};
use rayon::prelude::*;
use std::alloc::Global;
use std::thread::Threads;
use tz_types::{NoMemory, Shared, SysInfo};

/// For each of the zones, in their order, the ranges that meet the stretch, as `expand_between` answers them. Each zone is a
/// piece of work of its own.
pub fn dump_zones(
    rt: &(impl Threads + Sync),
    alloc: Global,
    zones: &[Shared<CompiledZone>],
    from: i64,
    to: i64,
) -> Result<Vec<Vec<SysInfo>>, NoMemory>
    requires { IsStretch from to }
    ensures { IfOk result (λ dump. AllZip (λ zone ranges. ranges.items ≡ ranges_between zone from to) zones.now dump.items) }
{
    zones
        .par_iter()
        .with_min_len(1)
        .map(
            |zone: &Shared<CompiledZone>| -> Result<Vec<SysInfo>, NoMemory>
                requires { IsStretch from to }
                ensures { IfOk result (λ ranges. ranges.items ≡ ranges_between zone.now from to) }
            { expand_uncounted(alloc, zone.get(), from, to) },
        )
        .collect::<Result<Vec<_>, NoMemory>>(rt, alloc)?
}
