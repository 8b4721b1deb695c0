//! What the tables of these tests keep: records, each with a number of its own.
ghost use Rattle.std.specs.Prelude.{◌≡◌, IfOk};
ghost use Rattle.std.specs.Arc.{arc_value};

use pin_book::Payload;
use std::alloc::{AllocError, Global};
use std::sync::Arc;
use tz_types::VersionText;

/// A record, which is named by the letter of its source.
#[derive(Drop)]
pub struct Record {
    src: u32,
}

impl Payload for Record {
    ghost use Rattle.table_rows.specs.Record.{record_name};

    type Home = ();

    ghost home = { λ _. tt };

    ghost source = { λ one. one.src };

    ghost name_of = { λ _ src. record_name src };

    fn src(&self) -> u32 {
        self.src
    }

    fn name(&self) -> VersionText {
        let letter = [(self.src % 26) as u8 + 97];
        match VersionText::new(&letter) {
            Ok(name) => name,
            Err(_) => unreachable!(),
        }
    }
}

/// The record of this source.
pub fn made(alloc: Global, src: u32) -> Result<Arc<Record>, AllocError>
    ensures { IfOk result (λ one. (arc_value one).src ≡ src) }
{
    Ok(Arc::new(alloc, Record { src })?)
}
