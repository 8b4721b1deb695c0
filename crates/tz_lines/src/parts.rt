//! What all lines of a source gave, as a database is built of it.
ghost use Rattle.std.specs.Prelude.{◌≡◌, false};
ghost use Rattle.tz_database.specs.Parts.{contents_given};
ghost use Rattle.tz_lines.specs.Gathered.{contents_gathered};

use crate::contents::Gathered;
use tz_database::Parts;
use tz_types::VersionText;

impl Gathered {
    /// The same of a source of that version.
    pub fn into_parts(self, version: VersionText) -> Parts
        requires { self.begun ≡ false }
        ensures contents { contents_given result ≡ contents_gathered self }
        ensures version { result.version ≡ version }
    {
        let Gathered {
            sets,
            names,
            zones,
            links,
            ..
        } = self;
        Parts {
            version,
            sets: sets.into_ordered(),
            names: names.into_labels(),
            zones,
            links,
        }
    }
}
