//! A row of the list.
ghost use Rattle.std.specs.Prelude.{◌≡◌};

use tz_types::VersionText;

/// A version that is listed: its number, the source that it was made of, the slot that keeps it, and its name.
#[derive(Debug, PartialEq, Eq, Drop)]
pub struct Listed {
    pub n: u32,
    pub src: u32,
    pub slot: u32,
    pub name: VersionText,
}

/// A row of no version, as no version has number 0. A list of fixed room has it where it has no row yet.
impl Default for Listed {
    fn default() -> Self {
        let name = match VersionText::new(b"-") {
            Ok(name) => name,
            Err(_) => unreachable!(),
        };
        Listed {
            n: 0,
            src: 0,
            slot: 0,
            name,
        }
    }
}

impl Listed {
    /// The same row again, without an allocation.
    pub fn copied(&self) -> Self
        ensures { result ≡ self.now }
    {
        Listed {
            n: self.n,
            src: self.src,
            slot: self.slot,
            name: self.name.copied(),
        }
    }
}
