//! Versions: one release with its leap table.
//!
//! `Sources` are the sources of one or more releases with a leap text. `Version::make` reads one of them and the leap text, and
//! compiles all its zones; the version lends them by name, and links by the zones to which they lead. A version is made whole or
//! not at all, and never changes. The crate stands on `tz_lines` for texts, on `tz_expand` for zones, and on `tz_windows` for what
//! it lends.
//!
//! ```rust
//! let mut texts = Items::new(alloc);
//! texts.push(Source::of_text(alloc, b"Zone Etc/X 1 - X\nLink Etc/X X\n".to_vec(alloc)?)?)?;
//! // a leap text without bytes
//! if let Some(sources) = Sources::new(texts, Items::new(alloc)) {
//!     let sources = Shared::from_arc(Arc::new(alloc, sources)?);
//!     let version = Version::make(alloc, &sources, 0)?;
//!     // the link leads to the zone
//!     let zone = version.get().zone(b"X")?;
//!     assert_eq!(rt; zone.compiled().name.as_bytes(), b"Etc/X");
//! }
//! ```
#![tactic(auto)]

mod error;
mod ready_zones;
mod search;
mod sources;
mod texts;
mod version;

pub use error::{MakeError, NoZone};
pub use sources::{MOST_SOURCES, Sources};
pub use version::Version;

#[cfg(test)]
mod tests;
