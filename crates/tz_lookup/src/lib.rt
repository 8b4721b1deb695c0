//! What lookups find, and its one spelling; and the words of clocks and of choices.
//!
//! A lookup in a zone, or a conversion between clocks, gives a `Found`: a range, what there is to know of a local time, an
//! instant, a count, or that what was asked isn't in range. What each lookup finds is defined in specs/Finding.antt, by the
//! ranges of the zone or by the leap table. The layers above ask and map what is found: a command to its status and its
//! line, an operation of a script to its reply. They find no zone by its name here, and read no text.
//!
//! Each value has one spelling, which every command and every reply uses: it is put at the end of a text that the layer
//! above makes. A number is spelled by `put_number` of `tz_text`, with a space behind it by `put_spaced`, and without a sign
//! by `put_natural`. The crate stands on `tz_local`, `tz_windows` and `tz_leap` for lookups.
//!
//! ```rust
//! // `zone` is America/New_York
//! let found = find_info(&zone, -2_717_650_800);
//! let mut line = Vec::new(alloc);
//! put_found(&mut line, &found)?;
//! assert_eq!(rt; line.as_slice(), b"-2717650800 -1633280400 -18000 0 EST");
//! ```
#![tactic(auto)]

mod choice;
mod conversion;
mod found;
mod leap_info;
mod local_info;
mod lookup;
mod number;
mod range;

pub use choice::Choice;
pub use conversion::Conversion;
pub use found::{Found, put_found};
pub use leap_info::put_leap_info;
pub use local_info::put_local_info;
pub use lookup::{find_count, find_info, find_info_by_windows, find_local, find_scan, find_sys};
pub use number::{put_after_space, put_natural};
pub use range::{put_range, put_spaced, shown};
