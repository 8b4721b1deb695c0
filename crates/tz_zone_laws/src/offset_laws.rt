//! Laws: offsets as `%z` writes them (zic(8), "Zone lines", FORMAT).
ghost use Rattle.std.specs.Prelude.{◌≡◌, ◌<◌, ◌≤◌, ℕ, ℤ, List, Some, length, codes, pos, unsigned_abs};
ghost use Rattle.tz_specs.specs.Abbreviation.{offset_text};
ghost use Rattle.tz_zone_laws.specs.OffsetWritten.{offset_written};

/// What `%z` writes for an offset of less than a hundred hours is read back as the offset, so nothing is lost; no text that is
/// read as the same offset is shorter; and 0 is `+00`.
#[tactic(auto, using(crate::proofs::Offsets::written, crate::proofs::Offsets::no_shorter_text))]
pub fn offsets_are_written_shortest()
    ensures read { (offset : ℤ) → unsigned_abs offset < 360_000 → offset_written (offset_text offset) ≡ Some offset }
    ensures shortest { (offset : ℤ) (other : List ℕ) → offset_written other ≡ Some offset → length (offset_text offset) ≤ length other }
    ensures zero { offset_text (pos 0) ≡ codes "+00" }
{}
