//! Laws: where lines are cut, and the ranges between.
ghost use Rattle.std.specs.Prelude.{◌↔◌, ℤ, ◌<ℤ◌, List};
ghost use Rattle.std.specs.List.{Contains};
ghost use Rattle.tz_types.specs.declared.range.SysInfo.{SysInfo};
ghost use Rattle.tz_specs.specs.Expansion.{Period, cuts_of, full_expansion, ranges_of};
ghost use Rattle.tz_specs.specs.Cover.{Chains};
ghost use Rattle.tz_specs.specs.Standing.{IsCut, IsRangeOf};

/// A line is cut exactly where an occurrence takes effect strictly inside it.
pub fn cuts_are_where_occurrences_take_effect()
    ensures { (period : Period) (instant : ℤ) → Contains (cuts_of period) instant ↔ IsCut period instant }
{}

/// The ranges of a line that takes time are exactly those from its start or a cut to the next cut or its end.
pub fn ranges_run_from_cut_to_cut()
    ensures { (period : Period) (range : SysInfo) → period.start <ℤ period.finish → Contains (ranges_of period) range ↔ IsRangeOf period range }
{}

/// The full expansion of lines that follow one another has exactly the ranges of the lines.
pub fn expansion_is_ranges_of_lines()
    ensures { (a b : ℤ) (periods : List Period) (range : SysInfo) → Chains a b periods → Contains (full_expansion periods) range ↔ ((period : Period) × Contains periods period × IsRangeOf period range) }
{}
