//! Laws: ranges cover time, and each instant lies in one.
ghost use Rattle.std.specs.Prelude.{◌≡◌, ℕ, ◌<◌, ◌↔◌, ◌⊎◌, ℤ, ◌<ℤ◌, ◌≤ℤ◌, List, Some, None, slice_get, IsTrue};
ghost use Rattle.tz_types.specs.declared.range.SysInfo.{SysInfo};
ghost use Rattle.tz_specs.specs.Expansion.{Period, cuts_of, full_expansion, holds_instant, range_at};
ghost use Rattle.tz_specs.specs.Sound.{leads};
ghost use Rattle.tz_specs.specs.Cover.{Chains, Covers, Rises};

/// The test that lines follow one another from `a` to `b` says what the relation says.
pub fn leading_is_following_one_another()
    ensures { (a b : ℤ) (periods : List Period) → IsTrue (leads a b periods) ↔ Chains a b periods }
{}

/// The cuts of a line that takes time lie strictly inside it, each after the one before it.
pub fn cuts_rise()
    ensures { (period : Period) → period.start <ℤ period.finish → Rises period.start period.finish (cuts_of period) }
{}

/// Lines that follow one another from `a` to `b` give ranges that do: each one takes time, and begins where
/// the one before it ends. So no instant between is left out or told twice.
pub fn ranges_cover_time()
    ensures { (a b : ℤ) (periods : List Period) → Chains a b periods → Covers a b (full_expansion periods) }
{}

/// Of ranges that run from `a` to `b`, an earlier one ends before a later one begins, and each lies inside.
pub fn ranges_stand_in_order()
    ensures inside { (a b : ℤ) (ranges : List SysInfo) (place : ℕ) (range : SysInfo) → Covers a b ranges → slice_get ranges place ≡ Some range → (a ≤ℤ range.begin) × (range.begin <ℤ range.end) × (range.end ≤ℤ b) }
    ensures order { (a b : ℤ) (ranges : List SysInfo) (place later : ℕ) (range other : SysInfo) → Covers a b ranges → place < later → slice_get ranges place ≡ Some range → slice_get ranges later ≡ Some other → range.end ≤ℤ other.begin }
{}

/// Of ranges that run from `a` to `b`, exactly one holds an instant from `a` on and before `b`, and it is the one
/// that is found. Outside there is none.
pub fn each_instant_has_one_range()
    ensures found { (a b t : ℤ) (ranges : List SysInfo) → Covers a b ranges → a ≤ℤ t → t <ℤ b → (place : ℕ) × (range : SysInfo) × (slice_get ranges place ≡ Some range) × (range_at ranges t ≡ Some range) × IsTrue (holds_instant t range) }
    ensures alone { (a b t : ℤ) (ranges : List SysInfo) (place : ℕ) (range : SysInfo) → Covers a b ranges → slice_get ranges place ≡ Some range → IsTrue (holds_instant t range) → range_at ranges t ≡ Some range }
    ensures once { (a b t : ℤ) (ranges : List SysInfo) (place other_place : ℕ) (range other : SysInfo) → Covers a b ranges → slice_get ranges place ≡ Some range → slice_get ranges other_place ≡ Some other → IsTrue (holds_instant t range) → IsTrue (holds_instant t other) → place ≡ other_place }
    ensures outside { (a b t : ℤ) (ranges : List SysInfo) → Covers a b ranges → (range_at ranges t ≡ None) ↔ ((t <ℤ a) ⊎ (b ≤ℤ t)) }
{}
