//! Laws: the state of a rule set at an instant.
ghost use Rattle.std.specs.Prelude.{◌≡◌, ℕ, suc, ◌<◌, ◌≤◌, ◌↔◌, ℤ, ◌<ℤ◌, ◌≤ℤ◌, List, length, Some, slice_get};
ghost use Rattle.tz_specs.specs.State.{state_at};

/// An occurrence is in effect at `t` exactly where its instant is at or before `t` and that of every later one
/// is after `t`. None is exactly where every instant is after `t`.
pub fn state_is_last_come()
    ensures last { (instants : List ℤ) (t : ℤ) (place : ℕ) (instant : ℤ) → slice_get instants place ≡ Some instant → (state_at instants t ≡ suc place) ↔ ((instant ≤ℤ t) × ((later : ℕ) (other : ℤ) → place < later → slice_get instants later ≡ Some other → t <ℤ other)) }
    ensures none { (instants : List ℤ) (t : ℤ) → (state_at instants t ≡ 0) ↔ ((place : ℕ) (instant : ℤ) → slice_get instants place ≡ Some instant → t <ℤ instant) }
    ensures bound { (instants : List ℤ) (t : ℤ) → state_at instants t ≤ length instants }
{}

/// The occurrence that is in effect at some instant is in effect at its own one.
pub fn state_holds_at_its_instant()
    ensures { (instants : List ℤ) (t : ℤ) (place : ℕ) (instant : ℤ) → state_at instants t ≡ suc place → slice_get instants place ≡ Some instant → state_at instants instant ≡ suc place }
{}
