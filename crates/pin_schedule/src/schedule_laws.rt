//! What schedules have to do with whole runs of the core.

ghost use Rattle.std.specs.Prelude.{◌≡◌, ◌*◌, ◌<◌, ◌≤◌, ℕ, Some, true, List, All, slice_get};
ghost use mathlib.Core.Option.{some};
ghost use lib.ListN.{get_elem?};
ghost use Rattle.pin_core.specs.declared.entry.Entry.{Entry};
ghost use Rattle.pin_core.specs.declared.view.View.{View};
ghost use Rattle.pin_core.specs.Core.{CoreState};
ghost use Rattle.pin_core.specs.Lawful.{Lawful};
ghost use Rattle.pin_core.specs.Run.{Moves, Reaches, KeepsStraysApart};
ghost use Rattle.pin_core.specs.Step.{opening_state, opening_with_readers};
ghost use Rattle.pin_schedule.specs.declared.event.Event.{Event};
ghost use Rattle.pin_schedule.specs.Pin.{taken_place};
ghost use Rattle.pin_schedule.specs.Schedule.{IsAllowed, after_event, after_events, AreAllowed, IsFirstRefused};

/// An event that is allowed is one step of the core, so a schedule is a run of it. Its opening is what splits make of the
/// opening of a list, so all that holds of each run of a list holds of schedules.
pub fn a_schedule_is_a_run()
    ensures step { (s : CoreState) (event : Event) → IsAllowed s event → Moves s (after_event s event) }
    ensures run { (s : CoreState) (events : List Event) → AreAllowed s events → Reaches s (after_events s events) }
    ensures opening { (slots readers room : ℕ) (events : List Event) → AreAllowed (opening_with_readers slots readers room) events
        → Reaches (opening_state slots readers (readers * room)) (after_events (opening_with_readers slots readers room) events) }
    ensures lawful { (s : CoreState) (events : List Event) → Lawful s → AreAllowed s events → Lawful (after_events s events) }
{}

/// A schedule has one outcome: where all events are allowed none is the first that isn't, and no two are.
pub fn a_schedule_has_one_outcome()
    ensures none { (s : CoreState) (events : List Event) (index : ℕ) → AreAllowed s events → IsFirstRefused s events index → ⊥ }
    ensures one { (s : CoreState) (events : List Event) (index other : ℕ) → IsFirstRefused s events index → IsFirstRefused s events other → index ≡ other }
{}

/// No schedule brings a stray and a handle of one reader to one slot.
pub fn strays_stand_apart_in_schedules()
    ensures { (slots readers room id : ℕ) (events : List Event) (v : View) → 0 < slots → AreAllowed (opening_with_readers slots readers room) events
        → get_elem? (after_events (opening_with_readers slots readers room) events).views id ≡ some v → KeepsStraysApart v }
{}

/// A pin that is taken off at a slot is there. Where it is held, each pin there is, and none has a lesser position.
pub fn strays_go_first_and_then_the_oldest()
    ensures slot { (slot place : ℕ) (entries : List Entry) (e : Entry) → taken_place slot entries ≡ Some place → slice_get entries place ≡ Some e → e.slot ≡ slot }
    ensures oldest { (slot place : ℕ) (entries : List Entry) (e : Entry) → taken_place slot entries ≡ Some place → slice_get entries place ≡ Some e → e.held ≡ true
        → All (λ (other : Entry). other.slot ≡ slot → (other.held ≡ true) × (e.position ≤ other.position)) entries }
{}
