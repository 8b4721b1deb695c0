//! What a user may rely on from call to call. Each law follows from the clauses of the calls alone.
ghost use Rattle.std.specs.Prelude.{◌≡◌, ◌<◌, ◌≤◌, true, List, length, take, Contains};
ghost use Rattle.pin_book.specs.declared.write.Write.{Write};
ghost use Rattle.pin_book.specs.Replay.{replays};
ghost use Rattle.pin_core.specs.declared.view.View.{View};
ghost use Rattle.pin_table.specs.declared.sitting.Plan.{Plan};
ghost use Rattle.pin_table.specs.Handles.{Handle, pin_of, AreAllHeld, MadeBy, IsOf};
ghost use Rattle.pin_table.specs.Sources.{source_of};

use pin_book::Payload;

/// What a reader sees never goes back: each call's journal goes on from those of the calls before it.
pub fn what_is_seen_never_goes_back()
    ensures { (first later last : List Write) → take (length first) later ≡ first → take (length later) last ≡ later
        → (take (length first) last ≡ first) × (length first ≤ length last) }
{}

/// A handle stays its reader's while the reader sees more, as long as it isn't released.
pub fn a_handle_stays<P: Payload>()
    ensures { (plan : Plan P) (v later : View) (handle : Handle P) → MadeBy P.home P.source plan v handle
        → take (length v.seen) later.seen ≡ v.seen → later.role ≡ v.role → later.numbers ≡ v.numbers
        → Contains later.entries (pin_of handle) → AreAllHeld plan.slots later → MadeBy P.home P.source plan later handle }
{}

/// A handle's version is the one that the journal gives to the handle's number, by all that the reader has seen.
pub fn a_handle_is_of_the_journal_s_version<P: Payload>()
    ensures { (plan : Plan P) (v : View) (handle : Handle P) → MadeBy P.home P.source plan v handle
        → 0 < plan.slots → replays plan.slots v.seen ≡ true → IsOf P.home P.source (P.home plan.first) (source_of v.seen handle.number) handle.version }
{}
