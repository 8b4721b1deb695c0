//! What a user of a list may rely on from call to call.
ghost use Rattle.std.specs.Prelude.{◌≡◌, ◌<◌, true};
ghost use Rattle.pin_book.specs.Replay.{replays};
ghost use Rattle.pin_core.specs.declared.view.View.{View};
ghost use Rattle.pin_table.specs.Handles.{Handle, MadeBy};
ghost use Rattle.pin_table.specs.Sources.{source_of};
ghost use Rattle.pin_table.specs.Table.{plan};
ghost use Rattle.tz_version.specs.Release.{Release, IsVersionOf};
ghost use Rattle.tz_list.specs.declared.list.TzdbList.{TzdbList};
ghost use Rattle.tz_list.specs.Reload.{release_home, release_source};

/// A handle's version is of one of the list's sources: the one that the journal gives to the handle's number, by all that
/// the reader has seen. That a version is of its own source, each call on it ensures.
pub fn a_handle_holds_its_source()
    ensures { (list : TzdbList) (v : View) (handle : Handle Release) → MadeBy release_home release_source (plan list.table) v handle
        → 0 < (plan list.table).slots → replays (plan list.table).slots v.seen ≡ true
        → IsVersionOf handle.version.sources handle.version.src handle.version
        → IsVersionOf list.sources (source_of v.seen handle.number) handle.version }
{}
