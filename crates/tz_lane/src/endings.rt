//! The end of a lane's holds, where its run is cut off.
ghost use Rattle.std.specs.Prelude.{◌≡◌, [], length, take};
ghost use Rattle.pin_table.specs.Reader.{reader_view};
ghost use Rattle.pin_table.specs.Table.{plan};
ghost use Rattle.tz_lane.specs.Holding.{AreHeld};
ghost use Rattle.tz_lane.specs.Meeting.{KeepsNumbers};

use crate::lane_hold::LaneHold;
use crate::lane_holds::LaneHolds;
use crate::pins::let_go;
use tz_list::ListReader;

/// Lets each hold go that the lane has open, and tells nothing of it. The reader makes no write.
pub(crate) fn let_all_go(reader: &mut ListReader<'_>, mut holds: LaneHolds)
    requires held { AreHeld (plan reader.old.table.now) (reader_view reader.old) holds }
    ensures free { (reader_view reader.new).entries ≡ [] }
    ensures grows { take (length (reader_view reader.old).seen) (reader_view reader.new).seen ≡ (reader_view reader.old).seen }
    ensures own { (reader_view reader.new).own ≡ (reader_view reader.old).own }
    ensures allowance { (reader_view reader.new).allowance ≡ (reader_view reader.old).allowance }
    ensures keeps { KeepsNumbers (reader_view reader.old) (reader_view reader.new) }
    ensures table { reader.new.table.now ≡ reader.old.table.now }
    ensures number { reader.new.number ≡ reader.old.number }
{
    while let Some(hold) = holds.take_any() {
        let LaneHold {
            name: _name,
            line: _line,
            handle,
        } = hold;
        let_go(reader, handle);
    }
    holds.end();
}
