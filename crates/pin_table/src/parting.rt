//! How a main's seat is cut in two when a reader goes out, and made one again when it comes back.
//!
//! Which number goes out, and with how many writes, is known at run time alone, so the call that splits picks both as
//! ghost members. The step itself loads a word, as the base's splits and joins do.
ghost use Rattle.std.specs.Prelude.{◌≡◌, ◌^◌, ◌<◌, ◌≤◌, [], false};
ghost use Rattle.pin_core.specs.Core.{has_number};
ghost use Rattle.pin_core.specs.declared.view.Role.TheVariants as roles;
ghost use Rattle.pin_table.specs.Parting.{left_sitting, right_sitting, joined_sitting, AreFronts};
ghost use Rattle.pin_table.specs.Table.{IsAt};

use crate::layout::FRONT_WORD;
use crate::rule::Chair;
use crate::sitting::Sitting;
use crate::table::PinTable;
use atomic_table::{Join, Play, Split};
use pin_book::Payload;
use std::marker::{Brand, PhantomData};

/// Which reader number goes out, and with how many writes.
pub trait Parting {
    ghost use Rattle.std.specs.Prelude.{ℕ};

    ghost number: { ℕ };

    ghost writes: { ℕ };
}

impl Parting for Brand {
    ghost number = { 0 };

    ghost writes = { 0 };
}

/// The split of a number from what the main has.
pub struct Parts<W> {
    marker: PhantomData<W>,
}

impl<P, W: Parting> Split<Sitting<P>> for Parts<W> {
    ghost use Rattle.pin_table.specs.Parting.{left_sitting, right_sitting};

    ghost left = { λ v. left_sitting W.number W.writes v };

    ghost right = { λ v. right_sitting W.number W.writes v };
}

/// The join of a reader's seat with the main's.
pub struct Meets;

impl<P> Join<Sitting<P>> for Meets {
    ghost use Rattle.pin_table.specs.Parting.{met_sitting};
    ghost use Rattle.pin_table.specs.Seat.{spent_sitting};

    ghost both = { met_sitting };

    ghost spent = { spent_sitting };
}

/// Splits the number off, which the caller's proof picks for W.
fn part_as<W: Parting, P: Payload>(
    table: &PinTable<P>,
    seat: &mut Chair<P>,
    number: u32,
    writes: u32,
) -> Chair<P>
    requires picked { (number ≡ W.number) × (writes ≡ W.writes) }
    requires own { IsAt table.now seat.old }
    requires main { seat.old.me.0.core.role ≡ roles.Main }
    requires mine { 0 < has_number number seat.old.me.0.core }
    requires room { writes ≤ seat.old.me.0.core.allowance }
    ensures same { (seat.new.table_id ≡ seat.old.table_id) × (seat.new.id ≡ seat.old.id) }
    ensures left { seat.new.me ≡ (left_sitting number writes seat.old.me.0, seat.old.me.1) }
    ensures right { (result.table_id ≡ seat.old.table_id) × (result.me ≡ (right_sitting number writes seat.old.me.0, [])) }
{
    let _ = (number, writes);
    table.base.shared.split_seat::<Parts<W>>(seat)
}

/// Splits a reader's seat of this number, with so many writes, off the main's.
pub(crate) fn part<P: Payload>(
    table: &PinTable<P>,
    seat: &mut Chair<P>,
    number: u32,
    writes: u32,
) -> Chair<P>
    requires own { IsAt table.now seat.old }
    requires main { seat.old.me.0.core.role ≡ roles.Main }
    requires mine { 0 < has_number number seat.old.me.0.core }
    requires room { writes ≤ seat.old.me.0.core.allowance }
    ensures same { (seat.new.table_id ≡ seat.old.table_id) × (seat.new.id ≡ seat.old.id) }
    ensures left { seat.new.me ≡ (left_sitting number writes seat.old.me.0, seat.old.me.1) }
    ensures right { (result.table_id ≡ seat.old.table_id) × (result.me ≡ (right_sitting number writes seat.old.me.0, [])) }
{
    part_as::<Brand, P>(table, seat, number, writes)
}

/// Takes a reader's seat, which carries nothing, into the main's. What one of the two had seen is a front part of what the
/// other had.
pub(crate) fn meet<P: Payload>(table: &PinTable<P>, seat: &mut Chair<P>, other: Chair<P>)
    requires own { IsAt table.now seat.old × IsAt table.now other }
    requires main { seat.old.me.0.core.role ≡ roles.Main }
    requires reader { (other.me.0.core.role ≡ roles.Reader) × (other.me.0.core.entries ≡ []) × (other.me.0.core.turn ≡ false) }
    requires carried { other.me.1 ≡ [] }
    ensures same { (seat.new.table_id ≡ seat.old.table_id) × (seat.new.id ≡ seat.old.id) }
    ensures both { seat.new.me ≡ (joined_sitting seat.old.me.0 other.me.0, seat.old.me.1) }
    ensures alike { AreFronts seat.old.me.0.core.seen other.me.0.core.seen }
    ensures small { seat.new.me.0.core.allowance < 2 ^ 32 }
{
    table.base.shared.join_seat::<Meets>(seat, other);
    weigh(table, seat);
}

/// A load that tells of a seat how many writes it may make or hand out: the rule knows that they fit the type.
pub struct Weighs;

impl<S, P> Play<S, Sitting<P>> for Weighs {
    ghost use Rattle.std.specs.Prelude.{◌≡◌, ◌<◌, ◌^◌};

    ghost then = { λ st m n m'. (m' ≡ m) × (m.0.core.allowance < 2 ^ 32) };
}

/// Shows that the seat's allowance fits its type.
fn weigh<P: Payload>(table: &PinTable<P>, seat: &mut Chair<P>)
    requires own { IsAt table.now seat.old }
    ensures same { (seat.new.table_id ≡ seat.old.table_id) × (seat.new.id ≡ seat.old.id) × (seat.new.me ≡ seat.old.me) }
    ensures small { seat.old.me.0.core.allowance < 2 ^ 32 }
{
    table.base.shared.load::<Weighs>(seat, FRONT_WORD);
}
