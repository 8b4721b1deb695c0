//! The holds that a lane has open.
ghost use Rattle.std.specs.Prelude.{◌≡◌, ◌<◌, None, Some, [], ◌∷◌, length, slice_get, Contains, IsPermutation, IsTrue, MatchOption};
ghost use Rattle.tz_script.specs.declared.limit.TheConstants.{MOST_HOLDS};
ghost use Rattle.tz_script.specs.Keeping.{is_among_names};
ghost use Rattle.tz_lane.specs.Holding.{names_of};
ghost use Rattle.tz_lane.specs.HoldPlaces.{holds_at, is_named, StandsAt};

use crate::lane_hold::LaneHold;
use std::marker::Model;
use std::mem;
use tz_script::{HoldName, MOST_HOLDS};

/// The holds that a lane has open. There is a place for each hold that it may have, so none takes memory. Contracts see the
/// holds in the order of their places.
///
/// A hold's handle can only be released. So the holds go one by one, by `take` or `take_any`, and what is left without a hold
/// goes by `end`.
pub struct LaneHolds {
    places: [Option<LaneHold>; MOST_HOLDS],
}

impl Model for LaneHolds {
    ghost use Rattle.std.specs.Prelude.{◌≡◌, List, length};
    ghost use Rattle.tz_script.specs.declared.limit.TheConstants.{MOST_HOLDS};
    ghost use Rattle.tz_lane.specs.declared.lane_hold.LaneHold.{LaneHold};
    ghost use Rattle.tz_lane.specs.HoldPlaces.{holds_at};

    ghost Value = { List LaneHold };

    ghost view = { λ holds. holds_at holds.places };

    ghost invariant = { λ holds. length holds.places ≡ MOST_HOLDS };
}

/// The first place where no hold stands, of which there is one.
fn free_place(places: &[Option<LaneHold>]) -> usize
    requires { length (holds_at places.now) < length places.now }
    ensures { slice_get places.now result ≡ Some None }
{
    for (at, place) in places.iter().enumerate() {
        if place.is_none() {
            return at;
        }
    }
    unreachable!()
}

/// The first place where a hold stands. None comes exactly where no hold is open.
fn full_place(places: &[Option<LaneHold>]) -> Option<usize>
    ensures { MatchOption result (holds_at places.now ≡ []) (λ at. (hold : LaneHold) × (slice_get places.now at ≡ Some (Some hold))) }
{
    for (at, place) in places.iter().enumerate() {
        if place.is_some() {
            return Some(at);
        }
    }
    None
}

/// Whether a hold of that name stands at the place.
fn is_named(place: &Option<LaneHold>, name: &HoldName) -> bool
    ensures { result ≡ is_named name.now place.now }
{
    match place {
        Some(hold) => hold.name.as_bytes() == name.as_bytes(),
        None => false,
    }
}

/// The place of the hold of that name, which is open.
fn place_named(places: &[Option<LaneHold>], name: &HoldName) -> usize
    requires { IsTrue (is_among_names name.now (names_of (holds_at places.now))) }
    ensures { StandsAt name.now places.now result }
{
    for (at, place) in places.iter().enumerate() {
        if is_named(place, name) {
            return at;
        }
    }
    unreachable!()
}

impl LaneHolds {
    /// No hold.
    pub fn new() -> Self
        ensures { result ≡ [] }
    {
        LaneHolds {
            places: [None, None, None, None, None, None, None],
        }
    }

    /// Adds a hold, for which there is a place.
    pub fn put(&mut self, hold: LaneHold)
        requires { length self.old < MOST_HOLDS }
        ensures { IsPermutation self.new (hold ∷ self.old) }
    {
        let at = free_place(&self.places);
        end_place(mem::replace(&mut self.places[at], Some(hold)));
    }

    /// Returns the hold of that name, which is open.
    pub fn named(&self, name: &HoldName) -> &LaneHold
        requires { IsTrue (is_among_names name.now (names_of self.now)) }
        ensures open { Contains self.now result.now }
        ensures name { result.now.name ≡ name.now }
    {
        let at = place_named(&self.places, name);
        let Some(hold) = &self.places[at] else {
            unreachable!()
        };
        hold
    }

    /// Takes the hold of that name out, which is open.
    pub fn take(&mut self, name: &HoldName) -> LaneHold
        requires { IsTrue (is_among_names name.now (names_of self.old)) }
        ensures others { IsPermutation self.old (result ∷ self.new) }
        ensures name { result.name ≡ name.now }
    {
        let at = place_named(&self.places, name);
        let Some(hold) = self.places[at].take() else {
            unreachable!()
        };
        hold
    }

    /// Takes a hold out. None comes exactly where no hold is open.
    pub fn take_any(&mut self) -> Option<LaneHold>
        ensures { MatchOption result ((self.old ≡ []) × (self.new ≡ [])) (λ hold. IsPermutation self.old (hold ∷ self.new)) }
    {
        let at = full_place(&self.places)?;
        self.places[at].take()
    }

    /// Ends a lane's holds, of which none is open.
    pub fn end(self)
        requires { self ≡ [] }
    {
        let LaneHolds { places } = self;
        end_places(places);
    }
}

/// Ends places where no hold stands.
fn end_places(places: [Option<LaneHold>; MOST_HOLDS])
    requires { holds_at places ≡ [] }
{
    let [a, b, c, d, e, f, g] = places;
    end_place(a);
    end_place(b);
    end_place(c);
    end_place(d);
    end_place(e);
    end_place(f);
    end_place(g);
}

/// Ends a place where no hold stands.
fn end_place(place: Option<LaneHold>)
    requires { place ≡ None }
{
    match place {
        None => {}
        Some(_hold) => unreachable!(),
    }
}
