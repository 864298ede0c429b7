//! The ports in order, found by their names.

ghost use Rattle.std.specs.Prelude.{◌≡◌, ◌<◌, ◌++◌, ◌∷◌, [], List, ℕ, OnOk, OnErr, IfSome, IfNone, slice_get, slice_set, Some, take, length, cond, bytes_eq};
ghost use Rattle.rtl_net.specs.Names.{Lacks};
ghost use Rattle.rtl_net.specs.Places.{place_of};
ghost use Rattle.rtl_net.specs.Ports.{seat_names, seated, taken_in};
ghost use Rattle.rtl_net.specs.declared.node.Seat.{Seat as SeatOf};

use crate::names::Names;
use crate::node::{Occupant, Seat};
use rb_base::{NoMemory, Text};
use std::alloc::Global;
use std::marker::Model;

/// The ports in order.
#[derive(Drop)]
pub(crate) struct Ports {
    seats: Vec<Seat>,
    places: Names,
}

impl Model for Ports {
    ghost use Rattle.std.specs.Prelude.{List};
    ghost use Rattle.rtl_net.specs.Ports.{seat_names};
    ghost use Rattle.rtl_net.specs.Places.{ArePlaces};
    ghost use Rattle.rtl_net.specs.declared.node.Seat.{Seat as SeatOf};

    ghost Value = { List SeatOf };

    ghost view = { λ ports. ports.seats.items };

    ghost invariant = { λ ports. ArePlaces ports.places (seat_names ports.seats.items) };
}

/// Puts a seat at the end and its place under its name, or changes nothing.
fn push(
    alloc: Global,
    seats: &mut Vec<Seat>,
    places: &mut Names,
    name: &[u8],
    width: u8,
    taken: Option<Occupant>,
) -> Result<(), NoMemory>
    ensures seats { OnOk result (seats.new.items ≡ seats.old.items ++ record { name = name.now; width = width; taken = taken } ∷ []) }
    ensures places { OnOk result ((n : List ℕ) → place_of places.new n ≡ cond (bytes_eq name.now n) (Some (length seats.old.items)) (place_of places.old n)) }
    ensures same_seats { OnErr result (seats.new.items ≡ seats.old.items) }
    ensures same_places { OnErr result ((n : List ℕ) → place_of places.new n ≡ place_of places.old n) }
{
    let bytes = Vec::from_slice(alloc, name)?;
    let place = seats.len();
    seats.push(Seat {
        name: Text { bytes },
        width,
        taken,
    })?;
    if places.put(alloc, name, place).is_err() {
        let _ = seats.pop();
        return Err(NoMemory);
    }
    Ok(())
}

/// Marks a seat as taken.
fn mark(seats: &mut Vec<Seat>, at: usize, taken: Occupant)
    requires { at < length seats.old.items }
    ensures { (seat : SeatOf) → slice_get seats.old.items at ≡ Some seat
        → seats.new.items ≡ slice_set seats.old.items at (record { name = seat.name; width = seat.width; taken = Some taken }) }
{
    let seat = &mut seats[at];
    seat.taken = Some(taken);
}

/// What has taken the seat at a place.
fn taken_at(seats: &[Seat], at: usize) -> Option<Occupant>
    requires { at < length seats.now }
    ensures { (seat : SeatOf) → slice_get seats.now at ≡ Some seat → result ≡ seat.taken }
{
    seats[at].taken
}

impl Ports {
    pub(crate) fn new(alloc: Global) -> Self
        ensures { result ≡ [] }
    {
        Ports {
            seats: Vec::new(alloc),
            places: Names::new(alloc),
        }
    }

    pub(crate) fn as_slice(&self) -> &[Seat]
        ensures { result.now ≡ self.now }
    {
        &self.seats
    }

    /// The place of a seat.
    fn find(&self, name: &[u8]) -> Option<usize>
        ensures found { IfSome result (λ i. slice_get (seat_names self.now) i ≡ Some name.now) }
        ensures first { IfSome result (λ i. Lacks (take i (seat_names self.now)) name.now) }
        ensures absent { IfNone result (Lacks (seat_names self.now) name.now) }
    {
        self.places.find(name)
    }

    /// What has taken the seat of the name.
    pub(crate) fn taken(&self, name: &[u8]) -> Option<Occupant>
        ensures { result ≡ taken_in self.now name.now }
    {
        match self.find(name) {
            Some(at) => taken_at(&self.seats, at),
            None => None,
        }
    }

    /// Puts a seat at the end, or changes nothing.
    pub(crate) fn push(
        &mut self,
        alloc: Global,
        name: &[u8],
        width: u8,
        taken: Option<Occupant>,
    ) -> Result<(), NoMemory>
        requires { Lacks (seat_names self.old) name.now }
        ensures ok { OnOk result (self.new ≡ self.old ++ record { name = name.now; width = width; taken = taken } ∷ []) }
        ensures err { OnErr result (self.new ≡ self.old) }
    {
        push(alloc, &mut self.seats, &mut self.places, name, width, taken)?;
        Ok(())
    }

    /// Takes the seat of the name, or puts a taken one at the end, or changes nothing.
    pub(crate) fn take(
        &mut self,
        alloc: Global,
        name: &[u8],
        width: u8,
        taken: Occupant,
    ) -> Result<(), NoMemory>
        ensures ok { OnOk result (self.new ≡ seated self.old name.now width taken) }
        ensures err { OnErr result (self.new ≡ self.old) }
    {
        match self.find(name) {
            Some(at) => {
                mark(&mut self.seats, at, taken);
                Ok(())
            }
            None => self.push(alloc, name, width, Some(taken)),
        }
    }
}
