//! What drives each net.

ghost use Rattle.std.specs.Prelude.{◌≡◌, ◌&&◌, true, not, length, nat_lt, List, IfOk};
ghost use Rattle.std.specs.List.{list_all};
ghost use Rattle.v_design.specs.Tree.{Statement};
ghost use Rattle.v_design.specs.WellFormed.{distinct, drives_its_kind as drives_kind, drives_well as well_driven, is_clock as clocks, is_reset as resets, names};
ghost use Rattle.v_syntax.specs.Syntax.{AreStatements, IsStatement};
ghost use Rattle.v_check.specs.Drivers.{AreDrivers, IsMisdriven, IsUndriven, again_of, are_declared, driver_at};
ghost use Rattle.v_check.specs.Found.{Finds, Stands};
ghost use Rattle.v_check.specs.Nets.{AreNets, nets_seen, number_of, numbers};
ghost use Rattle.v_check.specs.Sizes.{stmt_places};
ghost use Rattle.v_check.specs.Uses.{AreUses};

use crate::found::note;
use crate::names::{bytes_of, names_clock, reads_clock};
use crate::nets::{Kind, Net, Table, is_kind, is_pin};
use crate::widths::Uses;
use rb_base::{NoMemory, Place};
use std::alloc::Global;
use v_design::Stmt;
use v_syntax::Event;

/// Whether the name is that of a one-bit input PCLK.
fn is_clock(table: &Table, nets: &[Net], name: &[u8]) -> bool
    requires { AreNets table.now nets.now }
    ensures { distinct (names (nets_seen nets.now)) ≡ true → result ≡ clocks (nets_seen nets.now) name.now }
{
    is_pin(nets, table.number(nets, name)) && names_clock(name)
}

/// Whether the name is that of a one-bit input other than PCLK.
fn is_reset(table: &Table, nets: &[Net], name: &[u8]) -> bool
    requires { AreNets table.now nets.now }
    ensures { distinct (names (nets_seen nets.now)) ≡ true → result ≡ resets (nets_seen nets.now) name.now }
{
    is_pin(nets, table.number(nets, name)) && !names_clock(name)
}

/// Whether a statement drives a net of its kind, at the clock and under a reset as it should.
fn drives_its_kind(table: &Table, nets: &[Net], target: usize, stmt: &Stmt, event: &Event) -> bool
    requires nets { AreNets table.now nets.now }
    requires target { target ≡ number_of nets.now stmt.now.to }
    ensures { distinct (names (nets_seen nets.now)) ≡ true → (s : Statement) → IsStatement stmt.now event.now s
        → result ≡ drives_kind (nets_seen nets.now) s }
{
    match event {
        Event::None => is_kind(nets, target, Kind::Wired),
        Event::Clock(clock) => is_kind(nets, target, Kind::Kept) && is_clock(table, nets, clock),
        Event::Reset {
            clock,
            negated,
            test,
            again,
        } => match &stmt.reset {
            Some(reset) => {
                let pin = bytes_of(&reset.pin);
                is_kind(nets, target, Kind::Kept)
                    && is_clock(table, nets, clock)
                    && is_reset(table, nets, pin)
                    && *test == pin
                    && *negated == reset.low
                    && *again == bytes_of(&stmt.to)
            }
            None => false,
        },
    }
}

/// The number of the net that the last branch of a statement drives.
fn last_target(table: &Table, nets: &[Net], target: usize, stmt: &Stmt, event: &Event) -> usize
    requires nets { AreNets table.now nets.now }
    requires target { target ≡ number_of nets.now stmt.now.to }
    ensures { result ≡ number_of nets.now (again_of stmt.now event.now) }
{
    match event {
        Event::Reset { again, .. } => {
            if *again == bytes_of(&stmt.to) {
                target
            } else {
                table.number(nets, again)
            }
        }
        Event::None | Event::Clock(_) => target,
    }
}

/// For each net by its number the number of a statement that drives it.
#[derive(Drop)]
pub(crate) struct Drivers {
    numbers: Vec<Option<u32>>,
}

impl Drivers {
    ghost use Rattle.std.specs.Prelude.{◌≡◌, ◌<◌, ◌==◌, ◌||◌, ℕ, length, IfOk, OnOk, Some, None, is_some, if◌then◌else◌};
    ghost use Rattle.v_check.specs.Drivers.{driver_of};

    /// So many nets without drivers.
    fn new(alloc: Global, count: usize) -> Result<Self, NoMemory>
        ensures none { IfOk result (λ r. (i : ℕ) → driver_of r i ≡ None) }
        ensures count { IfOk result (λ r. length r.numbers.items ≡ count) }
    {
        Ok(Drivers {
            numbers: vec![in alloc; None; count]?,
        })
    }

    /// The number of the statement that drives the net of this number.
    pub(crate) fn find(&self, net: usize) -> Option<usize>
        ensures { result ≡ driver_of self.now net }
    {
        match self.numbers.get(net) {
            Some(Some(number)) => Some(*number as usize),
            _ => None,
        }
    }

    /// Notes a driver of a net, if the net is one of these. A number that takes more than 32 bits is refused like memory.
    fn insert(&mut self, net: usize, number: usize) -> Result<(), NoMemory>
        ensures count { OnOk result (length self.new.numbers.items ≡ length self.old.numbers.items) }
        ensures put { OnOk result (net < length self.old.numbers.items
            → (i : ℕ) → driver_of self.new i ≡ (if i == net then Some number else driver_of self.old i)) }
    {
        let Ok(number) = u32::try_from(number) else {
            return Err(NoMemory);
        };
        if net < self.numbers.len() {
            self.numbers[net] = Some(number);
        }
        Ok(())
    }

    /// Whether one of two nets has a driver.
    fn has_driver(&self, net: usize, other: usize) -> bool
        ensures { result ≡ is_some (driver_of self.now net) || is_some (driver_of self.now other) }
    {
        self.find(net).is_some() || self.find(other).is_some()
    }

    /// Notes a driver of two nets, of each if it is one of these.
    fn add(&mut self, net: usize, other: usize, number: usize) -> Result<(), NoMemory>
        ensures count { OnOk result (length self.new.numbers.items ≡ length self.old.numbers.items) }
        ensures put { OnOk result (net < length self.old.numbers.items → other < length self.old.numbers.items
            → (i : ℕ) → driver_of self.new i ≡ (if (i == net || i == other) then Some number else driver_of self.old i)) }
    {
        self.insert(net, number)?;
        self.insert(other, number)
    }
}

/// Whether each of these is the number of a net, where there are so many.
fn are_numbers(numbers: &[u32], count: usize) -> bool
    ensures { result ≡ list_all (λ i. nat_lt i count) numbers.now }
{
    numbers.iter().all(|number| (*number as usize) < count)
}

/// Whether three things hold.
fn all_three(one: bool, other: bool, last: bool) -> bool
    ensures { result ≡ (one && other && last) }
{
    one && other && last
}

/// Whether a statement does not drive a net of its kind, reads the clock, or drives a net that has a driver.
fn is_misdriven(kind: bool, clocked: bool, again: bool) -> bool
    ensures { result ≡ not (kind && not clocked && not again) }
{
    !kind || clocked || again
}

/// What drives each net.
#[derive(Drop)]
pub(crate) struct Driving {
    pub drivers: Drivers,
    /// The least place of a statement that drives what it may not, reads the clock, or drives a net that has a driver
    /// before.
    pub misdriven: Option<Place>,
    /// Whether each name in the statements is seen to be declared.
    pub declared: bool,
}

/// The drivers of nets, and which statements drive what they may not. They are told where each name in the statements
/// is declared, and none twice.
pub(crate) fn drive_all(
    alloc: Global,
    table: &Table,
    nets: &[Net],
    stmts: &[Stmt],
    events: &[Event],
    uses: &Uses,
) -> Result<Driving, NoMemory>
    requires nets { AreNets table.now nets.now }
    requires events { length stmts.now ≡ length events.now }
    requires uses { AreUses (number_of nets.now) uses.now stmts.now }
    ensures drivers { IfOk result (λ r. (ss : List Statement) → AreStatements stmts.now events.now ss
        → are_declared (nets_seen nets.now) ss ≡ true → AreDrivers (driver_at nets.now r.drivers) ss) }
    ensures found { IfOk result (λ r. distinct (names (nets_seen nets.now)) ≡ true → (ss : List Statement) → AreStatements stmts.now events.now ss
        → are_declared (nets_seen nets.now) ss ≡ true
        → Finds (Stands (IsMisdriven (nets_seen nets.now) ss) (stmt_places stmts.now)) r.misdriven) }
    ensures declared { IfOk result (λ r. r.declared ≡ true → distinct (names (nets_seen nets.now)) ≡ true
        → (ss : List Statement) → AreStatements stmts.now events.now ss → are_declared (nets_seen nets.now) ss ≡ true) }
{
    let mut drivers = Drivers::new(alloc, nets.len())?;
    let mut misdriven = None;
    let mut declared = true;
    for (index, stmt) in stmts.iter().enumerate() {
        let event = &events[index];
        let target = uses.targets[index];
        let kind = drives_its_kind(table, nets, target, stmt, event);
        let read = are_numbers(uses.reads.get(index), nets.len());
        declared = all_three(declared, kind, read);
        let last = last_target(table, nets, target, stmt, event);
        let again = drivers.has_driver(target, last);
        drivers.add(target, last, index)?;
        let wrong = is_misdriven(kind, reads_clock(&stmt.expr), again);
        misdriven = note(misdriven, wrong, stmt.place);
    }
    Ok(Driving {
        drivers,
        misdriven,
        declared,
    })
}

/// The least place of a net that is no input and has no driver, where no name is declared twice.
pub(crate) fn undriven(drivers: &Drivers, nets: &[Net], places: &[Place]) -> Option<Place>
    requires { length nets.now ≡ length places.now }
    ensures { distinct (names (nets_seen nets.now)) ≡ true
        → Finds (Stands (IsUndriven (nets_seen nets.now) (driver_at nets.now drivers.now)) (numbers places.now)) result }
{
    let mut found = None;
    for (index, net) in nets.iter().enumerate() {
        let driven = net.kind.is(Kind::Given) || drivers.find(index).is_some();
        found = note(found, !driven, places[index]);
    }
    found
}
