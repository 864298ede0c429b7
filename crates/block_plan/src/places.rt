//! The places of a block's pins in a vector.
ghost use Rattle.std.specs.Prelude.{◌≡◌, ◌++◌, IfOk, codes, length};
ghost use Rattle.v_design.specs.Design as design;
ghost use Rattle.v_design.specs.Design.{inputs_among};
ghost use Rattle.block_plan.specs.Places.{AreKnown};

use crate::plan::{BusPlaces, FieldPlaces, PartPlaces};
use rb_base::{Dir, NoMemory, Port, Text};
use rb_model::{Block, Field, Gate, Signal, View};
use std::alloc::Global;
use std::collections::BTreeMap;

/// The places of a block's input pins by name, and how many there are. A source chooses the names, so they are found in order and not by a hash.
#[derive(Drop)]
pub(crate) struct Places<'a> {
    pub block: &'a Block,
    pub known: BTreeMap<&'a [u8], usize>,
    pub end: usize,
}

/// The bytes of a name.
fn bytes_of(name: &Text) -> &[u8]
    ensures { result.now ≡ name.now }
{
    name.bytes.as_slice()
}

/// Whether a port is an input other than the clock.
fn is_data_input(port: &Port) -> bool
    ensures { result ≡ design.is_data_input port.now }
{
    match port.dir {
        Dir::In => bytes_of(&port.name) != b"PCLK".as_slice(),
        Dir::Out => false,
    }
}

/// The places of the inputs among ports by name, and how many there are.
fn known_places(alloc: Global, ports: &[Port]) -> Result<(BTreeMap<&[u8], usize>, usize), NoMemory>
    ensures known { IfOk result (λ r. AreKnown (inputs_among ports.now) r.0) }
    ensures end { IfOk result (λ r. r.1 ≡ length (inputs_among ports.now)) }
{
    let mut known = BTreeMap::new(alloc);
    let mut end = 0;
    for port in ports {
        if !is_data_input(port) {
            continue;
        }
        known.insert(bytes_of(&port.name), end)?;
        end += 1;
    }
    Ok((known, end))
}

impl<'a> Places<'a> {
    ghost use Rattle.std.specs.Prelude.{◌≡◌, ◌++◌, ℕ, Some, IfOk, codes, length, slice_get};
    ghost use Rattle.rb_model.specs.Ports as ports_spec;
    ghost use Rattle.rb_model.specs.Ports.{input_pins, signal_name};
    ghost use Rattle.rb_model.specs.declared.block.Signal.{Signal};
    ghost use Rattle.rb_model.specs.declared.block.Field.{Field};
    ghost use Rattle.rb_model.specs.declared.block.View.{View};
    ghost use Rattle.rb_model.specs.Sound.{IsSound};
    ghost use Rattle.block_plan.specs.declared.plan.FieldPlaces.{FieldPlaces};
    ghost use Rattle.block_plan.specs.Places.{ArePlaces};
    ghost use Rattle.block_plan.specs.Plan.{AreBusPlaces, AreFieldPlaces, ArePartPlaces, IsGatePlace, IsPlaceOf};

    /// The places of the pins among a block's ports.
    pub fn new(alloc: Global, block: &'a Block, ports: &'a [Port]) -> Result<Places<'a>, NoMemory>
        requires sound { IsSound block.now }
        requires ports { ports.now ≡ ports_spec.ports block.now }
        ensures places { IfOk result ArePlaces }
        ensures block { IfOk result (λ p. p.block.now ≡ block.now) }
    {
        let (known, end) = known_places(alloc, ports)?;
        Ok(Places { block, known, end })
    }

    /// The place of the pin of a name, or one behind all where there is none.
    fn of(&self, name: &[u8]) -> usize
        requires { ArePlaces self.now }
        ensures { IsPlaceOf self.now.block.now name.now result }
    {
        match self.known.get(name) {
            Some(place) => *place,
            None => self.end,
        }
    }

    /// The place of the pin whose name is the word and the path.
    fn under(&self, alloc: Global, word: &[u8], path: &[u8]) -> Result<usize, NoMemory>
        requires { ArePlaces self.now }
        ensures { IfOk result (IsPlaceOf self.now.block.now (word.now ++ path.now)) }
    {
        let mut name = Vec::new(alloc);
        name.extend_from_slice(word)?;
        name.extend_from_slice(path)?;
        Ok(self.of(&name))
    }

    /// The place of a gate's pin.
    fn gate(
        &self,
        alloc: Global,
        gate: Gate,
        high: &[u8],
        low: &[u8],
        path: &[u8],
    ) -> Result<usize, NoMemory>
        requires { ArePlaces self.now }
        ensures { IfOk result (IsGatePlace self.now.block.now gate high.now low.now path.now) }
    {
        match gate {
            Gate::Always => Ok(self.end),
            Gate::High(_) => self.under(alloc, high, path),
            Gate::Low(_) => self.under(alloc, low, path),
        }
    }

    /// The places of the pins of one direction of a counter.
    fn part(
        &self,
        alloc: Global,
        pulse: &[u8],
        amount: &[u8],
        path: &[u8],
    ) -> Result<PartPlaces, NoMemory>
        requires { ArePlaces self.now }
        ensures { IfOk result (ArePartPlaces self.now.block.now (pulse.now ++ path.now) (amount.now ++ path.now)) }
    {
        Ok(PartPlaces {
            pulse: self.under(alloc, pulse, path)?,
            amount: self.under(alloc, amount, path)?,
        })
    }

    /// The places of a field's pins.
    fn field(&self, alloc: Global, field: &Field) -> Result<FieldPlaces, NoMemory>
        requires { ArePlaces self.now }
        ensures { IfOk result (AreFieldPlaces self.now.block.now field.now) }
    {
        let path = bytes_of(&field.path);
        Ok(FieldPlaces {
            source: self.under(alloc, b"in$", path)?,
            gate: self.gate(alloc, field.gate, b"we$", b"wel$", path)?,
            set: self.under(alloc, b"hwset$", path)?,
            clear: self.under(alloc, b"hwclr$", path)?,
            up: self.part(alloc, b"incr$", b"incrvalue$", path)?,
            down: self.part(alloc, b"decr$", b"decrvalue$", path)?,
        })
    }

    /// The place of a signal's pin.
    fn signal(&self, alloc: Global, signal: &Signal) -> Result<usize, NoMemory>
        requires { ArePlaces self.now }
        ensures { IfOk result (IsPlaceOf self.now.block.now (signal_name signal.now)) }
    {
        let path = bytes_of(&signal.path);
        if signal.root {
            self.under(alloc, b"global$", path)
        } else {
            self.under(alloc, b"signal$", path)
        }
    }

    /// The places of the bus's pins.
    pub fn bus(&self) -> BusPlaces
        requires { ArePlaces self.now }
        ensures { AreBusPlaces self.now.block.now result }
    {
        BusPlaces {
            resetn: self.of(b"PRESETn"),
            address: self.of(b"PADDR"),
            select: self.of(b"PSEL"),
            enable: self.of(b"PENABLE"),
            write: self.of(b"PWRITE"),
            data_in: self.of(b"PWDATA"),
        }
    }

    /// The places of the signals' pins.
    pub fn signals(&self, alloc: Global, signals: &[Signal]) -> Result<Vec<usize>, NoMemory>
        requires { ArePlaces self.now }
        ensures { IfOk result (λ places. (k : ℕ) (s : Signal) → slice_get signals.now k ≡ Some s
            → (place : ℕ) × (slice_get places.items k ≡ Some place) × IsPlaceOf self.now.block.now (signal_name s) place) }
    {
        let mut places = Vec::new(alloc);
        for signal in signals {
            places.push(self.signal(alloc, signal)?)?;
        }
        Ok(places)
    }

    /// The places of the fields' pins.
    pub fn fields(&self, alloc: Global, fields: &[Field]) -> Result<Vec<FieldPlaces>, NoMemory>
        requires { ArePlaces self.now }
        ensures { IfOk result (λ places. (k : ℕ) (f : Field) → slice_get fields.now k ≡ Some f
            → (p : FieldPlaces) × (slice_get places.items k ≡ Some p) × AreFieldPlaces self.now.block.now f p) }
    {
        let mut places = Vec::new(alloc);
        for field in fields {
            places.push(self.field(alloc, field)?)?;
        }
        Ok(places)
    }

    /// The places of the pins of the views' gates.
    pub fn gates(&self, alloc: Global, views: &[View]) -> Result<Vec<usize>, NoMemory>
        requires { ArePlaces self.now }
        ensures { IfOk result (λ places. (k : ℕ) (v : View) → slice_get views.now k ≡ Some v
            → (place : ℕ) × (slice_get places.items k ≡ Some place) × IsGatePlace self.now.block.now v.gate (codes "swwe$") (codes "swwel$") v.path place) }
    {
        let mut places = Vec::new(alloc);
        for view in views {
            places.push(self.gate(alloc, view.gate, b"swwe$", b"swwel$", bytes_of(&view.path))?)?;
        }
        Ok(places)
    }
}
