//! The declared nets, by name and by number.

ghost use Rattle.std.specs.Prelude.{◌≡◌, ℕ, true, length, slice_get, List, IfOk};
ghost use Rattle.v_design.specs.WellFormed.{distinct, has, is_pin as pin, names};
ghost use Rattle.v_check.specs.Found.{Finds, Stands};
ghost use Rattle.v_check.specs.Nets.{AreNets, IsTwice, declared_nets, kind_seen, nets_seen, number_of, numbers, width_in};

use crate::found::note;
use crate::names::bytes_of;
use rb_base::{Dir, NoMemory, Place, Port};
use std::alloc::Global;
use std::collections::BTreeMap;
use v_design::Decl;

/// What drives a net: an input what is outside, a wire or an output an assignment, and a register a clocked block.
#[derive(Clone, Copy, Debug, PartialEq, Eq)]
pub(crate) enum Kind {
    Given,
    Wired,
    Kept,
}

/// A declared net, with its width in bits (1 to 128).
#[derive(Clone, Copy, Debug)]
pub(crate) struct Net<'s> {
    pub name: &'s [u8],
    pub kind: Kind,
    pub width: u8,
}

impl Kind {
    ghost use Rattle.std.specs.Prelude.{◌≡◌};
    ghost use Rattle.v_design.specs.WellFormed.{same_kind};
    ghost use Rattle.v_check.specs.Nets.{kind_seen};

    /// Whether the kinds are one.
    pub(crate) fn is(self, kind: Kind) -> bool
        ensures { result ≡ same_kind (kind_seen self) (kind_seen kind) }
    {
        self == kind
    }
}

fn port_kind(dir: Dir) -> Kind
    ensures { kind_seen result ≡ Rattle.v_design.specs.WellFormed.port_kind dir }
{
    match dir {
        Dir::In => Kind::Given,
        Dir::Out => Kind::Wired,
    }
}

fn decl_kind(reg: bool) -> Kind
    ensures { kind_seen result ≡ Rattle.v_design.specs.WellFormed.decl_kind reg }
{
    if reg { Kind::Kept } else { Kind::Wired }
}

/// The nets that a module declares, in order.
pub(crate) fn nets_of<'s>(
    alloc: Global,
    ports: &'s [Port],
    decls: &'s [Decl],
) -> Result<Vec<Net<'s>>, NoMemory>
    ensures { IfOk result (λ r. nets_seen r.items ≡ declared_nets ports.now decls.now) }
{
    let mut nets = Vec::new(alloc);
    for port in ports {
        nets.push(Net {
            name: bytes_of(&port.name),
            kind: port_kind(port.dir),
            width: port.width,
        })?;
    }
    for decl in decls {
        nets.push(Net {
            name: bytes_of(&decl.name),
            kind: decl_kind(decl.reg),
            width: decl.width,
        })?;
    }
    Ok(nets)
}

/// The number of the first net of each name.
#[derive(Drop)]
pub(crate) struct Table<'s> {
    numbers: BTreeMap<&'s [u8], usize>,
}

impl<'s> Table<'s> {
    ghost use Rattle.std.specs.Prelude.{◌≡◌, ◌++◌, ◌∷◌, [], ℕ, true, length, List, IfOk};
    ghost use Rattle.v_design.specs.Lexemes.{among};
    ghost use Rattle.v_design.specs.WellFormed.{names};
    ghost use Rattle.v_check.specs.Nets.{AreNets, nets_seen, number_at, number_of};
    ghost use Rattle.v_check.specs.declared.nets.Net.{Net};

    /// No nets yet.
    fn new(alloc: Global) -> Self
        ensures { AreNets result [] }
    {
        Table {
            numbers: BTreeMap::new(alloc),
        }
    }

    /// Puts a net behind so many others, and answers whether its name is declared before.
    fn push(&mut self, net: Net<'s>, number: usize) -> Result<bool, NoMemory>
        ensures nets { IfOk result (λ again. (ns : List Net) → AreNets self.old ns → number ≡ length ns → AreNets self.new (ns ++ net.entry ∷ [])) }
        ensures again { IfOk result (λ again. (ns : List Net) → AreNets self.old ns → again ≡ among (names (nets_seen ns)) net.entry.name.now) }
    {
        if self.declares(net.name) {
            return Ok(true);
        }
        self.numbers.insert(net.name, number)?;
        Ok(false)
    }

    /// The number of the first net of a name.
    fn find(&self, name: &[u8]) -> Option<usize>
        ensures { result ≡ number_at self.now name.now }
    {
        self.numbers.get(name).copied()
    }

    /// Whether a net of this name is declared.
    pub(crate) fn declares(&self, name: &[u8]) -> bool
        ensures { (ns : List Net) → AreNets self.now ns → result ≡ among (names (nets_seen ns)) name.now }
    {
        self.find(name).is_some()
    }

    /// The number of the first of these nets that has a name, or how many they are, where none has it.
    pub(crate) fn number(&self, nets: &[Net], name: &[u8]) -> usize
        requires { AreNets self.now nets.now }
        ensures { result ≡ number_of nets.now name.now }
    {
        self.find(name).unwrap_or(nets.len())
    }
}

/// The net of this number.
fn net_at<'s>(nets: &[Net<'s>], number: usize) -> Option<Net<'s>>
    ensures { result ≡ slice_get nets.now number }
{
    nets.get(number).copied()
}

/// Whether the net of this number is of this kind, where no name is declared twice.
pub(crate) fn is_kind(nets: &[Net], number: usize, kind: Kind) -> bool
    ensures { (n : List ℕ) → number ≡ number_of nets.now n → distinct (names (nets_seen nets.now)) ≡ true
        → result ≡ has (nets_seen nets.now) (kind_seen kind) n }
{
    match net_at(nets, number) {
        Some(net) => net.kind.is(kind),
        None => false,
    }
}

/// Whether the net of this number is an input of one bit, where no name is declared twice.
pub(crate) fn is_pin(nets: &[Net], number: usize) -> bool
    ensures { (n : List ℕ) → number ≡ number_of nets.now n → distinct (names (nets_seen nets.now)) ≡ true
        → result ≡ pin (nets_seen nets.now) n }
{
    match net_at(nets, number) {
        Some(net) => net.kind.is(Kind::Given) && net.width == 1,
        None => false,
    }
}

/// The width of the net of this number in bits, or 0.
pub(crate) fn width_at(nets: &[Net], number: usize) -> u8
    ensures { (n : List ℕ) → number ≡ number_of nets.now n → result ≡ width_in (nets_seen nets.now) n }
{
    match net_at(nets, number) {
        Some(net) => net.width,
        None => 0,
    }
}

/// The table of nets, and the least place of a name that is declared before.
pub(crate) fn declare<'s>(
    alloc: Global,
    nets: &[Net<'s>],
    places: &[Place],
) -> Result<(Table<'s>, Option<Place>), NoMemory>
    requires { length nets.now ≡ length places.now }
    ensures nets { IfOk result (λ r. AreNets r.0 nets.now) }
    ensures found { IfOk result (λ r. Finds (Stands (IsTwice (names (nets_seen nets.now))) (numbers places.now)) r.1) }
{
    let mut table = Table::new(alloc);
    let mut found = None;
    for (index, net) in nets.iter().enumerate() {
        let again = table.push(*net, index)?;
        found = note(found, again, places[index]);
    }
    Ok((table, found))
}
