//! The netlist and the calls that build it.

ghost use Rattle.std.specs.Prelude.{◌≡◌, ◌≢◌, ◌+◌, ◌<◌, ◌≤◌, ◌^◌, ◌++◌, ◌∷◌, [], ℕ, List, Some, None, Ok, true, false, IfOk, OnOk, OnErr, IfSome, IfNone, IsTrue, length, slice_get, if◌then◌else◌, cond};
ghost use Rattle.std.specs.Bool.{OnTrue, OnFalse};
ghost use Rattle.std.specs.Str.{bytes_eq};
ghost use Rattle.rtl_net.specs.Places.{place_of};
ghost use Rattle.rtl_net.specs.Names.{clock, is_identifier, is_net_name};
ghost use Rattle.rtl_net.specs.Value.{At, expr_width, expr_value, under};
ghost use Rattle.rtl_net.specs.Net.{Net, Settles, Extends, Keeps, Grows, IsNode, IsInput, IsWire, IsWidth, CanWire, CanReset, CanDrive, Has, HasClock, Awaits, registers_of, undriven, width_in, widths};
ghost use Rattle.rtl_net.specs.Ports.{IsNew, IsFree, is_named, seated};
ghost use Rattle.rtl_net.specs.Made.{IsMade};
ghost use Rattle.rtl_net.specs.Fold.{constant, constant_at, is_constant, constant_values};
ghost use Rattle.rtl_net.specs.declared.node.Id.{Id as IdOf};
ghost use Rattle.rtl_net.specs.declared.node.NetReset.{NetReset as ResetOf};

use crate::bits::{difference, joined, odd, ones, part, sum};
use crate::names::Names;
use crate::node::{Id, NetExpr, NetNode, NetReset, Occupant, Seat};
use crate::nodes::Nodes;
use crate::ports::Ports;
use rb_base::{NoMemory, Text};
use std::alloc::Global;
use std::marker::Model;

/// A netlist: a module's name, its nodes by number, and its ports in order.
///
/// An input `PCLK` is the clock, which no expression, reset, output or register's next value names.
#[derive(Drop)]
pub struct Netlist {
    alloc: Global,
    name: Text,
    nodes: Nodes,
    ports: Ports,
    registers: Names,
}

impl Model for Netlist {
    ghost use Rattle.std.specs.Prelude.{map};
    ghost use Rattle.rtl_net.specs.Net.{Net, registers_of};
    ghost use Rattle.rtl_net.specs.Made.{IsMade};
    ghost use Rattle.rtl_net.specs.Places.{HasNames};

    ghost Value = { Net };

    ghost view = { λ n. record { name = n.name; nodes = n.nodes; seats = n.ports } };

    ghost invariant = { λ n. IsMade (record { name = n.name; nodes = n.nodes; seats = n.ports }) × HasNames n.registers (map (λ r. r.name) (registers_of n.nodes)) };
}

fn copied(alloc: Global, bytes: &[u8]) -> Result<Text, NoMemory>
    ensures { IfOk result (λ text. text ≡ bytes.now) }
{
    let bytes = Vec::from_slice(alloc, bytes)?;
    Ok(Text { bytes })
}

/// The width of an input as an operand: 0 for the clock.
fn operand_width(name: &[u8], width: u8) -> u8
    ensures { result ≡ (if bytes_eq name.now clock then 0 else width) }
{
    if name == b"PCLK".as_slice() { 0 } else { width }
}

/// The value of a node that is a constant.
fn constant_of(node: &NetNode) -> Option<u128>
    ensures { result ≡ constant node.now }
{
    match node {
        NetNode::Wire(NetExpr::Const(_, value)) => Some(*value),
        _ => None,
    }
}

/// Puts an input at the end and takes its seat, or changes nothing.
fn add_input(
    alloc: Global,
    nodes: &mut Nodes,
    ports: &mut Ports,
    name: &[u8],
    width: u8,
) -> Result<Id, NoMemory>
    ensures id { IfOk result (λ id. id.0 ≡ length nodes.old) }
    ensures nodes { OnOk result (nodes.new ≡ nodes.old ++ NetNode.Input name.now width ∷ []) }
    ensures ports { IfOk result (λ id. ports.new ≡ seated ports.old name.now width (Occupant.Input id)) }
    ensures same_nodes { OnErr result (nodes.new ≡ nodes.old) }
    ensures same_ports { OnErr result (ports.new ≡ ports.old) }
{
    let node = NetNode::Input {
        name: copied(alloc, name)?,
        width,
    };
    let id = nodes.push(node, operand_width(name, width))?;
    if ports.take(alloc, name, width, Occupant::Input(id)).is_err() {
        nodes.pop();
        return Err(NoMemory);
    }
    Ok(id)
}

/// Puts a register at the end and its number under its name, or changes nothing.
fn add_register(
    alloc: Global,
    nodes: &mut Nodes,
    names: &mut Names,
    name: &[u8],
    width: u8,
    reset: NetReset,
) -> Result<Id, NoMemory>
    ensures id { IfOk result (λ id. id.0 ≡ length nodes.old) }
    ensures nodes { OnOk result (nodes.new ≡ nodes.old ++ NetNode.Register name.now width reset None ∷ []) }
    ensures names { IfOk result (λ id. (n : List ℕ) → place_of names.new n ≡ cond (bytes_eq name.now n) (Some id.0) (place_of names.old n)) }
    ensures same_nodes { OnErr result (nodes.new ≡ nodes.old) }
    ensures same_names { OnErr result ((n : List ℕ) → place_of names.new n ≡ place_of names.old n) }
{
    let node = NetNode::Register {
        name: copied(alloc, name)?,
        width,
        reset,
        next: None,
    };
    let id = nodes.push(node, width)?;
    if names.put(alloc, name, id.0).is_err() {
        nodes.pop();
        return Err(NoMemory);
    }
    Ok(id)
}

impl Netlist {
    ghost use Rattle.rtl_net.specs.Adds.{AddsNode, AddsWire, folded};

    /// A netlist of no nodes and no ports, of a module of this name. The only error is want of memory.
    pub fn new(alloc: Global, name: &[u8]) -> Result<Self, NoMemory>
        requires { IsTrue (is_identifier name.now) }
        ensures { IfOk result (λ net. net ≡ record { name = name.now; nodes = []; seats = [] }) }
    {
        Ok(Netlist {
            alloc,
            name: copied(alloc, name)?,
            nodes: Nodes::new(alloc),
            ports: Ports::new(alloc),
            registers: Names::new(alloc),
        })
    }

    /// The module's name.
    pub fn name(&self) -> &[u8]
        ensures { result.now ≡ self.now.name }
    {
        &self.name.bytes
    }

    /// The nodes by number.
    pub fn nodes(&self) -> &[NetNode]
        ensures value { result.now ≡ self.now.nodes }
        ensures made { IsMade self.now }
    {
        self.nodes.as_slice()
    }

    /// The ports in order.
    pub fn seats(&self) -> &[Seat]
        ensures { result.now ≡ self.now.seats }
    {
        self.ports.as_slice()
    }

    /// Whether an input, a register or an output has the name. A seat that is not taken does not count.
    pub fn has(&self, name: &[u8]) -> bool
        ensures { result ≡ is_named self.now name.now }
    {
        self.ports.taken(name).is_some() || self.registers.find(name).is_some()
    }

    /// The width of a node in bits.
    pub fn width(&self, id: Id) -> u8
        requires { id.0 < length self.now.nodes }
        ensures operand { 0 < width_in self.now id → result ≡ width_in self.now id }
        ensures clock { width_in self.now id ≡ 0 → result ≡ 1 }
        ensures most { result ≤ 128 }
    {
        self.nodes.widths()[id.0].max(1)
    }

    /// Puts a port at the end, which a later input or output of the name and width takes. The width is in bits (1 to 128).
    /// The only error is want of memory, after which the netlist is as it was.
    pub fn seat(&mut self, name: &[u8], width: u8) -> Result<(), NoMemory>
        requires named { IsTrue (is_net_name name.now) }
        requires new { IsNew self.old name.now }
        requires wide { IsWidth width }
        ensures older { Extends self.old self.new }
        ensures name { self.new.name ≡ self.old.name }
        ensures nodes { self.new.nodes ≡ self.old.nodes }
        ensures seats { OnOk result (self.new.seats ≡ self.old.seats ++ record { name = name.now; width = width; taken = None } ∷ []) }
        ensures err { OnErr result (self.new ≡ self.old) }
    {
        self.ports.push(self.alloc, name, width, None)?;
        Ok(())
    }

    /// Adds an input of this width in bits (1 to 128), at its seat or at a port that is put at the end. `PCLK` is the clock.
    /// The only error is want of memory, after which the netlist is as it was.
    pub fn input(&mut self, name: &[u8], width: u8) -> Result<Id, NoMemory>
        requires named { IsTrue (is_net_name name.now) }
        requires free { IsFree self.old name.now width }
        requires wide { IsWidth width }
        requires clock { OnTrue (bytes_eq name.now clock) (width ≡ 1) }
        ensures older { Extends self.old self.new }
        ensures name { self.new.name ≡ self.old.name }
        ensures awaits { Keeps self.old self.new }
        ensures registers { registers_of self.new.nodes ≡ registers_of self.old.nodes }
        ensures undriven { undriven self.new.nodes ≡ undriven self.old.nodes }
        ensures seats { IfOk result (λ id. self.new.seats ≡ seated self.old.seats name.now width (Occupant.Input id)) }
        ensures nodes { OnOk result (AddsNode self.old self.new (NetNode.Input name.now width)) }
        ensures input { IfOk result (λ id. IsInput self.new id name.now width) }
        ensures node { IfOk result (λ id. OnFalse (bytes_eq name.now clock) (IsNode self.new id width (λ v. v.ins name.now))) }
        ensures clocked { OnOk result (OnTrue (bytes_eq name.now clock) (HasClock self.new)) }
        ensures err { OnErr result (self.new ≡ self.old) }
    {
        let id = add_input(self.alloc, &mut self.nodes, &mut self.ports, name, width)?;
        Ok(id)
    }

    /// Adds a register of this width in bits (1 to 128), which is still to be driven. The only error is want of memory,
    /// after which the netlist is as it was.
    pub fn register(&mut self, name: &[u8], width: u8, reset: NetReset) -> Result<Id, NoMemory>
        requires named { IsTrue (is_net_name name.now) }
        requires new { IsNew self.old name.now }
        requires wide { IsWidth width }
        requires clock { HasClock self.old }
        requires reset { CanReset self.old width reset }
        ensures older { Extends self.old self.new }
        ensures name { self.new.name ≡ self.old.name }
        ensures awaits { Keeps self.old self.new }
        ensures seats { self.new.seats ≡ self.old.seats }
        ensures registers { OnOk result (registers_of self.new.nodes ≡ registers_of self.old.nodes ++ record { name = name.now; width = width } ∷ []) }
        ensures undriven { OnOk result (undriven self.new.nodes ≡ undriven self.old.nodes + 1) }
        ensures nodes { OnOk result (AddsNode self.old self.new (NetNode.Register name.now width reset None)) }
        ensures register { IfOk result (λ id. Awaits self.new id name.now width reset) }
        ensures node { IfOk result (λ id. IsNode self.new id width (λ v. under v.node reset (v.kept name.now))) }
        ensures err { OnErr result (self.new ≡ self.old) }
    {
        let id = add_register(
            self.alloc,
            &mut self.nodes,
            &mut self.registers,
            name,
            width,
            reset,
        )?;
        Ok(id)
    }

    /// Ties a register to the node that it takes at each edge. Takes no memory.
    pub fn drive(&mut self, reg: Id, next: Id)
        requires { CanDrive self.old reg next }
        ensures older { Extends self.old self.new }
        ensures name { self.new.name ≡ self.old.name }
        ensures others { (id : IdOf) (name : List ℕ) (w : ℕ) (reset : ResetOf) → id.0 ≢ reg.0 → Awaits self.old id name w reset → Awaits self.new id name w reset }
        ensures seats { self.new.seats ≡ self.old.seats }
        ensures registers { registers_of self.new.nodes ≡ registers_of self.old.nodes }
        ensures undriven { undriven self.new.nodes + 1 ≡ undriven self.old.nodes }
        ensures driven { (name : List ℕ) (w : ℕ) (reset : ResetOf) → Awaits self.old reg name w reset
            → (v : At) → Settles self.new v → v.after name ≡ under v.node reset (v.node next.0) }
    {
        self.nodes.tie(reg, next);
    }

    /// Adds an output that shows a node, at its seat or at a port that is put at the end. The only error is want of memory,
    /// after which the netlist is as it was.
    pub fn output(&mut self, name: &[u8], from: Id) -> Result<(), NoMemory>
        requires named { IsTrue (is_net_name name.now) }
        requires stands { Has self.old from }
        requires free { IsFree self.old name.now (width_in self.old from) }
        ensures older { Extends self.old self.new }
        ensures name { self.new.name ≡ self.old.name }
        ensures nodes { self.new.nodes ≡ self.old.nodes }
        ensures seats { OnOk result (self.new.seats ≡ seated self.old.seats name.now (width_in self.old from) (Occupant.Output from)) }
        ensures shown { OnOk result ((v : At) → Settles self.new v → v.outs name.now ≡ v.node from.0) }
        ensures err { OnErr result (self.new ≡ self.old) }
    {
        let width = self.width(from);
        self.ports
            .take(self.alloc, name, width, Occupant::Output(from))?;
        Ok(())
    }

    /// The node of an expression: the one that stands, or a new one. The only error is want of memory, after which the
    /// netlist is as it was.
    pub fn wire(&mut self, expr: NetExpr) -> Result<Id, NoMemory>
        requires { CanWire self.old expr }
        ensures older { Grows self.old self.new }
        ensures name { self.new.name ≡ self.old.name }
        ensures node { IfOk result (λ id. IsNode self.new id (expr_width (widths self.old) expr) (λ v. expr_value (widths self.old) v.node expr)) }
        ensures nodes { OnOk result (AddsWire self.old self.new expr) }
        ensures wire { IfOk result (λ id. IsWire self.new id expr) }
        ensures shared { (id : IdOf) → IsWire self.old id expr → (result ≡ Ok id) × (self.new ≡ self.old) }
        ensures err { OnErr result (self.new ≡ self.old) }
    {
        let width = self.expr_width(expr);
        let id = self.nodes.wire(expr, width)?;
        Ok(id)
    }

    /// The node of an expression's value: a constant where all operands are constants, and else that of `wire`. The only
    /// error is want of memory, after which the netlist is as it was.
    pub fn fold(&mut self, expr: NetExpr) -> Result<Id, NoMemory>
        requires { CanWire self.old expr }
        ensures older { Grows self.old self.new }
        ensures name { self.new.name ≡ self.old.name }
        ensures node { IfOk result (λ id. IsNode self.new id (expr_width (widths self.old) expr) (λ v. expr_value (widths self.old) v.node expr)) }
        ensures nodes { OnOk result (AddsWire self.old self.new (folded self.old expr)) }
        ensures constant { IsTrue (is_constant self.old.nodes expr) → IfOk result (λ id. IsWire self.new id
            (NetExpr.Const (expr_width (widths self.old) expr) (expr_value (widths self.old) (constant_values self.old.nodes) expr))) }
        ensures wire { is_constant self.old.nodes expr ≡ false → IfOk result (λ id. IsWire self.new id expr) }
        ensures err { OnErr result (self.new ≡ self.old) }
    {
        let folded = self.folded(expr);
        let id = self.wire(folded)?;
        Ok(id)
    }

    /// The constant of an expression over constants, or else the expression.
    fn folded(&self, expr: NetExpr) -> NetExpr
        requires { CanWire self.now expr }
        ensures can { CanWire self.now result }
        ensures width { expr_width (widths self.now) result ≡ expr_width (widths self.now) expr }
        ensures value { (v : At) → Settles self.now v → expr_value (widths self.now) v.node result ≡ expr_value (widths self.now) v.node expr }
        ensures constant { IsTrue (is_constant self.now.nodes expr)
            → result ≡ NetExpr.Const (expr_width (widths self.now) expr) (expr_value (widths self.now) (constant_values self.now.nodes) expr) }
        ensures same { is_constant self.now.nodes expr ≡ false → result ≡ expr }
    {
        // The proof cites what holds of each netlist, which it knows where a field is used.
        let _nodes = &self.nodes;
        match self.computed(expr) {
            Some(value) => NetExpr::Const(self.expr_width(expr), value),
            None => expr,
        }
    }

    /// The value of a constant's node.
    fn constant(&self, id: Id) -> Option<u128>
        requires { Has self.now id }
        ensures value { result ≡ constant_at self.now.nodes id.0 }
        ensures fits { IfSome result (λ x. x < 2 ^ width_in self.now id) }
    {
        constant_of(&self.nodes.as_slice()[id.0])
    }

    /// The value of an expression over constants.
    fn computed(&self, expr: NetExpr) -> Option<u128>
        requires { CanWire self.now expr }
        ensures some { IfSome result (λ x. is_constant self.now.nodes expr ≡ true × (x ≡ expr_value (widths self.now) (constant_values self.now.nodes) expr)) }
        ensures none { IfNone result (is_constant self.now.nodes expr ≡ false) }
    {
        match expr {
            NetExpr::Const(_, value) => Some(value),
            NetExpr::Part(a, hi, lo) => {
                let width = self.width(a);
                prove!(hi < width);
                Some(part(self.constant(a)?, hi, lo))
            }
            NetExpr::Cat(a, b) => Some(joined(self.constant(a)?, self.constant(b)?, self.width(b))),
            NetExpr::Not(a) => Some(ones(self.width(a)) - self.constant(a)?),
            NetExpr::All(a) => Some(u128::from(self.constant(a)? == ones(self.width(a)))),
            NetExpr::Any(a) => Some(u128::from(self.constant(a)? > 0)),
            NetExpr::Odd(a) => Some(odd(self.constant(a)?)),
            NetExpr::Add(a, b) => Some(sum(self.constant(a)?, self.constant(b)?, self.width(a))),
            NetExpr::Sub(a, b) => Some(difference(
                self.constant(a)?,
                self.constant(b)?,
                self.width(a),
            )),
            NetExpr::And(a, b) => Some(self.constant(a)? & self.constant(b)?),
            NetExpr::Or(a, b) => Some(self.constant(a)? | self.constant(b)?),
            NetExpr::Xor(a, b) => Some(self.constant(a)? ^ self.constant(b)?),
            NetExpr::Eq(a, b) => Some(u128::from(self.constant(a)? == self.constant(b)?)),
            NetExpr::Lt(a, b) => Some(u128::from(self.constant(a)? < self.constant(b)?)),
            NetExpr::Pick(c, a, b) => {
                let condition = self.constant(c)?;
                let first = self.constant(a)?;
                let second = self.constant(b)?;
                Some(if condition == 0 { second } else { first })
            }
        }
    }

    /// The width of an expression in bits.
    fn expr_width(&self, expr: NetExpr) -> u8
        requires { CanWire self.now expr }
        ensures { result ≡ expr_width (widths self.now) expr }
    {
        match expr {
            NetExpr::Const(width, _) => width,
            NetExpr::Part(a, hi, lo) => {
                let width = self.width(a);
                prove!(hi < width);
                hi - lo + 1
            }
            NetExpr::Cat(a, b) => self.width(a) + self.width(b),
            NetExpr::Not(a)
            | NetExpr::Add(a, _)
            | NetExpr::Sub(a, _)
            | NetExpr::And(a, _)
            | NetExpr::Or(a, _)
            | NetExpr::Xor(a, _)
            | NetExpr::Pick(_, a, _) => self.width(a),
            NetExpr::All(_)
            | NetExpr::Any(_)
            | NetExpr::Odd(_)
            | NetExpr::Eq(_, _)
            | NetExpr::Lt(_, _) => 1,
        }
    }
}
