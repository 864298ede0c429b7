//! The addresses and bits of a tree.

ghost use Rattle.std.specs.Prelude.{◌≡◌, ℕ, length};
ghost use Rattle.rdl_values.specs.Elaborated.{nodes_of};
ghost use Rattle.rdl_addr.specs.Answers.{AreBitsAt, HasAddressAt, IsAddressAt, IsFieldAt, IsSizeAt};
ghost use Rattle.rdl_addr.specs.Areas.{bits_at, area_at};

use rdl_tree::Elab;
use std::marker::Model;

/// Where a register or container stands, in bytes.
#[derive(Clone, Copy)]
pub struct Area {
    pub address: u64,
    pub size: u64,
}

/// The addresses and sizes of the registers and containers of a tree, and the bits of its fields. A map is seen as its tree.
#[derive(Drop)]
pub struct Map<'a> {
    elab: Elab<'a>,
    /// For each node where it stands, 0 where it has no address.
    areas: Vec<Area>,
    /// For each node its high and its low bit, 0 where it is no field.
    bits: Vec<(u8, u8)>,
}

impl<'a> Model for Map<'a> {
    ghost use Rattle.rdl_tree.specs.declared.node.Elab.{Elab};
    ghost use Rattle.rdl_tree.specs.contracts.expr.Expr as expr;
    ghost use Rattle.rdl_tree.specs.contracts.item.Item as item;
    ghost use Rattle.rdl_tree.specs.contracts.node.Node as node;
    ghost use Rattle.rdl_tree.specs.contracts.value.Env as env;
    ghost use Rattle.std.specs.Coded.{codes};
    ghost use denote.Signature.{static_lft};

    ghost Value = { Elab };

    ghost coded = { Prim.hlevel (codes, (expr.the_row static_lft).coded, (item.the_row static_lft).coded, (node.the_row static_lft).coded, (env.the_row static_lft).coded) };

    ghost use Rattle.rdl_addr.specs.Tables.{AreTables};

    ghost view = { λ m. m.elab };

    ghost invariant = { AreTables };
}

impl<'a> Map<'a> {
    /// The map of a tree from its tables: for each node where it stands, and for each node its high and its low bit.
    pub fn of_tables(elab: Elab<'a>, areas: Vec<Area>, bits: Vec<(u8, u8)>) -> Map<'a>
        requires all_placed { length areas.items ≡ length (nodes_of elab) }
        requires addresses { (k : ℕ) → HasAddressAt elab k → IsAddressAt elab k (area_at areas.items k).address }
        requires sizes { (k : ℕ) → HasAddressAt elab k → IsSizeAt elab k (area_at areas.items k).size }
        requires all_fields { length bits.items ≡ length (nodes_of elab) }
        requires fields { (k : ℕ) → IsFieldAt elab k → AreBitsAt elab k (bits_at bits.items k) }
        ensures { result ≡ elab.entry }
    {
        Map { elab, areas, bits }
    }

    /// The address of a register or container, in bytes (SystemRDL 2.0, 5.1.2.2).
    pub fn address(&self, node: u32) -> u64
        requires { HasAddressAt self.now node }
        ensures { IsAddressAt self.now node result }
    {
        self.areas[node as usize].address
    }

    /// The size of a register or container, in bytes: from its address to the end of what ends last in it.
    pub fn size(&self, node: u32) -> u64
        requires { HasAddressAt self.now node }
        ensures { IsSizeAt self.now node result }
    {
        self.areas[node as usize].size
    }

    /// The high and the low bit of a field in its register (SystemRDL 2.0, 9.1).
    pub fn bits(&self, node: u32) -> (u8, u8)
        requires { IsFieldAt self.now node }
        ensures { AreBitsAt self.now node result }
    {
        self.bits[node as usize]
    }
}
