//! Which defaults read which parameters.

ghost use Rattle.std.specs.Prelude.{◌≡◌, ℕ, OnOk, ◌&&◌, ◌||◌, nat_eq, option_to_list};
ghost use Rattle.std.specs.List.{list_any};
ghost use Rattle.rdl_values.specs.Overlaid.{names_in, names_of};
ghost use Rattle.rdl_values.specs.Readers.{has_reader, stands_at};
ghost use Rattle.rdl_values.specs.Values as values;

use crate::constants::bare_name;
use crate::firsts::Firsts;
use crate::places::Places;
use rb_base::NoMemory;
use rdl_tree::{Expr, Name, Path};
use std::alloc::Global;
use std::collections::BTreeSet;

/// Places of defaults by the places of the parameters that they name.
#[derive(Drop)]
pub struct Readers {
    // The place that is read, and the reader's.
    set: BTreeSet<(usize, usize)>,
}

impl Readers {
    ghost use Rattle.std.specs.Prelude.{◌≡◌, ℕ, OnOk, ◌&&◌, ◌||◌, false, nat_eq, nat_lt};
    ghost use Rattle.rdl_values.specs.Places.{IsNextPlace, has_place};
    ghost use Rattle.rdl_values.specs.Readers.{has_reader};

    /// None yet.
    pub fn new(alloc: Global) -> Self
        ensures { (j k : ℕ) → has_reader result j k ≡ false }
    {
        Readers {
            set: BTreeSet::new(alloc),
        }
    }

    /// Puts a reader of a place among the others.
    pub fn put(&mut self, read: usize, reader: usize) -> Result<(), NoMemory>
        ensures { OnOk result ((j k : ℕ) → has_reader self.new j k ≡ ((nat_eq read j && nat_eq reader k) || has_reader self.old j k)) }
    {
        self.set.insert((read, reader))?;
        Ok(())
    }

    /// The first reader of a place from another place on.
    pub fn next(&self, read: usize, from: usize) -> Option<usize>
        ensures { IsNextPlace (has_reader self.now read) from result }
    {
        let (at, reader) = *self.set.range((read, from)..).next()?;
        if at == read { Some(reader) } else { None }
    }

    /// Puts the readers of a place, as far as they stand in front of another place, among others.
    pub fn put_into(&self, places: &mut Places, read: usize, upto: usize) -> Result<(), NoMemory>
        ensures { OnOk result ((k : ℕ) → has_place places.new k ≡ ((nat_lt k upto && has_reader self.now read k) || has_place places.old k)) }
    {
        let mut from = 0;
        while let Some(reader) = self.next(read, from) {
            if reader >= upto {
                return Ok(());
            }
            places.put(reader)?;
            from = reader + 1;
        }
        Ok(())
    }
}

// Puts a reader of what a path names, if that has a place.
fn note_path(
    readers: &mut Readers,
    places: &Firsts,
    path: &Path,
    item: &Option<Name>,
    reader: usize,
) -> Result<(), NoMemory>
    ensures { OnOk result ((j k : ℕ) → has_reader readers.new j k ≡ ((nat_eq reader k && list_any (stands_at places.now j) (option_to_list (values.bare_name path.now item.now))) || has_reader readers.old j k)) }
{
    let Some(name) = bare_name(path, item) else {
        return Ok(());
    };
    match places.find(name.text) {
        Some(read) => readers.put(read, reader),
        None => Ok(()),
    }
}

// Puts a reader of the names in an expression that have places. It recurses as deep as the tree goes.
fn note_expr(
    readers: &mut Readers,
    places: &Firsts,
    expr: &Expr,
    reader: usize,
) -> Result<(), NoMemory>
    ensures { OnOk result ((j k : ℕ) → has_reader readers.new j k ≡ ((nat_eq reader k && list_any (stands_at places.now j) (names_in expr.now)) || has_reader readers.old j k)) }
{
    match expr {
        Expr::Number(..) | Expr::Flag(..) | Expr::Str(..) | Expr::EntryOf(..) => Ok(()),
        Expr::Ref(path, item) => note_path(readers, places, path, item, reader),
        Expr::Not(operand, _) => note_expr(readers, places, operand, reader),
        Expr::Binary(_, left, right, _) => {
            note_expr(readers, places, left, reader)?;
            note_expr(readers, places, right, reader)
        }
        Expr::Pick(test, chosen, other, _) => {
            note_expr(readers, places, test, reader)?;
            note_expr(readers, places, chosen, reader)?;
            note_expr(readers, places, other, reader)
        }
    }
}

/// Puts a reader of the names in a default that have places.
pub fn note_reads(
    readers: &mut Readers,
    places: &Firsts,
    default: &Option<Expr>,
    reader: usize,
) -> Result<(), NoMemory>
    ensures { OnOk result ((j k : ℕ) → has_reader readers.new j k ≡ ((nat_eq reader k && list_any (stands_at places.now j) (names_of default.now)) || has_reader readers.old j k)) }
{
    match default {
        Some(expr) => note_expr(readers, places, expr, reader),
        None => Ok(()),
    }
}
