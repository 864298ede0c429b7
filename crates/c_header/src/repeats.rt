//! Which names stand in a list more than once.

use rb_base::{NoMemory, Text};
use std::alloc::Global;
use std::collections::BTreeMap;
use std::marker::Model;

/// Names that were seen, and whether more than once. A look-up compares the name with some tens of others at most.
#[derive(Drop)]
pub struct Seen<'n> {
    names: BTreeMap<&'n [u8], bool>,
}

impl<'n> Seen<'n> {
    ghost use Rattle.std.specs.Prelude.{◌≡◌, ℕ, List, None, Some, IfOk, OnOk, bytes_eq, cond, is_some};
    ghost use Rattle.c_header.specs.Repeats.{IsSeenOf, seen_in};

    fn new(alloc: Global) -> Self
        ensures { (name : List ℕ) → seen_in result name ≡ None }
    {
        Seen {
            names: BTreeMap::new(alloc),
        }
    }

    fn find(&self, name: &[u8]) -> Option<bool>
        ensures { result ≡ seen_in self.now name.now }
    {
        self.names.get(name).copied()
    }

    fn add(&mut self, name: &'n [u8]) -> Result<(), NoMemory>
        ensures { OnOk result ((other : List ℕ) → seen_in self.new other ≡ cond (bytes_eq name.now other) (Some (is_some (seen_in self.old name.now))) (seen_in self.old other)) }
    {
        let again = self.find(name).is_some();
        self.names.insert(name, again)?;
        Ok(())
    }

    // The names of a list.
    fn of(alloc: Global, names: &'n [Text]) -> Result<Self, NoMemory>
        ensures { IfOk result (IsSeenOf names.now) }
    {
        let mut seen = Seen::new(alloc);
        for name in names {
            seen.add(&name.bytes)?;
        }
        Ok(seen)
    }
}

/// Names, of which it is known which stand more than once. Contracts see them as the list of names.
#[derive(Drop)]
pub struct Repeats<'n> {
    names: &'n [Text],
    seen: Seen<'n>,
}

impl<'n> Model for Repeats<'n> {
    ghost use Rattle.std.specs.Prelude.{List, ℕ};
    ghost use Rattle.c_header.specs.Repeats.{IsSeenOf};

    ghost Value = { List (List ℕ) };

    ghost view = { λ r. r.names.now };

    ghost invariant = { λ r. IsSeenOf r.names.now r.seen };
}

impl<'n> Repeats<'n> {
    ghost use Rattle.std.specs.Prelude.{◌≡◌, IfOk};
    ghost use Rattle.c_header.specs.Names.{is_repeated};

    /// The names of a list. The only error is want of memory.
    pub(crate) fn of(alloc: Global, names: &'n [Text]) -> Result<Self, NoMemory>
        ensures { IfOk result (λ r. r ≡ names.now) }
    {
        let seen = Seen::of(alloc, names)?;
        Ok(Repeats { names, seen })
    }

    /// Whether a name stands in the list more than once.
    pub(crate) fn contains(&self, name: &[u8]) -> bool
        ensures { result ≡ is_repeated self.now name.now }
    {
        match self.seen.find(name) {
            Some(again) => again,
            None => false,
        }
    }
}
