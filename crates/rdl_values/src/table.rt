//! The names of a body by their texts: look-ups that don't go through them one by one.

use crate::firsts::Firsts;
use crate::name_table::NameTable;
use crate::parameters::Parameters;
use rb_base::NoMemory;
use rdl_tree::{Name, Value};
use std::alloc::Global;
use std::marker::Model;
use std::rc::Rc;

/// An enumeration: the numbers of its entries by their names, of two of one name the first.
#[derive(Drop)]
pub struct EnumTable<'a> {
    name: Name<'a>,
    places: Firsts<'a>,
    entries: Vec<(&'a [u8], u64)>,
}

impl<'a> Model for EnumTable<'a> {
    ghost use Rattle.rdl_values.specs.Values.{EnumOf};
    ghost use Rattle.rdl_values.specs.Firsts.{AreFirsts};
    ghost use Rattle.rdl_values.specs.Table.{entries_by, keys_of};

    ghost Value = { EnumOf };

    ghost view = { λ e. record { name = e.name.text.now; place = e.name.place.0; entries = entries_by e.entries.items } };

    ghost invariant = { λ e. AreFirsts e.places (keys_of e.entries.items) };
}

impl<'a> EnumTable<'a> {
    ghost use Rattle.std.specs.Prelude.{◌≡◌, [], ◌∷◌, ◌++◌, cond, is_some, nat_lt, OnOk, OnErr};
    ghost use Rattle.rdl_values.specs.Values.{entry_named};

    /// An enumeration without entries.
    pub fn new(alloc: Global, name: Name<'a>) -> Self
        ensures { result ≡ (record { name = name.entry.text.now; place = name.entry.place.0; entries = [] }) }
    {
        EnumTable {
            name,
            places: Firsts::new(alloc),
            entries: Vec::new(alloc),
        }
    }

    /// Puts an entry behind the others, where none has its name. It changes nothing where memory is wanting.
    pub fn add(&mut self, name: &'a [u8], number: u64) -> Result<(), NoMemory>
        ensures name { self.new.name ≡ self.old.name }
        ensures place { self.new.place ≡ self.old.place }
        ensures added { OnOk result (self.new.entries ≡ cond (is_some (entry_named name.now self.old.entries)) self.old.entries (self.old.entries ++ ((name.now, number) ∷ []))) }
        ensures unchanged { OnErr result (self.new.entries ≡ self.old.entries) }
    {
        self.entries.reserve(1)?;
        let again = self.places.put(name, self.entries.len())?;
        if !again {
            self.entries.push((name, number))?;
        }
        Ok(())
    }

    // Its name.
    pub(crate) fn text(&self) -> &'a [u8]
        ensures { result.now ≡ self.now.name }
    {
        self.name.text
    }

    // The number of its first entry of the name.
    pub(crate) fn number(&self, name: &[u8]) -> Option<u64>
        ensures { result ≡ entry_named name.now self.now.entries }
    {
        let at = self.places.find(name)?;
        Some(self.entries[at].1)
    }

    // Whether it stands before a name.
    pub(crate) fn stands_before(&self, name: &Name) -> bool
        ensures { result ≡ nat_lt self.now.place name.now.place.0 }
    {
        self.name.place.0 < name.place.0
    }
}

/// The parameters of a body and its enumerations, by their names, of two of one name the first. Most bodies have neither, and then it
/// keeps nothing.
#[derive(Drop)]
pub struct Table<'a> {
    alloc: Global,
    names: Option<Box<NameTable<'a>>>,
}

impl<'a> Model for Table<'a> {
    ghost use Rattle.rdl_values.specs.Table.{names_or_none};
    ghost use Rattle.rdl_values.specs.Values.{Names};

    ghost Value = { Names };

    ghost view = { λ t. names_or_none t.names };
}

impl<'a> Table<'a> {
    ghost use Rattle.std.specs.Prelude.{◌≡◌, ℕ, [], ◌∷◌, ◌++◌, cond, is_some, take, IfOk, OnOk, OnErr, MatchOption, Some, None};
    ghost use Rattle.rdl_values.specs.Over.{IsOver};
    ghost use Rattle.rdl_values.specs.Overlaid.{Plain, overlaid};
    ghost use Rattle.rdl_values.specs.Parameters.{Bound as BoundOf};
    ghost use Rattle.rdl_values.specs.Seen.{val_of};
    ghost use Rattle.rdl_values.specs.Table.{is_enum_named};
    ghost use Rattle.rdl_values.specs.Values.{entry_named};
    ghost use Rattle.rdl_values.specs.Visible as visible;

    /// A body without names.
    pub fn new(alloc: Global) -> Self
        ensures { result ≡ (record { bound = []; enums = [] }) }
    {
        Table { alloc, names: None }
    }

    /// A body with these parameters.
    pub fn over(alloc: Global, parameters: Parameters<'a>) -> Result<Self, NoMemory>
        requires { (xs : Plain) × (k : ℕ) × (t : BoundOf) × IsOver parameters xs k t }
        ensures { IfOk result (λ table. (xs : Plain) (k : ℕ) (t : BoundOf) → IsOver parameters.entry xs k t → table ≡ (record { bound = overlaid (take k xs) t; enums = [] })) }
    {
        if parameters.is_empty() {
            return Ok(Table::new(alloc));
        }
        let names = NameTable::over(alloc, parameters);
        let names = Some(Box::new(alloc, names)?);
        Ok(Table { alloc, names })
    }

    /// Puts a parameter behind the others, where none has its name. It changes nothing where memory is wanting.
    pub fn add(&mut self, name: &'a [u8], value: Value<'a>) -> Result<(), NoMemory>
        ensures enums { self.new.enums ≡ self.old.enums }
        ensures added { OnOk result (self.new.bound ≡ cond (is_some (entry_named name.now self.old.bound)) self.old.bound (self.old.bound ++ ((name.now, val_of value.entry) ∷ []))) }
        ensures unchanged { OnErr result (self.new.bound ≡ self.old.bound) }
    {
        if let Some(names) = &mut self.names {
            return names.add(name, value);
        }
        let mut names = NameTable::new(self.alloc);
        names.add(name, value)?;
        self.names = Some(Box::new(self.alloc, names)?);
        Ok(())
    }

    /// Puts an enumeration behind the others, where none has its name; other bodies may have the same. It changes nothing where
    /// memory is wanting.
    pub fn add_enum(&mut self, of: Rc<EnumTable<'a>>) -> Result<(), NoMemory>
        ensures bound { self.new.bound ≡ self.old.bound }
        ensures added { OnOk result (self.new.enums ≡ cond (is_enum_named of.entry.value.name self.old.enums) self.old.enums (self.old.enums ++ (of.entry.value ∷ []))) }
        ensures unchanged { OnErr result (self.new.enums ≡ self.old.enums) }
    {
        if let Some(names) = &mut self.names {
            return names.add_enum(of);
        }
        let mut names = NameTable::new(self.alloc);
        names.add_enum(of)?;
        self.names = Some(Box::new(self.alloc, names)?);
        Ok(())
    }

    // The value of the parameter of the name.
    pub(crate) fn value(&self, name: &[u8]) -> Option<Value<'a>>
        ensures { MatchOption result (entry_named name.now self.now.bound ≡ None) (λ v. entry_named name.now self.now.bound ≡ Some (val_of v)) }
    {
        match &self.names {
            Some(names) => names.value(name),
            None => None,
        }
    }

    // The enumeration that the name means: of that name, and standing before it.
    pub(crate) fn enum_before(&self, name: &Name<'a>) -> Option<&EnumTable<'a>>
        ensures { MatchOption result (visible.enum_before name.now self.now ≡ None) (λ e. visible.enum_before name.now self.now ≡ Some (record e.now { name = name.now.text.now })) }
    {
        match &self.names {
            Some(names) => names.enum_before(name),
            None => None,
        }
    }
}
