//! The names of a body that has any.

ghost use Rattle.std.specs.Prelude.{◌≡◌, option_map};
ghost use Rattle.rdl_values.specs.Over.{AreShown, shown_or_none};
ghost use Rattle.rdl_values.specs.Seen.{val_of};
ghost use Rattle.rdl_values.specs.Values.{entry_named};

use crate::firsts::Firsts;
use crate::parameters::Parameters;
use crate::table::EnumTable;
use rb_base::NoMemory;
use rdl_tree::{Name, Value};
use std::alloc::Global;
use std::marker::Model;
use std::rc::Rc;

/// The parameters of a body and its enumerations, by their names, of two of one name the first. Other bodies may have the same
/// enumerations, and parameters over the same text.
#[derive(Drop)]
pub(crate) struct NameTable<'a> {
    // Parameters over those of a text, before the others.
    over: Option<Parameters<'a>>,
    bound_places: Firsts<'a>,
    bound: Vec<(&'a [u8], Value<'a>)>,
    enum_places: Firsts<'a>,
    enums: Vec<Rc<EnumTable<'a>>>,
}

impl<'a> Model for NameTable<'a> {
    ghost use Rattle.std.specs.Prelude.{◌++◌, map};
    ghost use Rattle.std.specs.Rc.{rc_value};
    ghost use Rattle.rdl_values.specs.Values.{Names};
    ghost use Rattle.rdl_values.specs.Over.{shown_or_none};
    ghost use Rattle.rdl_values.specs.Table.{AreBodyNames, bound_by};

    ghost Value = { Names };

    ghost view = { λ t. record { bound = shown_or_none t.over ++ bound_by t.bound.items; enums = map rc_value t.enums.items } };

    ghost invariant = { λ t. AreBodyNames t.over t.bound_places t.bound.items t.enum_places (map rc_value t.enums.items) };
}

// The value of the parameter of a name over a text, if there are any.
fn value_over<'a>(over: &Option<Parameters<'a>>, name: &[u8]) -> Option<Value<'a>>
    ensures { AreShown over.now → option_map val_of result ≡ entry_named name.now (shown_or_none over.now) }
{
    match over {
        Some(parameters) => parameters.value(name),
        None => None,
    }
}

impl<'a> NameTable<'a> {
    ghost use Rattle.std.specs.Prelude.{◌≡◌, [], ◌∷◌, ◌++◌, cond, is_some, OnOk, OnErr, MatchOption, Some, None};
    ghost use Rattle.rdl_values.specs.Over.{AreShown, shown};
    ghost use Rattle.rdl_values.specs.Seen.{val_of};
    ghost use Rattle.rdl_values.specs.Table.{is_enum_named};
    ghost use Rattle.rdl_values.specs.Values.{entry_named};
    ghost use Rattle.rdl_values.specs.Visible as visible;

    /// A body without names.
    pub(crate) fn new(alloc: Global) -> Self
        ensures { result ≡ (record { bound = []; enums = [] }) }
    {
        NameTable {
            over: None,
            bound_places: Firsts::new(alloc),
            bound: Vec::new(alloc),
            enum_places: Firsts::new(alloc),
            enums: Vec::new(alloc),
        }
    }

    /// A body with these parameters.
    pub(crate) fn over(alloc: Global, parameters: Parameters<'a>) -> Self
        requires { AreShown (Some parameters) }
        ensures { result ≡ (record { bound = shown parameters.entry; enums = [] }) }
    {
        NameTable {
            over: Some(parameters),
            bound_places: Firsts::new(alloc),
            bound: Vec::new(alloc),
            enum_places: Firsts::new(alloc),
            enums: Vec::new(alloc),
        }
    }

    /// Puts a parameter behind the others, where none has its name. It changes nothing where memory is wanting.
    pub(crate) fn add(&mut self, name: &'a [u8], value: Value<'a>) -> Result<(), NoMemory>
        ensures enums { self.new.enums ≡ self.old.enums }
        ensures added { OnOk result (self.new.bound ≡ cond (is_some (entry_named name.now self.old.bound)) self.old.bound (self.old.bound ++ ((name.now, val_of value.entry) ∷ []))) }
        ensures unchanged { OnErr result (self.new.bound ≡ self.old.bound) }
    {
        if value_over(&self.over, name).is_some() {
            return Ok(());
        }
        self.bound.reserve(1)?;
        let again = self.bound_places.put(name, self.bound.len())?;
        if !again {
            self.bound.push((name, value))?;
        }
        Ok(())
    }

    /// Puts an enumeration behind the others, where none has its name. It changes nothing where memory is wanting.
    pub(crate) fn add_enum(&mut self, of: Rc<EnumTable<'a>>) -> Result<(), NoMemory>
        ensures bound { self.new.bound ≡ self.old.bound }
        ensures added { OnOk result (self.new.enums ≡ cond (is_enum_named of.entry.value.name self.old.enums) self.old.enums (self.old.enums ++ (of.entry.value ∷ []))) }
        ensures unchanged { OnErr result (self.new.enums ≡ self.old.enums) }
    {
        self.enums.reserve(1)?;
        let again = self.enum_places.put(of.text(), self.enums.len())?;
        if !again {
            self.enums.push(of)?;
        }
        Ok(())
    }

    // The value of the parameter of the name.
    pub(crate) fn value(&self, name: &[u8]) -> Option<Value<'a>>
        ensures { MatchOption result (entry_named name.now self.now.bound ≡ None) (λ v. entry_named name.now self.now.bound ≡ Some (val_of v)) }
    {
        if let Some(value) = value_over(&self.over, name) {
            return Some(value);
        }
        let at = self.bound_places.find(name)?;
        Some(self.bound[at].1)
    }

    // The enumeration that the name means: of that name, and standing before it.
    pub(crate) fn enum_before(&self, name: &Name<'a>) -> Option<&EnumTable<'a>>
        ensures { MatchOption result (visible.enum_before name.now self.now ≡ None) (λ e. visible.enum_before name.now self.now ≡ Some (record e.now { name = name.now.text.now })) }
    {
        let of = &*self.enums[self.enum_places.find(name.text)?];
        of.stands_before(name).then_some(of)
    }
}
