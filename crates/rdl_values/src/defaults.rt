//! What the parameters of a definition have at all uses that do not touch them.

ghost use Rattle.std.specs.Prelude.{◌≡◌, ◌∷◌, [], ℕ, ◌&&◌, ◌||◌, None, OnOk, Some, cond, nat_eq, option_and_then, option_map};
ghost use Rattle.std.specs.Option.{option_or};
ghost use Rattle.std.specs.Result.{result_ok};
ghost use Rattle.rdl_tree.specs.declared.item.Param.{Param as AnyParam};
ghost use Rattle.rdl_values.specs.Parameters.{typed};
ghost use Rattle.rdl_values.specs.Seen.{val_of};
ghost use Rattle.rdl_values.specs.Places.{has_place};
ghost use Rattle.rdl_values.specs.Changed as changed;
ghost use Rattle.rdl_values.specs.Reads.{IsAdded};

use crate::chain::{Chain, eval_along};
use crate::firsts::Firsts;
use crate::operators::same;
use crate::places::Places;
use crate::readers::{Readers, note_reads};
use crate::table::Table;
use crate::wanted::as_type;
use rb_base::NoMemory;
use rdl_tree::{Expr, PType, Param, Value};
use std::alloc::Global;

/// The parameters of a definition by their names, of two of one name the first, and in order, each with the value that its default has
/// where the values of those before it are visible and nothing else: it then has this value at each use that gives it no argument, and
/// gives none to what it names.
#[derive(Drop)]
pub struct Defaults<'a> {
    places: Firsts<'a>,
    entries: Vec<(&'a [u8], Option<Value<'a>>)>,
    // The places of those that have no such value.
    needed: Places,
    // The place of the first whose name stands before.
    twice: Option<usize>,
    readers: Readers,
}

// The value of a default where these names are visible and nothing else, as a type has it.
fn typed_behind<'a>(ptype: PType, value: &Expr<'a>, before: &Table<'a>) -> Option<Value<'a>>
    ensures { (p : AnyParam) → p.ptype ≡ ptype → option_map val_of result ≡ result_ok (typed (before.now ∷ []) p value.now) }
{
    let names = Chain {
        nearest: Some(before),
        tables: &[],
        numbers: &[],
    };
    match eval_along(value, &names) {
        Ok(value) => as_type(ptype, &value),
        Err(_) => None,
    }
}

// The value of a parameter's default where these names are visible and nothing else, if it has one.
fn value_behind<'a>(param: &Param<'a>, before: &Table<'a>) -> Option<Value<'a>>
    ensures { option_map val_of result ≡ option_and_then (λ e. result_ok (typed (before.now ∷ []) param.now e)) param.now.default }
{
    match &param.default {
        Some(value) => typed_behind(param.ptype, value, before),
        None => None,
    }
}

// The first place that was found, or else this one, if it counts.
fn first_of(found: Option<usize>, counts: bool, place: usize) -> Option<usize>
    ensures { result ≡ option_or found (cond counts (Some place) None) }
{
    match found {
        Some(first) => Some(first),
        None => counts.then_some(place),
    }
}

// Puts a place among the others, if it counts.
fn put_if(places: &mut Places, counts: bool, place: usize) -> Result<(), NoMemory>
    ensures { OnOk result ((k : ℕ) → has_place places.new k ≡ ((counts && nat_eq place k) || has_place places.old k)) }
{
    if counts {
        places.put(place)?;
    }
    Ok(())
}

// Puts a value behind the others of a table, if there is one and none has its name.
fn add_if<'a>(
    table: &mut Table<'a>,
    name: &'a [u8],
    value: Option<Value<'a>>,
) -> Result<(), NoMemory>
    ensures enums { table.new.enums ≡ table.old.enums }
    ensures added { OnOk result (IsAdded name.now (option_map val_of value.entry) table.old.bound table.new.bound) }
{
    match value {
        Some(value) => table.add(name, value),
        None => Ok(()),
    }
}

// Whether a parameter that has a value by the text has another one.
fn is_changed(plain: &Option<Value>, value: &Value) -> bool
    ensures { result ≡ changed.is_changed (option_map val_of plain.now) (val_of value.now) }
{
    match plain {
        Some(plain) => !same(plain, value).unwrap_or(false),
        None => false,
    }
}

impl<'a> Defaults<'a> {
    ghost use Rattle.std.specs.Prelude.{◌≡◌, ◌==◌, ◌∷◌, ◌++◌, [], ℕ, List, IfOk, OnOk, bytes_eq, length, map, option_and_then, option_map, slice_get};
    ghost use Rattle.std.specs.List.{position_from};
    ghost use Rattle.rdl_tree.specs.declared.item.Param.{Param as AnyParam};
    ghost use Rattle.rdl_values.specs.Seen.{val_of};
    ghost use Rattle.rdl_values.specs.Kept.{AreDefaults, AreDefaultsOf, IsFirstTwice};
    ghost use Rattle.rdl_values.specs.Overlaid.{Plain, overlaid, plain_of};
    ghost use Rattle.rdl_values.specs.Changed.{is_changed};
    ghost use Rattle.rdl_values.specs.Places.{IsNextPlace};
    ghost use Rattle.rdl_values.specs.Readers.{is_reader};
    ghost use Rattle.rdl_values.specs.Reads.{IsLike};

    // No parameters yet.
    fn new(alloc: Global) -> Self
        ensures { AreDefaultsOf result [] }
    {
        Defaults {
            places: Firsts::new(alloc),
            entries: Vec::new(alloc),
            needed: Places::new(alloc),
            twice: None,
            readers: Readers::new(alloc),
        }
    }

    // Puts a parameter behind the others, whose values a table shows, and its value into the table.
    fn read(&mut self, shown: &mut Table<'a>, param: &Param<'a>) -> Result<(), NoMemory>
        ensures { OnOk result ((ps : List AnyParam) → AreDefaultsOf self.old ps → IsLike shown.old (overlaid (plain_of ps) [])
            → AreDefaultsOf self.new (ps ++ (param.now ∷ [])) × IsLike shown.new (overlaid (plain_of (ps ++ (param.now ∷ []))) [])) }
    {
        let at = self.entries.len();
        let value = value_behind(param, shown);
        note_reads(&mut self.readers, &self.places, &param.default, at)?;
        let again = self.places.put(param.name.text, at)?;
        self.twice = first_of(self.twice, again, at);
        put_if(&mut self.needed, value.is_none(), at)?;
        self.entries.push((param.name.text, value))?;
        add_if(shown, param.name.text, value)
    }

    /// Those of some parameters.
    pub fn of(alloc: Global, params: &[Param<'a>]) -> Result<Self, NoMemory>
        ensures { IfOk result (λ d. AreDefaultsOf d params.now) }
    {
        let mut defaults = Defaults::new(alloc);
        let mut shown = Table::new(alloc);
        for param in params {
            defaults.read(&mut shown, param)?;
        }
        Ok(defaults)
    }

    /// How many there are.
    pub fn len(&self) -> usize
        ensures { (xs : Plain) → AreDefaults self.now xs → result ≡ length xs }
    {
        self.entries.len()
    }

    /// Whether there are none.
    pub fn is_empty(&self) -> bool
        ensures { (xs : Plain) → AreDefaults self.now xs → result ≡ (length xs == 0) }
    {
        self.entries.is_empty()
    }

    /// The place of the first parameter of a name.
    pub fn find(&self, name: &[u8]) -> Option<usize>
        ensures { (xs : Plain) → AreDefaults self.now xs → result ≡ position_from (λ m. bytes_eq m name.now) 0 (map (λ x. x.0) xs) }
    {
        self.places.find(name)
    }

    /// The value of the parameter at a place, if it has one.
    pub fn value(&self, place: usize) -> Option<Value<'a>>
        ensures { (xs : Plain) → AreDefaults self.now xs → option_map val_of result ≡ option_and_then (λ x. x.1) (slice_get xs place) }
    {
        self.entries.get(place)?.1
    }

    /// The first place from one on of a parameter that has no such value: a use touches it.
    pub fn next_needed(&self, from: usize) -> Option<usize>
        ensures { IsNextPlace (has_place self.now.needed) from result }
    {
        self.needed.next(from)
    }

    /// The place of the first parameter whose name stands before.
    pub fn twice(&self) -> Option<usize>
        ensures { (xs : Plain) → AreDefaults self.now xs → IsFirstTwice xs result }
    {
        self.twice
    }
    /// Where the parameter at a place has a value by the text and this value is another, puts the places of those whose defaults name the
    /// parameter among others.
    pub fn put_readers(
        &self,
        due: &mut Places,
        place: usize,
        value: &Value<'a>,
    ) -> Result<(), NoMemory>
        ensures { OnOk result ((ps : List AnyParam) → AreDefaultsOf self.now ps
            → (k : ℕ) → has_place due.new k ≡ ((is_changed (option_and_then (λ x. x.1) (slice_get (plain_of ps) place)) (val_of value.now) && is_reader ps place k) || has_place due.old k)) }
    {
        if is_changed(&self.value(place), value) {
            self.readers.put_into(due, place, self.entries.len())?;
        }
        Ok(())
    }
}
