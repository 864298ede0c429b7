//! The components of a body by their names, and names that are defined twice.

ghost use Rattle.std.specs.Prelude.{◌≡◌, None, Some, take, IfOk, MatchOption};
ghost use Rattle.rdl_values.specs.Bodies.{Body, found, is_component, standing};
ghost use Rattle.rdl_values.specs.Bodies as bodies;
ghost use Rattle.rdl_values.specs.Values.{nearest};
ghost use Rattle.rdl_values.specs.Phase3 as phase;
ghost use Rattle.rdl_values.specs.Views.{item_is};
ghost use Rattle.rdl_failures.specs.Noted.{IsNoted};
ghost use Rattle.rdl_scopes.specs.Named.{AreComponents, Knows, component_named, fails_twice};

use crate::text_defaults::{TextDefaults, shared_defaults};
use rb_base::NoMemory;
use rdl_base::Rule;
use rdl_failures::Failures;
use rdl_tree::{Def, Item, Name};
use rdl_values::{Defaults, Firsts};
use std::alloc::Global;
use std::rc::Rc;

// The name of a definition or an enumeration; both share one list of names.
fn name_of<'a>(item: &Item<'a>) -> Option<Name<'a>>
    ensures { result ≡ phase.name_of (item_is item.now) }
{
    match item {
        Item::Def(def) => def.name,
        Item::EnumDef { name, .. } => Some(*name),
        _ => None,
    }
}

// The names that a body defines, in order.
fn names_in<'a>(alloc: Global, items: &[Item<'a>]) -> Result<Vec<Name<'a>>, NoMemory>
    ensures { IfOk result (λ names. names.items ≡ phase.names_in items.now) }
{
    let mut names = Vec::new(alloc);
    for item in items {
        if let Some(name) = name_of(item) {
            names.push(name)?;
        }
    }
    Ok(names)
}

// Puts in E2 at each name that stands before.
fn note_twice(alloc: Global, names: &[Name<'_>], failures: &mut Failures) -> Result<bool, NoMemory>
    ensures { IfOk result (λ clean. IsNoted (fails_twice names.now) clean failures.old failures.new) }
{
    let mut firsts = Firsts::new(alloc);
    let mut clean = true;
    for (at, name) in names.iter().enumerate() {
        let again = firsts.put(name.text, at)?;
        clean &= failures.note(again, Rule::E2, name.place)?;
    }
    Ok(clean)
}

/// Puts in E2 at each name of a definition or an enumeration that stands in the body before (SystemRDL 2.0, 5.1.4), and answers
/// whether there is none.
pub fn judge_names(
    alloc: Global,
    items: &[Item<'_>],
    failures: &mut Failures,
) -> Result<bool, NoMemory>
    ensures { IfOk result (λ clean. (b : Body) → b.items ≡ items.now → IsNoted (phase.twice_defined b) clean failures.old failures.new) }
{
    let names = names_in(alloc, items)?;
    note_twice(alloc, &names, failures)
}

/// The definitions of a body by their names, of two of one name the first, and what their parameters have at all uses.
#[derive(Drop)]
pub struct Components<'a> {
    items: &'a [Item<'a>],
    firsts: Rc<Firsts<'a>>,
    defaults: Option<Rc<TextDefaults<'a>>>,
}

// The name of a component.
fn component_name<'a>(item: &Item<'a>) -> Option<&'a [u8]>
    ensures { MatchOption result (component_named item.now ≡ None) (λ n. component_named item.now ≡ Some n.now) }
{
    match item {
        Item::Def(def) => Some(def.name?.text),
        _ => None,
    }
}

// The first place of each component's name.
fn firsts_of<'a>(alloc: Global, items: &[Item<'a>]) -> Result<Firsts<'a>, NoMemory>
    ensures { IfOk result (λ t. Knows t items.now) }
{
    let mut firsts = Firsts::new(alloc);
    for (at, item) in items.iter().enumerate() {
        if let Some(name) = component_name(item) {
            firsts.put(name, at)?;
        }
    }
    Ok(firsts)
}

// Whether the definition has this name.
fn is_named(def: &Def<'_>, name: &[u8]) -> bool
    ensures { result ≡ bodies.is_named name.now def.now.name }
{
    match def.name {
        Some(own) => own.text == name,
        None => false,
    }
}

// The component of this name that the item defines.
fn component_in<'a>(item: &'a Item<'a>, name: &[u8]) -> Option<&'a Def<'a>>
    ensures { MatchOption result (is_component name.now (item_is item.now) ≡ None) (λ d. is_component name.now (item_is item.now) ≡ Some d.now) }
{
    match item {
        Item::Def(def) if is_named(def, name) => Some(def),
        _ => None,
    }
}

impl<'a> Components<'a> {
    ghost use Rattle.std.specs.Prelude.{◌≡◌, List, IfSome, Some, option_map, slice_get};
    ghost use Rattle.rdl_tree.specs.declared.item.Item.{Item as AnyItem};
    ghost use Rattle.rdl_values.specs.Kept.{AreDefaultsOf};
    ghost use Rattle.rdl_values.specs.Views as view;
    ghost use Rattle.std.specs.Rc.{rc_value};
    ghost use Rattle.rdl_scopes.specs.Defaulted.{AreKnown};

    /// The definitions among these items, with what is known of the text's.
    pub fn of(
        alloc: Global,
        items: &'a [Item<'a>],
        defaults: Option<Rc<TextDefaults<'a>>>,
    ) -> Result<Self, NoMemory>
        requires { AreKnown (option_map rc_value defaults) items.now }
        ensures { IfOk result (λ c. AreComponents c items.now) }
    {
        let firsts = firsts_of(alloc, items)?;
        Ok(Components {
            items,
            firsts: Rc::new(alloc, firsts)?,
            defaults,
        })
    }

    /// The same once more: all bodies of a text have the same definitions.
    pub fn again(&self) -> Result<Self, NoMemory>
        ensures { IfOk result (λ c. (items : List AnyItem) → AreComponents self.now items → AreComponents c items) }
    {
        Ok(Components {
            items: self.items,
            firsts: self.firsts.clone()?,
            defaults: shared_defaults(&self.defaults)?,
        })
    }

    /// The component that a name means behind the first `upto` items: the first of that name, with its position (SystemRDL 2.0,
    /// 5.1.4).
    pub fn find(&self, name: &[u8], upto: usize) -> Option<(usize, &'a Def<'a>)>
        requires { AreComponents self.now self.now.items.now }
        ensures found { MatchOption result
            (nearest (found name.now) (standing (take upto self.now.items.now)) ≡ None)
            (λ r. nearest (found name.now) (standing (take upto self.now.items.now)) ≡ Some (take r.0 self.now.items.now, r.1.now)) }
        ensures stands { IfSome result (λ r. (i : AnyItem) × (slice_get self.now.items.now r.0 ≡ Some i) × (item_is i ≡ view.definition r.1.now)) }
    {
        let Some(at) = self.firsts.find(name) else {
            return None;
        };
        if at >= upto {
            return None;
        }
        let items: &'a [Item<'a>] = self.items;
        let Some(def) = component_in(&items[at], name) else {
            return None;
        };
        Some((at, def))
    }

    // What the parameters of a definition that the item of a number is have at all uses, if it is known.
    pub(crate) fn defaults_at(&self, item: usize, def: &Def<'a>) -> Option<&Rc<Defaults<'a>>>
        ensures { (i : AnyItem) → AreComponents self.now self.now.items.now → slice_get self.now.items.now item ≡ Some i → item_is i ≡ view.definition def.now → IfSome result (λ d. AreDefaultsOf d.now.value def.now.params.now) }
    {
        match &self.defaults {
            Some(defaults) => defaults.at(item, def),
            None => None,
        }
    }
}
