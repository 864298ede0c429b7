//! Components in bodies that stand round each other.

ghost use Rattle.std.specs.Prelude.{◌≡◌, ℕ, List, None, Some, ◌<◌, length, take, IfOk, IfSome, MatchOption, slice_get};
ghost use Rattle.rdl_tree.specs.declared.item.Item.{Item as AnyItem};
ghost use Rattle.rdl_values.specs.Bodies.{Closure, Scope, component, found, standing};
ghost use Rattle.rdl_values.specs.Kept.{AreDefaultsOf};
ghost use Rattle.rdl_values.specs.Values.{Names, nearest};
ghost use Rattle.rdl_values.specs.Views as view;
ghost use Rattle.rdl_values.specs.Views.{item_is};
ghost use Rattle.rdl_scopes.specs.Named.{AreComponents};
ghost use Rattle.rdl_scopes.specs.Scopes.{AreOpen, IsClosureAt, Shows, Stands, items_at};

use crate::components::Components;
use rb_base::NoMemory;
use rdl_tree::Def;
use rdl_values::Defaults;
use std::alloc::Global;
use std::rc::Rc;

/// The component that a name means: in which of the bodies round the place, the nearest being 0, at which of its items, and what
/// it is.
#[derive(Clone, Copy)]
pub struct Found<'a> {
    pub level: usize,
    pub position: usize,
    pub def: &'a Def<'a>,
}

// The component of a name among the first items of a body.
fn find_in<'a>(
    components: &[Components<'a>],
    number: usize,
    upto: usize,
    name: &[u8],
) -> Option<(usize, &'a Def<'a>)>
    requires { AreOpen components.now }
    ensures found { MatchOption result
        (nearest (found name.now) (standing (take upto (items_at components.now number))) ≡ None)
        (λ r. nearest (found name.now) (standing (take upto (items_at components.now number))) ≡ Some (take r.0 (items_at components.now number), r.1.now)) }
    ensures stands { IfSome result (λ r. (i : AnyItem) × (slice_get (items_at components.now number) r.0 ≡ Some i) × (item_is i ≡ view.definition r.1.now)) }
{
    match components.get(number) {
        Some(body) => body.find(name, upto),
        None => None,
    }
}

// The number at a level.
fn number_at(numbers: &[usize], level: usize) -> Option<usize>
    ensures { result ≡ slice_get numbers.now level }
{
    numbers.get(level).copied()
}

/// The component that a name means behind the first items of bodies that stand round each other, each of a number in the list
/// of all and seen up to so many of its items: that of the nearest body which has one, and there the first.
pub fn find_component<'a>(
    components: &[Components<'a>],
    numbers: &[usize],
    uptos: &[usize],
    name: &[u8],
) -> Option<Found<'a>>
    requires { AreOpen components.now }
    ensures within { IfSome result (λ r. r.level < length numbers.now) }
    ensures stands { IfSome result (Stands components.now numbers.now) }
    ensures found { (tables : List Names) (scope : Scope) → Shows tables components.now numbers.now uptos.now scope → MatchOption result
        (component name.now scope ≡ None)
        (λ r. (c : Closure) × (component name.now scope ≡ Some c) × IsClosureAt tables components.now numbers.now uptos.now r c) }
{
    for (level, number) in numbers.iter().enumerate() {
        let Some(upto) = number_at(uptos, level) else {
            return None;
        };
        if let Some((position, def)) = find_in(components, *number, upto, name) {
            return Some(Found {
                level,
                position,
                def,
            });
        }
    }
    None
}

// What the parameters of a definition that is an item of a body have at all uses, if its text has it.
fn defaults_in<'s, 'a>(
    components: &'s [Components<'a>],
    number: usize,
    item: usize,
    def: &Def<'a>,
) -> Option<&'s Rc<Defaults<'a>>>
    requires { AreOpen components.now }
    ensures { (i : AnyItem) → slice_get (items_at components.now number) item ≡ Some i → item_is i ≡ view.definition def.now → IfSome result (λ d. AreDefaultsOf d.now.value def.now.params.now) }
{
    match components.get(number) {
        Some(body) => body.defaults_at(item, def),
        None => None,
    }
}

// The same of a definition that was found.
fn known_defaults<'s, 'a>(
    components: &'s [Components<'a>],
    numbers: &[usize],
    found: &Found<'a>,
) -> Option<&'s Rc<Defaults<'a>>>
    requires { AreOpen components.now }
    ensures { Stands components.now numbers.now found.now → IfSome result (λ d. AreDefaultsOf d.now.value found.now.def.now.params.now) }
{
    match number_at(numbers, found.level) {
        Some(number) => defaults_in(components, number, found.position, found.def),
        None => None,
    }
}

/// What the parameters of a definition that was found have at all uses: its text has it, and where it hasn't, it is read anew.
pub fn defaults_of<'a>(
    alloc: Global,
    components: &[Components<'a>],
    numbers: &[usize],
    found: &Found<'a>,
) -> Result<Rc<Defaults<'a>>, NoMemory>
    requires { AreOpen components.now }
    ensures { IfOk result (λ d. Stands components.now numbers.now found.now → AreDefaultsOf d.value found.now.def.now.params.now) }
{
    match known_defaults(components, numbers, found) {
        Some(defaults) => Ok(defaults.clone()?),
        None => Ok(Rc::new(alloc, Defaults::of(alloc, found.def.params)?)?),
    }
}
