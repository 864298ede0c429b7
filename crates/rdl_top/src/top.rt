//! The top of a source.

ghost use Rattle.std.specs.Prelude.{◌≡◌, List, take, MatchOption, None, Some};
ghost use Rattle.std.specs.Option.{option_copied, option_or};
ghost use Rattle.rdl_tree.specs.declared.item.Item.{Item as AnyItem};
ghost use Rattle.rdl_tree.specs.declared.item.Source.{Source};
ghost use Rattle.rdl_values.specs.Top as spec;
ghost use Rattle.rdl_top.specs.Topped.{Means, addrmap_in};

use rdl_tree::{Def, Item, Kind, Name};

/// The definition that is the top: an addrmap at the root, its name, and how many items stand before it.
#[derive(Clone, Copy)]
pub struct Top<'a> {
    pub position: usize,
    pub def: &'a Def<'a>,
    pub name: Name<'a>,
}

fn is_addrmap(kind: Kind) -> bool
    ensures { result ≡ spec.is_addrmap kind }
{
    kind == Kind::Addrmap
}

// The named address map that an item defines.
fn addrmap<'a>(item: &'a Item<'a>) -> Option<(&'a Def<'a>, Name<'a>)>
    ensures { MatchOption result (addrmap_in item.now ≡ None) (λ r. addrmap_in item.now ≡ Some (r.0.now, r.1)) }
{
    match item {
        Item::Def(def) if is_addrmap(def.kind) => match def.name {
            Some(name) => Some((def, name)),
            None => None,
        },
        _ => None,
    }
}

// Whether a name will do: any, where none is wanted.
fn is_wanted(wanted: Option<&[u8]>, name: &Name) -> bool
    ensures { result ≡ spec.is_wanted (option_copied wanted.entry) name.now }
{
    match wanted {
        Some(wanted) => name.text == wanted,
        None => true,
    }
}

// The top that an item behind so many others gives.
fn top_in<'a>(item: &'a Item<'a>, position: usize, wanted: Option<&[u8]>) -> Option<Top<'a>>
    ensures { (s : Source) (items : List AnyItem) → Means s items result (spec.top_at (option_copied wanted.entry) s (take position items, item.now)) }
{
    match addrmap(item) {
        Some((def, name)) if is_wanted(wanted, &name) => Some(Top {
            position,
            def,
            name,
        }),
        _ => None,
    }
}

// The later top, if there is one.
fn later<'a>(before: Option<Top<'a>>, top: Option<Top<'a>>) -> Option<Top<'a>>
    ensures { result ≡ option_or top.entry before.entry }
{
    match top {
        Some(top) => Some(top),
        None => before,
    }
}

// The last named address map.
fn last_top<'a>(items: &'a [Item<'a>]) -> Option<Top<'a>>
    ensures { (s : Source) → s.items.now ≡ items.now → Means s items.now result (spec.top_use_of None s) }
{
    let mut top = None;
    for (position, item) in items.iter().enumerate() {
        top = later(top, top_in(item, position, None));
    }
    top
}

// The first address map of a name.
fn first_top<'a>(items: &'a [Item<'a>], wanted: &[u8]) -> Option<Top<'a>>
    ensures { (s : Source) → s.items.now ≡ items.now → Means s items.now result (spec.top_use_of (Some wanted.now) s) }
{
    for (position, item) in items.iter().enumerate() {
        let top = top_in(item, position, Some(wanted));
        if top.is_some() {
            return top;
        }
    }
    None
}

/// The top: the first address map at the root of the name that is wanted, or else the last one that has a name.
pub fn find_top<'a>(items: &'a [Item<'a>], wanted: Option<&[u8]>) -> Option<Top<'a>>
    ensures { (s : Source) → s.items.now ≡ items.now → Means s items.now result (spec.top_use_of (option_copied wanted.entry) s) }
{
    match wanted {
        Some(name) => first_top(items, name),
        None => last_top(items),
    }
}
