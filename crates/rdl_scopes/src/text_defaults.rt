//! What the parameters of the definitions of a text have at all uses. They are the same in every body of the text, so they are read once.

ghost use Rattle.std.specs.Prelude.{◌≡◌, IfOk, option_map};
ghost use Rattle.std.specs.Rc.{rc_value};
ghost use Rattle.rdl_scopes.specs.Defaulted.{AreKnown};

use rb_base::NoMemory;
use rdl_tree::{Def, Item};
use rdl_values::Defaults;
use std::alloc::Global;
use std::collections::BTreeMap;
use std::rc::Rc;

/// Those of each definition that has parameters, by the numbers of the items.
#[derive(Drop)]
pub struct TextDefaults<'a> {
    by_item: BTreeMap<usize, Rc<Defaults<'a>>>,
    // Those of a definition that has none.
    none: Rc<Defaults<'a>>,
}

impl<'a> TextDefaults<'a> {
    ghost use Rattle.std.specs.Prelude.{◌≡◌, ℕ, List, [], None, Some, IfOk, IfSome, OnOk, ◌⊎◌, cond, nat_eq, slice_get};
    ghost use Rattle.std.specs.BTreeMap.{get};
    ghost use Rattle.std.specs.Ordering.{nat_cmp};
    ghost use Rattle.rdl_tree.specs.declared.item.Item.{Item as AnyItem};
    ghost use Rattle.rdl_values.specs.Kept.{AreDefaultsOf};
    ghost use Rattle.rdl_values.specs.Views as view;
    ghost use Rattle.rdl_values.specs.Views.{item_is};
    ghost use Rattle.rdl_values.specs.declared.defaults.Defaults.{Defaults as AnyDefaults};
    ghost use Rattle.rdl_scopes.specs.Defaulted.{AreOfAs, AreTextDefaults, defaults_at};

    // Of no definitions yet.
    fn new(alloc: Global) -> Result<Self, NoMemory>
        ensures none { IfOk result (λ t. AreDefaultsOf t.none.value []) }
        ensures empty { IfOk result (λ t. (k : ℕ) → defaults_at t k ≡ None) }
    {
        let none = Rc::new(alloc, Defaults::of(alloc, &[])?)?;
        Ok(TextDefaults {
            by_item: BTreeMap::new(alloc),
            none,
        })
    }

    // Puts in those of an item.
    fn put(&mut self, item: usize, of: Rc<Defaults<'a>>) -> Result<(), NoMemory>
        ensures none { self.new.none ≡ self.old.none }
        ensures put { OnOk result ((k : ℕ) → get nat_cmp self.new.by_item k ≡ cond (nat_eq item k) (Some of.entry) (get nat_cmp self.old.by_item k)) }
    {
        self.by_item.insert(item, of)?;
        Ok(())
    }

    // Reads the item of a number.
    fn read(&mut self, alloc: Global, at: usize, item: &Item<'a>) -> Result<(), NoMemory>
        ensures none { self.new.none ≡ self.old.none }
        ensures each { OnOk result ((k : ℕ) (d : AnyDefaults) → defaults_at self.new k ≡ Some d → (defaults_at self.old k ≡ Some d) ⊎ ((k ≡ at) × AreOfAs d (item_is item.now))) }
    {
        let Item::Def(def) = item else {
            return Ok(());
        };
        if def.params.is_empty() {
            return Ok(());
        }
        let of = Defaults::of(alloc, def.params)?;
        self.put(at, Rc::new(alloc, of)?)
    }

    /// Those of the definitions among these items.
    pub fn of(alloc: Global, items: &[Item<'a>]) -> Result<Self, NoMemory>
        ensures { IfOk result (λ t. AreTextDefaults t items.now) }
    {
        let mut defaults = TextDefaults::new(alloc)?;
        for (at, item) in items.iter().enumerate() {
            defaults.read(alloc, at, item)?;
        }
        Ok(defaults)
    }

    // Those of a definition that the item of a number is, if they are known.
    pub(crate) fn at(&self, item: usize, def: &Def<'a>) -> Option<&Rc<Defaults<'a>>>
        ensures { (items : List AnyItem) (i : AnyItem) → AreTextDefaults self.now items → slice_get items item ≡ Some i → item_is i ≡ view.definition def.now → IfSome result (λ d. AreDefaultsOf d.now.value def.now.params.now) }
    {
        if def.params.is_empty() {
            return Some(&self.none);
        }
        self.by_item.get(&item)
    }
}

// Whether an item is a definition that has parameters.
fn has_parameters(item: &Item<'_>) -> bool {
    match item {
        Item::Def(def) => !def.params.is_empty(),
        _ => false,
    }
}

// Whether a definition among these items has parameters.
fn have_parameters(items: &[Item<'_>]) -> bool {
    for item in items {
        if has_parameters(item) {
            return true;
        }
    }
    false
}

/// Those of the definitions among these items, and nothing where none of them has parameters, as in most texts.
pub fn defaults_among<'a>(
    alloc: Global,
    items: &[Item<'a>],
) -> Result<Option<Rc<TextDefaults<'a>>>, NoMemory>
    ensures { IfOk result (λ o. AreKnown (option_map rc_value o) items.now) }
{
    if !have_parameters(items) {
        return Ok(None);
    }
    let defaults = TextDefaults::of(alloc, items)?;
    Ok(Some(Rc::new(alloc, defaults)?))
}

/// The same for another body of the text.
pub fn shared_defaults<'a>(
    known: &Option<Rc<TextDefaults<'a>>>,
) -> Result<Option<Rc<TextDefaults<'a>>>, NoMemory>
    ensures { IfOk result (λ o. option_map rc_value o ≡ option_map rc_value known.now) }
{
    match known {
        Some(defaults) => Ok(Some(defaults.clone()?)),
        None => Ok(None),
    }
}
