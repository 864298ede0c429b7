//! The settings of a text that are judged in each of its bodies.

ghost use Rattle.std.specs.Prelude.{◌≡◌, IfOk, option_copied};
ghost use Rattle.rdl_failures.specs.Shown.{IsShown};
ghost use Rattle.rdl_values.specs.Values.{Around};
ghost use Rattle.rdl_values.specs.Views.{item_is};
ghost use Rattle.rdl_assignments.specs.Live.{AreLiveDefaults, AreLiveLocals, default_set, own_set};

use crate::steady::{TextView, is_steady_set};
use crate::taken::AssignedProps;
use rb_base::NoMemory;
use rdl_props::find;
use rdl_tree::{Item, Set};
use std::alloc::Global;

/// A setting of a text that is judged in each of its bodies, and how many items stand before it.
#[derive(Clone, Copy)]
pub struct LiveSet<'a> {
    pub set: &'a Set<'a>,
    pub position: usize,
}

// The properties that the settings so far assign, and those that are live.
#[derive(Drop)]
struct Thinning<'a> {
    taken: AssignedProps,
    live: Vec<LiveSet<'a>>,
}

// What an item sets its body's node to.
fn local_of<'a>(item: &'a Item<'a>) -> Option<&'a Set<'a>>
    ensures { option_copied result ≡ own_set (item_is item.now) }
{
    match item {
        Item::Local(set) => Some(set),
        _ => None,
    }
}

// What an item sets by default.
fn default_of<'a>(item: &'a Item<'a>) -> Option<&'a Set<'a>>
    ensures { option_copied result ≡ default_set (item_is item.now) }
{
    match item {
        Item::Default(set) => Some(set),
        _ => None,
    }
}

impl<'a> Thinning<'a> {
    ghost use Rattle.std.specs.Prelude.{◌≡◌, ◌++◌, [], ◌∷◌, Bool, List, Option, OnOk, Some, length, option_copied, option_to_list, true};
    ghost use Rattle.rdl_failures.specs.Shown.{IsShown};
    ghost use Rattle.rdl_values.specs.Values.{Around};
    ghost use Rattle.rdl_props.specs.Table.{find_prop};
    ghost use Rattle.rdl_props.specs.declared.prop.Prop.{Prop as AnyProp};
    ghost use Rattle.rdl_tree.specs.declared.item.Item.{Item as AnyItem};
    ghost use Rattle.rdl_tree.specs.declared.item.Set.{Set as AnySet};
    ghost use Rattle.rdl_values.specs.Views.{ItemIs, item_is};
    ghost use Rattle.rdl_assignments.specs.Live.{IsSteadyIdle, IsThinning};
    ghost use Rattle.rdl_assignments.specs.Taken.{AreTaken};

    // Of no items.
    fn new(alloc: Global) -> Self
        ensures { (of : ItemIs → Option AnySet) (same : Bool) (v : Around) → IsThinning of same v result [] }
    {
        Thinning {
            taken: AssignedProps::new(alloc),
            live: Vec::new(alloc),
        }
    }

    // Whether a setting fails alike in all bodies of the text, and gives nothing: its name is unknown, or its property is assigned already
    // and its value steady.
    fn is_spent(&self, set: &Set<'a>, text: &TextView<'_, '_, '_, '_, 'a>) -> bool
        ensures { result ≡ true → (v : Around) → IsShown text.now.visible.now v → (earlier : List AnyProp) → AreTaken self.now.taken earlier → IsSteadyIdle text.now.same_enums v earlier set.now (find_prop set.now.prop.text.now) }
    {
        match find(set.prop.text) {
            Some(prop) => self.taken.has(prop) && is_steady_set(prop, set, text),
            None => true,
        }
    }

    // Takes the property of a setting, if its name is known.
    fn take(&mut self, set: &Set<'a>) -> Result<(), NoMemory>
        ensures live { self.new.live ≡ self.old.live }
        ensures taken { OnOk result ((earlier : List AnyProp) → AreTaken self.old.taken earlier → AreTaken self.new.taken (earlier ++ option_to_list (find_prop set.now.prop.text.now))) }
    {
        match find(set.prop.text) {
            Some(prop) => self.taken.add(prop),
            None => Ok(()),
        }
    }

    // Reads a setting behind so many items.
    fn read(
        &mut self,
        set: &'a Set<'a>,
        position: usize,
        text: &TextView<'_, '_, '_, '_, 'a>,
    ) -> Result<(), NoMemory>
        ensures { OnOk result ((v : Around) → IsShown text.now.visible.now v → (of : ItemIs → Option AnySet) (before : List AnyItem) (i : AnyItem) → of (item_is i) ≡ Some set.now → length before ≡ position
            → IsThinning of text.now.same_enums v self.old before → IsThinning of text.now.same_enums v self.new (before ++ (i ∷ []))) }
    {
        if self.is_spent(set, text) {
            return Ok(());
        }
        self.live.push(LiveSet { set, position })?;
        self.take(set)
    }

    // The same of an item, which may set nothing.
    fn read_item(
        &mut self,
        set: Option<&'a Set<'a>>,
        position: usize,
        text: &TextView<'_, '_, '_, '_, 'a>,
    ) -> Result<(), NoMemory>
        ensures { OnOk result ((v : Around) → IsShown text.now.visible.now v → (of : ItemIs → Option AnySet) (before : List AnyItem) (i : AnyItem) → of (item_is i) ≡ option_copied set.entry → length before ≡ position
            → IsThinning of text.now.same_enums v self.old before → IsThinning of text.now.same_enums v self.new (before ++ (i ∷ []))) }
    {
        match set {
            Some(set) => self.read(set, position, text),
            None => Ok(()),
        }
    }
}

/// The settings of a text's items to its body's node that are judged in each body. The others fail alike in all bodies of the text, and
/// give nothing: those of unknown names, and those behind another of the same property that name no parameter.
pub fn live_locals<'a>(
    alloc: Global,
    items: &'a [Item<'a>],
    text: &TextView<'_, '_, '_, '_, 'a>,
) -> Result<Vec<LiveSet<'a>>, NoMemory>
    ensures { IfOk result (λ r. (v : Around) → IsShown text.now.visible.now v → AreLiveLocals text.now.same_enums v r.items items.now) }
{
    let mut thinning = Thinning::new(alloc);
    for (position, item) in items.iter().enumerate() {
        thinning.read_item(local_of(item), position, text)?;
    }
    Ok(thinning.live)
}

/// The same of a text's defaults.
pub fn live_defaults<'a>(
    alloc: Global,
    items: &'a [Item<'a>],
    text: &TextView<'_, '_, '_, '_, 'a>,
) -> Result<Vec<LiveSet<'a>>, NoMemory>
    ensures { IfOk result (λ r. (v : Around) → IsShown text.now.visible.now v → AreLiveDefaults text.now.same_enums v r.items items.now) }
{
    let mut thinning = Thinning::new(alloc);
    for (position, item) in items.iter().enumerate() {
        thinning.read_item(default_of(item), position, text)?;
    }
    Ok(thinning.live)
}
