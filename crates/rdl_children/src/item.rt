//! The uses that one item of a body makes.

ghost use Rattle.std.specs.Prelude.{◌≡◌, ◌≢◌, ◌≤◌, ◌++◌, [], ◌∷◌, List, IfOk, Some, drop, length, map, flat_map, slice_get};
ghost use Rattle.rdl_tree.specs.declared.item.Inst.{Inst as AnyInst};
ghost use Rattle.rdl_values.specs.Bodies.{Body, Scope};
ghost use Rattle.rdl_values.specs.Parameters.{bound_of};
ghost use Rattle.rdl_values.specs.Paths as paths;
ghost use Rattle.rdl_values.specs.Phase3.{of_use};
ghost use Rattle.rdl_values.specs.Uses.{Use, uses_of_item};
ghost use Rattle.rdl_values.specs.Views.{item_is};
ghost use Rattle.rdl_failures.specs.Noted.{with_all};
ghost use Rattle.rdl_scopes.specs.Scopes.{AreOpen, Stands};
ghost use Rattle.rdl_uses.specs.Binding.{AreValues};
ghost use Rattle.rdl_uses.specs.Applied.{IsTypeOf};
ghost use Rattle.rdl_uses.specs.Before.{AreEarlier};
ghost use Rattle.rdl_uses.specs.Given.{TypeUsed, given_in, pair_of, seens, use_by};
ghost use Rattle.rdl_children.specs.ItemUses.{GivesItem, AreSurroundings, chain_of, item_seens, nearest_items};

use rb_base::{NoMemory, Place};
use rdl_failures::Failures;
use rdl_scopes::{Components, Found, defaults_of, find_component};
use rdl_tree::{Insts, Item, Name};
use rdl_uses::{Earlier, Parent, Uses, judge_unknown, judge_uses};
use rdl_values::{Chain, Table};
use std::alloc::Global;

/// Where the uses of a body are judged: the components and the tables of all open bodies, the numbers of the body and of those round
/// it, the nearest first, how many items of those round it stand before it, and where it stands.
#[derive(Clone, Copy)]
pub struct Surroundings<'s, 'a> {
    pub components: &'s [Components<'a>],
    pub tables: &'s [Table<'a>],
    pub numbers: &'s [usize],
    pub outer: &'s [usize],
    pub parent: Parent,
}

/// The uses of one item that give nodes: the definition, in which of the bodies round the item it stands, the primary that they are
/// aliases of, if they are aliases, and the instances.
#[derive(Drop)]
pub struct ItemUses<'a> {
    pub found: Found<'a>,
    pub alias: Option<Name<'a>>,
    pub uses: Uses<'a>,
}

// How many items are seen of the body and of those round it.
fn uptos_at(alloc: Global, position: usize, outer: &[usize]) -> Result<Vec<usize>, NoMemory>
    ensures { IfOk result (λ r. r.items ≡ position ∷ outer.now) }
{
    let mut uptos = Vec::new(alloc);
    uptos.push(position)?;
    for upto in outer {
        uptos.push(*upto)?;
    }
    Ok(uptos)
}

// The uses of a definition that was found.
fn judge_found<'a>(
    alloc: Global,
    insts: &'a Insts<'a>,
    found: Found<'a>,
    alias: Option<Name<'a>>,
    place: Place,
    scene: &Surroundings<'_, 'a>,
    earlier: &mut Earlier<'a>,
    failures: &mut Failures,
) -> Result<ItemUses<'a>, NoMemory>
    requires level { found.level ≤ length scene.now.numbers.now }
    requires open { AreOpen scene.now.components.now }
    requires stands { Stands scene.now.components.now scene.now.numbers.now found }
    ensures earlier { IfOk result (λ r. (t : TypeUsed) (us : List Use) → IsTypeOf found.entry.def.now alias.entry insts.now.args.now place scene.now.parent (chain_of scene.now) (drop found.entry.level scene.now.numbers.now) t → AreEarlier earlier.old us → AreEarlier earlier.new (us ++ map (use_by t) insts.now.list.now)) }
    ensures noted { IfOk result (λ r. (t : TypeUsed) (us : List Use) → IsTypeOf found.entry.def.now alias.entry insts.now.args.now place scene.now.parent (chain_of scene.now) (drop found.entry.level scene.now.numbers.now) t → AreEarlier earlier.old us → failures.new ≡ with_all (flat_map of_use (seens t us insts.now.list.now)) failures.old) }
    ensures given { IfOk result (λ r. (t : TypeUsed) (us : List Use) → IsTypeOf found.entry.def.now alias.entry insts.now.args.now place scene.now.parent (chain_of scene.now) (drop found.entry.level scene.now.numbers.now) t → AreEarlier earlier.old us → map pair_of r.uses.given.items ≡ flat_map (given_in t) (seens t us insts.now.list.now)) }
    ensures values { IfOk result (λ r. (t : TypeUsed) → IsTypeOf found.entry.def.now alias.entry insts.now.args.now place scene.now.parent (chain_of scene.now) (drop found.entry.level scene.now.numbers.now) t → insts.now.list.now ≢ [] → (i : AnyInst) → AreValues r.found.def.now.params.now (bound_of (use_by t i) t.closure) r.uses.parameters) }
    ensures same { IfOk result (λ r. r.found ≡ found.entry) }
    ensures alias { IfOk result (λ r. r.alias ≡ alias.entry) }
{
    let visible = Chain {
        nearest: None,
        tables: scene.tables,
        numbers: scene.numbers,
    };
    let inside = &scene.numbers[found.level..];
    let defaults = defaults_of(alloc, scene.components, scene.numbers, &found)?;
    let uses = judge_uses(
        alloc,
        insts,
        found.def,
        &defaults,
        alias,
        place,
        scene.parent,
        &visible,
        inside,
        earlier,
        failures,
    )?;
    Ok(ItemUses { found, alias, uses })
}

/// Puts in all failures of the uses that an item makes: instances behind a definition, or of a named one. It gives those that give
/// nodes.
pub fn judge_item<'a>(
    alloc: Global,
    item: &'a Item<'a>,
    position: usize,
    scene: &Surroundings<'_, 'a>,
    earlier: &mut Earlier<'a>,
    failures: &mut Failures,
) -> Result<Option<ItemUses<'a>>, NoMemory>
    requires open { AreOpen scene.now.components.now }
    requires stands { slice_get (nearest_items scene.now.components.now scene.now.numbers.now) position ≡ Some item.now }
    ensures earlier { IfOk result (λ r. (p : paths.Parent) (above : List Body) (scope : Scope) (us : List Use) → AreSurroundings scene.now position p scope → AreEarlier earlier.old us → AreEarlier earlier.new (us ++ uses_of_item scope (item_is item.now))) }
    ensures noted { IfOk result (λ r. (p : paths.Parent) (above : List Body) (scope : Scope) (us : List Use) → AreSurroundings scene.now position p scope → AreEarlier earlier.old us → failures.new ≡ with_all (flat_map of_use (item_seens p above us scope item.now)) failures.old) }
    ensures given { IfOk result (λ r. (p : paths.Parent) (above : List Body) (scope : Scope) (us : List Use) → AreSurroundings scene.now position p scope → AreEarlier earlier.old us → GivesItem scene.now position r us (item_seens p above us scope item.now)) }
{
    match item {
        Item::Def(def) => match &def.insts {
            Some(insts) => {
                let found = Found {
                    level: 0,
                    position,
                    def,
                };
                Ok(Some(judge_found(
                    alloc, insts, found, None, def.place, scene, earlier, failures,
                )?))
            }
            None => Ok(None),
        },
        Item::Made { alias, of, insts } => {
            let uptos = uptos_at(alloc, position, scene.outer)?;
            match find_component(scene.components, scene.numbers, &uptos, of.text) {
                Some(found) => Ok(Some(judge_found(
                    alloc, insts, found, *alias, of.place, scene, earlier, failures,
                )?)),
                None => {
                    judge_unknown(insts.list, of.place, earlier, failures)?;
                    Ok(None)
                }
            }
        }
        _ => Ok(None),
    }
}
