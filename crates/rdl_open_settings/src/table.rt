//! The assignments of all open bodies.

ghost use Rattle.std.specs.Prelude.{IfOk};
ghost use Rattle.rdl_tree.specs.declared.node.Elab.{Elab};
ghost use Rattle.rdl_open_bodies.specs.Spots.{IsOpenTree};
ghost use Rattle.rdl_open_settings.specs.Layered.{AreLayersOf};

use crate::layers::Layers;
use crate::texts::JudgedTexts;
use bumpalo::Bump;
use indexmap::IndexMap;
use rb_base::NoMemory;
use rdl_bodies::Bodies;
use rdl_failures::Failures;
use rdl_open_bodies::OpenTree;
use std::alloc::Global;

/// What the assignments of bodies give, by the numbers of the bodies.
#[derive(Drop)]
pub struct LayerTable<'a> {
    list: IndexMap<usize, Layers<'a>>,
}

impl<'a> LayerTable<'a> {
    ghost use Rattle.std.specs.Prelude.{◌≡◌, ℕ, OnOk};
    ghost use Rattle.std.specs.Option.{option_copied};
    ghost use Rattle.rdl_values.specs.Bodies.{Body as BodyOf};
    ghost use Rattle.rdl_open_bodies.specs.Spots.{IsOpenAt};
    ghost use Rattle.rdl_open_settings.specs.Layered.{AreLayers, CanJudge, IsKnown, layers_at};
    ghost use Rattle.rdl_open_settings.specs.Texts.{AreTexts};

    /// What the assignments of the body of a number give.
    pub fn find(&self, number: usize) -> Option<&Layers<'a>>
        ensures { option_copied result ≡ layers_at self.now number }
    {
        self.list.get(&number)
    }

    // Judges the assignments of the body of a number, where they aren't yet.
    fn judge(
        &mut self,
        alloc: Global,
        arena: &'a Bump,
        bodies: &Bodies<'_, 'a>,
        number: usize,
        texts: &mut JudgedTexts<'a>,
        failures: &mut Failures,
    ) -> Result<(), NoMemory>
        requires kept { AreLayers bodies.now failures.old self.old }
        requires texts { AreTexts bodies.now failures.old texts.old }
        requires some { CanJudge bodies.now number }
        ensures texts { OnOk result (AreTexts bodies.now failures.new texts.new) }
        ensures known { OnOk result ((b : BodyOf) → IsOpenAt bodies.now number b → IsKnown bodies.now self.old self.new failures.old failures.new number b) }
    {
        if self.find(number).is_some() {
            return Ok(());
        }
        let Some(body) = bodies.body(number) else {
            return Ok(());
        };
        let layers = texts.judge(alloc, arena, bodies, &body, failures)?;
        self.list.insert(number, layers)?;
        Ok(())
    }

    // Gives back the room that is not used.
    fn fit(&mut self)
        ensures { (number : ℕ) → layers_at self.new number ≡ layers_at self.old number }
    {
        self.list.shrink_to_fit();
    }
}

/// Puts in all failures of the assignments of the bodies of a tree to its nodes, of their defaults and of their enumerations' entries, of
/// each open body once, and gives those to nodes and by default that fail none.
pub fn judge_layers<'a>(
    alloc: Global,
    arena: &'a Bump,
    tree: &OpenTree<'_, 'a>,
    failures: &mut Failures,
) -> Result<LayerTable<'a>, NoMemory>
    requires { (e : Elab) × IsOpenTree e tree.now }
    ensures { IfOk result (λ r. (e : Elab) → IsOpenTree e tree.now → AreLayersOf e tree.now r failures.old failures.new) }
{
    let bodies = &tree.bodies;
    let mut table = LayerTable {
        list: IndexMap::with_capacity(alloc, bodies.tables().len())?,
    };
    let mut texts = JudgedTexts::new(alloc);
    table.judge(alloc, arena, bodies, 0, &mut texts, failures)?;
    for spot in &tree.spots {
        table.judge(alloc, arena, bodies, spot.body, &mut texts, failures)?;
    }
    table.fit();
    Ok(table)
}
