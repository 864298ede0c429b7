//! The tree of a source.

ghost use Rattle.std.specs.Prelude.{List, [], ℕ, Option, IfOk, OnOk};
ghost use Rattle.rdl_tree.specs.declared.item.Source.{Source as AnySource};
ghost use Rattle.rdl_values.specs.Elaborated.{AreTreesOf, IsTreeOf};
ghost use Rattle.rdl_values.specs.Elaboration.{Elaborates};
ghost use Rattle.rdl_values.specs.Instances.{Instance, most_names, signals};
ghost use Rattle.rdl_values.specs.Top.{root};
ghost use Rattle.rdl_values.specs.Uses.{seen};
ghost use Rattle.rdl_elab.specs.Surveying.{IsSurvey};
ghost use Rattle.rdl_elab.specs.Topped.{IsRootAt, IsTopNode};
ghost use Rattle.rdl_elab.specs.Grown.{AreAllWhole, AreGrowing, IsGrown, IsWhole};
ghost use Rattle.rdl_elab.specs.Trees.{IsCleanSurvey};

use crate::growing::Growing;
use crate::heads::Head;
use crate::surveyed::{Surveyed, TopSite};
use bumpalo::Bump;
use rb_base::NoMemory;
use rdl_tree::{Elab, Node, Source};
use rdl_uses::Standing;
use std::alloc::Global;

/// How many levels of nodes there are below the top at the most (rule E8).
const MOST_LEVELS: u8 = 32;

// Where the signals at the root stand.
const AT_ROOT: Standing = Standing {
    depth: 1,
    prefix: 0,
};

// Where the uses in the top stand.
const IN_TOP: Standing = Standing {
    depth: 2,
    prefix: 0,
};

// The signals at the root.
fn grow_signals<'a>(
    alloc: Global,
    arena: &'a Bump,
    growing: &mut Growing<'_, 'a>,
) -> Result<&'a [Node<'a>], NoMemory>
    requires growing { AreGrowing growing.old }
    requires some { (s : AnySource) × IsRootAt growing.old.walk.bodies s }
    ensures grown { OnOk result (IsGrown growing.old growing.new) }
    ensures nodes { IfOk result (λ rs. (s : AnySource) → IsRootAt growing.old.walk.bodies s → AreAllWhole 0 (seen [] (root s)) → AreTreesOf rs.now growing.old.count rs.now (signals s) growing.new.count) }
{
    let children = growing.walk.children(alloc, arena, 0, AT_ROOT)?;
    let nodes = growing.grow_all(alloc, arena, children, AT_ROOT, 0)?;
    Ok(nodes)
}

// The top, and all below it.
fn grow_top<'a>(
    alloc: Global,
    arena: &'a Bump,
    growing: &mut Growing<'_, 'a>,
    top: TopSite<'a>,
) -> Result<&'a Node<'a>, NoMemory>
    requires growing { AreGrowing growing.old }
    requires some { (n : Instance) × IsTopNode growing.old.walk.bodies top n }
    ensures { IfOk result (λ r. (n : Instance) → IsTopNode growing.old.walk.bodies top.entry n → IsWhole most_names n → IsTreeOf [] growing.old.count r.now n growing.new.count) }
{
    let head = Head {
        site: top.site,
        name: top.name,
        index: &[],
        inst: None,
        alias: None,
    };
    let node = growing.grow(alloc, arena, head, IN_TOP, MOST_LEVELS)?;
    let kept = arena.try_alloc(node)?;
    Ok(kept)
}

/// The tree of a source that was surveyed and in which no rule on instances fails. The only error is want of memory.
pub fn tree_of<'a>(
    alloc: Global,
    arena: &'a Bump,
    source: &'a Source<'a>,
    surveyed: Surveyed<'_, 'a>,
) -> Result<Elab<'a>, NoMemory>
    requires { IsCleanSurvey source.now surveyed }
    ensures { IfOk result (λ e. (wanted : Option (List ℕ)) → IsSurvey wanted source.now surveyed.entry → Elaborates wanted source.now e) }
{
    let Surveyed { walk, top } = surveyed;
    let Some(top) = top else { unreachable!() };
    let mut growing = Growing {
        walk,
        envs: Vec::new(alloc),
        count: 0,
    };
    let signals = grow_signals(alloc, arena, &mut growing)?;
    let top = grow_top(alloc, arena, &mut growing, top)?;
    Ok(Elab {
        source,
        signals,
        top,
        count: growing.count,
    })
}
