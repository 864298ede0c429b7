//! The fields of a register with their bits.

ghost use Rattle.std.specs.Prelude.{◌≡◌, IfOk, OnOk, true};
ghost use Rattle.rdl_tree.specs.declared.item.Kind.TheVariants as kinds;
ghost use Rattle.rdl_tree.specs.declared.node.Node.{out-Node};
ghost use Rattle.rdl_tree.specs.Kinds.{same_kind};
ghost use Rattle.rdl_values.specs.Lineages.{Lineage};
ghost use Rattle.rdl_addr.specs.Answers.{IsFieldAt};
ghost use Rattle.rdl_addr.specs.Bits.{bits_of};
ghost use Rattle.rdl_sizes.specs.Bodies.{IsBodyOf};
ghost use Rattle.rdl_fields.specs.Views.{AreViewsOf, IsAdded};

use rb_base::NoMemory;
use rdl_addr::Map;
use rdl_tree::Node;
use std::alloc::Global;

/// A field of a register, its high bit and its low bit.
#[derive(Clone, Copy)]
pub struct View<'a> {
    pub node: &'a Node<'a>,
    pub high: u8,
    pub low: u8,
}

/// Adds a node with its bits, where it is a field.
fn add_view<'a>(
    map: &Map<'_>,
    child: &'a Node<'a>,
    views: &mut Vec<View<'a>>,
) -> Result<(), NoMemory>
    requires { same_kind kinds.Field (out-Node child.now).kind ≡ true → IsFieldAt map.now (out-Node child.now).id }
    ensures { OnOk result (IsAdded map.now child.now views.old.items views.new.items) }
{
    if !child.kind.is_field() {
        return Ok(());
    }
    let (high, low) = map.bits(child.id);
    views.push(View {
        node: child,
        high,
        low,
    })?;
    Ok(())
}

/// The fields of a register with their bits, in the order of the text. The only error is want of memory.
pub fn views_in<'a>(
    alloc: Global,
    map: &Map<'_>,
    node: &'a Node<'a>,
) -> Result<Vec<View<'a>>, NoMemory>
    requires { (l : Lineage) × IsBodyOf map.now node.now l }
    ensures { IfOk result (λ vs. (l : Lineage) → IsBodyOf map.now node.now l → AreViewsOf map.now vs.items (bits_of l.node)) }
{
    let mut views = Vec::new(alloc);
    for child in node.children {
        add_view(map, child, &mut views)?;
    }
    Ok(views)
}
