//! The bits of the fields in a register, written to a table.

ghost use Rattle.std.specs.Prelude.{◌≡◌, ℕ, ◌<◌, List, ◌∷◌, Contains, Some, filter, length, map, slice_get, true};
ghost use Rattle.std.specs.List.{All};
ghost use Rattle.rdl_tree.specs.declared.item.Kind.TheVariants as kinds;
ghost use Rattle.rdl_tree.specs.declared.node.Node.{Node as AnyNode, out-Node};
ghost use Rattle.rdl_values.specs.Instances.{Instance};
ghost use Rattle.rdl_values.specs.Lineages.{Lineage};
ghost use Rattle.rdl_layers.specs.Fields.{is_a};
ghost use Rattle.rdl_tree.specs.Kinds.{same_kind};
ghost use Rattle.rdl_nodes.specs.Rows.{AreInside};
ghost use Rattle.rdl_addr.specs.Areas.{bits_at};
ghost use Rattle.rdl_bits.specs.Written as written;

use rdl_layout::FieldBits;
use rdl_tree::Node;

/// The number where eight bits hold it, else 0.
fn narrow(number: u128) -> u8
    ensures { result ≡ written.narrow number }
{
    if number < 256 { number as u8 } else { 0 }
}

fn narrowed(bits: FieldBits) -> (u8, u8)
    ensures { result ≡ written.narrowed bits }
{
    (narrow(bits.high), narrow(bits.low))
}

/// Writes the bits of the fields among some nodes, in their order.
pub(crate) fn write_bits(table: &mut [(u8, u8)], children: &[Node<'_>], bits: &[FieldBits])
    requires within { All (λ r. (out-Node r).id < length table.old) children.now }
    requires many { length (filter (λ r. same_kind kinds.Field (out-Node r).kind) children.now) ≡ length bits.now }
    ensures kept { (k : ℕ) → ((r : AnyNode) → Contains children.now r → (out-Node r).id ≡ k → ⊥) → bits_at table.new k ≡ bits_at table.old k }
    ensures places { (all : List Lineage) (l : Lineage) (cs : List Instance) (os : List (Instance × (ℕ × ℕ))) → AreInside all (l.node ∷ l.ancestors) children.now children.now cs
        → map (λ o. o.0) os ≡ filter (is_a kinds.Field) cs → map (λ o. o.1) os ≡ map written.narrowed bits.now
        → (i : ℕ) (r : AnyNode) (c : Instance) → slice_get children.now i ≡ Some r → slice_get cs i ≡ Some c → is_a kinds.Field c ≡ true → Contains os (c, bits_at table.new (out-Node r).id) }
{
    let mut next = 0;
    for child in children {
        if child.kind.is_field() {
            table[child.id as usize] = narrowed(bits[next]);
            next += 1;
        }
    }
}
