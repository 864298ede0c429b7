//! Where the nodes in the body of one stand, written to a table.

ghost use Rattle.std.specs.Prelude.{◌≡◌, ℕ, ◌<◌, List, ◌∷◌, Contains, Some, filter, length, map, slice_get, true};
ghost use Rattle.std.specs.List.{All};
ghost use Rattle.rdl_tree.specs.declared.node.Node.{Node as AnyNode, out-Node};
ghost use Rattle.rdl_values.specs.Instances.{Instance};
ghost use Rattle.rdl_values.specs.Lineages.{Lineage};
ghost use Rattle.rdl_nodes.specs.Rows.{AreInside};
ghost use Rattle.rdl_addr.specs.Layout.{has_address as is_placed};
ghost use Rattle.rdl_sizes.specs.Bodies.{addressed};
ghost use Rattle.rdl_sizes.specs.Sized.{offset_at};

use crate::gathering::has_address;
use rdl_tree::Node;

/// Writes where the elements in a body start, in the order of its nodes, for each that has an address.
pub(crate) fn write_offsets(offsets: &mut [u128], children: &[Node<'_>], starts: &[u128])
    requires within { All (λ r. (out-Node r).id < length offsets.old) children.now }
    requires many { length (filter (λ r. addressed (out-Node r).kind) children.now) ≡ length starts.now }
    ensures kept { (k : ℕ) → ((r : AnyNode) → Contains children.now r → (out-Node r).id ≡ k → ⊥) → offset_at offsets.new k ≡ offset_at offsets.old k }
    ensures places { (all : List Lineage) (l : Lineage) (cs : List Instance) (os : List (Instance × ℕ)) → AreInside all (l.node ∷ l.ancestors) children.now children.now cs
        → map (λ o. o.0) os ≡ filter is_placed cs → map (λ o. o.1) os ≡ starts.now
        → (i : ℕ) (r : AnyNode) (c : Instance) → slice_get children.now i ≡ Some r → slice_get cs i ≡ Some c → is_placed c ≡ true → Contains os (c, offset_at offsets.new (out-Node r).id) }
{
    let mut next = 0;
    for child in children {
        if has_address(child.kind) {
            offsets[child.id as usize] = starts[next];
            next += 1;
        }
    }
}
