//! The nearest body that has a name.

ghost use Rattle.std.specs.Prelude.{◌≡◌, length, List, Option};
ghost use Rattle.rdl_tree.specs.declared.node.Elab.{Elab as AnyElab};
ghost use Rattle.rdl_values.specs.Bodies.{Path};
ghost use Rattle.rdl_values.specs.Elaboration.{IsClean};
ghost use Rattle.rdl_members.specs.Found.{AreMembersOf};
ghost use Rattle.rdl_resolve.specs.Outward.{IsChain, IsNearest, outer_at};

use rdl_members::Members;

/// The body next round that of a number.
pub fn outer_of(outers: &[u32], body: u32, root: u32) -> u32
    ensures { result ≡ outer_at root outers.now body }
{
    match outers.get(body as usize) {
        Some(outer) => *outer,
        None => root,
    }
}

/// Of so many bodies, each round the one before it, the nearest that has a node of this name.
pub(crate) fn nearest(
    members: &Members<'_>,
    outers: &[u32],
    root: u32,
    name: &[u8],
    from: u32,
    bodies: usize,
) -> Option<u32>
    ensures { (e : AnyElab) (ps : List (Option Path)) → IsClean e → AreMembersOf e members.now → root ≡ e.count → bodies ≡ length ps → IsChain e outers.now ps from → IsNearest e name.now ps result }
{
    let mut body = from;
    for _ in 0..bodies {
        if members.has(body, name) {
            return Some(body);
        }
        body = outer_of(outers, body, root);
    }
    None
}
