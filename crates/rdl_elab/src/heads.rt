//! A node without those in its body.

ghost use Rattle.std.specs.Prelude.{◌≡◌, ◌+◌, ◌≤◌, ◌∷◌, [], length};
ghost use Rattle.rdl_tree.specs.declared.node.Node.{out-Node};
ghost use Rattle.rdl_values.specs.Paths.{joined};
ghost use Rattle.rdl_elab.specs.Nodes.{IsMadeOf};

use crate::opening::Opened;
use rdl_tree::{Inst, Name, Node};
use rdl_uses::text_len;

/// What its body says of a node: the number of its definition's site, its name, its indices, the instance it comes from, and the
/// number of the register that it is an alias of.
#[derive(Clone, Copy)]
pub(crate) struct Head<'a> {
    pub site: usize,
    pub name: Name<'a>,
    pub index: &'a [u64],
    pub inst: Option<&'a Inst<'a>>,
    pub alias: Option<u32>,
}

/// A node of a number, with those in its body.
pub(crate) fn node_of<'a>(
    id: u32,
    head: &Head<'a>,
    opened: &Opened<'a>,
    children: &'a [Node<'a>],
) -> Node<'a>
    ensures { IsMadeOf id head.now opened.now children.now result }
{
    Node {
        id,
        name: head.name.text,
        index: head.index,
        kind: opened.def.kind,
        def: opened.def,
        inst: head.inst,
        alias: head.alias,
        env: opened.env,
        children,
        place: head.name.place,
    }
}

/// How many bytes the text of an element's path has, where that is at most 900.
pub(crate) fn len_of(prefix: u16, name: &Name, index: &[u64]) -> usize
    ensures few { result ≤ 900 }
    ensures len { prefix + length (joined (record { name = name.now.text.now; index = index.now } ∷ [])) ≤ 900 → result ≡ prefix + length (joined (record { name = name.now.text.now; index = index.now } ∷ [])) }
{
    match text_len(prefix, name.text, index) {
        Some(len) => len,
        None => 0,
    }
}
