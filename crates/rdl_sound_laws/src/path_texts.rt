//! What the texts of paths determine.

ghost use Rattle.std.specs.Prelude.{◌≡◌, true, Contains, Some};
ghost use Rattle.std.specs.List.{list_all};
ghost use Rattle.rdl_tree.specs.declared.node.Elab.{Elab};
ghost use Rattle.rdl_values.specs.Elaborated.{HasWords, nodes_of, top_name};
ghost use Rattle.rdl_values.specs.Elaboration.{IsClean};
ghost use Rattle.rdl_values.specs.Instances.{Instance};
ghost use Rattle.rdl_values.specs.Paths.{path_text};
ghost use Rattle.rdl_refs.specs.Leads.{is_at_root};
ghost use Rattle.v_design.specs.Lexemes.{is_name_byte};

/// Nodes of a tree have one path text only where they are one, or one stands at the root and the other under the top. Path texts are
/// made of letters, digits, `_` and `$`.
pub fn path_texts_differ()
    ensures differ { (e : Elab) (m n : Instance) → IsClean e → HasWords (Some (top_name e)) e.source.now → Contains (nodes_of e) m → Contains (nodes_of e) n
        → is_at_root m.path ≡ is_at_root n.path → path_text m.path ≡ path_text n.path → m.path ≡ n.path }
    ensures spelled { (e : Elab) (n : Instance) → IsClean e → HasWords (Some (top_name e)) e.source.now → Contains (nodes_of e) n → list_all is_name_byte (path_text n.path) ≡ true }
{}
