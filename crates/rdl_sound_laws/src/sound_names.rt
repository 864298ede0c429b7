//! The names in the block of a source whose names are words.

ghost use Rattle.std.specs.Prelude.{◌≡◌, ◌<◌, ◌≤◌, ◌==◌, ◌&&◌, ℕ, not, map, IsTrue, Some};
ghost use Rattle.std.specs.List.{list_all};
ghost use Rattle.rb_model.specs.declared.block.Block.{Block};
ghost use Rattle.rb_model.specs.Ports.{signal_name};
ghost use Rattle.rb_model.specs.References.{Each};
ghost use Rattle.rb_model.specs.Sound.{is_path};
ghost use Rattle.rdl_tree.specs.declared.node.Elab.{Elab};
ghost use Rattle.rdl_values.specs.Elaborated.{HasWords, top_name};
ghost use Rattle.rdl_values.specs.Elaboration.{IsClean};
ghost use Rattle.rdl_layers.specs.Answers.{IsSettled};
ghost use Rattle.rdl_rules.specs.Block.{IsBlockOf};
ghost use Rattle.v_design.specs.Lexemes.{is_name};
ghost use Rattle.v_design.specs.WellFormed.{distinct};

/// The block of a clean source is named by an identifier without `$`; the paths of its signals, fields, views and registers are made of
/// bytes of identifiers, and in each list no two are the same. Its signals are 1 to 64 bits wide.
pub fn names_are_sound()
    ensures named { (e : Elab) (waits : ℕ) (b : Block) → IsClean e → HasWords (Some (top_name e)) e.source.now → IsBlockOf (Some (top_name e)) e.source.now waits b
        → IsTrue (is_name b.name && list_all (λ c. not (c == 36)) b.name) }
    ensures signals_ { (e : Elab) (waits : ℕ) (b : Block) → IsClean e → HasWords (Some (top_name e)) e.source.now → IsSettled e → IsBlockOf (Some (top_name e)) e.source.now waits b
        → Each (λ s. (0 < s.width) × (s.width ≤ 64) × IsTrue (is_path s.path)) b.signals }
    ensures signal_paths { (e : Elab) (waits : ℕ) (b : Block) → IsClean e → HasWords (Some (top_name e)) e.source.now → IsBlockOf (Some (top_name e)) e.source.now waits b
        → IsTrue (distinct (map signal_name b.signals)) }
    ensures field_paths { (e : Elab) (waits : ℕ) (b : Block) → IsClean e → HasWords (Some (top_name e)) e.source.now → IsBlockOf (Some (top_name e)) e.source.now waits b
        → IsTrue (distinct (map (λ f. f.path) b.fields) && list_all (λ f. is_path f.path) b.fields) }
    ensures view_paths { (e : Elab) (waits : ℕ) (b : Block) → IsClean e → HasWords (Some (top_name e)) e.source.now → IsBlockOf (Some (top_name e)) e.source.now waits b
        → IsTrue (distinct (map (λ v. v.path) b.views) && list_all (λ v. is_path v.path) b.views) }
    ensures reg_paths { (e : Elab) (waits : ℕ) (b : Block) → IsClean e → HasWords (Some (top_name e)) e.source.now → IsBlockOf (Some (top_name e)) e.source.now waits b
        → IsTrue (distinct (map (λ r. r.path) b.regs) && list_all (λ r. is_path r.path) b.regs) }
{}
