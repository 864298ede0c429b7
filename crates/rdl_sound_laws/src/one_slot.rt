//! The slots of a view.

ghost use Rattle.std.specs.Prelude.{◌≤◌, ◌==◌, [], ℕ, Contains, IsTrue, Some, count_by, flat_map};
ghost use Rattle.std.specs.List.{enumerate_from};
ghost use Rattle.rdl_tree.specs.declared.node.Elab.{Elab};
ghost use Rattle.rdl_values.specs.Elaborated.{nodes_of, top_name};
ghost use Rattle.rdl_values.specs.Instances.{Instance};
ghost use Rattle.rdl_values.specs.Verdict.{IsListOf};
ghost use Rattle.rdl_layers.specs.Answers.{IsSettled};
ghost use Rattle.rdl_addr.specs.Answers.{IsPlaced};
ghost use Rattle.rb_model.specs.declared.block.Block.{Block};
ghost use Rattle.rb_model.specs.References.{Each};
ghost use Rattle.rb_model.specs.SoundField.{changes};
ghost use Rattle.rdl_rules.specs.Answers.{meaning_fails};
ghost use Rattle.rdl_rules.specs.Block.{IsBlockOf};
ghost use Rattle.rdl_sound_laws.specs.Fielded.{HasOneForm, HavePrimaries};

use crate::sound_slots::words_are_sound;

/// Where no rule fails, a view through which software changes its field stands in one slot at most of all that reads reach, and of all that
/// writes reach, if each alias has one primary and no instance has both a bracket and a range.
pub fn views_in_one_slot()
    ensures reads { (e : Elab) (waits : ℕ) (b : Block) → IsSettled e → IsPlaced e → IsListOf (meaning_fails e) [] → IsBlockOf (Some (top_name e)) e.source.now waits b
        → ((n : Instance) → Contains (nodes_of e) n → HasOneForm n) → HavePrimaries (nodes_of e) → Each (λ v. IsTrue (changes v.1) → count_by (λ s. s.view == v.0) (flat_map (λ w. w.slots) b.reads) ≤ 1) (enumerate_from 0 b.views) }
    ensures writes { (e : Elab) (waits : ℕ) (b : Block) → IsSettled e → IsPlaced e → IsListOf (meaning_fails e) [] → IsBlockOf (Some (top_name e)) e.source.now waits b
        → ((n : Instance) → Contains (nodes_of e) n → HasOneForm n) → HavePrimaries (nodes_of e) → Each (λ v. IsTrue (changes v.1) → count_by (λ s. s.view == v.0) (flat_map (λ w. w.slots) b.writes) ≤ 1) (enumerate_from 0 b.views) }
{
    words_are_sound();
}
