//! The fields of a source's block.

ghost use Rattle.std.specs.Prelude.{[], ℕ, Some};
ghost use Rattle.std.specs.List.{enumerate_from};
ghost use Rattle.rb_model.specs.declared.block.Block.{Block};
ghost use Rattle.rb_model.specs.References.{Each};
ghost use Rattle.rb_model.specs.SoundField.{FieldIsSoundIn};
ghost use Rattle.rdl_tree.specs.declared.node.Elab.{Elab};
ghost use Rattle.rdl_values.specs.Elaborated.{nodes_of, top_name};
ghost use Rattle.rdl_values.specs.Elaboration.{IsClean};
ghost use Rattle.rdl_values.specs.Verdict.{IsListOf};
ghost use Rattle.rdl_layers.specs.Answers.{IsSettled};
ghost use Rattle.rdl_refs.specs.Answers.{IsBound};
ghost use Rattle.rdl_rules.specs.Answers.{meaning_fails};
ghost use Rattle.rdl_rules.specs.Block.{IsBlockOf};
ghost use Rattle.rdl_sound_laws.specs.Fielded.{HavePrimaries};

use crate::sound_references::references_are_sound;
use rdl_sound_laws::{clean_is_faultless, fields_are_sound};

/// Where no rule fails, each field of a source's block is sound: by itself, in what it refers to, and in its views, one of which is no
/// alias's, if each alias has one primary.
pub fn block_fields_are_sound()
    ensures { (e : Elab) (waits : ℕ) (b : Block) → IsClean e → IsSettled e → IsBound e → IsListOf (meaning_fails e) [] → IsBlockOf (Some (top_name e)) e.source.now waits b → HavePrimaries (nodes_of e) → Each (FieldIsSoundIn b) (enumerate_from 0 b.fields) }
{
    clean_is_faultless();
    fields_are_sound();
    references_are_sound();
}
