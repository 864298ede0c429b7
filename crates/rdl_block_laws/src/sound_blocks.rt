//! That the block of a source is sound.

ghost use Rattle.std.specs.Prelude.{[], Some};
ghost use Rattle.rb_model.specs.declared.block.Block.{Block};
ghost use Rattle.rb_model.specs.Sound.{IsSound};
ghost use Rattle.rdl_tree.specs.declared.node.Elab.{Elab};
ghost use Rattle.rdl_values.specs.Elaborated.{nodes_of, top_name};
ghost use Rattle.rdl_values.specs.Verdict.{IsListOf};
ghost use Rattle.rdl_rules.specs.Answers.{IsReady, meaning_fails};
ghost use Rattle.rdl_rules.specs.Block.{IsBlockOf};
ghost use Rattle.rdl_sound_laws.specs.Fielded.{HavePrimaries};
ghost use Rattle.rdl_block_laws.specs.Forms.{HaveOneForm};

use crate::sound_references::gates_are_sound;
use crate::sound_registers::registers_are_sound;
use crate::sound_views::block_fields_are_sound;
use rdl_sound_laws::{
    clean_is_faultless, names_are_sound, same_addresses, some_word, views_are_of_fields,
    views_in_one_slot, words_are_few, words_are_sound,
};

/// Where no rule fails, the block of a source is sound, if each alias has one primary and no instance has both a bracket and a range.
pub fn blocks_are_sound()
    ensures { (e : Elab) (b : Block) → IsReady e → HaveOneForm e → IsListOf (meaning_fails e) [] → HavePrimaries (nodes_of e) → IsBlockOf (Some (top_name e)) e.source.now 0 b → IsSound b }
{
    clean_is_faultless();
    names_are_sound();
    block_fields_are_sound();
    views_are_of_fields();
    gates_are_sound();
    views_in_one_slot();
    registers_are_sound();
    words_are_sound();
    some_word();
    words_are_few();
    same_addresses();
}
