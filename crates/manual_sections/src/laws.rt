//! What the rows of a section say of a sound block.

ghost use Rattle.std.specs.Prelude.{◌≡◌, ℕ, Some, slice_get};
ghost use Rattle.block_effects.specs.Effects.{effects};
ghost use Rattle.manual_sections.specs.Rows.{all_effects};
ghost use Rattle.rb_model.specs.declared.block.Block.{Block};
ghost use Rattle.rb_model.specs.declared.block.Field.{Field};
ghost use Rattle.rb_model.specs.declared.block.Slot.{Slot};
ghost use Rattle.rb_model.specs.declared.block.View.{View};
ghost use Rattle.rb_model.specs.declared.block.Word.{Word};
ghost use Rattle.rb_model.specs.Sound.{IsSound, WordIsSound};
ghost use Rattle.word_groups.specs.Parts.{parts};

/// The row of each slot of a sound block's word lists all effects of its bits.
pub fn effects_are_listed()
    ensures { (b : Block) (w : Word) (k : ℕ) (s : Slot) (v : View) (f : Field) → IsSound b → WordIsSound b w → slice_get w.slots k ≡ Some s
        → slice_get b.views s.view ≡ Some v → slice_get b.fields v.field ≡ Some f → slice_get (all_effects b (parts b w)) k ≡ Some (effects s v f) }
{}
