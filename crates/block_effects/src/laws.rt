//! What the effects of a field say of the register machine.

ghost use Rattle.std.specs.Prelude.{◌≡◌, ℕ, ◌+◌, ◌-◌, ◌^◌, ◌<◌, true, false, Some, slice_get};
ghost use Rattle.std.specs.Int.{bit_at};
ghost use Rattle.std.specs.List.{AllByRecursion, list_any};
ghost use Rattle.rb_model.specs.declared.kinds.RefItem.TheVariants as item;
ghost use Rattle.rb_model.specs.declared.block.Block.{Block};
ghost use Rattle.rb_model.specs.declared.block.Field.{Field};
ghost use Rattle.rb_model.specs.declared.block.Slot.{Slot};
ghost use Rattle.rb_model.specs.declared.block.View.{View};
ghost use Rattle.rb_model.specs.declared.block.Word.{Word};
ghost use Rattle.rb_model.specs.Effects.{after_read, after_write};
ghost use Rattle.rb_model.specs.Items.{ItemValues, Now, Read, Write};
ghost use Rattle.rb_model.specs.Kept.{is_storage};
ghost use Rattle.rb_model.specs.Machine.{hardware, read_data, software};
ghost use Rattle.rb_model.specs.Sound.{WordIsSound};
ghost use Rattle.block_effects.specs.Effects.{effects};
ghost use Rattle.block_effects.specs.Lanes.{covers, shows_at};
ghost use Rattle.block_effects.specs.Quiet.{is_of_hardware, is_of_reads, is_of_writes, lacks};
ghost use Rattle.block_effects.specs.Says.{Says};

/// Each effect that is listed says what the machine does.
pub fn effects_hold()
    ensures { (s : Slot) (v : View) (f : Field) → AllByRecursion (Says s v f) (effects s v f) }
{}

/// Where no effect of writes is listed, a write through a view that writes stores its bits.
pub fn writes_store()
    ensures { (s : Slot) (v : View) (f : Field) → lacks is_of_writes (effects s v f) ≡ true → v.writes ≡ true
        → (gate done x d : ℕ) → after_write v f.width gate done x d ≡ d }
{}

/// Where no effect of reads is listed, a read changes nothing.
pub fn reads_leave()
    ensures { (s : Slot) (v : View) (f : Field) → lacks is_of_reads (effects s v f) ≡ true
        → (x : ℕ) → after_read v.on_read f.width x ≡ x }
{}

/// Where no effect of hardware is listed at a field's own view, hardware leaves the value that it keeps.
pub fn hardware_leaves()
    ensures { (s : Slot) (v : View) (f : Field) → v.alias ≡ false → lacks is_of_hardware (effects s v f) ≡ true
        → is_storage f.class ≡ true → (n : Now) (u : ItemValues) (k x : ℕ) → x < 2 ^ f.width
        → hardware n u k f x ≡ x }
{}

/// A bit of a word is, as it is read, that of the field whose slot has it behind a view that reads, and else 0. As it is
/// written, a bit that no slot has behind a view that writes changes no field.
pub fn lanes_are()
    ensures read { (b : Block) (u : ItemValues) (at : ℕ) (w : Word) → slice_get b.reads at ≡ Some w → WordIsSound b w
        → (k : ℕ) (s : Slot) (v : View) → slice_get w.slots k ≡ Some s → slice_get b.views s.view ≡ Some v
        → v.reads ≡ true → (i : ℕ) → covers i s ≡ true
        → bit_at (read_data b u (Read at)) i ≡ bit_at (u (item.Field v.field)) (s.from + (i - s.low)) }
    ensures unread { (b : Block) (u : ItemValues) (at : ℕ) (w : Word) → slice_get b.reads at ≡ Some w → WordIsSound b w
        → (i : ℕ) → list_any (shows_at b (λ v. v.reads) i) w.slots ≡ false → bit_at (read_data b u (Read at)) i ≡ 0 }
    ensures written { (b : Block) (n : Now) (u : ItemValues) (at : ℕ) (w : Word) → slice_get b.writes at ≡ Some w
        → WordIsSound b w → (d e : ℕ)
        → ((i : ℕ) → list_any (shows_at b (λ v. v.writes) i) w.slots ≡ true → bit_at d i ≡ bit_at e i)
        → (k : ℕ) (f : Field) (x : ℕ) → software b n u (Write at d) k f x ≡ software b n u (Write at e) k f x }
{}
