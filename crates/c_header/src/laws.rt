//! What a header says of the words and the enumerations of a block.

ghost use Rattle.std.specs.Prelude.{◌≡◌, ℕ, ◌+◌, ◌-◌, ◌*◌, ◌/◌, ◌^◌, ◌<◌, ◌≤◌, ◌++◌, true, IsTrue, List, [], Some, bit_and, bit_or, codes, map, slice_get};
ghost use Rattle.encodings.specs.Encodings.{Enumeration};
ghost use Rattle.rb_base.specs.Bits as bits;
ghost use Rattle.rb_base.specs.Bits.{put};
ghost use Rattle.rb_model.specs.declared.block.Block.{Block};
ghost use Rattle.rb_model.specs.declared.block.Slot.{Slot};
ghost use Rattle.rb_model.specs.declared.block.View.{View};
ghost use Rattle.rb_model.specs.declared.block.Word.{Word};
ghost use Rattle.rb_model.specs.declared.kinds.RefItem.TheVariants as item;
ghost use Rattle.rb_model.specs.Apart.{IsApart};
ghost use Rattle.rb_model.specs.Items.{ItemValues, Read};
ghost use Rattle.rb_model.specs.Machine.{read_data};
ghost use Rattle.rb_model.specs.Run.{word_at};
ghost use Rattle.rb_model.specs.Sound.{IsSound, WordIsSound};
ghost use Rattle.v_design.specs.WellFormed.{distinct};
ghost use Rattle.word_groups.specs.declared.entries.Entry.{Entry};
ghost use Rattle.word_groups.specs.declared.parts.Part.{Part};
ghost use Rattle.word_groups.specs.Arrays.{entries};
ghost use Rattle.word_groups.specs.Entries.{all_words, path_of};
ghost use Rattle.c_header.specs.Enumerators.{Enumerator, all_macros, enumerator_name};
ghost use Rattle.c_header.specs.Laws.{AreApart, AreReset, Has, IsEntryOf, IsPartOf};
ghost use Rattle.c_header.specs.Macros.{Macro, Offset, value_at};
ghost use Rattle.word_groups.specs.Parts.{parts, resval};
ghost use Rattle.word_groups.specs.Paths.{indices};

/// Each word that the address table lists has an entry: at the indices of its register OFFSET is the word's address and each index is below
/// its COUNT, and BYTES is its width.
pub fn words_decoded()
    ensures { (b : Block) (w : Word) → WordIsSound b w → Has (all_words b) w
        → (e : Entry) × Has (entries b) e × IsEntryOf b w e }
{}

/// Each slot of a word has a part, whose SHIFT, BITS, MASK and FROM are its own.
pub fn slots_decoded()
    ensures { (b : Block) (w : Word) → WordIsSound b w → (k : ℕ) (s : Slot) → slice_get w.slots k ≡ Some s
        → (p : Part) × (slice_get (parts b w) k ≡ Some p) × IsPartOf b s p }
{}

/// `(d & ~MASK) | (v << SHIFT)` is `d` with `v` in place of the slot's bits.
pub fn masked_write()
    ensures { (d v low bits : ℕ) → 0 < bits → low + bits ≤ 32 → d < 2 ^ 32 → v < 2 ^ bits
        → bit_or (bit_and d (2 ^ 32 - 1 - (2 ^ bits - 1) * 2 ^ low)) (v * 2 ^ low) ≡ put d (low + bits - 1) low v }
{}

/// `(data & MASK) >> SHIFT` of what a read gives is the slot's part of its field's value.
pub fn masked_read()
    ensures { (b : Block) (v : ItemValues) (i : ℕ) (w : Word) (k : ℕ) (s : Slot) (u : View) → WordIsSound b w
        → slice_get b.reads i ≡ Some w → slice_get w.slots k ≡ Some s → slice_get b.views s.view ≡ Some u → u.reads ≡ true
        → bit_and (read_data b v (Read i)) ((2 ^ s.bits - 1) * 2 ^ s.low) / 2 ^ s.low
        ≡ bits.part (v (item.Field u.field)) (s.from + s.bits - 1) s.from }
{}

/// Where each field that keeps a value has its reset value, a read gives RESVAL.
pub fn resets_read()
    ensures { (b : Block) (v : ItemValues) (i : ℕ) (w : Word) (n : ℕ) → WordIsSound b w → slice_get b.reads i ≡ Some w
        → AreReset b v → resval (parts b w) ≡ Some n → read_data b v (Read i) ≡ n }
{}

/// No two macros of a header have one name.
pub fn macros_differ()
    ensures { (b : Block) (es : List Enumeration) → IsSound b → IsApart b → AreApart b es → IsTrue (distinct (map (λ m. m.name) (all_macros b es))) }
{}

/// Each enumerator has a macro, which stands for its value.
pub fn entries_are()
    ensures { (b : Block) (es : List Enumeration) (j k : ℕ) (e : Enumeration) (x : Enumerator) → slice_get es j ≡ Some e → slice_get e.entries k ≡ Some x
        → (m : Macro) × Has (all_macros b es) m × (m.name ≡ enumerator_name b es e x ++ codes "_VALUE") × (value_at m.value [] ≡ x.1) }
{}

/// Each word has one entry alone.
pub fn one_entry()
    ensures { (b : Block) → IsSound b → IsApart b → (w : Word) (j k : ℕ) (d e : Entry) → slice_get (entries b) j ≡ Some d → slice_get (entries b) k ≡ Some e
        → IsEntryOf b w d → IsEntryOf b w e → j ≡ k }
{}

/// An access at the address that OFFSET gives at a word's indices is of that very word.
pub fn offsets_reach()
    ensures read { (b : Block) (i : ℕ) (w : Word) (e : Entry) → IsSound b → slice_get b.reads i ≡ Some w → IsEntryOf b w e
        → word_at b.reads (value_at (Offset e.address e.strides) (indices (path_of b w))) ≡ Some i }
    ensures written { (b : Block) (i : ℕ) (w : Word) (e : Entry) → IsSound b → slice_get b.writes i ≡ Some w → IsEntryOf b w e
        → word_at b.writes (value_at (Offset e.address e.strides) (indices (path_of b w))) ≡ Some i }
{}
