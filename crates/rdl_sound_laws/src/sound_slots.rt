//! The slots of a source's block.

ghost use Rattle.std.specs.Prelude.{◌≡◌, ◌∷◌, [], ℕ, true, false, Contains, List, Option, Some, filter, slice_get};
ghost use Rattle.rdl_tree.specs.declared.item.Source.{Source};
ghost use Rattle.rdl_tree.specs.declared.node.Elab.{Elab};
ghost use Rattle.rdl_values.specs.Elaborated.{nodes_of, top_name};
ghost use Rattle.rdl_values.specs.Instances.{Instance, nodes};
ghost use Rattle.rdl_values.specs.Lineages.{lineages, lineages_of};
ghost use Rattle.rdl_values.specs.Verdict.{IsListOf};
ghost use Rattle.rdl_values.specs.Elaboration.{IsClean};
ghost use Rattle.rdl_layers.specs.Answers.{IsSettled};
ghost use Rattle.rdl_nodes.specs.declared.table.Row.{Row as AnyRow};
ghost use Rattle.rdl_nodes.specs.Rows.{AreRows};
ghost use Rattle.rdl_layers.specs.Fields.{fields_of, is_alias, is_alias_of};
ghost use Rattle.rdl_addr.specs.Answers.{IsPlaced};
ghost use Rattle.rb_model.specs.declared.block.Block.{Block};
ghost use Rattle.rb_model.specs.declared.block.Field.{Field};
ghost use Rattle.rb_model.specs.References.{Each};
ghost use Rattle.rb_model.specs.Sound.{SlotIsSound, WordIsSound};
ghost use Rattle.rdl_rules.specs.Answers.{meaning_fails};
ghost use Rattle.rdl_rules.specs.Block.{IsBlockOf};
ghost use Rattle.rdl_rules.specs.Numbers.{registers};
ghost use Rattle.rdl_sound_laws.specs.Fielded.{HasField, HasOneForm, HavePrimaries, IsViewed};

use rdl_values::primaries_stand;

/// The view of a field of a register that is no alias is of that field, under its own path.
pub fn views_have_fields()
    ensures { (wanted : Option (List ℕ)) (s : Source) (waits : ℕ) (b : Block) (r f : Instance) → IsBlockOf wanted s waits b → Contains (registers (nodes wanted s)) r → is_alias r ≡ false
        → Contains (fields_of r) f → IsViewed (lineages wanted s) b r f }
{}

/// Where no rule fails, the view of a field of an alias has a field of the primary, which is as wide, if no instance has both a bracket and
/// a range.
pub fn aliases_have_fields()
    ensures { (e : Elab) (waits : ℕ) (b : Block) → IsSettled e → IsListOf (meaning_fails e) [] → IsBlockOf (Some (top_name e)) e.source.now waits b → ((n : Instance) → Contains (nodes_of e) n → HasOneForm n)
        → (a r f : Instance) → Contains (registers (nodes_of e)) a → is_alias a ≡ true → filter (λ p. is_alias_of p a) (registers (nodes_of e)) ≡ r ∷ [] → is_alias r ≡ false → Contains (fields_of a) f → HasField (lineages_of e) b a f }
{}

/// Where no rule fails, each slot of a word is sound: if each view has a field of the block, as wide as its own, and no instance has both
/// a bracket and a range.
pub fn slots_are_sound()
    ensures reads { (e : Elab) (waits : ℕ) (b : Block) → IsSettled e → IsPlaced e → IsListOf (meaning_fails e) [] → IsBlockOf (Some (top_name e)) e.source.now waits b
        → ((n : Instance) → Contains (nodes_of e) n → HasOneForm n) → ((r f : Instance) → Contains (registers (nodes_of e)) r → Contains (fields_of r) f → HasField (lineages_of e) b r f) → Each (λ w. Each (SlotIsSound b w) w.slots) b.reads }
    ensures writes { (e : Elab) (waits : ℕ) (b : Block) → IsSettled e → IsPlaced e → IsListOf (meaning_fails e) [] → IsBlockOf (Some (top_name e)) e.source.now waits b
        → ((n : Instance) → Contains (nodes_of e) n → HasOneForm n) → ((r f : Instance) → Contains (registers (nodes_of e)) r → Contains (fields_of r) f → HasField (lineages_of e) b r f) → Each (λ w. Each (SlotIsSound b w) w.slots) b.writes }
{}

/// Where no rule fails, each word of a source's block is sound, if each alias has one primary and no instance has both a bracket and a
/// range.
pub fn words_are_sound()
    ensures reads { (e : Elab) (waits : ℕ) (b : Block) → IsSettled e → IsPlaced e → IsListOf (meaning_fails e) [] → IsBlockOf (Some (top_name e)) e.source.now waits b
        → ((n : Instance) → Contains (nodes_of e) n → HasOneForm n) → HavePrimaries (nodes_of e) → Each (WordIsSound b) b.reads }
    ensures writes { (e : Elab) (waits : ℕ) (b : Block) → IsSettled e → IsPlaced e → IsListOf (meaning_fails e) [] → IsBlockOf (Some (top_name e)) e.source.now waits b
        → ((n : Instance) → Contains (nodes_of e) n → HasOneForm n) → HavePrimaries (nodes_of e) → Each (WordIsSound b) b.writes }
{}

/// Where no rule fails, each view of a source's block is of one of its fields, under the field's path unless it is an alias's, if each
/// alias has one primary and no instance has both a bracket and a range.
pub fn views_are_of_fields()
    ensures { (e : Elab) (waits : ℕ) (b : Block) → IsSettled e → IsListOf (meaning_fails e) [] → IsBlockOf (Some (top_name e)) e.source.now waits b
        → ((n : Instance) → Contains (nodes_of e) n → HasOneForm n) → HavePrimaries (nodes_of e) → Each (λ v. (f : Field) × (slice_get b.fields v.field ≡ Some f) × (v.alias ≡ false → v.path ≡ f.path)) b.views }
{}

/// Each alias of a tree has one primary, where these are the rows of the tree.
pub fn aliases_have_primaries()
    ensures { (e : Elab) (rows : List AnyRow) → IsClean e → AreRows e rows → HavePrimaries (nodes_of e) }
{
    primaries_stand();
}
