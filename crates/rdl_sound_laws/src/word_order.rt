//! The addresses of words.

ghost use Rattle.std.specs.Prelude.{◌≡◌, ◌<◌, Contains, List, Option, Some, length, map, IsPermutation};
ghost use Rattle.std.specs.List.Sorted.{IsNonDecreasing};
ghost use Rattle.rdl_tree.specs.declared.node.Elab.{Elab};
ghost use Rattle.rdl_values.specs.Elaborated.{top_name};
ghost use Rattle.rdl_layers.specs.Answers.{IsSettled};
ghost use Rattle.rdl_addr.specs.Answers.{IsPlaced};
ghost use Rattle.rdl_addr.specs.Layout.{Placed};
ghost use Rattle.rdl_addr.specs.Rules.{registers};
ghost use Rattle.rb_model.specs.declared.block.Word.{Word};
ghost use Rattle.rdl_rules.specs.Words.{AreByAddress, read_words, write_words};

/// The words that software reads, put in order by address, stand at rising addresses where no rule on addresses fails; so do those
/// that it writes.
pub fn words_rise()
    ensures reads { (e : Elab) → IsSettled e → IsPlaced e → (ws : List Word) → IsPermutation (read_words (registers (Some (top_name e)) e.source.now)) ws
        → IsNonDecreasing (map (λ w. w.address) ws) → AreByAddress (read_words (registers (Some (top_name e)) e.source.now)) ws }
    ensures writes { (e : Elab) → IsSettled e → IsPlaced e → (ws : List Word) → IsPermutation (write_words (registers (Some (top_name e)) e.source.now)) ws
        → IsNonDecreasing (map (λ w. w.address) ws) → AreByAddress (write_words (registers (Some (top_name e)) e.source.now)) ws }
{}

/// Where no rule on addresses fails, software reads and writes at the same addresses.
pub fn same_addresses()
    ensures { (e : Elab) → IsSettled e → IsPlaced e → (reads writes : List Word) → AreByAddress (read_words (registers (Some (top_name e)) e.source.now)) reads
        → AreByAddress (write_words (registers (Some (top_name e)) e.source.now)) writes → map (λ w. w.address) reads ≡ map (λ w. w.address) writes }
{}

/// Where there is a register, there is a word that software reads, and one that it writes.
pub fn some_words()
    ensures reads { (e : Elab) → IsSettled e → IsPlaced e → (p : Placed) → Contains (registers (Some (top_name e)) e.source.now) p → (ws : List Word)
        → AreByAddress (read_words (registers (Some (top_name e)) e.source.now)) ws → 0 < length ws }
    ensures writes { (e : Elab) → IsSettled e → IsPlaced e → (p : Placed) → Contains (registers (Some (top_name e)) e.source.now) p → (ws : List Word)
        → AreByAddress (write_words (registers (Some (top_name e)) e.source.now)) ws → 0 < length ws }
{}
