//! How the enumerations by which the fields of a source are encoded can be told apart.

ghost use Rattle.std.specs.Prelude.{ℕ, List, [], Option};
ghost use Rattle.rb_model.specs.declared.block.Block.{Block};
ghost use Rattle.rdl_tree.specs.declared.item.Source.{Source};
ghost use Rattle.rdl_parser.specs.Verdicts.{Reads};
ghost use Rattle.rdl_values.specs.Elaboration.{instances};
ghost use Rattle.rdl_rules.specs.Block.{IsBlockOf};
ghost use Rattle.rdl_encodings.specs.Encoded.{source_encodings};
ghost use Rattle.c_header.specs.Laws.{AreApart};

use rdl_lexer::spelled_in_order;

/// Where no rule on instances fails, each enumeration is one of a field of the block, the names of its entries differ and have no
/// `$`, and no two enumerations have one first field.
pub fn enumerations_are_apart()
    ensures { (wanted : Option (List ℕ)) (text : List ℕ) (s : Source) (waits : ℕ) (b : Block) → Reads text s.items.now → instances wanted s []
        → IsBlockOf wanted s waits b → AreApart b (source_encodings wanted s).list }
{
    spelled_in_order();
}
