//! What the definitions determine.

ghost use Rattle.std.specs.Prelude.{◌≡◌, ◌↔◌, ℕ, List, Ok, Err};
ghost use Rattle.rb_model.specs.declared.block.Block.{Block};
ghost use Rattle.drive_lang.specs.Steps.{Step};
ghost use Rattle.drive_lang.specs.declared.error.DriveError as error;
ghost use Rattle.drive_lang.specs.Meanings.{IsFirstError, IsScript};
ghost use Rattle.drive_lang.specs.Scripts.{script_of};

/// A script has an error exactly where one of its lines has, and it is that of the first such line; else its steps are those of
/// its lines, each judged by its words and by the number of vectors before it alone.
pub fn scripts_are()
    ensures meant { (b : Block) (bytes : List ℕ) (steps : List Step) → (script_of b bytes ≡ Ok steps) ↔ IsScript b bytes steps }
    ensures first { (b : Block) (bytes : List ℕ) (e : error.DriveError) → (script_of b bytes ≡ Err e) ↔ IsFirstError b bytes e }
{}
