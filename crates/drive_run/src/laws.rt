//! What the definitions determine.

ghost use Rattle.std.specs.Prelude.{◌≡◌, ℕ, List};
ghost use Rattle.rb_model.specs.declared.block.Block.{Block};
ghost use Rattle.rb_model.specs.Agreement.{Agrees};
ghost use Rattle.rb_model.specs.Run.{apb};
ghost use Rattle.rb_model.specs.Sound.{IsSound};
ghost use Rattle.drive_run.specs.Playing.{IsTranscriptOf};
ghost use Rattle.drive_run.specs.Modules.{IsSeenOf};

/// A script of a sound block has one transcript, and one count of failed checks.
pub fn one_transcript()
    ensures { (b : Block) → IsSound b → (bytes text other : List ℕ) (failed count : ℕ)
        → IsTranscriptOf b bytes text failed → IsTranscriptOf b bytes other count → (text ≡ other) × (failed ≡ count) }
{}

/// A script keeps the bus protocol without wait states, so what it sees of a block's machine from zeros it sees of each module that
/// agrees with the block, from zeros too.
pub fn transcripts_agree()
    ensures { (b : Block) (verilog bytes text : List ℕ) (failed : ℕ) → b.waits ≡ 0 → Agrees verilog (apb b)
        → IsTranscriptOf b bytes text failed → IsSeenOf b verilog bytes text failed }
{}
