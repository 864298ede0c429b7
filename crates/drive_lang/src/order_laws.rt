//! What the definitions determine.

ghost use Rattle.std.specs.Prelude.{ℕ, List, map};
ghost use Rattle.rb_model.specs.declared.block.Block.{Block};
ghost use Rattle.rb_model.specs.Run.{buses};
ghost use Rattle.rb_model.specs.Protocol.{KeepsProtocol};
ghost use Rattle.drive_lang.specs.declared.order.Line.{Line};
ghost use Rattle.drive_lang.specs.Steps.{played};

/// Whatever lines ask for, their vectors keep the bus protocol without wait states.
pub fn lines_keep_the_protocol()
    ensures { (b : Block) (lines : List Line) (held : List ℕ) → KeepsProtocol 0 (buses b (map (λ s. s.vector) (played lines held))) }
{}
