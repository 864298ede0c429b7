//! What the definitions determine.

ghost use Rattle.std.specs.Prelude.{ℕ, List};
ghost use Rattle.rb_model.specs.declared.block.Block.{Block};
ghost use Rattle.rb_model.specs.Agreement.{Agrees};
ghost use Rattle.rb_model.specs.Run.{apb};
ghost use Rattle.rb_model.specs.Sound.{IsSound};
ghost use Rattle.sim_run.specs.Simulated.{IsSimulated};
ghost use Rattle.machine_run.specs.Runs.{IsRunOf};

/// Over a table whose vectors keep the bus protocol, the run of a block's machine and that of a module which agrees with the
/// block, each from zeros, are the same text.
pub fn runs_agree()
    ensures { (b : Block) (verilog stimulus text : List ℕ) → IsSound b → Agrees verilog (apb b)
        → IsRunOf b stimulus text → IsSimulated verilog stimulus text }
{}
