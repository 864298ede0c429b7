//! What a core determines over whole runs.

ghost use Rattle.std.specs.Prelude.{List, Contains};
ghost use Rattle.std.specs.List.{AllByRecursion};
ghost use Rattle.rtl_net.specs.Value.{At};
ghost use Rattle.rtl_net.specs.Net.{Net};
ghost use Rattle.rtl_net.specs.Run.{registers};
ghost use Rattle.rtl_net.specs.declared.node.Id.{Id};
ghost use Rattle.v_design.specs.Expr.{Values};
ghost use Rattle.rb_model.specs.declared.block.Block.{Block};
ghost use Rattle.rb_model.specs.Kept.{Kept, Map, field_kept, kept_pin};
ghost use Rattle.rb_model.specs.Sound.{IsSound};
ghost use Rattle.block_plan.specs.Behind.{IsThere};
ghost use Rattle.gen_scene.specs.Worth.{access_at};
ghost use Rattle.gen_scene.specs.declared.base.Inlet.{Inlet};
ghost use Rattle.gen_core.specs.Core.{IsCore};
ghost use Rattle.gen_core.specs.Runs.{Goes, HoldsFields, InnerRun};

/// The netlist of a core runs as the block's machine: over any list of edges at which it goes on from one to the next, in which each
/// access is of a word that is there, and from any contents, its outputs, its answers and what it keeps are the machine's.
pub fn core_runs()
    ensures { (b : Block) (a : Inlet) (net : Net) (answer : Id) → IsSound b → IsCore b a net answer
        → ((k : Kept) → Contains (field_kept b) k → Contains (registers net) (kept_pin b k))
        → (m : Map) (contents : Values) (edges : List At) → HoldsFields b m contents → Goes net contents edges
        → AllByRecursion (λ v. IsThere b (access_at a v)) edges → InnerRun b a answer m edges }
{}
