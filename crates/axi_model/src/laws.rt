//! What the definitions determine.

ghost use Rattle.std.specs.Prelude.{◌≡◌, ◌++◌, ℕ, List, codes, map, true};
ghost use Rattle.v_design.specs.WellFormed.{distinct};
ghost use Rattle.rb_model.specs.declared.block.Block.{Block};
ghost use Rattle.rb_model.specs.Kept.{Map};
ghost use Rattle.rb_model.specs.Sound.{IsSound};
ghost use Rattle.std.specs.List.{AllByRecursion};
ghost use Rattle.rb_model.specs.Front.{FrontRun, pins_at, register_pins};
ghost use Rattle.axi_model.specs.Channels.{idle};
ghost use Rattle.axi_model.specs.Ports.{axi_ports};
ghost use Rattle.axi_model.specs.Axi.{AxiKept, axi};
ghost use Rattle.axi_model.specs.Transfers.{AreTransfers, moments};

/// The machine of a sound block behind the port runs from whatever is kept and for any vectors, of any lengths and widths.
pub fn axi_runs()
    ensures { (b : Block) → IsSound b → (k : AxiKept) (vectors : List (List ℕ)) → (outputs : List (List ℕ)) × FrontRun (axi b) k vectors outputs }
{}

/// It has no other run.
pub fn one_axi_run()
    ensures { (b : Block) → IsSound b → (k : AxiKept) (vectors first second : List (List ℕ))
        → FrontRun (axi b) k vectors first → FrontRun (axi b) k vectors second → first ≡ second }
{}

/// The ports of a sound block's module behind the port and its registers have names that differ.
pub fn axi_names_differ()
    ensures { (b : Block) → IsSound b → distinct (map (λ p. p.name) (axi_ports b) ++ map (λ p. p.name) (register_pins (axi b))) ≡ true }
{}

/// In a run without reset in which nothing is kept of the channels at first, each answer belongs to what was asked.
pub fn transfers_belong_together()
    ensures { (b : Block) (fields : Map) (vectors outputs : List (List ℕ)) → AllByRecursion (λ x. pins_at (axi b) x (codes "PRESETn") ≡ 1) vectors
        → FrontRun (axi b) (record { fields = fields; channels = idle }) vectors outputs → AreTransfers b (moments b vectors outputs) }
{}
