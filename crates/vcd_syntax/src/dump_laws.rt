//! What a dump and its table tell of each other.

ghost use Rattle.std.specs.Prelude.{◌≡◌, ◌⊎◌, ◌≤◌, ◌*◌, ◌++◌, ℕ, List, length};
ghost use Rattle.rb_base.specs.declared.ports.Pin.{Pin};
ghost use Rattle.v_design.specs.Tree.{Tree, IsTree};
ghost use Rattle.v_design.specs.Design.{module_of, inputs, outputs};
ghost use Rattle.v_design.specs.WellFormed.{IsWellFormed};
ghost use Rattle.v_design.specs.Fits.{AllFit};
ghost use Rattle.vcd_syntax.specs.declared.error.VcdError.{VcdError};
ghost use Rattle.vcd_syntax.specs.Dump.{dump_text};
ghost use Rattle.vcd_syntax.specs.Faulty.{Problem, most_times, most_values};
ghost use Rattle.vcd_syntax.specs.Tokens.{Token};
ghost use Rattle.vcd_syntax.specs.Reading.{IsFirst, IsSound, IsTable, Fails};
ghost use Rattle.vcd_syntax.specs.Dumped.{CanBeDumped};

/// The dump of a run has the table of its pins and their values (IEEE 1364-2005, clause 18.2).
pub fn dumps_are_read_back()
    ensures { (name : List ℕ) (ps : List Pin) (rows : List (List ℕ)) → CanBeDumped name ps rows → IsTable (dump_text name ps rows) ps rows }
{}

/// So has the dump of a well-formed module's pins, the inputs without the clock and then the outputs, for any rows of numbers that fit them.
pub fn modules_are_read_back()
    ensures { (verilog : List ℕ) (t : Tree) (ps : List Pin) (rows : List (List ℕ)) → IsTree verilog t → IsWellFormed t
        → ps ≡ inputs (module_of t) ++ outputs (module_of t) → AllFit ps rows → length rows ≤ most_times → length rows * length ps ≤ most_values
        → IsTable (dump_text (module_of t).name ps rows) ps rows }
{}

/// A text has a table or a problem.
pub fn table_or_problem()
    ensures { (text : List ℕ) → ((ps : List Pin) × (rows : List (List ℕ)) × IsTable text ps rows) ⊎ ((e : VcdError) × Fails text e) }
{}

/// What has a table has no problem.
pub fn table_has_no_problem()
    ensures { (text : List ℕ) (ps : List Pin) (rows : List (List ℕ)) (e : VcdError) → IsTable text ps rows → Fails text e → ⊥ }
{}

/// A text has one table at most.
pub fn one_table()
    ensures { (text : List ℕ) (ps qs : List Pin) (rows others : List (List ℕ)) → IsTable text ps rows → IsTable text qs others → (ps ≡ qs) × (rows ≡ others) }
{}

/// A text has one problem at most.
pub fn one_problem()
    ensures { (text : List ℕ) (d e : VcdError) → Fails text d → Fails text e → d ≡ e }
{}

/// Words that are a dump without a problem have no first one.
pub fn no_both()
    ensures { (text : List ℕ) (ms : List Token) (p : Problem) (place : ℕ) → IsSound text ms → IsFirst text p place → ⊥ }
{}
