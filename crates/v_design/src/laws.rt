//! What the definitions determine.

ghost use Rattle.std.specs.Prelude.{◌≡◌, ℕ, List};
ghost use Rattle.v_design.specs.Expr.{Values};
ghost use Rattle.v_design.specs.Tree.{Tree, IsTree};
ghost use Rattle.v_design.specs.Design.{module_of, inputs, outputs};
ghost use Rattle.v_design.specs.WellFormed.{IsWellFormed};
ghost use Rattle.v_design.specs.Run.{Edge, Run};
ghost use Rattle.v_design.specs.Fits.{FitsPins, AllFit, ContentsFit, EdgeFits};

/// Bytes are at most one module tree.
pub fn one_tree()
    ensures { (bytes : List ℕ) (t u : Tree) → IsTree bytes t → IsTree bytes u → t ≡ u }
{}

/// A well-formed module has at most one run from given contents over given vectors.
pub fn one_run()
    ensures { (t : Tree) → IsWellFormed t
        → (contents : Values) (vectors first second : List (List ℕ))
        → Run (module_of t) contents vectors first → Run (module_of t) contents vectors second
        → first ≡ second }
{}

/// A well-formed module has a run from any contents over any vectors that fit its inputs.
pub fn has_run()
    ensures { (t : Tree) → IsWellFormed t
        → (contents : Values) (vectors : List (List ℕ)) → AllFit (inputs (module_of t)) vectors
        → (outputs : List (List ℕ)) × Run (module_of t) contents vectors outputs }
{}

/// Values stay within their widths. At an edge of a well-formed module whose registers' contents and whose inputs are
/// within their widths, so are all values, the outputs and the contents after the edge. So are the outputs of a run.
pub fn values_fit()
    ensures edge { (bytes : List ℕ) (t : Tree) → IsTree bytes t → IsWellFormed t
        → (contents after : Values) (ins outs : List ℕ)
        → ContentsFit (module_of t) contents → FitsPins (inputs (module_of t)) ins
        → (e : Edge (module_of t) contents ins outs after)
        → EdgeFits (module_of t) e.values outs after }
    ensures run { (bytes : List ℕ) (t : Tree) → IsTree bytes t → IsWellFormed t
        → (contents : Values) (vectors results : List (List ℕ))
        → ContentsFit (module_of t) contents → AllFit (inputs (module_of t)) vectors
        → Run (module_of t) contents vectors results → AllFit (outputs (module_of t)) results }
{}
