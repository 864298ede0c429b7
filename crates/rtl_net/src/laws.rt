//! What the definitions determine.

ghost use Rattle.std.specs.Prelude.{◌≡◌, ℕ, List};
ghost use Rattle.rtl_net.specs.Value.{Values};
ghost use Rattle.rtl_net.specs.Net.{Net, undriven};
ghost use Rattle.rtl_net.specs.Made.{IsMade};
ghost use Rattle.rtl_net.specs.Run.{NetEdge, NetRun, inputs, outputs, registers};
ghost use Rattle.rtl_net.specs.Fits.{FitsPins, AllFit, ValuesFit, EdgeFits};

/// A netlist whose registers are all driven has at most one run from given contents over given vectors.
pub fn one_run()
    ensures { (net : Net) → IsMade net → undriven net.nodes ≡ 0
        → (contents : Values) (vectors first second : List (List ℕ))
        → NetRun net contents vectors first → NetRun net contents vectors second → first ≡ second }
{}

/// A netlist has a run from any contents over any vectors that fit its inputs.
pub fn has_run()
    ensures { (net : Net) → IsMade net
        → (contents : Values) (vectors : List (List ℕ)) → AllFit (inputs net) vectors
        → (outputs : List (List ℕ)) × NetRun net contents vectors outputs }
{}

/// Values stay within their widths. At an edge whose contents and inputs are within their widths, so are all nodes
/// and the outputs, and what is known of each node holds there; and so are the contents after the edge, where all
/// registers are driven. So are the outputs of a run.
pub fn values_fit()
    ensures edge { (net : Net) → IsMade net → undriven net.nodes ≡ 0
        → (contents after : Values) (ins outs : List ℕ)
        → ValuesFit contents (registers net) → FitsPins (inputs net) ins
        → (e : NetEdge net contents ins outs after) → EdgeFits net e.at outs after }
    ensures run { (net : Net) → IsMade net → undriven net.nodes ≡ 0
        → (contents : Values) (vectors results : List (List ℕ))
        → ValuesFit contents (registers net) → AllFit (inputs net) vectors
        → NetRun net contents vectors results → AllFit (outputs net) results }
{}
