//! What the definitions determine.

ghost use Rattle.std.specs.Prelude.{◌≡◌, ℕ, ◌^◌, ◌<◌, true, Some, List, ◌++◌, Contains, map, slice_get, get_or};
ghost use Rattle.rb_base.specs.declared.ports.Pin.{Pin};
ghost use Rattle.v_design.specs.Design.{outputs_among};
ghost use Rattle.v_design.specs.Fits.{FitsPins};
ghost use Rattle.v_design.specs.WellFormed.{distinct};
ghost use Rattle.rb_model.specs.declared.kinds.RefItem.{RefItem};
ghost use Rattle.rb_model.specs.declared.block.Block.{Block};
ghost use Rattle.rb_model.specs.Items.{Now, ItemValues, AreItemValues, items};
ghost use Rattle.rb_model.specs.Kept.{Kept, Map, Fits, kept_pins};
ghost use Rattle.rb_model.specs.Ports.{ports, input_pins};
ghost use Rattle.rb_model.specs.References.{item_width};
ghost use Rattle.rb_model.specs.Run.{ClockEdge, MachineRun, all_outputs, answer, kept_next, now, pins_of};
ghost use Rattle.rb_model.specs.Sound.{IsSound};

/// In a sound block the items have values at each vector.
pub fn item_values_exist()
    ensures { (b : Block) (n : Now) → IsSound b → (v : ItemValues) × AreItemValues b n v }
{}

/// They have no other values.
pub fn item_values_are_one()
    ensures { (b : Block) (n : Now) → IsSound b → (u v : ItemValues)
        → AreItemValues b n u → AreItemValues b n v → (i : RefItem) → Contains (items b) i → u i ≡ v i }
{}

/// An edge's outputs, the answer to its access and what is kept after it depend on the items' values alone, and so are
/// the same for all values of the items.
pub fn edge_is_of_item_values()
    ensures outputs { (b : Block) (n : Now) → IsSound b → (u v : ItemValues)
        → AreItemValues b n u → AreItemValues b n v → all_outputs b n u ≡ all_outputs b n v }
    ensures answer { (b : Block) (n : Now) → IsSound b → (u v : ItemValues)
        → AreItemValues b n u → AreItemValues b n v → answer b n u ≡ answer b n v }
    ensures kept { (b : Block) (n : Now) → IsSound b → (u v : ItemValues)
        → AreItemValues b n u → AreItemValues b n v → (k : Kept) → kept_next b n u k ≡ kept_next b n v k }
{}

/// The machine of a sound block runs from any kept values and for any vectors, of any lengths and widths.
pub fn machine_runs()
    ensures { (b : Block) → IsSound b → (m : Map) (vectors : List (List ℕ))
        → (outputs : List (List ℕ)) × MachineRun b m vectors outputs }
{}

/// It has no other run.
pub fn one_machine_run()
    ensures { (b : Block) → IsSound b → (m : Map) (vectors first second : List (List ℕ))
        → MachineRun b m vectors first → MachineRun b m vectors second → first ≡ second }
{}

/// A run doesn't depend on the order of the items.
pub fn order_is_free()
    ensures { (b : Block) (order : List RefItem) (m : Map) (vectors outputs : List (List ℕ))
        → MachineRun b m vectors outputs → MachineRun (record b { order = order }) m vectors outputs }
{}

/// From kept values and for pins within their widths, the items' values are within theirs, and so are what an edge
/// shows and what is kept after it.
pub fn edge_fits()
    ensures items { (b : Block) → IsSound b → (m : Map) → Fits b m → (x : List ℕ) → FitsPins (input_pins b) x
        → (v : ItemValues) → AreItemValues b (now b (pins_of b x) m) v → (i : RefItem) → Contains (items b) i
        → v i < 2 ^ item_width b i }
    ensures outputs { (b : Block) → IsSound b → (m : Map) → Fits b m → (x : List ℕ) → FitsPins (input_pins b) x
        → (outs : List ℕ) (after : Map) → ClockEdge b m x outs after → FitsPins (outputs_among (ports b)) outs }
    ensures kept { (b : Block) → IsSound b → (m : Map) → Fits b m → (x : List ℕ) → FitsPins (input_pins b) x
        → (outs : List ℕ) (after : Map) → ClockEdge b m x outs after → Fits b after }
{}

/// The ports and the registers of the kept values have names that differ.
pub fn names_differ()
    ensures { (b : Block) → IsSound b → distinct (map (λ p. p.name) (ports b) ++ map (λ p. p.name) (kept_pins b)) ≡ true }
{}

/// The number of a pin by its name is that at its place in the vector.
pub fn pins_are_by_place()
    ensures { (b : Block) → IsSound b → (place : ℕ) (pin : Pin) (vector : List ℕ)
        → slice_get (input_pins b) place ≡ Some pin → pins_of b vector pin.name ≡ get_or vector place 0 }
{}
