//! What the machine of a block does, in a chip engineer's words.

ghost use Rattle.std.specs.Prelude.{◌≡◌, ◌↔◌, ℕ, ◌+◌, ◌-◌, ◌^◌, ◌%◌, ◌<◌, ◌≤◌, true, false, Option, Some, None, List, length, map, slice_get};
ghost use Rattle.v_design.specs.Fits.{FitsPins};
ghost use Rattle.rb_model.specs.declared.kinds.Mask.TheVariants as mask;
ghost use Rattle.rb_model.specs.declared.block.Block.{Block};
ghost use Rattle.rb_model.specs.declared.block.Field.{Field};
ghost use Rattle.rb_model.specs.Kept.{Val, Last, Done, Map, Fits, is_storage};
ghost use Rattle.rb_model.specs.Ports.{input_pins};
ghost use Rattle.rb_model.specs.References.{Each};
ghost use Rattle.rb_model.specs.Effects.{counted, overflows, underflows};
ghost use Rattle.rb_model.specs.Items.{Access, Now, ItemValues};
ghost use Rattle.rb_model.specs.Machine.{hardware, is_asserted, software, uses_up};
ghost use Rattle.rb_model.specs.Protocol.{KeepsProtocol, bus_of};
ghost use Rattle.rb_model.specs.Run.{ClockEdge, MachineRun, now, pins_of};
ghost use Rattle.rb_model.specs.Sound.{IsSound};
ghost use Rattle.machine_run.specs.Counting.{Counts, PassesHigh, PassesLow};
ghost use Rattle.machine_run.specs.Quiet.{IsQuiet};
ghost use Rattle.machine_run.specs.Ready.{AreReady};
ghost use Rattle.machine_run.specs.Words.{is_accessed};

/// A field whose reset is asserted takes its reset value at the edge, and forgets its last input and that it was written.
pub fn reset_wins()
    ensures value { (b : Block) (m : Map) (x outs : List ℕ) (after : Map) → ClockEdge b m x outs after
        → (k : ℕ) (f : Field) → slice_get b.fields k ≡ Some f → is_asserted b (pins_of b x) f.reset_by ≡ true
        → is_storage f.class ≡ true → (r : ℕ) → f.reset ≡ Some r → after (Val k) ≡ r }
    ensures input { (b : Block) (m : Map) (x outs : List ℕ) (after : Map) → ClockEdge b m x outs after
        → (k : ℕ) (f : Field) → slice_get b.fields k ≡ Some f → is_asserted b (pins_of b x) f.reset_by ≡ true
        → after (Last k) ≡ 0 }
    ensures mark { (b : Block) (m : Map) (x outs : List ℕ) (after : Map) → ClockEdge b m x outs after
        → (k : ℕ) (f : Field) → slice_get b.fields k ≡ Some f → is_asserted b (pins_of b x) f.reset_by ≡ true
        → after (Done k) ≡ 0 }
{}

/// An access leaves alone each field that has no bits in the word accessed: only hardware and reset change it.
pub fn other_words_stay()
    ensures value { (b : Block) (n : Now) (v : ItemValues) (access : Access) (k : ℕ) (f : Field)
        → is_accessed b access k ≡ false → (y : ℕ) → software b n v access k f y ≡ y }
    ensures mark { (b : Block) (n : Now) (v : ItemValues) (access : Access) (k : ℕ)
        → is_accessed b access k ≡ false → uses_up b n v access k ≡ false }
    ensures edge { (b : Block) (m : Map) (x outs : List ℕ) (after : Map) (edge : ClockEdge b m x outs after)
        → (k : ℕ) (f : Field) → slice_get b.fields k ≡ Some f → is_asserted b (pins_of b x) f.reset_by ≡ false
        → is_accessed b (now b (pins_of b x) m).access k ≡ false → is_storage f.class ≡ true
        → after (Val k) ≡ hardware (now b (pins_of b x) m) edge.items k f (m (Val k)) }
{}

/// A field that no access, hardware or reset touches at an edge keeps its value, and the mark that it was written.
pub fn quiet_fields_stay()
    ensures value { (b : Block) (m : Map) (x outs : List ℕ) (after : Map) → ClockEdge b m x outs after
        → (k : ℕ) (f : Field) → slice_get b.fields k ≡ Some f → is_asserted b (pins_of b x) f.reset_by ≡ false
        → is_accessed b (now b (pins_of b x) m).access k ≡ false → is_storage f.class ≡ true → IsQuiet f
        → f.keep ≡ mask.Off → after (Val k) ≡ m (Val k) }
    ensures masked { (b : Block) → IsSound b → (m : Map) → Fits b m → (x : List ℕ) → FitsPins (input_pins b) x
        → (outs : List ℕ) (after : Map) → ClockEdge b m x outs after
        → (k : ℕ) (f : Field) → slice_get b.fields k ≡ Some f → is_asserted b (pins_of b x) f.reset_by ≡ false
        → is_accessed b (now b (pins_of b x) m).access k ≡ false → is_storage f.class ≡ true → IsQuiet f
        → after (Val k) ≡ m (Val k) }
    ensures mark { (b : Block) (m : Map) (x outs : List ℕ) (after : Map) → ClockEdge b m x outs after
        → (k : ℕ) (f : Field) → slice_get b.fields k ≡ Some f → is_asserted b (pins_of b x) f.reset_by ≡ false
        → is_accessed b (now b (pins_of b x) m).access k ≡ false → f.once ≡ true → after (Done k) ≡ m (Done k) }
{}

/// A counter counts over whole numbers: it saturates, overflows, underflows and wraps exactly where v + up - down says so.
pub fn counting_is_whole()
    ensures overflow { (w v up down : ℕ) → (overflows w v up down ≡ 1) ↔ (2 ^ w + down ≤ v + up) }
    ensures no_overflow { (w v up down : ℕ) → (overflows w v up down ≡ 0) ↔ (v + up < 2 ^ w + down) }
    ensures underflow { (w v up down : ℕ) → (underflows v up down ≡ 1) ↔ (v + up < down) }
    ensures no_underflow { (w v up down : ℕ) → (underflows v up down ≡ 0) ↔ (down ≤ v + up) }
    ensures high { (w v up down high : ℕ) (low : Option ℕ) → PassesHigh v up down (Some high)
        → counted w v up down (Some high) low ≡ high }
    ensures low { (w v up down : ℕ) (high : Option ℕ) (low : ℕ) → ¬ PassesHigh v up down high
        → PassesLow v up down (Some low) → counted w v up down high (Some low) ≡ low }
    ensures below { (w v up down : ℕ) (high low : Option ℕ) → ¬ PassesHigh v up down high
        → ¬ PassesLow v up down low → counted w v up down high low < 2 ^ w }
    ensures wraps { (w v up down : ℕ) (high low : Option ℕ) → ¬ PassesHigh v up down high
        → ¬ PassesLow v up down low → down < 2 ^ w → (counted w v up down high low + down) % 2 ^ w ≡ (v + up) % 2 ^ w }
    ensures exact { (w v up down : ℕ) (high low : Option ℕ) → ¬ PassesHigh v up down high
        → ¬ PassesLow v up down low → down ≤ v + up → v + up < 2 ^ w + down
        → counted w v up down high low + down ≡ v + up }
    ensures table { Counts 64 (2 ^ 64 - 1) 1 1 None None (2 ^ 64 - 1) 0 0
        × Counts 4 14 3 0 None None 1 1 0
        × Counts 4 14 3 0 (Some 15) None 15 1 0
        × Counts 4 1 0 3 None None 14 0 1
        × Counts 4 1 0 3 None (Some 0) 0 0 1
        × Counts 4 14 3 3 (Some 10) None 10 0 0 }
{}

/// Over vectors that keep the bus protocol the machine runs, from any kept values, and PREADY ends each access in time.
pub fn protocol_runs()
    ensures runs { (b : Block) → IsSound b → (m : Map) (vectors : List (List ℕ))
        → KeepsProtocol b.waits (map (λ x. bus_of (pins_of b x)) vectors)
        → (outputs : List (List ℕ)) × MachineRun b m vectors outputs × (length outputs ≡ length vectors) }
    ensures ready { (b : Block) → IsSound b → (m : Map) (vectors outputs : List (List ℕ))
        → Each (FitsPins (input_pins b)) vectors → KeepsProtocol b.waits (map (λ x. bus_of (pins_of b x)) vectors)
        → MachineRun b m vectors outputs → AreReady b.waits (map (λ x. bus_of (pins_of b x)) vectors) outputs }
{}
