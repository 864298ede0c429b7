//! The top call.

ghost use Rattle.std.specs.Prelude.{◌≡◌, ◌⊎◌, ◌<◌, ◌≤◌, List, Option, ℕ};
ghost use Rattle.rb_edge.specs.Count.{Rose};
ghost use Rattle.rb_edge.specs.Shelf.{IsLonger};
ghost use Rattle.command_line.specs.Words.{texts, Command, check, compile, map_of, header_of, manual_of, axi_of, sim, vcd, pins_of, run_of, drive_of, gen_of, waits_of, Asks, AsksNothing};
ghost use Rattle.replies.specs.Outcome.{FailedRead, Outcome, StopsAt, files_of};
ghost use Rattle.replies.specs.Ends.{Ends, passage};
ghost use Rattle.regblock.specs.Complete.{IsComplete};
ghost use Rattle.regblock.specs.Headline.{AreToldVerdicts, IsFrontRight, IsHeader, IsManual, IsRight, IsTable, IsToldFailure, IsToldForAxi};
ghost use Rattle.regblock.specs.Simulations.{IsRun, IsToldVerilog, IsToldStimulus};
ghost use Rattle.regblock.specs.Waves.{IsDumped, IsPinTable, IsToldVcd};
ghost use Rattle.regblock.specs.MachineRuns.{IsMachineRun, IsToldUnfit, IsToldBreak};
ghost use Rattle.regblock.specs.Drives.{IsDriven, IsToldScript};
ghost use Rattle.regblock.specs.Generated.{IsSizedSource};

use bumpalo::Bump;
use c_header::macros_differ;
use rb_edge::{Shelf, Sink};
use rdl_verdict_laws::enumerations_are_apart;
use replies::{Status, answer_words};
use std::alloc::Global;

/// Does what the words ask for: the words after the program's name, files from the shelf, texts to the sinks.
///
/// All memory is taken before the first byte is written. The text for err is written before that for out.
pub fn run<S: Shelf, O: Sink, E: Sink>(
    alloc: Global,
    words: &[String],
    shelf: &mut S,
    out: &mut O,
    err: &mut E,
) -> Status
    // A module that was written is right, and a refusal names the first failure.
    ensures done { (waits : Option ℕ) (top : Option (List ℕ)) (file : List ℕ) → Asks (texts words.now) (compile waits top file) → result ≡ Status.Done
        → IsRight (S.contents shelf.old) (waits_of waits) top file (passage E.told E.faults err.old err.new) (passage O.told O.faults out.old out.new) }
    ensures refused { (waits : Option ℕ) (top : Option (List ℕ)) (file : List ℕ) → Asks (texts words.now) (compile waits top file) → result ≡ Status.Refused
        → IsToldFailure (S.contents shelf.old) top file (passage E.told E.faults err.old err.new) (passage O.told O.faults out.old out.new) }

    // So it is behind an AXI4-Lite slave port.
    ensures fronted { (top : Option (List ℕ)) (file : List ℕ) → Asks (texts words.now) (axi_of top file) → result ≡ Status.Done
        → IsFrontRight (S.contents shelf.old) top file (passage E.told E.faults err.old err.new) (passage O.told O.faults out.old out.new) }
    ensures not_fronted { (top : Option (List ℕ)) (file : List ℕ) → Asks (texts words.now) (axi_of top file) → result ≡ Status.Refused
        → IsToldForAxi (S.contents shelf.old) top file (passage E.told E.faults err.old err.new) (passage O.told O.faults out.old out.new) }

    // A table, a header or a page that was written is that of the block that the source describes, and no two macros of a header have one name;
    // verdicts that were written are those of all files.
    ensures mapped { (top : Option (List ℕ)) (file : List ℕ) → Asks (texts words.now) (map_of top file) → result ≡ Status.Done
        → IsTable (S.contents shelf.old) top file (passage E.told E.faults err.old err.new) (passage O.told O.faults out.old out.new) }
    ensures unmapped { (top : Option (List ℕ)) (file : List ℕ) → Asks (texts words.now) (map_of top file) → result ≡ Status.Refused
        → IsToldFailure (S.contents shelf.old) top file (passage E.told E.faults err.old err.new) (passage O.told O.faults out.old out.new) }
    ensures headered { (top : Option (List ℕ)) (file : List ℕ) → Asks (texts words.now) (header_of top file) → result ≡ Status.Done
        → IsHeader (S.contents shelf.old) top file (passage E.told E.faults err.old err.new) (passage O.told O.faults out.old out.new) }
    ensures not_headered { (top : Option (List ℕ)) (file : List ℕ) → Asks (texts words.now) (header_of top file) → result ≡ Status.Refused
        → IsToldFailure (S.contents shelf.old) top file (passage E.told E.faults err.old err.new) (passage O.told O.faults out.old out.new) }
    ensures documented { (top : Option (List ℕ)) (file : List ℕ) → Asks (texts words.now) (manual_of top file) → result ≡ Status.Done
        → IsManual (S.contents shelf.old) top file (passage E.told E.faults err.old err.new) (passage O.told O.faults out.old out.new) }
    ensures undocumented { (top : Option (List ℕ)) (file : List ℕ) → Asks (texts words.now) (manual_of top file) → result ≡ Status.Refused
        → IsToldFailure (S.contents shelf.old) top file (passage E.told E.faults err.old err.new) (passage O.told O.faults out.old out.new) }
    ensures checked { (top : Option (List ℕ)) (files : List (List ℕ)) → Asks (texts words.now) (check top files) → (result ≡ Status.Done) ⊎ (result ≡ Status.Refused)
        → AreToldVerdicts (S.contents shelf.old) top files (passage E.told E.faults err.old err.new) (passage O.told O.faults out.old out.new) }

    // A run that was written is that of the module that the first file is, from zeros, over the table that the second is.
    ensures simulated { (file table : List ℕ) → Asks (texts words.now) (sim file table) → result ≡ Status.Done
        → IsRun (S.contents shelf.old) file table (passage E.told E.faults err.old err.new) (passage O.told O.faults out.old out.new) }
    ensures bad_verilog { (file table : List ℕ) → Asks (texts words.now) (sim file table) → result ≡ Status.BadVerilog
        → IsToldVerilog (S.contents shelf.old) file (passage E.told E.faults err.old err.new) (passage O.told O.faults out.old out.new) }
    ensures bad_stimulus { (file table : List ℕ) → Asks (texts words.now) (sim file table) → result ≡ Status.BadStimulus
        → IsToldStimulus (S.contents shelf.old) file table (passage E.told E.faults err.old err.new) (passage O.told O.faults out.old out.new) }

    // A dump that was written is that of the run of the module that the first file is, over the table that the second is.
    ensures waved { (file table : List ℕ) → Asks (texts words.now) (vcd file table) → result ≡ Status.Done
        → IsDumped (S.contents shelf.old) file table (passage E.told E.faults err.old err.new) (passage O.told O.faults out.old out.new) }
    ensures waves_bad_verilog { (file table : List ℕ) → Asks (texts words.now) (vcd file table) → result ≡ Status.BadVerilog
        → IsToldVerilog (S.contents shelf.old) file (passage E.told E.faults err.old err.new) (passage O.told O.faults out.old out.new) }
    ensures waves_bad_stimulus { (file table : List ℕ) → Asks (texts words.now) (vcd file table) → result ≡ Status.BadStimulus
        → IsToldStimulus (S.contents shelf.old) file table (passage E.told E.faults err.old err.new) (passage O.told O.faults out.old out.new) }

    // A table that was written is that of the dump.
    ensures read_back { (file : List ℕ) → Asks (texts words.now) (pins_of file) → result ≡ Status.Done
        → IsPinTable (S.contents shelf.old) file (passage E.told E.faults err.old err.new) (passage O.told O.faults out.old out.new) }
    ensures bad_vcd { (file : List ℕ) → Asks (texts words.now) (pins_of file) → result ≡ Status.BadVcd
        → IsToldVcd (S.contents shelf.old) file (passage E.told E.faults err.old err.new) (passage O.told O.faults out.old out.new) }

    // A run that was written is that of the machine of the block that the source describes, which is what `sim` prints of its module.
    ensures ran { (waits : Option ℕ) (top : Option (List ℕ)) (file table : List ℕ) → Asks (texts words.now) (run_of waits top file table) → result ≡ Status.Done
        → IsMachineRun (S.contents shelf.old) (waits_of waits) top file table (passage E.told E.faults err.old err.new) (passage O.told O.faults out.old out.new) }
    ensures not_run { (waits : Option ℕ) (top : Option (List ℕ)) (file table : List ℕ) → Asks (texts words.now) (run_of waits top file table) → result ≡ Status.Refused
        → IsToldFailure (S.contents shelf.old) top file (passage E.told E.faults err.old err.new) (passage O.told O.faults out.old out.new) }
    ensures unfit { (waits : Option ℕ) (top : Option (List ℕ)) (file table : List ℕ) → Asks (texts words.now) (run_of waits top file table) → result ≡ Status.BadStimulus
        → IsToldUnfit (S.contents shelf.old) (waits_of waits) top file table (passage E.told E.faults err.old err.new) (passage O.told O.faults out.old out.new) }
    ensures protocol { (waits : Option ℕ) (top : Option (List ℕ)) (file table : List ℕ) → Asks (texts words.now) (run_of waits top file table) → result ≡ Status.Protocol
        → IsToldBreak (S.contents shelf.old) (waits_of waits) top file table (passage E.told E.faults err.old err.new) (passage O.told O.faults out.old out.new) }

    // A transcript that was written is what the script sees of the machine of the block that the source describes, and of its modules.
    ensures driven { (top : Option (List ℕ)) (file script : List ℕ) → Asks (texts words.now) (drive_of top file script) → result ≡ Status.Done
        → IsDriven (S.contents shelf.old) top file script 0 (passage E.told E.faults err.old err.new) (passage O.told O.faults out.old out.new) }
    ensures unmet { (top : Option (List ℕ)) (file script : List ℕ) → Asks (texts words.now) (drive_of top file script) → result ≡ Status.Unmet
        → (failed : ℕ) × (0 < failed) × IsDriven (S.contents shelf.old) top file script failed (passage E.told E.faults err.old err.new) (passage O.told O.faults out.old out.new) }
    ensures undriven { (top : Option (List ℕ)) (file script : List ℕ) → Asks (texts words.now) (drive_of top file script) → result ≡ Status.Refused
        → IsToldFailure (S.contents shelf.old) top file (passage E.told E.faults err.old err.new) (passage O.told O.faults out.old out.new) }
    ensures bad_script { (top : Option (List ℕ)) (file script : List ℕ) → Asks (texts words.now) (drive_of top file script) → result ≡ Status.BadScript
        → IsToldScript (S.contents shelf.old) top file script (passage E.told E.faults err.old err.new) (passage O.told O.faults out.old out.new) }

    // A source that was made has its size and breaks no rule, and its summary has the length of a module of it.
    ensures generated { (count : ℕ) → Asks (texts words.now) (gen_of count) → result ≡ Status.Done
        → IsSizedSource count (passage E.told E.faults err.old err.new) (passage O.told O.faults out.old out.new) }

    // What is written and how it ends belong to the words and the files.
    ensures ends { Ends (Outcome (texts words.now) (S.contents shelf.old) (FailedRead S.faults shelf.old shelf.new))
        (passage E.told E.faults err.old err.new) (passage O.told O.faults out.old out.new) result }

    // Each of these ends has its cause.
    ensures usage { result ≡ Status.Usage → AsksNothing (texts words.now) }
    ensures read_fault { result ≡ Status.ReadFault → (command : Command) × Asks (texts words.now) command
        × StopsAt (S.contents shelf.old) (λ file _. FailedRead S.faults shelf.old shelf.new file) (files_of command) }
    ensures too_long { result ≡ Status.TooLong → (command : Command) × Asks (texts words.now) command
        × StopsAt (S.contents shelf.old) (λ file limit. IsLonger (S.contents shelf.old) file limit) (files_of command) }
    ensures write_fault { result ≡ Status.WriteFault → Rose (E.faults err.old) (E.faults err.new) ⊎ Rose (O.faults out.old) (O.faults out.new) }

    // Where it can be done it is, unless memory runs out.
    ensures complete { IsComplete (texts words.now) (S.contents shelf.old) (FailedRead S.faults shelf.old shelf.new)
        (passage E.told E.faults err.old err.new) (passage O.told O.faults out.old out.new) result }

    // Words that ask for nothing read no file. In any case the files stay as they were, and no count of faults falls.
    ensures idle { AsksNothing (texts words.now) → shelf.new ≡ shelf.old }
    ensures unchanged { S.contents shelf.new ≡ S.contents shelf.old }
    ensures later { (any : List ℕ) → S.faults shelf.old any ≤ S.faults shelf.new any }

    // Without memory nothing is written.
    ensures no_memory { result ≡ Status.NoMemory → (out.new ≡ out.old) × (err.new ≡ err.old) }
{
    macros_differ();
    enumerations_are_apart();
    let arena = Bump::new(alloc);
    match answer_words(alloc, &arena, words, shelf) {
        Ok(reply) => reply.write(out, err),
        Err(_) => Status::NoMemory,
    }
}
