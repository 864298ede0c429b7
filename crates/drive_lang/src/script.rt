//! A script of a block.

use crate::advancing::advance;
use crate::error::DriveError;
use crate::names::name_at;
use crate::order::{Line, Turn};
use crate::position::Position;
use crate::reading::lines_for;
use machine_run::pins_of;
use rb_model::Block;
use std::alloc::Global;
use std::marker::Model;

/// A script of a block, a vector at a time. Contracts see all its steps, and those that are left.
#[derive(Drop)]
pub struct Script {
    lines: Vec<Line>,
    held: Vec<u128>,
    at: Position,
}

impl Model for Script {
    ghost use Rattle.std.specs.Prelude.{◌≡◌, ◌≤◌, true, length};
    ghost use Rattle.drive_lang.specs.Left.{are_held, vectors_at};
    ghost use Rattle.drive_lang.specs.Playing.{Playing, playing};
    ghost use Rattle.drive_lang.specs.Rising.{Rises};

    ghost Value = { Playing };

    ghost view = { λ s. playing s.lines.items s.at s.held.items };

    ghost invariant = { λ s. (s.at.over ≤ vectors_at s.lines.items s.at.line) × (are_held s.lines.items (length s.held.items) ≡ true)
        × Rises s.lines.items };
}

impl Script {
    ghost use Rattle.std.specs.Prelude.{◌≢◌, ◌≤◌, ◌-◌, ◌^◌, ◌<◌, Ok, Err, IfErr, IfOk, map};
    ghost use Rattle.v_design.specs.Fits.{AllFit};
    ghost use Rattle.rb_model.specs.Ports.{input_pins};
    ghost use Rattle.rb_model.specs.Sound.{IsSound};
    ghost use Rattle.drive_lang.specs.Scripts.{script_of};
    ghost use Rattle.std.specs.Prelude.{◌≡◌, ℕ, List, length};
    ghost use Rattle.drive_lang.specs.Playing.{GoesOn, IsSpelled};

    /// The script that bytes are for a sound block, at its begin, or its first error: the first line that has one, and of that line's
    /// errors the first of its form, its name, its value and the number of vectors. Want of memory may be answered in place of
    /// anything. It takes time and memory in proportion to the bytes and the block, however many vectors a line asks for.
    pub fn read(alloc: Global, bytes: &[u8], block: &Block) -> Result<Script, DriveError>
        requires sound { IsSound block.now }
        requires short { length bytes.now < 2 ^ 32 - 1 }
        ensures steps { IfOk result (λ s. script_of block.now bytes.now ≡ Ok s.all) }
        ensures begun { IfOk result (λ s. s.left ≡ s.all) }
        ensures pins { IfOk result (λ s. s.pins ≡ length (input_pins block.now)) }
        ensures fits { IfOk result (λ s. AllFit (input_pins block.now) (map (λ t. t.vector) s.all)) }
        ensures few { IfOk result (λ s. length s.all ≤ 1000000) }
        ensures error { IfErr result (λ e. e ≢ DriveError.NoMemory → script_of block.now bytes.now ≡ Err e) }
    {
        let pins = pins_of(alloc, block)?;
        let lines = lines_for(alloc, bytes, block, &pins)?;
        let held = vec![in alloc; 0u128; pins.inputs.len() - 6]?;
        Ok(Script {
            lines,
            held,
            at: Position { line: 0, over: 0 },
        })
    }

    /// Fills the next vector, and answers what is asked at it; `End` behind the last vector, with the pins as they were. The pins
    /// are the block's inputs without PCLK, in port order. It takes no memory.
    pub fn next(&mut self, pins: &mut [u128]) -> Turn
        requires { length pins.old ≡ self.old.pins }
        ensures { GoesOn self.old self.new result pins.old pins.new }
    {
        advance(&self.lines, &mut self.at, &mut self.held, pins)
    }

    /// The name that a line which asks for an output spells: of a register, with its word's number or without, or of a pin. It takes no
    /// memory, and few looks at the script's lines.
    pub fn name(&self, line: u32) -> &[u8]
        ensures { (name : List ℕ) → IsSpelled self.now.all line name → result.now ≡ name }
    {
        name_at(&self.lines, line)
    }
}
