//! The lines of a script.

ghost use Rattle.std.specs.Prelude.{◌≡◌, ◌≢◌, ◌+◌, ◌^◌, ◌-◌, ◌<◌, ◌∷◌, ℕ, List, Ok, Err, IfOk, IfErr, OnOk, length};
ghost use Rattle.std.specs.List.{AllByRecursion};
ghost use Rattle.rb_model.specs.declared.block.Block.{Block};
ghost use Rattle.rb_model.specs.Ports.{input_pins};
ghost use Rattle.drive_lang.specs.Lines.{lines_of as texts_of};
ghost use Rattle.machine_run.specs.Runs.{output_pins};
ghost use Rattle.drive_names.specs.Names.{AreNamesOf};
ghost use Rattle.drive_lang.specs.Scripts.{behind, lines_from, most_vectors};

use crate::error::DriveError;
use crate::judge::order_of;
use crate::lines::first_line;
use crate::order::Line;
use crate::position::vectors_of;
use crate::words::{Words, words_in};
use drive_names::{Names, named_words, names_of};
use machine_run::Pins;
use rb_model::Block;
use std::alloc::Global;

/// The most vectors that a script may have.
const MOST_VECTORS: u32 = 1_000_000;

/// Adds the line of a number, where it asks for something, and takes its vectors from the room for them.
fn add_line(
    alloc: Global,
    names: &Names,
    lines: &mut Vec<Line>,
    number: u32,
    room: &mut u32,
    text: &[u8],
) -> Result<(), DriveError>
    ensures ok { (b : Block) (texts : List (List ℕ)) → AreNamesOf b names.now → OnOk result (behind lines.old.items (lines_from b number room.old (text.now ∷ texts)) ≡ behind lines.new.items (lines_from b (number + 1) room.new texts)) }
    ensures err { (b : Block) (texts : List (List ℕ)) → AreNamesOf b names.now → IfErr result (λ e. e ≢ DriveError.NoMemory → lines_from b number room.old (text.now ∷ texts) ≡ Err e) }
{
    let words = words_in(text);
    if let Words::Nothing = words {
        return Ok(());
    }
    let order = order_of(alloc, names, number, *room, words)?;
    *room -= vectors_of(&order);
    lines.push(Line { number, order })?;
    Ok(())
}

/// The lines of a script that ask for something, by the names of a block, or its first error.
pub(crate) fn lines_of(alloc: Global, names: &Names, bytes: &[u8]) -> Result<Vec<Line>, DriveError>
    requires { length bytes.now < 2 ^ 32 - 1 }
    ensures ok { (b : Block) → AreNamesOf b names.now → IfOk result (λ ls. lines_from b 1 most_vectors (texts_of bytes.now) ≡ Ok ls.items) }
    ensures err { (b : Block) → AreNamesOf b names.now → IfErr result (λ e. e ≢ DriveError.NoMemory → lines_from b 1 most_vectors (texts_of bytes.now) ≡ Err e) }
{
    let mut lines = Vec::new(alloc);
    let mut room = MOST_VECTORS;
    let mut number = 0;
    let mut rest = Some(bytes);
    while let Some(text) = rest {
        let (line, behind) = first_line(text);
        number += 1;
        add_line(alloc, names, &mut lines, number, &mut room, line)?;
        rest = behind;
    }
    Ok(lines)
}

/// The lines of a script for a block, whose pins these are, or its first error.
pub(crate) fn lines_for(
    alloc: Global,
    bytes: &[u8],
    block: &Block,
    pins: &Pins,
) -> Result<Vec<Line>, DriveError>
    requires short { length bytes.now < 2 ^ 32 - 1 }
    requires inputs { pins.now.inputs.items ≡ input_pins block.now }
    requires outputs { pins.now.outputs.items ≡ output_pins block.now }
    ensures ok { IfOk result (λ ls. lines_from block.now 1 most_vectors (texts_of bytes.now) ≡ Ok ls.items) }
    ensures err { IfErr result (λ e. e ≢ DriveError.NoMemory → lines_from block.now 1 most_vectors (texts_of bytes.now) ≡ Err e) }
    ensures addresses { OnOk result (AllByRecursion (λ w. w.address < 2 ^ 32) block.now.reads) }
{
    let words = named_words(alloc, block)?;
    let names = names_of(alloc, &words, pins)?;
    lines_of(alloc, &names, bytes)
}
