//! Lines as orders.

ghost use Rattle.std.specs.Prelude.{◌≡◌, ◌≢◌, ◌≤◌, ℕ, List, [], Ok, Some, IfOk};
ghost use Rattle.rb_model.specs.declared.block.Block.{Block};
ghost use Rattle.drive_lang.specs.Words.{AreWords};
ghost use Rattle.stim_csv.specs.Numeral.{cell_of, cell_value, numeral_value};
ghost use Rattle.drive_names.specs.Names.{AreNamesOf};
ghost use Rattle.drive_names.specs.Table.{meaning_in};
ghost use Rattle.drive_lang.specs.Steps.{vectors_of};
ghost use Rattle.drive_lang.specs.Orders as orders;
ghost use Rattle.drive_lang.specs.Answers.{Answers, counted_within, fitted};

use crate::error::DriveError;
use crate::order::Order;
use crate::position::vectors_of as count_vectors;
use crate::verb::{Verb, verb_of};
use crate::words::Words;
use drive_names::{Meaning, Names, Table};
use rb_base::{NoMemory, Text};
use std::alloc::Global;
use stim_csv::{Cell, cell, is_within};

/// A value that fits what a name means.
#[derive(Clone, Copy)]
struct Fitted {
    at: u32,
    value: u128,
}

/// Keeps the name that a line spells.
fn kept(alloc: Global, name: &[u8]) -> Result<Text, NoMemory>
    ensures { IfOk result (λ text. text ≡ name.now) }
{
    let bytes = Vec::from_slice(alloc, name)?;
    Ok(Text { bytes })
}

/// A value with what a name means, where it fits.
fn fit(table: &Table, name: &[u8], value: Cell, line: u32) -> Result<Fitted, DriveError>
    ensures { (v : ℕ) → value ≡ cell_of (Some v) → result ≡ fitted line v (meaning_in table.now name.now) }
{
    let Some(meaning) = table.find(name) else {
        return Err(DriveError::Unknown { line });
    };
    match value {
        Cell::Number(value) if is_within(value, meaning.width) => Ok(Fitted {
            at: meaning.at,
            value,
        }),
        _ => Err(DriveError::TooWide { line }),
    }
}

/// The number of vectors that digits write, where there is room for so many.
fn count(digits: &[u8], line: u32, room: u32) -> Result<u32, DriveError>
    ensures count { result ≡ counted_within line room (numeral_value 10 digits.now) }
    ensures room { IfOk result (λ n. n ≤ room) }
{
    if digits.starts_with(b"0x") {
        return Err(DriveError::Form { line });
    }
    match cell(digits) {
        Cell::Bad => Err(DriveError::Form { line }),
        Cell::Number(count) if count <= u128::from(room) => Ok(count as u32),
        _ => Err(DriveError::Many { line }),
    }
}

/// The order, where there is room for its vectors.
fn within(order: Order, line: u32, room: u32) -> Result<Order, DriveError>
    ensures order { result ≡ orders.within line room (Ok order) }
    ensures room { IfOk result (λ o. vectors_of o ≤ room) }
{
    if room < count_vectors(&order) {
        return Err(DriveError::Many { line });
    }
    Ok(order)
}

/// The order of a verb with one word behind it.
fn with_one(
    alloc: Global,
    names: &Names,
    line: u32,
    room: u32,
    verb: Option<Verb>,
    word: &[u8],
) -> Result<Order, DriveError>
    ensures answers { (b : Block) → AreNamesOf b names.now → Answers (orders.within line room (orders.with_one b line word.now verb)) result }
    ensures room { IfOk result (λ o. vectors_of o ≤ room) }
{
    match verb {
        Some(Verb::Peek) => {
            let Some(meaning) = names.words.find(word) else {
                return Err(DriveError::Unknown { line });
            };
            let order = Order::Peek {
                address: meaning.at,
                name: kept(alloc, word)?,
            };
            within(order, line, room)
        }
        Some(Verb::Wait) => {
            let count = count(word, line, room)?;
            Ok(Order::Wait { count })
        }
        Some(Verb::Reset) => {
            let count = count(word, line, room)?;
            Ok(Order::Reset { count })
        }
        _ => Err(DriveError::Form { line }),
    }
}

/// The order of a verb with a name and a value.
fn with_value(
    alloc: Global,
    names: &Names,
    line: u32,
    verb: Option<Verb>,
    name: &[u8],
    value: Cell,
) -> Result<Order, DriveError>
    ensures { (b : Block) (v : ℕ) → AreNamesOf b names.now → value ≡ cell_of (Some v) → Answers (orders.with_value b line name.now v verb) result }
{
    match verb {
        Some(Verb::Poke) => {
            let word = fit(&names.words, name, value, line)?;
            Ok(Order::Poke {
                address: word.at,
                value: word.value,
            })
        }
        Some(Verb::Expect) => {
            let word = fit(&names.words, name, value, line)?;
            Ok(Order::Expect {
                address: word.at,
                value: word.value,
                name: kept(alloc, name)?,
            })
        }
        Some(Verb::Set) => {
            let pin = fit(&names.inputs, name, value, line)?;
            Ok(Order::Set {
                place: pin.at,
                value: pin.value,
            })
        }
        Some(Verb::See) => {
            let pin = fit(&names.outputs, name, value, line)?;
            Ok(Order::See {
                output: pin.at,
                value: pin.value,
                name: kept(alloc, name)?,
            })
        }
        _ => Err(DriveError::Form { line }),
    }
}

/// The order of a verb with two words behind it.
fn with_two(
    alloc: Global,
    names: &Names,
    line: u32,
    room: u32,
    verb: Option<Verb>,
    name: &[u8],
    value: &[u8],
) -> Result<Order, DriveError>
    ensures answers { (b : Block) → AreNamesOf b names.now → Answers (orders.within line room (orders.with_two b line name.now (cell_value value.now) verb)) result }
    ensures room { IfOk result (λ o. vectors_of o ≤ room) }
{
    let value = cell(value);
    if value == Cell::Bad {
        return Err(DriveError::Form { line });
    }
    let order = with_value(alloc, names, line, verb, name, value)?;
    within(order, line, room)
}

/// What a line of a script asks for by its words, of which there are some, or why it is none: of several reasons the first of a word's
/// form, a name, a value and the room for vectors. `room` is how many vectors there may be with this line. The only other error
/// is want of memory.
pub(crate) fn order_of(
    alloc: Global,
    names: &Names,
    line: u32,
    room: u32,
    words: Words,
) -> Result<Order, DriveError>
    ensures answers { (b : Block) (all : List (List ℕ)) → AreNamesOf b names.now → AreWords words.entry all → all ≢ [] → Answers (orders.order_of b line room all) result }
    ensures room { IfOk result (λ o. vectors_of o ≤ room) }
{
    match words {
        Words::Two(verb, word) => with_one(alloc, names, line, room, verb_of(verb), word),
        Words::Three(verb, name, value) => {
            with_two(alloc, names, line, room, verb_of(verb), name, value)
        }
        Words::Nothing | Words::Other => Err(DriveError::Form { line }),
    }
}
