//! The names of words.

ghost use Rattle.std.specs.Prelude.{◌≡◌, ◌<◌, ◌^◌, ◌++◌, ◌∷◌, [], IfOk, OnOk, codes, option_copied, slice_get};
ghost use Rattle.std.specs.Fmt.{decimal};
ghost use Rattle.std.specs.List.{AllByRecursion};
ghost use Rattle.report_text.specs.Lines.{path_at};
ghost use Rattle.drive_names.specs.Named as named;
ghost use Rattle.drive_names.specs.Named.{names_of, other_names};

use crate::table::Meaning;
use itoa::Buffer;
use rb_base::{NoMemory, Text};
use rb_model::{Block, Word};
use report_text::push_register;
use std::alloc::Global;

/// A name, and what it means.
#[derive(Drop)]
pub struct Named {
    /// As a line of a script may spell it.
    pub name: Text,
    /// The word's byte address and width.
    pub meaning: Meaning,
}

// The path of the word's register.
fn path_of(alloc: Global, block: &Block, word: &Word) -> Result<Vec<u8>, NoMemory>
    ensures { IfOk result (λ path. path.items ≡ path_at block.now word.now.reg) }
{
    let mut path = Vec::new(alloc);
    push_register(&mut path, block, word.reg)?;
    Ok(path)
}

// The path with the word's number.
fn numbered(alloc: Global, block: &Block, word: &Word) -> Result<Vec<u8>, NoMemory>
    ensures { IfOk result (λ name. name.items ≡ path_at block.now word.now.reg ++ codes ":" ++ decimal word.now.number) }
{
    let mut name = path_of(alloc, block, word)?;
    let mut buffer = Buffer::new();
    name.push(b':')?;
    name.extend_from_slice(buffer.format(word.number).as_bytes())?;
    Ok(name)
}

fn address_of(word: &Word) -> u32
    ensures { result ≡ word.now.address }
{
    word.address
}

fn push_name(into: &mut Vec<Named>, word: &Word, name: Vec<u8>) -> Result<(), NoMemory>
    ensures name { OnOk result (into.new.items ≡ into.old.items ++ named.under word.now name.items ∷ []) }
    ensures address { word.now.address < 2 ^ 32 }
{
    into.push(Named {
        name: Text { bytes: name },
        meaning: Meaning {
            at: address_of(word),
            width: word.width,
        },
    })?;
    Ok(())
}

// Adds a word under its names.
fn push_names(
    alloc: Global,
    into: &mut Vec<Named>,
    block: &Block,
    word: &Word,
) -> Result<(), NoMemory>
    ensures names { OnOk result (into.new.items ≡ into.old.items ++ names_of block.now word.now) }
    ensures address { OnOk result (word.now.address < 2 ^ 32) }
{
    let name = numbered(alloc, block, word)?;
    push_name(into, word, name)?;
    if word.number == 0 {
        let name = path_of(alloc, block, word)?;
        push_name(into, word, name)?;
    }
    Ok(())
}

// Adds the word that a write reaches, where it isn't that of the read at its address.
fn push_other(
    alloc: Global,
    into: &mut Vec<Named>,
    block: &Block,
    read: &Word,
    write: Option<&Word>,
) -> Result<(), NoMemory>
    ensures { OnOk result (into.new.items ≡ into.old.items ++ other_names block.now read.now (option_copied write.entry)) }
{
    match write {
        Some(write) if write.reg != read.reg => push_names(alloc, into, block, write),
        _ => Ok(()),
    }
}

fn word_at(words: &[Word], at: usize) -> Option<&Word>
    ensures { option_copied result ≡ slice_get words.now at }
{
    words.get(at)
}

/// The words that `map` lists, in its order, each under its names. The only error is want of memory.
pub fn named_words(alloc: Global, block: &Block) -> Result<Vec<Named>, NoMemory>
    ensures words { IfOk result (λ r. r.items ≡ named.named_words block.now) }
    ensures addresses { OnOk result (AllByRecursion (λ w. w.address < 2 ^ 32) block.now.reads) }
{
    let mut words = Vec::new(alloc);
    for (at, read) in block.reads.items.iter().enumerate() {
        push_names(alloc, &mut words, block, read)?;
        push_other(
            alloc,
            &mut words,
            block,
            read,
            word_at(&block.writes.items, at),
        )?;
    }
    Ok(words)
}
