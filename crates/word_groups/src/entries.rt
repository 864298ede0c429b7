//! Words, as software sees them.

ghost use Rattle.std.specs.Prelude.{◌≡◌, ◌++◌, ◌∷◌, [], IfOk, OnOk, map, option_copied, slice_get};
ghost use Rattle.std.specs.Option.{ForSome};
ghost use Rattle.rb_model.specs.Sound.{IsSound};
ghost use Rattle.word_groups.specs.Parts.{SlotsFit};
ghost use Rattle.word_groups.specs.Entries as entries;

use crate::numbers::{Numbers, copy_of_numbers};
use crate::parts::{Parts, copy_of_parts, parts_of};
use crate::paths::indices;
use rb_base::{NoMemory, Text, copy_of};
use rb_model::{Block, Word};
use std::alloc::Global;

/// A word, or the like words of all elements of an array, of which this one is the first.
#[derive(Drop)]
pub struct Entry {
    /// The number of its register in [`Block::regs`](rb_model::Block::regs).
    pub reg: u32,
    /// Its register's path.
    pub path: Text,
    /// The indices in that path.
    pub indices: Numbers,
    /// Its place among the words of its register.
    pub number: u8,
    /// In bytes.
    pub address: u32,
    /// Its width.
    pub bytes: u8,
    /// The fields' bits in it.
    pub parts: Parts,
    /// Of an array how many elements there are along each index, and else nothing.
    pub lengths: Numbers,
    /// Of an array how many bytes they are apart along each index, and else nothing.
    pub strides: Numbers,
}

fn path_of(alloc: Global, block: &Block, word: &Word) -> Result<Text, NoMemory>
    ensures { IfOk result (λ r. r ≡ entries.path_of block.now word.now) }
{
    match block.regs.items.get(word.reg as usize) {
        Some(register) => copy_of(alloc, &register.path),
        None => Ok(Text {
            bytes: Vec::new(alloc),
        }),
    }
}

fn no_numbers(alloc: Global) -> Numbers
    ensures { result ≡ [] }
{
    Numbers {
        items: Vec::new(alloc),
    }
}

fn single(alloc: Global, block: &Block, word: &Word) -> Result<Entry, NoMemory>
    requires { SlotsFit block.now word.now.slots }
    ensures { IfOk result (λ r. r ≡ entries.single block.now word.now) }
{
    let path = path_of(alloc, block, word)?;
    let indices = indices(alloc, &path.bytes)?;
    Ok(Entry {
        reg: word.reg,
        path,
        indices,
        number: word.number,
        address: word.address,
        bytes: word.width / 8,
        parts: parts_of(alloc, block, word)?,
        lengths: no_numbers(alloc),
        strides: no_numbers(alloc),
    })
}

fn push_word(
    alloc: Global,
    into: &mut Vec<Entry>,
    block: &Block,
    word: &Word,
) -> Result<(), NoMemory>
    requires { SlotsFit block.now word.now.slots }
    ensures { OnOk result (into.new.items ≡ into.old.items ++ entries.single block.now word.now ∷ []) }
{
    into.push(single(alloc, block, word)?)?;
    Ok(())
}

// Adds the word that a write reaches, where it isn't that of the read at its address.
fn push_other(
    alloc: Global,
    into: &mut Vec<Entry>,
    block: &Block,
    read: &Word,
    write: Option<&Word>,
) -> Result<(), NoMemory>
    requires { ForSome (option_copied write) (λ w. SlotsFit block.now w.slots) }
    ensures { OnOk result (into.new.items ≡ into.old.items ++ map (entries.single block.now) (entries.other_word read.now (option_copied write.entry))) }
{
    match write {
        Some(write) if write.reg != read.reg => push_word(alloc, into, block, write),
        _ => Ok(()),
    }
}

fn word_at(words: &[Word], at: usize) -> Option<&Word>
    ensures { option_copied result ≡ slice_get words.now at }
{
    words.get(at)
}

/// The words that the address table lists, in its order. The only error is want of memory.
pub(crate) fn singles(alloc: Global, block: &Block) -> Result<Vec<Entry>, NoMemory>
    requires { IsSound block.now }
    ensures { IfOk result (λ r. r.items ≡ entries.singles block.now) }
{
    let mut words = Vec::new(alloc);
    for (at, read) in block.reads.items.iter().enumerate() {
        push_word(alloc, &mut words, block, read)?;
        push_other(
            alloc,
            &mut words,
            block,
            read,
            word_at(&block.writes.items, at),
        )?;
    }
    Ok(words)
}

/// An entry of its own, the same as this. The only error is want of memory.
pub fn copy_of_entry(alloc: Global, entry: &Entry) -> Result<Entry, NoMemory>
    ensures { IfOk result (λ r. r ≡ entry.now) }
{
    Ok(Entry {
        reg: entry.reg,
        path: copy_of(alloc, &entry.path)?,
        indices: copy_of_numbers(alloc, &entry.indices)?,
        number: entry.number,
        address: entry.address,
        bytes: entry.bytes,
        parts: copy_of_parts(alloc, &entry.parts)?,
        lengths: copy_of_numbers(alloc, &entry.lengths)?,
        strides: copy_of_numbers(alloc, &entry.strides)?,
    })
}
